// What a run tells people besides.
ghost use Rattle.std.specs.Prelude.{◌≡◌, ◌≤◌};
ghost use Rattle.ports.specs.Notes.{with_run};

/// How many feeds of a stream a command reads at most.
pub const MOST_FEEDS: usize = 8;

/// Of frames that an input had whole.
pub const HAD_WHOLE: &str = "it had whole";

/// Of those of them that no other input had whole.
pub const ALONE_HAD_WHOLE: &str = "no other IN had whole";

/// Of frames that no input had whole.
pub const NONE_HAD_WHOLE: &str = "none had whole";

/// Of frames of which a packet is missing.
pub const LACK_PACKET: &str = "lack a packet, or have one too many";

/// Of frames that are left out of what is sent.
pub const NOT_SENT: &str = "were not sent";

/// Of frames whose timestamp is not that of their number.
pub const OTHER_MOMENT: &str = "have a timestamp of another moment or bandwidth";

/// How many of something a run met so far, and the numbers of the first and the last of them.
#[derive(Clone, Copy, Debug, PartialEq, Eq)]
pub struct Note {
    /// The place of the input that it is of, counted from 0; 0 if it is of no single one, as what was met says.
    pub input: usize,
    /// What was met, in words.
    pub what: &'static str,
    /// How many, at most 2^64 - 1.
    pub count: u64,
    /// The number of the first of them; 0 if there is none.
    pub first: u64,
    /// The number of the last of them; 0 if there is none.
    pub last: u64,
}

impl Note {
    /// None was met.
    pub fn none(what: &'static str) -> Note
        ensures { result ≡ record { input = 0; what = what.entry; count = 0; first = 0; last = 0 } }
    {
        Note {
            input: 0,
            what,
            count: 0,
            first: 0,
            last: 0,
        }
    }

    /// The same of the input at a place.
    pub fn of(self, input: usize) -> Note
        ensures { result ≡ record self { input = input } }
    {
        Note { input, ..self }
    }

    /// One more was met, behind all before.
    pub fn add(&mut self, number: u64)
        ensures { self.new ≡ with_run self.old number number }
    {
        self.add_run(number, number);
    }

    /// Those of two numbers and all between were met, behind all before.
    pub fn add_run(&mut self, first: u64, last: u64)
        requires { first ≤ last }
        ensures { self.new ≡ with_run self.old first last }
    {
        if self.count == 0 {
            self.first = first;
        }
        self.last = last;
        self.count = self.count.saturating_add(last - first).saturating_add(1);
    }
}
