// Records that are counted by their heads.
ghost use Rattle.std.specs.Prelude.{◌≡◌, ◌<◌, ◌≤◌, length, min};
ghost use Rattle.site_frame.specs.declared.head.TheConstants.{HEAD};

use crate::head_part::HeadPart;
use crate::told::told;

/// Counts the records of a file by their heads, as its bytes come, and keeps none.
#[derive(Drop)]
pub struct RecordCount {
    // What came of the next head.
    head: HeadPart,
    // How many bytes are lacking of the record under way.
    left: usize,
    // How many heads came.
    count: u64,
    ghost part: { length head < HEAD },
}

impl RecordCount {
    ghost use Rattle.std.specs.Prelude.{[], take};
    ghost use Rattle.site_frame.specs.RecordCount.{RecordCountStandsFor, CountsOn, heads_of};

    /// Nothing came.
    pub fn new() -> RecordCount
        ensures { RecordCountStandsFor result [] }
    {
        RecordCount {
            head: HeadPart::new(),
            left: 0,
            count: 0,
        }
    }

    /// How many heads came, up to 2^64 - 1.
    pub fn count(&self) -> u64
        ensures { result ≡ heads_of self.now }
    {
        self.count
    }

    // Takes bytes of the record under way: how many.
    fn pass(&mut self, bytes: &[u8]) -> usize
        requires some { 0 < length bytes.now }
        requires under_way { 0 < self.old.left }
        ensures count { (0 < result) × (result ≤ length bytes.now) }
        ensures counts { CountsOn self.old self.new (take result bytes.now) }
    {
        let count = self.left.min(bytes.len());
        self.left -= count;
        count
    }

    // Takes bytes of the next head, and counts it if it is whole: how many.
    fn step(&mut self, bytes: &[u8]) -> usize
        requires some { 0 < length bytes.now }
        requires between { self.old.left ≡ 0 }
        ensures count { (0 < result) × (result ≤ length bytes.now) }
        ensures counts { CountsOn self.old self.new (take result bytes.now) }
    {
        let count = self.head.take(bytes);
        if self.head.lacks() == 0 {
            self.left = told(&self.head.whole());
            self.head.clear();
            self.count = self.count.saturating_add(1);
        }
        count
    }

    /// Takes bytes, any number.
    pub fn take(&mut self, bytes: &[u8])
        ensures { CountsOn self.old self.new bytes.now }
    {
        let mut at = 0;
        while at < bytes.len() {
            let rest = &bytes[at..];
            at += if self.left > 0 {
                self.pass(rest)
            } else {
                self.step(rest)
            };
        }
    }
}
