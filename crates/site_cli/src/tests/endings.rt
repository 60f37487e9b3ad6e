// The status with which each command ends, and the first line that tells people why.
use super::{CONFIG, Outside, words_from};
use crate::exit_code;
use bit_slice::OutOfMemory;
use site_console::{advise, carry_out};
use site_frame::RecordWhy;
use site_top::Outcome;
use std::fs::{self, Files};
use std::io;
use std::process::ExitCode;
use std::test::Fail;
use ts_packet::SIZE;

// The same, whose PLP has more than its blocks can carry.
const FULL: &str = "t2-gateway 1
bandwidth 8
frame 100000 2 40000
start 700000000 0 5
pid 256
network 1 2 3 474000000
l1 0 6 1 0 1 0 0 1000 6 0 59 0
subslices 1
plp 0 type1 1 1/2 qpsk short 0 4 1 delete 3000000
";

// The same, whose interleaving frames are carried by two frames each.
const SPREAD: &str = "t2-gateway 2
bandwidth 8
frame 100000 2 40000
start 700000000 0 5
pid 256
network 1 2 3 474000000
l1 0 6 1 0 1 0 0 1000 6 0 59 0
subslices 1
plp 0 type1 1 1/2 qpsk short 0 8 1 delete 2000000 2
";

// Makes the files that the words of `ENDINGS` name: configurations, a packet, what is none, and nothing.
fn make_files(rt: &(impl Files + AllocGlobal)) -> io::Result<()> {
    let mut packet = [0; SIZE];
    fs::write(rt, "cli.zeros", &packet)?;
    packet[0] = 0x47;
    fs::write(rt, "cli.ts", &packet)?;
    fs::write(rt, "cli.none", b"")?;
    fs::write(rt, "cli.txt", CONFIG.as_bytes())?;
    fs::write(rt, "cli.full", FULL.as_bytes())?;
    fs::write(rt, "cli.spread", SPREAD.as_bytes())
}

fn remove_files(rt: &impl Files) -> io::Result<()> {
    for name in [
        "cli.zeros",
        "cli.ts",
        "cli.none",
        "cli.txt",
        "cli.full",
        "cli.spread",
        "cli.out",
    ] {
        fs::remove_file(rt, name)?;
    }
    Ok(())
}

// Words, whether standard output takes what is said, and the status with which the program ends.
struct Ending {
    words: &'static [&'static str],
    takes: bool,
    status: u8,
}

#[rattlefmt::skip]
static ENDINGS: [Ending; 43] = [
    Ending { words: &["--version"], takes: true, status: 0 },
    Ending { words: &["show", "frames", "--help"], takes: true, status: 0 },
    Ending { words: &["--help", "bogus"], takes: true, status: 2 },
    Ending { words: &["gateway", "cli.txt", "cli.out", "cli.ts"], takes: true, status: 0 },
    Ending { words: &["plan", "cli.txt"], takes: true, status: 0 },
    Ending { words: &["show", "packets", "cli.none"], takes: true, status: 0 },
    Ending { words: &["show", "t2mi", "cli.ts"], takes: true, status: 0 },
    Ending { words: &[], takes: true, status: 2 },
    Ending { words: &["plan"], takes: true, status: 2 },
    Ending { words: &["gateway", "cli.txt", "cli.ts", "cli.ts"], takes: true, status: 2 },
    Ending { words: &["gateway", "cli.txt", "cli.out", "cli.ts", "cli.ts"], takes: true, status: 2 },
    Ending { words: &["merge", "cli.txt", "cli.ts", "cli.none", "cli.ts"], takes: true, status: 2 },
    Ending { words: &["mend", "cli.txt", "cli.none"], takes: true, status: 2 },
    Ending { words: &["mend", "cli.txt", "cli.none", "cli.ts", "cli.none"], takes: true, status: 2 },
    Ending { words: &["swap", "cli.txt", "0", "cli.ts", "cli.none", "cli.none"], takes: true, status: 2 },
    Ending { words: &["plan", "cli.zeros"], takes: true, status: 3 },
    Ending { words: &["plan", "cli.full"], takes: true, status: 4 },
    Ending { words: &["gateway", "cli.txt", "cli.out", "cli.zeros"], takes: true, status: 5 },
    Ending { words: &["modulate", "cli.txt", "cli.ts", "cli.out"], takes: true, status: 6 },
    Ending { words: &["merge", "cli.txt", "cli.ts", "cli.none", "cli.out"], takes: true, status: 6 },
    Ending { words: &["mend", "cli.txt", "cli.out", "cli.ts", "cli.none"], takes: true, status: 6 },
    Ending { words: &["swap", "cli.txt", "0", "cli.none", "cli.zeros", "cli.out"], takes: true, status: 6 },
    Ending { words: &["compare", "cli.txt", "cli.ts", "cli.none"], takes: true, status: 6 },
    Ending { words: &["receive", "cli.txt", "0", "cli.ts", "cli.out"], takes: true, status: 7 },
    Ending { words: &["show", "frames", "cli.ts"], takes: true, status: 7 },
    Ending { words: &["receive", "cli.txt", "9", "cli.ts", "cli.out"], takes: true, status: 8 },
    Ending { words: &["swap", "cli.txt", "9", "cli.ts", "cli.none", "cli.out"], takes: true, status: 8 },
    Ending { words: &["common", "receive", "cli.txt", "9", "cli.ts", "cli.out"], takes: true, status: 8 },
    Ending { words: &["show", "packets", "cli.ts"], takes: true, status: 10 },
    Ending { words: &["plan", "cli.spread"], takes: true, status: 0 },
    Ending { words: &["gateway", "cli.spread", "cli.out", "cli.ts"], takes: true, status: 0 },
    Ending { words: &["modulate", "cli.spread", "cli.ts", "cli.out"], takes: true, status: 6 },
    Ending { words: &["receive", "cli.spread", "0", "cli.ts", "cli.out"], takes: true, status: 7 },
    Ending { words: &["plan", "cli.absent"], takes: true, status: 70 },
    Ending { words: &["gateway", "cli.txt", "cli.out", "cli.absent"], takes: true, status: 70 },
    Ending { words: &["gateway", "cli.txt", "./cli.ts", "cli.ts"], takes: true, status: 71 },
    Ending { words: &["gateway", "cli.txt", "/dev/full", "cli.ts"], takes: true, status: 71 },
    Ending { words: &["--version"], takes: false, status: 71 },
    Ending { words: &["plan", "cli.txt"], takes: false, status: 71 },
    Ending { words: &["show", "packets", "cli.none"], takes: false, status: 71 },
    Ending { words: &["gateway", "cli.txt", "cli.out", "cli.ts"], takes: false, status: 71 },
    Ending { words: &["show", "packets", "cli.ts"], takes: false, status: 10 },
    Ending { words: &["plan", "cli.absent"], takes: false, status: 70 },
];

// How the program ends, told by its status.
fn ends_with<R: Files + AllocGlobal + Drop>(rt: R, ending: &Ending) -> Result<bool, OutOfMemory> {
    let words = words_from(rt.alloc(), ending.words)?;
    let outside = Outside::new(rt, ending.takes);
    let outcome = carry_out(&outside, "site_cli", &words, false);
    Ok(exit_code(outcome) == ExitCode::from(ending.status))
}

#[test]
fn each_ending_has_its_status(rt: HostRuntime) -> Result<(), Fail> {
    make_files(&rt)?;
    for (at, ending) in ENDINGS.iter().enumerate() {
        assert!(rt; ends_with(&rt, ending)?, "ending {at}");
    }
    remove_files(&rt)?;
    Ok(())
}

// How a run ended, and how the first line begins that tells people of it.
struct Told {
    words: &'static [&'static str],
    outcome: Outcome,
    begins: &'static str,
}

#[rattlefmt::skip]
static TOLD: [Told; 46] = [
    Told { words: &["plan", "c"], outcome: Outcome::Done, begins: "" },
    Told { words: &[], outcome: Outcome::Usage, begins:
        "these words are no command\nusage:\n  site_cli gateway CONFIG OUT IN..\n" },
    Told { words: &["plan"], outcome: Outcome::Usage, begins:
        "these are too few words\nusage:\n  site_cli plan CONFIG\n" },
    Told { words: &["merge", "--quiet", "c", "a", "b", "o"], outcome: Outcome::Usage, begins:
        "--quiet: there are no options but --help and --version\nusage:\n  site_cli merge CONFIG A B OUT\n" },
    Told { words: &["--help", "bogus"], outcome: Outcome::Usage, begins:
        "--help asks for a command, and these words name none\nusage:\n  site_cli gateway CONFIG OUT IN..\n" },
    Told { words: &["compare", "c", "a", "b", "o"], outcome: Outcome::Usage,
        begins: "these are too many words\nusage:\n  site_cli compare CONFIG A B\n" },
    Told { words: &["common"], outcome: Outcome::Usage,
        begins: "these are too few words\nusage:\n  site_cli common gateway CONFIG OUT IN..\n" },
    Told { words: &["common", "receive", "c", "1", "i"], outcome: Outcome::Usage,
        begins: "these are too few words\nusage:\n  site_cli common receive CONFIG PLP IN OUT\n" },
    Told { words: &["common", "send", "c", "1", "i"], outcome: Outcome::Usage,
        begins: "common wants one of gateway, receive\nusage:\n  site_cli common gateway CONFIG OUT IN..\n" },
    Told { words: &["common", "receive", "c", "01", "i", "o"], outcome: Outcome::Usage, begins:
        "PLP must be a decimal number from 0 to 255, " },
    Told { words: &["receive", "c", "-1", "i", "o"], outcome: Outcome::Usage, begins:
        "PLP must be a decimal number from 0 to 255, " },
    Told { words: &["common", "receive", "c", "1", "i", "i"], outcome: Outcome::Usage, begins:
        "OUT must be neither CONFIG nor IN\n" },
    Told { words: &["swap", "c", "255", "t", "i", "t"], outcome: Outcome::Usage, begins:
        "OUT must be neither CONFIG nor T2MI nor IN\n" },
    Told { words: &["mend", "c", "o"], outcome: Outcome::Usage, begins:
        "there must be one to eight INs, and OUT must be neither CONFIG nor an IN\n" },
    Told { words: &["trial", "1", "5"], outcome: Outcome::Usage, begins: "SEED must be a decimal number below 2^64 " },
    Told { words: &["recieve", "c"], outcome: Outcome::Usage,
        begins: "these words are no command\nusage:\n  site_cli receive CONFIG PLP IN OUT\n" },
    Told { words: &["gatway"], outcome: Outcome::Usage, begins:
        "these words are no command\nusage:\n  site_cli gateway CONFIG OUT IN..\n" },
    Told { words: &["show", "t2m", "f"], outcome: Outcome::Usage, begins:
        "show wants one of config, packets, t2mi, frames\nusage:\n  site_cli show config FILE\n" },
    Told { words: &["plan", ""], outcome: Outcome::Usage, begins:
        "word 2 is empty or not UTF-8: the file wants another name\nusage:\n  site_cli plan CONFIG\n" },
    Told { words: &["marge"], outcome: Outcome::Usage, begins:
        "these words are no command\nusage:\n  site_cli merge CONFIG A B OUT\n" },
    Told { words: &["mod"], outcome: Outcome::Usage, begins:
        "these words are no command\nusage:\n  site_cli modulate CONFIG IN OUT\n" },
    Told { words: &["zzz"], outcome: Outcome::Usage, begins:
        "these words are no command\nusage:\n  site_cli gateway CONFIG OUT IN..\n" },
    Told { words: &["gateway", "c", "a", "a"], outcome: Outcome::Usage, begins:
        "OUT must be neither CONFIG nor an IN\n" },
    Told { words: &["merge", "c", "a", "b", "b"], outcome: Outcome::Usage, begins:
        "OUT must be neither CONFIG nor A nor B\n" },
    Told { words: &["swap", "c", "256", "t", "i", "o"], outcome: Outcome::Usage, begins:
        "PLP must be a decimal number from 0 to 255, " },
    Told { words: &["gateway", "c", "o", "a", "b"], outcome: Outcome::WrongInputs { plps: 3, inputs: 2 },
        begins: "c wants one IN for each PLP, in its order: 3, and 2 were given\n" },
    Told { words: &["common", "gateway", "c", "o", "a"], outcome: Outcome::WrongInputs { plps: 2, inputs: 1 },
        begins: "c wants one IN for each PLP that is not common, in its order: 2, and 1 were given\n" },
    Told { words: &["gateway", "c", "o", "a", "b"], outcome: Outcome::InputRefused { input: 1, packet: 7 },
        begins: "b: packet 7, " },
    Told { words: &["modulate", "c", "i", "o"], outcome: Outcome::NoSuperframe, begins:
        "i: no superframe begins in it " },
    Told { words: &["merge", "c", "a", "b", "o"], outcome: Outcome::NoSuperframe, begins:
        "a and b: no superframe begins in either " },
    Told { words: &["swap", "c", "0", "t", "i", "o"], outcome: Outcome::NoSuperframe, begins:
        "t: no superframe begins in it " },
    Told { words: &["swap", "c", "0", "t", "i", "o"], outcome: Outcome::InputRefused { input: 0, packet: 7 },
        begins: "i: packet 7, " },
    Told { words: &["compare", "c", "a", "b"], outcome: Outcome::NoSuperframe, begins:
        "a and b: no superframe begins in either " },
    Told { words: &["compare", "c", "a", "b"], outcome: Outcome::Differs { frame: 4 },
        begins: "a and b: both send frame 4, and not the same, " },
    Told { words: &["receive", "c", "9", "i", "o"], outcome: Outcome::UnknownPlp { plp_id: 9 },
        begins: "c: no PLP has the identifier 9; " },
    Told { words: &["common", "receive", "c", "9", "i", "o"], outcome: Outcome::UnknownPlp { plp_id: 9 },
        begins: "c: no PLP that is not common has the identifier 9; " },
    Told { words: &["receive", "c", "0", "i", "o"], outcome: Outcome::RecordRefused { number: 4, why:
        RecordWhy::Order },
        begins: "i: record 4, counted from 0: " },
    Told { words: &["show", "frames", "f"], outcome: Outcome::RecordRefused { number: 4, why: RecordWhy::Order },
        begins: "f: record 4, counted from 0: " },
    Told { words: &["show", "packets", "f"], outcome: Outcome::TooLong { count: 1 << 40 },
        begins: "f: it gave 1099511627776 bytes, " },
    Told { words: &["modulate", "c", "i", "o"], outcome: Outcome::TooLong { count: 1 << 31 },
        begins: "i: frame 2147483648 of CONFIG " },
    Told { words: &["merge", "c", "a", "b", "o"], outcome: Outcome::TooLong { count: 1 << 31 },
        begins: "A or B: frame 2147483648 of CONFIG " },
    Told { words: &["mend", "c", "o", "i"], outcome: Outcome::TooLong { count: 1 << 40 },
        begins: "an IN: it gave 1099511627776 bytes, " },
    Told { words: &["mend", "c", "o", "i"], outcome: Outcome::NoSuperframe, begins:
        "no frame is whole in all INs together; " },
    Told { words: &["swap", "c", "0", "t", "i", "o"], outcome: Outcome::TooLong { count: 1 << 31 },
        begins: "t: frame 2147483648 of CONFIG " },
    Told { words: &["plan", "c"], outcome: Outcome::OutOfMemory, begins: "out of memory; " },
    Told { words: &["trial", "1", "6"], outcome: Outcome::TrialFault, begins: "a run inside the trial ended " },
];

fn is_told<R: Files + AllocGlobal + Drop>(rt: R, told: &Told) -> Result<bool, OutOfMemory> {
    let words = words_from(rt.alloc(), told.words)?;
    let outside = Outside::new(rt, true);
    advise(&outside, "site_cli", &words, told.outcome, None, false);
    if told.outcome == Outcome::Done {
        return Ok(outside.has_heard(""));
    }
    Ok(outside.has_begun(told.begins))
}

#[test]
fn people_are_told_why_a_run_is_not_done(rt: HostRuntime) -> Result<(), Fail> {
    for (at, told) in TOLD.iter().enumerate() {
        assert!(rt; is_told(&rt, told)?, "outcome {at}");
    }
    Ok(())
}
