// What `--help` and `--version` say, and the table of commands.
use site_top::Word;
use std::io::{self, Print};

// The version of the program, and the toolchain that it is written for.
const VERSION: &str = "0.3.0";

const KIT: &str = "rattle-kit-13f";

/// A command: its first word, all its words, what it does, an example, and what its words must be beside their number
/// and an identifier, if something.
pub struct Command {
    pub name: &'static str,
    pub words: &'static str,
    pub what: &'static str,
    example: &'static str,
    rule: Option<&'static str>,
}

// What the word PLP of a command must be, and what FILES may be.
const IDENTIFIER_RULE: &str =
    "PLP must be a decimal number from 0 to 255, without sign and leading zeros";

const FILES: &str =
    "CONFIG is a text (docs/FORMATS.md); the files may be pipes: a FIFO, /dev/stdin, /dev/fd/N";

// How many bytes of a command's name tell it at least.
const SHORTEST: usize = 3;

const NO_COMMAND: &str = "these words are no command";

// What the second word of a command may be.
const SHOW_WANTS: &str = "show wants one of config, packets, t2mi, frames";

const COMMON_WANTS: &str = "common wants one of gateway, receive";

// Whether a word of a command stands for another one.
fn is_place(own: &str) -> bool {
    own.as_bytes()
        .first()
        .map_or(false, |byte| byte.is_ascii_uppercase())
}

// Whether a word is the identifier of a PLP.
fn is_identifier(word: &str) -> bool {
    let digits = word.bytes().all(|byte| byte.is_ascii_digit());
    let leads = word.len() > 1 && word.starts_with('0');
    digits && !leads && word.parse::<u8>().is_ok()
}

impl Command {
    // How many words it has. The last one, if it ends with two dots, stands for some or none.
    fn count(&self) -> usize {
        self.words.split(' ').count()
    }

    fn has_too_few(&self, count: usize) -> bool {
        if self.words.ends_with("..") {
            count.saturating_add(1) < self.count()
        } else {
            count < self.count()
        }
    }

    fn has_too_many(&self, count: usize) -> bool {
        !self.words.ends_with("..") && count > self.count()
    }

    // Whether words begin with its name, as far as they go.
    fn fits(&self, words: &[Word]) -> bool {
        for (own, word) in self.words.split(' ').zip(words) {
            if is_place(own) {
                return true;
            }
            if own != word.as_str() {
                return false;
            }
        }
        true
    }

    // Whether the word PLP is among its words.
    fn has_identifier(&self) -> bool {
        self.words.split(' ').any(|own| own == "PLP")
    }

    // Whether what stands for PLP is no identifier.
    fn has_wrong_identifier(&self, words: &[Word]) -> bool {
        let mut pairs = self.words.split(' ').zip(words);
        pairs.any(|(own, word)| own == "PLP" && !is_identifier(word.as_str()))
    }

    // Why words that fit are not this command.
    fn why_not(&self, words: &[Word]) -> &'static str {
        if self.has_too_few(words.len()) {
            "these are too few words"
        } else if self.has_too_many(words.len()) {
            "these are too many words"
        } else if self.has_wrong_identifier(words) {
            IDENTIFIER_RULE
        } else {
            self.rule.unwrap_or(NO_COMMAND)
        }
    }
}

/// The commands.
pub const COMMANDS: [Command; 15] = [
    Command {
        name: "gateway",
        words: "gateway CONFIG OUT IN..",
        what: "writes to OUT the T2-MI stream of a network from one transport stream IN for each PLP, in the order of CONFIG",
        example: "gateway small.txt stream.ts a.ts",
        rule: Some("OUT must be neither CONFIG nor an IN"),
    },
    Command {
        name: "modulate",
        words: "modulate CONFIG IN OUT",
        what: "writes to OUT the records of the T2 frames that a modulator makes from the T2-MI stream IN",
        example: "modulate small.txt stream.ts records",
        rule: Some("OUT must be neither CONFIG nor IN"),
    },
    Command {
        name: "receive",
        words: "receive CONFIG PLP IN OUT",
        what: "writes to OUT the transport stream that a receiver of the PLP with the identifier PLP makes from the records IN",
        example: "receive small.txt 0 records b.ts",
        rule: Some("OUT must be neither CONFIG nor IN"),
    },
    Command {
        name: "common",
        words: "common gateway CONFIG OUT IN..",
        what: "writes to OUT what gateway writes, from one IN for each PLP that is not common: a packet that all INs of a group have in a slot goes once, in its common PLP",
        example: "common gateway shared.txt joint.ts one.ts other.ts",
        rule: Some("OUT must be neither CONFIG nor an IN"),
    },
    Command {
        name: "common",
        words: "common receive CONFIG PLP IN OUT",
        what: "writes to OUT what receive writes of a PLP that is not common, with the packets that the common PLP of its group carries",
        example: "common receive shared.txt 1 joint one.back",
        rule: Some("OUT must be neither CONFIG nor IN"),
    },
    Command {
        name: "merge",
        words: "merge CONFIG A B OUT",
        what: "writes to OUT one T2-MI stream of two of a network, A and B: each frame from the first of them that has it whole",
        example: "merge small.txt stream.ts late.ts merged.ts",
        rule: Some("OUT must be neither CONFIG nor A nor B"),
    },
    Command {
        name: "mend",
        words: "mend CONFIG OUT IN..",
        what: "writes to OUT one T2-MI stream of one to eight of a network, the INs: each frame of which they have every packet together, at the instant that its timestamp tells; OUT stands in front of the INs, and is overwritten",
        example: "mend small.txt mended.ts stream.ts late.ts",
        rule: Some("there must be one to eight INs, and OUT must be neither CONFIG nor an IN"),
    },
    Command {
        name: "swap",
        words: "swap CONFIG PLP T2MI IN OUT",
        what: "writes to OUT the T2-MI stream T2MI with the packets of the PLP with the identifier PLP replaced by those of the transport stream IN",
        example: "swap small.txt 0 stream.ts region.ts swapped.ts",
        rule: Some("OUT must be neither CONFIG nor T2MI nor IN"),
    },
    Command {
        name: "compare",
        words: "compare CONFIG A B",
        what: "says of each frame of two T2-MI streams of a network, A and B, whether both send it with the same L1 and the same blocks",
        example: "compare small.txt stream.ts late.ts",
        rule: None,
    },
    Command {
        name: "plan",
        words: "plan CONFIG",
        what: "shows what follows from a configuration: slots, delays and sizes",
        example: "plan small.txt",
        rule: None,
    },
    Command {
        name: "show",
        words: "show config FILE",
        what: "shows a configuration as it is written, in version 2 of the text",
        example: "show config small.txt",
        rule: None,
    },
    Command {
        name: "show",
        words: "show packets FILE",
        what: "shows the T2-MI packets that stand back to back in FILE, a line each",
        example: "show packets packets.t2mi",
        rule: None,
    },
    Command {
        name: "show",
        words: "show t2mi FILE",
        what: "shows the T2-MI packets in the transport packets of FILE, a line each",
        example: "show t2mi stream.ts",
        rule: None,
    },
    Command {
        name: "show",
        words: "show frames FILE",
        what: "shows the records of T2 frames in FILE, a line each",
        example: "show frames records",
        rule: None,
    },
    Command {
        name: "trial",
        words: "trial SEED FRAMES",
        what: "tries a whole network on inputs drawn from SEED for 6 to 64 FRAMES, and needs no file",
        example: "trial 1 6",
        rule: Some(
            "SEED must be a decimal number below 2^64 and FRAMES one from 6 to 64, both without sign and leading zeros",
        ),
    },
];

/// What somebody asks who asks for no command.
pub enum Asked<'a> {
    /// The version.
    Version,
    /// Help, of the commands that words name.
    Help(&'a [Word]),
}

// Whether a word asks for help.
fn asks_for_help(word: &str) -> bool {
    word == "--help" || word == "-h"
}

fn is_command(name: &str) -> bool {
    COMMANDS.iter().any(|command| command.name == name)
}

// Whether words begin with the name of a command, as far as they go.
fn is_named(words: &[Word]) -> bool {
    COMMANDS.iter().any(|command| command.fits(words))
}

/// Why words are no command.
pub fn why_no_command(words: &[Word]) -> &'static str {
    let Some(first) = words.first() else {
        return NO_COMMAND;
    };
    for command in &COMMANDS {
        if command.fits(words) {
            return command.why_not(words);
        }
    }
    match first.as_str() {
        "show" => SHOW_WANTS,
        "common" => COMMON_WANTS,
        _ => NO_COMMAND,
    }
}

/// What is asked: the version or help by the first word, or help on a command by a word behind its name.
pub fn asked_of(words: &[Word]) -> Option<Asked<'_>> {
    let (first, others) = words.split_first()?;
    let first = first.as_str();
    if first == "--version" || first == "-V" {
        return Some(Asked::Version);
    }
    if asks_for_help(first) || first == "help" {
        let is_known = others
            .first()
            .map_or(true, |name| is_command(name.as_str()));
        return if is_known {
            Some(Asked::Help(others))
        } else {
            None
        };
    }
    let place = words.iter().position(|word| asks_for_help(word.as_str()))?;
    if is_command(first) {
        return Some(Asked::Help(words.get(..place).unwrap_or(words)));
    }
    None
}

// How many bytes two words have in common at the front and at the end.
fn common(one: &[u8], other: &[u8]) -> usize {
    let front = one.iter().zip(other).take_while(|(a, b)| a == b).count();
    let backwards = one.iter().rev().zip(other.iter().rev());
    let back = backwards.take_while(|(a, b)| a == b).count();
    front.saturating_add(back)
}

// Whether two words are the same but for two bytes in a row.
fn is_near(one: &str, other: &str) -> bool {
    let longest = one.len().max(other.len());
    common(one.as_bytes(), other.as_bytes()).saturating_add(2) >= longest
}

// Whether a word is the beginning of a name, and no short one.
fn begins(name: &str, word: &str) -> bool {
    word.len() >= SHORTEST && name.starts_with(word)
}

/// Whether words may mean a command with this name: if they name one, as far as they go, it is that one.
pub fn may_mean(command: &Command, name: &str, words: &[Word]) -> bool {
    command.name == name && (command.fits(words) || !is_named(words))
}

/// The name of the command that a first word is, or else that it is near to.
pub fn meant_by(words: &[Word]) -> Option<&'static str> {
    let first = words.first()?.as_str();
    for command in &COMMANDS {
        if command.name == first {
            return Some(command.name);
        }
    }
    for command in &COMMANDS {
        if is_near(command.name, first) || begins(command.name, first) {
            return Some(command.name);
        }
    }
    None
}

// Says a command of the program, whose name is this.
fn say_command(rt: &impl Print, program: &str, command: &Command) -> io::Result<()> {
    println!(rt; "{program} {}\n    {}", command.words, command.what)?;
    if command.has_identifier() {
        println!(rt; "    {IDENTIFIER_RULE}")?;
    }
    if let Some(rule) = command.rule {
        println!(rt; "    {rule}")?;
    }
    println!(rt; "    for example: {program} {}", command.example)
}

// Says all commands.
fn say_all(rt: &impl Print, program: &str) -> io::Result<()> {
    for command in &COMMANDS {
        say_command(rt, program, command)?;
    }
    Ok(())
}

// Says the commands that words may mean of those with a name.
fn say_named(rt: &impl Print, program: &str, name: &str, words: &[Word]) -> io::Result<()> {
    for command in &COMMANDS {
        if may_mean(command, name, words) {
            say_command(rt, program, command)?;
        }
    }
    println!(rt; "{FILES}")
}

/// Says what is asked of the program, on standard output.
pub fn say(rt: &impl Print, program: &str, asked: Asked<'_>) -> io::Result<()> {
    let words = match asked {
        Asked::Version => return println!(rt; "vicelotus {VERSION}, for {KIT}"),
        Asked::Help(words) => words,
    };
    let name = words.first().map_or("", |word| word.as_str());
    if is_command(name) {
        return say_named(rt, program, name, words);
    }
    say_all(rt, program)?;
    println!(rt;
        "{FILES}\nFormats, endings and examples: docs/FORMATS.md, README.md, docs/EXAMPLES.md (installed: PREFIX/share/doc/vicelotus)"
    )
}
