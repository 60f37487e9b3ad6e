// What is said for people, on standard error: what was wrong, where, and what to do.
use crate::bad_input::{say_bad_packet, say_no_packet, say_no_record};
use crate::config_place::{config_again, is_data, plp_line, text_of};
use crate::group::say_common;
use crate::help::{COMMANDS, may_mean, meant_by, why_no_command};
use crate::named_file::{file_of, out_of};
use crate::pids::say_pids;
use config_text::{TextFault, TextWhy};
use desk_watch::{Shown, Told};
use plp_config::{CapacityFault, Config, ConfigFault, MOST_FRAMES, PlpType, SUPERFRAME_PERIOD};
use ports::HostFault;
use site_top::{ConfigCause, Outcome, Request, Word, request_of};
use std::fmt::{self, Display, Formatter, Write};
use std::fs::Files;
use std::io::{self, Eprint};

// Says which words are commands: those of the command that was meant, or all.
fn say_commands(
    rt: &impl Eprint,
    program: &str,
    words: &[Word],
    meant: Option<&str>,
) -> io::Result<()> {
    eprintln!(rt; "usage:")?;
    for command in &COMMANDS {
        if meant.map_or(true, |name| may_mean(command, name, words)) {
            eprintln!(rt; "  {program} {}\n      {}", command.words, command.what)?;
        }
    }
    Ok(())
}

// The first word that is written as an option.
fn option_in(words: &[Word]) -> Option<&str> {
    for word in words {
        if word.as_str().starts_with("--") {
            return Some(word.as_str());
        }
    }
    None
}

// Says why words are refused.
fn say_refused(rt: &impl Eprint, words: &[Word]) -> io::Result<()> {
    if let Some(place) = words.iter().position(|word| word.as_str().is_empty()) {
        return eprintln!(rt;
            "word {} is empty or not UTF-8: the file wants another name",
            place.saturating_add(1)
        );
    }
    match option_in(words) {
        Some(option) if option == "--help" => eprintln!(rt;
            "--help asks for a command, and these words name none"
        ),
        Some(option) => eprintln!(rt;
            "{}: there are no options but --help and --version",
            Shown(option)
        ),
        None => eprintln!(rt; "{}", why_no_command(words)),
    }
}

fn say_usage(rt: &impl Eprint, program: &str, words: &[Word]) -> io::Result<()> {
    let meant = meant_by(words);
    say_refused(rt, words)?;
    say_commands(rt, program, words, meant)?;
    match meant {
        Some(_) => eprintln!(rt; "all commands: {program} --help"),
        None => Ok(()),
    }
}

// Says which PLP of a configuration is refused, and where its line is.
fn say_plp(
    rt: &(impl Eprint + Files + AllocGlobal),
    name: &str,
    plp: Option<u8>,
) -> io::Result<()> {
    let Some(place) = plp else {
        return Ok(());
    };
    let text = text_of(rt, name)?;
    match plp_line(&text, place) {
        Some((line, id)) => eprintln!(rt; "{}: PLP {id} is on line {line}", Shown(name)),
        None => Ok(()),
    }
}

// Says why a text is none of a configuration, and first whether it is no text at all.
fn say_text(
    rt: &(impl Eprint + Files + AllocGlobal),
    name: &str,
    line: u32,
    why: TextWhy,
) -> io::Result<()> {
    let file = Shown(name);
    if text_of(rt, name).map_or(false, |front| is_data(&front)) {
        return eprintln!(rt;
            "{file}: this is a transport stream or other data, and no text; name the text of a configuration"
        );
    }
    match why {
        TextWhy::TooLong => eprintln!(rt; "{file}: {why}; shorten it"),
        TextWhy::EndsEarly => eprintln!(rt; "{file}: {why}; add the lines that are missing"),
        why => eprintln!(rt;
            "{file}: {}; correct that line",
            TextFault::Refused { line, why }
        ),
    }
}

fn say_cause(
    rt: &(impl Eprint + Files + AllocGlobal),
    name: &str,
    cause: ConfigCause,
) -> io::Result<()> {
    match cause {
        ConfigCause::Text { line, why } => say_text(rt, name, line, why),
        ConfigCause::Rule { rule, plp } => {
            eprintln!(rt;
                "{}: {}; correct the configuration",
                Shown(name),
                ConfigFault { rule, plp }
            )?;
            say_plp(rt, name, plp)
        }
    }
}

// Says what failed first, as the system tells it.
fn say_fault(
    rt: &impl Eprint,
    request: Option<Request<'_>>,
    fault: Option<&HostFault>,
) -> io::Result<()> {
    match (fault, out_of(request)) {
        (Some(HostFault::IsRead { .. }), Some(out)) => eprint!(rt; "{}: ", Shown(out))?,
        _ => {}
    }
    match fault {
        Some(fault) => eprintln!(rt; "{}", Told(fault)),
        None => Ok(()),
    }
}

// Says that frame 2^31 comes.
fn say_too_many_frames(
    rt: &impl Eprint,
    request: Option<Request<'_>>,
    file: Shown<'_>,
) -> io::Result<()> {
    match request {
        Some(Request::Modulate { .. }) => eprintln!(rt;
            "{file}: frame {MOST_FRAMES} of CONFIG comes in it; the records before it were written; what is behind it wants a CONFIG that starts later"
        ),
        Some(Request::Merge { .. } | Request::Swap { .. }) => eprintln!(rt;
            "{file}: frame {MOST_FRAMES} of CONFIG comes in it; the frames before it were written; what is behind it wants a CONFIG that starts later"
        ),
        Some(Request::Compare { .. }) => eprintln!(rt;
            "{file}: frame {MOST_FRAMES} of CONFIG comes in it; what was known of the frames before it was said; what is behind it wants a CONFIG that starts later"
        ),
        _ => eprintln!(rt;
            "the inputs go on for more than {MOST_FRAMES} frames; what was written stays, give the rest to another run"
        ),
    }
}

// Says that no superframe is found.
fn say_no_superframe(
    rt: &impl Eprint,
    request: Option<Request<'_>>,
    file: Shown<'_>,
) -> io::Result<()> {
    match request {
        Some(Request::Merge { a, b, .. } | Request::Compare { a, b, .. }) => eprintln!(rt;
            "{} and {}: no superframe begins in either with a frame that passes the tests; see that both are T2-MI streams of the network of CONFIG, on its PID",
            Shown(a),
            Shown(b)
        ),
        Some(Request::Mend { .. }) => eprintln!(rt;
            "no frame is whole in all INs together; see that each is a T2-MI stream of the network of CONFIG, on its PID"
        ),
        _ => eprintln!(rt;
            "{file}: no superframe begins in it with a frame that passes the tests; see that it is the T2-MI stream of the network of CONFIG, on its PID"
        ),
    }
}

// Says which frame differs.
fn say_differs(rt: &impl Eprint, request: Option<Request<'_>>, frame: u64) -> io::Result<()> {
    match request {
        Some(Request::Compare { a, b, .. }) => eprintln!(rt;
            "{} and {}: both send frame {frame}, and not the same, first of the frames that differ; transmitters fed with them jam each other there; see that one gateway made both, by one CONFIG, and that neither lost {SUPERFRAME_PERIOD} superframes in a row or more: frames behind such a loss stand at wrong moments",
            Shown(a),
            Shown(b)
        ),
        _ => Ok(()),
    }
}

// The identifiers of the PLPs of a configuration, or of those that are not common.
#[derive(Clone, Copy)]
struct Identifiers<'a> {
    config: &'a Config,
    with_common: bool,
}

impl Display for Identifiers<'_> {
    fn fmt<W: Write>(&self, f: &mut Formatter<W>) -> fmt::Result {
        let mut before = "";
        for place in 0..self.config.plps.len() {
            if let Some(plp) = self.config.plps.get(place)
                && (self.with_common || plp.plp_type != PlpType::Common)
            {
                write!(f, "{before}{}", plp.id)?;
                before = ", ";
            }
        }
        Ok(())
    }
}

// Says that no PLP has an identifier, and which ones there are.
fn say_unknown_plp(
    rt: &(impl Eprint + Files + AllocGlobal),
    request: Option<Request<'_>>,
    name: &str,
    plp_id: u8,
) -> io::Result<()> {
    let file = Shown(name);
    let with_common = !matches!(request, Some(Request::CommonReceive { .. }));
    let which = if with_common {
        "PLP"
    } else {
        "PLP that is not common"
    };
    eprintln!(rt;
        "{file}: no {which} has the identifier {plp_id}; it is the first number behind the word plp"
    )?;
    match config_again(rt, name) {
        Some(config) => eprintln!(rt;
            "{file}: the identifiers are {}",
            Identifiers {
                config: &config,
                with_common,
            }
        ),
        None => Ok(()),
    }
}

// Says that there is not one input for each PLP that has one.
fn say_wrong_inputs(
    rt: &impl Eprint,
    request: Option<Request<'_>>,
    file: Shown<'_>,
    plps: usize,
    inputs: usize,
) -> io::Result<()> {
    match request {
        Some(Request::CommonGateway { .. }) => eprintln!(rt;
            "{file} wants one IN for each PLP that is not common, in its order: {plps}, and {inputs} were given"
        ),
        _ => eprintln!(rt;
            "{file} wants one IN for each PLP, in its order: {plps}, and {inputs} were given"
        ),
    }
}

// Says which test of the capacity a configuration fails, and for which PLP.
fn say_capacity(
    rt: &(impl Eprint + Files + AllocGlobal),
    name: &str,
    outcome: Outcome,
) -> io::Result<()> {
    let Outcome::CapacityRefused {
        test,
        plp,
        need,
        have,
    } = outcome
    else {
        return Ok(());
    };
    let fault = CapacityFault {
        test,
        plp,
        need,
        have,
    };
    eprintln!(rt; "{}: {fault}; correct the configuration", Shown(name))?;
    say_plp(rt, name, plp)
}

// Says it, as far as standard error takes it: nobody is left to tell of a failure there.
fn say(
    rt: &(impl Eprint + Files + AllocGlobal),
    program: &str,
    words: &[Word],
    outcome: Outcome,
    fault: Option<&HostFault>,
    none_came: bool,
) -> io::Result<()> {
    let request = request_of(words);
    let name = file_of(request, outcome);
    let file = Shown(name);
    match outcome {
        Outcome::Done => match request {
            Some(Request::ShowT2mi { file }) => say_pids(rt, file, none_came),
            Some(Request::Receive { config, plp_id, .. }) => say_common(rt, config, plp_id),
            _ => Ok(()),
        },
        Outcome::Usage => say_usage(rt, program, words),
        Outcome::WrongInputs { plps, inputs } => say_wrong_inputs(rt, request, file, plps, inputs),
        Outcome::ConfigRefused { cause } => say_cause(rt, name, cause),
        Outcome::CapacityRefused { .. } => say_capacity(rt, name, outcome),
        Outcome::InputRefused { packet, .. } => say_bad_packet(rt, name, packet),
        Outcome::NoSuperframe => say_no_superframe(rt, request, file),
        Outcome::TooLong { count: MOST_FRAMES } => say_too_many_frames(rt, request, file),
        Outcome::TooLong { count } => eprintln!(rt;
            "{file}: it gave {count} bytes, which is more than a file may have; split it"
        ),
        Outcome::PacketRefused { .. } => say_no_packet(rt, name, outcome),
        Outcome::UnknownPlp { plp_id } => say_unknown_plp(rt, request, name, plp_id),
        Outcome::Differs { frame } => say_differs(rt, request, frame),
        Outcome::RecordRefused { number, why } => say_no_record(rt, request, name, number, why),
        Outcome::ReadFault | Outcome::WriteFault => say_fault(rt, request, fault),
        Outcome::OutOfMemory => eprintln!(rt; "out of memory; the command did not come to its end"),
        Outcome::TrialFault => eprintln!(rt;
            "a run inside the trial ended otherwise than it must; tell the maintainers the words of the command"
        ),
    }
}

/// Says for people, who know the program by this name, why a run over words is not done, and what failed first, if
/// something did; of a run of `show t2mi` that is done, on which PID it looked, and whether no packet came there: it
/// said the line of their number alone.
pub fn advise(
    rt: &(impl Eprint + Files + AllocGlobal),
    program: &str,
    words: &[Word],
    outcome: Outcome,
    fault: Option<&HostFault>,
    none_came: bool,
) {
    let _ = say(rt, program, words, outcome, fault, none_came);
}
