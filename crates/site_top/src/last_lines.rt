// The last line of a run that is not done.
ghost use Rattle.std.specs.Prelude.{◌≡◌, ◌+◌, ◌++◌, ◌≤◌, codes, length};
ghost use Rattle.file_run.specs.declared.line.TheConstants.{ROOM};
ghost use Rattle.file_run.specs.declared.config_stop.ConfigCause.TheVariants.{Text, Rule};
ghost use Rattle.site_top.specs.Outcomes.{last_line as line_of_outcome, place_word, why_number as number_of_why};
ghost use Rattle.site_top.specs.Outcomes.{record_why_number as number_of_record_why};
ghost use Rattle.site_top.specs.Outcomes.{text_why_number as number_of_text_why};

use crate::outcome::Outcome;
use config_text::TextWhy;
use file_run::{ConfigCause, Line};
use site_frame::RecordWhy;
use t2mi_packet::PacketWhy;

// Bytes of the place of a PLP at most: five of its key, and twenty digits.
const PLACE_ROOM: usize = 5 + 20;

fn why_number(why: PacketWhy) -> u8
    ensures { result ≡ number_of_why why }
{
    why as u8
}

#[tactic(auto, unfolding(crate::specs::Outcomes::last_line))]
fn too_long_line(count: u64) -> Line
    ensures { result ≡ line_of_outcome (Outcome.TooLong count) }
{
    let mut line = Line::new();
    line.push_field(b"refused: too long ", count);
    line.push(b"\n");
    line
}

#[tactic(auto, unfolding(crate::specs::Outcomes::last_line))]
fn input_refused_line(input: u8, packet: u64) -> Line
    ensures { result ≡ line_of_outcome (Outcome.InputRefused input packet) }
{
    let mut line = Line::new();
    line.push_field(b"refused: input ", u64::from(input));
    line.push_field(b" packet ", packet);
    line.push(b"\n");
    line
}

#[tactic(auto, unfolding(crate::specs::Outcomes::last_line))]
fn packet_refused_line(at: u64, why: PacketWhy) -> Line
    ensures { result ≡ line_of_outcome (Outcome.PacketRefused at why) }
{
    let mut line = Line::new();
    line.push_field(b"refused: packet at ", at);
    line.push_field(b" why ", u64::from(why_number(why)));
    line.push(b"\n");
    line
}

#[tactic(auto, unfolding(crate::specs::Outcomes::last_line))]
fn differs_line(frame: u64) -> Line
    ensures { result ≡ line_of_outcome (Outcome.Differs frame) }
{
    let mut line = Line::new();
    line.push_field(b"refused: frame ", frame);
    line.push(b" differs\n");
    line
}

fn record_why_number(why: RecordWhy) -> u8
    ensures { result ≡ number_of_record_why why }
{
    why as u8
}

#[tactic(auto, unfolding(crate::specs::Outcomes::last_line))]
fn record_refused_line(number: u64, why: RecordWhy) -> Line
    ensures { result ≡ line_of_outcome (Outcome.RecordRefused number why) }
{
    let mut line = Line::new();
    line.push_field(b"refused: record ", number);
    line.push_field(b" why ", u64::from(record_why_number(why)));
    line.push(b"\n");
    line
}

#[tactic(auto, unfolding(crate::specs::Outcomes::last_line))]
fn unknown_plp_line(plp_id: u8) -> Line
    ensures { result ≡ line_of_outcome (Outcome.UnknownPlp plp_id) }
{
    let mut line = Line::new();
    line.push_field(b"refused: plp ", u64::from(plp_id));
    line.push(b"\n");
    line
}

fn text_why_number(why: TextWhy) -> u8
    ensures { result ≡ number_of_text_why why }
{
    why as u8
}

#[tactic(auto, unfolding(crate::specs::Outcomes::last_line))]
fn text_refused_line(line: u32, why: TextWhy) -> Line
    ensures { result ≡ line_of_outcome (Outcome.ConfigRefused (Text line why)) }
{
    let mut last = Line::new();
    last.push_field(b"refused: config line ", u64::from(line));
    last.push_field(b" why ", u64::from(text_why_number(why)));
    last.push(b"\n");
    last
}

// Adds the place of a PLP, or a dash if there is none.
fn push_place(line: &mut Line, plp: Option<u8>)
    requires { length line.old + PLACE_ROOM ≤ ROOM }
    ensures text { line.new ≡ line.old ++ codes " plp " ++ place_word plp }
    ensures len { length line.new ≤ length line.old + PLACE_ROOM }
{
    match plp {
        Some(place) => line.push_field(b" plp ", u64::from(place)),
        None => line.push(b" plp -"),
    }
}

#[tactic(auto, unfolding(crate::specs::Outcomes::last_line))]
fn rule_refused_line(rule: u8, plp: Option<u8>) -> Line
    ensures { result ≡ line_of_outcome (Outcome.ConfigRefused (Rule rule plp)) }
{
    let mut last = Line::new();
    last.push_field(b"refused: config rule ", u64::from(rule));
    push_place(&mut last, plp);
    last.push(b"\n");
    last
}

#[tactic(auto, unfolding(crate::specs::Outcomes::last_line))]
fn capacity_refused_line(test: u8, plp: Option<u8>, need: u64, have: u64) -> Line
    ensures { result ≡ line_of_outcome (Outcome.CapacityRefused test plp need have) }
{
    let mut last = Line::new();
    last.push_field(b"refused: capacity test ", u64::from(test));
    push_place(&mut last, plp);
    last.push_field(b" need ", need);
    last.push_field(b" have ", have);
    last.push(b"\n");
    last
}

fn config_refused_line(cause: ConfigCause) -> Line
    ensures { result ≡ line_of_outcome (Outcome.ConfigRefused cause) }
{
    match cause {
        ConfigCause::Text { line, why } => text_refused_line(line, why),
        ConfigCause::Rule { rule, plp } => rule_refused_line(rule, plp),
    }
}

fn line_with(text: &[u8]) -> Line
    requires { length text.now ≤ ROOM }
    ensures { result ≡ text.now }
{
    let mut line = Line::new();
    line.push(text);
    line
}

/// The last line that is said after a run with this outcome.
#[tactic(auto, unfolding(crate::specs::Outcomes::last_line))]
pub fn last_line(outcome: Outcome) -> Line
    ensures { result ≡ line_of_outcome outcome }
{
    match outcome {
        Outcome::Done => Line::new(),
        Outcome::Usage | Outcome::WrongInputs { .. } => line_with(b"refused: usage\n"),
        Outcome::ConfigRefused { cause } => config_refused_line(cause),
        Outcome::CapacityRefused {
            test,
            plp,
            need,
            have,
        } => capacity_refused_line(test, plp, need, have),
        Outcome::InputRefused { input, packet } => input_refused_line(input, packet),
        Outcome::NoSuperframe => line_with(b"refused: no superframe\n"),
        Outcome::RecordRefused { number, why } => record_refused_line(number, why),
        Outcome::UnknownPlp { plp_id } => unknown_plp_line(plp_id),
        Outcome::TooLong { count } => too_long_line(count),
        Outcome::PacketRefused { at, why } => packet_refused_line(at, why),
        Outcome::Differs { frame } => differs_line(frame),
        Outcome::ReadFault => line_with(b"fault: read\n"),
        Outcome::WriteFault => line_with(b"fault: write\n"),
        Outcome::OutOfMemory => line_with(b"fault: memory\n"),
        Outcome::TrialFault => line_with(b"fault: trial\n"),
    }
}
