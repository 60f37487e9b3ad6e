// What the words of the command line ask for.
ghost use Rattle.std.specs.Prelude.{◌≡◌, ◌≤◌, ◌∷◌, [], IfSome};
ghost use Rattle.std.specs.Option.{option_map};
ghost use Rattle.site_top.specs.Commands.{command_of, shown as shown_by, show_of as show_by, is_input, are_inputs};
ghost use Rattle.site_top.specs.Commands.{gateway_of as gateway_by, modulate_of as modulate_by};
ghost use Rattle.site_top.specs.Commands.{number_named as number_by, common_of as common_by};
ghost use Rattle.site_top.specs.Commands.{common_receive_of as common_receive_by};
ghost use Rattle.site_top.specs.Commands.{common_counted_of as common_counted_by, counted_of as counted_by};
ghost use Rattle.site_top.specs.Commands.{receive_of as receive_by, merge_of as merge_by, trial_of as trial_by, meant};
ghost use Rattle.site_top.specs.Commands.{IsApart, swap_of as swap_by, mend_of as mend_by, compare_of as compare_by};
ghost use Rattle.common_plp.specs.Sharing.{Apart, Joint};

use crate::request::Request;
use config_text::number_within;
use ports::{MOST_FEEDS, Word};

// How many frames the inputs of a trial are for.
const FEWEST_TRIED: u64 = 6;

const MOST_TRIED: u64 = 64;

fn shown<'a>(what: &str, file: &'a str) -> Option<Request<'a>>
    ensures named { option_map meant result ≡ shown_by what.now file.now }
    ensures apart { IfSome result IsApart }
{
    if what == "packets" {
        Some(Request::ShowPackets { file })
    } else if what == "t2mi" {
        Some(Request::ShowT2mi { file })
    } else if what == "frames" {
        Some(Request::ShowFrames { file })
    } else if what == "config" {
        Some(Request::ShowConfig { file })
    } else {
        None
    }
}

// Whether these are names of inputs: not empty, and not that of the output.
#[tactic(auto, using(crate::proofs::RequestLemmas::next_input))]
fn are_inputs(out: &str, ins: &[Word]) -> bool
    ensures { result ≡ are_inputs out.now ins.now }
{
    for word in ins {
        if word.as_str().is_empty() || word.as_str() == out {
            return false;
        }
    }
    true
}

// The command `gateway CONFIG OUT IN..`, if the output is none of the files that are read.
fn gateway_of<'a>(config: &'a str, out: &'a str, ins: &'a [Word]) -> Option<Request<'a>>
    ensures named { option_map meant result ≡ gateway_by Apart config.now out.now ins.now }
    ensures apart { IfSome result IsApart }
{
    if out.is_empty() || config.is_empty() || config == out || !are_inputs(out, ins) {
        return None;
    }
    Some(Request::Gateway { config, out, ins })
}

// The command `common gateway CONFIG OUT IN..`, if the output is none of the files that are read.
fn common_gateway_of<'a>(config: &'a str, out: &'a str, ins: &'a [Word]) -> Option<Request<'a>>
    ensures named { option_map meant result ≡ gateway_by Joint config.now out.now ins.now }
    ensures apart { IfSome result IsApart }
{
    if out.is_empty() || config.is_empty() || config == out || !are_inputs(out, ins) {
        return None;
    }
    Some(Request::CommonGateway { config, out, ins })
}

// Whether this is the name of an input: not empty, and not that of the output.
fn is_input(out: &str, file: &str) -> bool
    ensures { result ≡ is_input out.now file.now }
{
    !file.is_empty() && file != out
}

// The command `modulate CONFIG IN OUT`, if the output is none of the files that are read.
fn modulate_of<'a>(
    modulate: &str,
    config: &'a str,
    input: &'a str,
    out: &'a str,
) -> Option<Request<'a>>
    ensures named { option_map meant result ≡ modulate_by modulate.now config.now input.now out.now }
    ensures apart { IfSome result IsApart }
{
    if modulate == "modulate" && !out.is_empty() && is_input(out, config) && is_input(out, input) {
        return Some(Request::Modulate { config, input, out });
    }
    None
}

// The number from the least to the most whose decimal a word is.
fn number_named(word: &str, least: u64, most: u64) -> Option<u64>
    ensures named { result ≡ number_by least most word.now }
    ensures few { IfSome result (λ n. n ≤ most) }
{
    number_within(word.as_bytes(), least, most)
}

// The command `receive CONFIG PLP IN OUT`, if the output is none of the files that are read.
fn receive_of<'a>(
    receive: &str,
    config: &'a str,
    plp: &str,
    input: &'a str,
    out: &'a str,
) -> Option<Request<'a>>
    ensures named { option_map meant result ≡ receive_by receive.now config.now plp.now input.now out.now }
    ensures apart { IfSome result IsApart }
{
    if receive != "receive" || out.is_empty() || !is_input(out, config) || !is_input(out, input) {
        return None;
    }
    let plp_id = number_named(plp, 0, 255)?;
    Some(Request::Receive {
        config,
        plp_id: plp_id as u8,
        input,
        out,
    })
}

// The command `common receive CONFIG PLP IN OUT`, if the output is none of the files that are read.
fn common_receive_of<'a>(
    config: &'a str,
    plp: &str,
    input: &'a str,
    out: &'a str,
) -> Option<Request<'a>>
    ensures named { option_map meant result ≡ common_receive_by config.now plp.now input.now out.now }
    ensures apart { IfSome result IsApart }
{
    if out.is_empty() || !is_input(out, config) || !is_input(out, input) {
        return None;
    }
    let plp_id = number_named(plp, 0, 255)?;
    Some(Request::CommonReceive {
        config,
        plp_id: plp_id as u8,
        input,
        out,
    })
}

// The command `common WHAT CONFIG ..` that has a number of words.
fn common_counted_of<'a>(
    what: &str,
    config: &'a str,
    plp: &str,
    words: &'a [Word],
) -> Option<Request<'a>>
    ensures named { option_map meant result ≡ common_counted_by what.now config.now plp.now words.now }
    ensures apart { IfSome result IsApart }
{
    match words {
        [input, out] if what == "receive" => {
            common_receive_of(config, plp, input.as_str(), out.as_str())
        }
        _ => None,
    }
}

// The command `common WHAT CONFIG ..`.
fn common_of<'a>(what: &str, config: &'a str, words: &'a [Word]) -> Option<Request<'a>>
    ensures named { option_map meant result ≡ common_by what.now config.now words.now }
    ensures apart { IfSome result IsApart }
{
    match words {
        [out, ins @ ..] if what == "gateway" => common_gateway_of(config, out.as_str(), ins),
        [plp, more @ ..] => common_counted_of(what, config, plp.as_str(), more),
        _ => None,
    }
}

// The command `merge CONFIG A B OUT`, if the output is none of the files that are read.
fn merge_of<'a>(config: &'a str, a: &'a str, b: &'a str, out: &'a str) -> Option<Request<'a>>
    ensures named { option_map meant result ≡ merge_by config.now a.now b.now out.now }
    ensures apart { IfSome result IsApart }
{
    if !out.is_empty() && is_input(out, config) && is_input(out, a) && is_input(out, b) {
        return Some(Request::Merge { config, a, b, out });
    }
    None
}

// The command `mend CONFIG OUT IN..`, if it has not too many feeds, and the output is none of the files that are read.
fn mend_of<'a>(config: &'a str, out: &'a str, ins: &'a [Word]) -> Option<Request<'a>>
    ensures named { option_map meant result ≡ mend_by config.now out.now ins.now }
    ensures apart { IfSome result IsApart }
{
    if ins.is_empty() || ins.len() > MOST_FEEDS || out.is_empty() {
        return None;
    }
    if config.is_empty() || config == out || !are_inputs(out, ins) {
        return None;
    }
    Some(Request::Mend { config, out, ins })
}

// The command `swap CONFIG PLP T2MI IN OUT`, if the output is none of the files that are read.
fn swap_of<'a>(
    swap: &str,
    config: &'a str,
    plp: &str,
    t2mi: &'a str,
    input: &'a str,
    out: &'a str,
) -> Option<Request<'a>>
    ensures named { option_map meant result ≡ swap_by swap.now config.now plp.now t2mi.now input.now out.now }
    ensures apart { IfSome result IsApart }
{
    if swap != "swap" || out.is_empty() || !is_input(out, config) {
        return None;
    }
    if !is_input(out, t2mi) || !is_input(out, input) {
        return None;
    }
    let plp_id = number_named(plp, 0, 255)?;
    Some(Request::Swap {
        config,
        plp_id: plp_id as u8,
        t2mi,
        input,
        out,
    })
}

// The command `compare CONFIG A B`.
fn compare_of<'a>(config: &'a str, a: &'a str, b: &'a str) -> Option<Request<'a>>
    ensures named { option_map meant result ≡ compare_by config.now a.now b.now }
    ensures apart { IfSome result IsApart }
{
    if !config.is_empty() && !a.is_empty() && !b.is_empty() {
        return Some(Request::Compare { config, a, b });
    }
    None
}

// The command `trial SEED FRAMES`.
fn trial_of<'a>(seed: &str, frames: &str) -> Option<Request<'a>>
    ensures named { option_map meant result ≡ trial_by seed.now frames.now }
    ensures apart { IfSome result IsApart }
{
    let seed = number_named(seed, 0, u64::MAX)?;
    let frames = number_named(frames, FEWEST_TRIED, MOST_TRIED)?;
    Some(Request::Trial {
        seed,
        frames: frames as u32,
    })
}

// The command `show WHAT FILE`.
fn show_of<'a>(show: &str, what: &str, file: &'a str) -> Option<Request<'a>>
    ensures named { option_map meant result ≡ show_by show.now what.now file.now }
    ensures apart { IfSome result IsApart }
{
    if show == "show" && !file.is_empty() {
        shown(what, file)
    } else {
        None
    }
}

// The command of three words.
fn three_words<'a>(first: &str, second: &'a str, third: &'a str) -> Option<Request<'a>>
    ensures named { option_map meant result ≡ counted_by first.now second.now third.now [] }
    ensures apart { IfSome result IsApart }
{
    if first == "trial" {
        trial_of(second, third)
    } else {
        show_of(first, second, third)
    }
}

// The command of four.
fn four_words<'a>(
    first: &str,
    second: &'a str,
    third: &'a str,
    fourth: &'a str,
) -> Option<Request<'a>>
    ensures named { option_map meant result ≡ counted_by first.now second.now third.now (fourth.now ∷ []) }
    ensures apart { IfSome result IsApart }
{
    if first == "compare" {
        compare_of(second, third, fourth)
    } else {
        modulate_of(first, second, third, fourth)
    }
}

// The command of five.
fn five_words<'a>(
    first: &str,
    second: &'a str,
    third: &'a str,
    fourth: &'a str,
    fifth: &'a str,
) -> Option<Request<'a>>
    ensures named { option_map meant result ≡ counted_by first.now second.now third.now (fourth.now ∷ fifth.now ∷ []) }
    ensures apart { IfSome result IsApart }
{
    if first == "merge" {
        merge_of(second, third, fourth, fifth)
    } else {
        receive_of(first, second, third, fourth, fifth)
    }
}

// The command of three words or more that has a number of words.
fn counted_of<'a>(
    first: &str,
    second: &'a str,
    third: &'a str,
    more: &'a [Word],
) -> Option<Request<'a>>
    ensures named { option_map meant result ≡ counted_by first.now second.now third.now more.now }
    ensures apart { IfSome result IsApart }
{
    match more {
        [] => three_words(first, second, third),
        [fourth] => four_words(first, second, third, fourth.as_str()),
        [fourth, fifth] => five_words(first, second, third, fourth.as_str(), fifth.as_str()),
        [t2mi, input, out] => swap_of(
            first,
            second,
            third,
            t2mi.as_str(),
            input.as_str(),
            out.as_str(),
        ),
        _ => None,
    }
}

/// The command that words name, `None` if they name none.
pub fn request_of<'a>(words: &'a [Word]) -> Option<Request<'a>>
    ensures named { option_map meant result ≡ command_of words.now }
    ensures apart { IfSome result IsApart }
{
    match words {
        [plan, config] => {
            if plan.as_str() == "plan" && !config.as_str().is_empty() {
                Some(Request::Plan {
                    config: config.as_str(),
                })
            } else {
                None
            }
        }
        [gateway, config, out, ins @ ..] if gateway.as_str() == "gateway" => {
            gateway_of(config.as_str(), out.as_str(), ins)
        }
        [mend, config, out, ins @ ..] if mend.as_str() == "mend" => {
            mend_of(config.as_str(), out.as_str(), ins)
        }
        [common, what, config, words @ ..] if common.as_str() == "common" => {
            common_of(what.as_str(), config.as_str(), words)
        }
        [first, second, third, more @ ..] => counted_of(
            first.as_str(),
            second.as_str(),
            third.as_str(),
            more,
        ),
        _ => None,
    }
}
