// The lines that `plan` says.
ghost use Rattle.std.specs.Prelude.{◌≡◌, ◌+◌, ◌++◌, ◌<◌, ◌≤◌, ℕ, [], length};
ghost use Rattle.plp_config.specs.SlotTime.{IsSlotLength};
ghost use Rattle.site_top.specs.PlanLines.{network_line as line_of_network, slot_part, size_part, count_part};
ghost use Rattle.site_top.specs.PlanLines.{plp_line as line_of_plp, IsPlanText};
ghost use Rattle.file_run.specs.declared.line.TheConstants.{ROOM};

use config_text::band_word;
use file_run::{Line, Page};
use plp_config::{Config, Plan};

// Digits of a number at most: those of 2^64 - 1.
const DIGITS: usize = 20;

// Bytes of each part of a line at most: those of its keys, and the digits of its numbers.
const SLOT_ROOM: usize = 18 + 4 * DIGITS;

const SIZES_ROOM: usize = 30 + 4 * DIGITS;

const COUNTS_ROOM: usize = 19 + 5 * DIGITS;

#[tactic(auto, unfolding(crate::specs::PlanLines::network_line))]
fn network_line(config: &Config) -> Line
    ensures text { result ≡ line_of_network config.now }
    ensures len { length result ≤ ROOM }
{
    let mut line = Line::new();
    line.push(b"band=");
    line.push(band_word(config.band));
    line.push_field(b" ticks=", u64::from(config.ticks));
    line.push_field(b" frames=", u64::from(config.frames));
    line.push_field(b" cells=", u64::from(config.cells));
    line.push(b"\n");
    line
}

#[tactic(auto, unfolding(crate::specs::PlanLines::slot_part))]
fn push_slot(line: &mut Line, plan: &Plan, plp: usize, num: u64, den: u64)
    requires configured { plp < length plan.now.plps }
    requires room { length line.old + SLOT_ROOM ≤ ROOM }
    ensures text { line.new ≡ line.old ++ slot_part plan.now plp num den }
    ensures len { length line.new ≤ length line.old + SLOT_ROOM }
{
    let id = plan.plp_id(plp);
    line.push_field(b"plp=", u64::from(id));
    line.push_field(b" slot=", num);
    line.push_field(b"/", den);
    line.push_field(b" delay=", plan.delay(plp));
}

#[tactic(auto, unfolding(crate::specs::PlanLines::size_part))]
fn push_sizes(line: &mut Line, plan: &Plan, plp: usize)
    requires configured { plp < length plan.now.plps }
    requires room { length line.old + SIZES_ROOM ≤ ROOM }
    ensures text { line.new ≡ line.old ++ size_part plan.now plp }
    ensures len { length line.new ≤ length line.old + SIZES_ROOM }
{
    line.push_field(b" field=", u64::from(plan.field_bytes(plp)));
    line.push_field(b" capacity=", u64::from(plan.capacity(plp)));
    line.push_field(b" need=", plan.need(plp));
    line.push_field(b" cells=", u64::from(plan.frame_room(plp)));
}

#[tactic(auto, unfolding(crate::specs::PlanLines::count_part))]
fn push_counts(line: &mut Line, plan: &Plan, plp: usize)
    requires configured { plp < length plan.now.plps }
    requires room { length line.old + COUNTS_ROOM ≤ ROOM }
    ensures text { line.new ≡ line.old ++ count_part plan.now plp }
    ensures len { length line.new ≤ length line.old + COUNTS_ROOM }
{
    let ticks = u64::from(plan.config().ticks);
    line.push_field(b" window=", plan.window(plp));
    line.push_field(b" slots=", plan.slots_by(plp, ticks));
    line.push_field(b",", plan.slots_by(plp, 2 * ticks));
    line.push_field(b",", plan.slots_by(plp, 3 * ticks));
    line.push_field(b",", plan.slots_by(plp, 4 * ticks));
    line.push(b"\n");
}

fn plp_line(plan: &Plan, plp: usize) -> Line
    requires { plp < length plan.now.plps }
    ensures text { (n : ℕ) × (d : ℕ) × IsSlotLength plan.now plp n d × (result ≡ line_of_plp plan.now plp n d) }
    ensures len { length result ≤ ROOM }
{
    let (num, den) = plan.slot_length(plp);
    let mut line = Line::new();
    push_slot(&mut line, plan, plp, num, den);
    push_sizes(&mut line, plan, plp);
    push_counts(&mut line, plan, plp);
    line
}

/// Puts the lines of a plan onto a page.
pub fn push_lines(page: &mut Page, plan: &Plan)
    requires { page.old ≡ [] }
    ensures { IsPlanText plan.now page.new }
{
    let config = plan.config();
    page.push(network_line(config).as_bytes());
    for plp in 0..config.plps.len() {
        page.push(plp_line(plan, plp).as_bytes());
    }
}
