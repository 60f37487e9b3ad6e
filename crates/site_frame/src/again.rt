// Rows that repeat the row before: each cell is the next one of its block.
ghost use Rattle.std.specs.Prelude.{◌≡◌, ◌+◌, ◌*◌, ◌^◌, ◌<◌, ◌≤◌, true, length, take, drop};
ghost use Rattle.byteorder.specs.Endian.{big_number};
ghost use Rattle.cell_map.specs.Stretches.{HasStretch, stretch_len};
ghost use Rattle.site_frame.specs.Lines.{FitsStretch, Follows, IsAgain, IsLast, IsStripOf};
ghost use Rattle.site_frame.specs.Words.{words};

use crate::line::{put_stretch, put_word};
use byteorder::{BigEndian, ByteOrder};
use cell_map::{Cell, Stretch, Strip};
use plp_config::Plan;
use scheduler::Shape;

/// The word at a place.
pub fn word_at(bytes: &[u8], at: usize) -> u32
    requires { at + 4 ≤ length bytes.now }
    ensures { result ≡ big_number 4 (drop at bytes.now) }
{
    BigEndian::read_u32(&bytes[at..])
}

// Writes a row behind the row before it, of so many words each.
fn put_again(
    plan: &Plan,
    shape: &Shape,
    frame_idx: u8,
    address: u32,
    before: u32,
    width: u32,
    out: &mut [u8],
)
    requires room { 4 * (before + width + width) ≤ length out.old }
    requires short { length out.old < 2 ^ 34 }
    requires words { take (4 * (before + width)) out.old ≡ words plan.now shape.now frame_idx address (before + width) }
    requires again { IsAgain plan.now shape.now frame_idx (address + before) width }
    ensures words { take (4 * (before + width + width)) out.new ≡ words plan.now shape.now frame_idx address
        (before + width + width) }
    ensures len { length out.new ≡ length out.old }
{
    let from = 4 * before as usize;
    let to = from + 4 * width as usize;
    for k in 0..width {
        let place = 4 * k as usize;
        let word = word_at(out, from + place);
        put_word(word + 1, to + place, out);
    }
}

// Whether each cell of the one strip is followed by that of the other.
fn follows(last: Strip, next: Strip) -> bool
    ensures { result ≡ true → Follows last next }
{
    last.blocks > 0
        && last.blocks == next.blocks
        && last.columns == next.columns
        && last.stride == next.stride
        && last.first.ordinal == next.first.ordinal
        && u64::from(last.first.cell) + 1 == u64::from(next.first.cell)
}

/// No strip.
pub const NO_STRIP: Strip = Strip {
    first: Cell {
        ordinal: 0,
        cell: 0,
    },
    stride: 0,
    columns: 0,
    blocks: 0,
};

/// The strip of a stretch, if it is one.
pub fn strip_of(stretch: Stretch) -> Strip
    ensures { IsStripOf stretch result }
{
    match stretch {
        Stretch::Dummy(_) => NO_STRIP,
        Stretch::Blocks(strip) => strip,
    }
}

/// Writes the words of a stretch behind so many words, of which the last are those of a strip, and answers how many.
pub fn put_next(
    plan: &Plan,
    shape: &Shape,
    frame_idx: u8,
    address: u32,
    done: u32,
    last: Strip,
    stretch: Stretch,
    out: &mut [u8],
) -> u32
    requires fits { FitsStretch stretch }
    requires has { HasStretch plan.now shape.now frame_idx (address + done) stretch }
    requires last { 0 < last.blocks → IsLast plan.now shape.now frame_idx address done last }
    requires room { 4 * (done + stretch_len stretch) ≤ length out.old }
    requires short { length out.old < 2 ^ 34 }
    requires words { take (4 * done) out.old ≡ words plan.now shape.now frame_idx address done }
    ensures count { result ≡ stretch_len stretch }
    ensures words { take (4 * (done + stretch_len stretch)) out.new
        ≡ words plan.now shape.now frame_idx address (done + stretch_len stretch) }
    ensures len { length out.new ≡ length out.old }
{
    let strip = strip_of(stretch);
    if follows(last, strip) {
        let width = strip.columns * strip.blocks;
        put_again(plan, shape, frame_idx, address, done - width, width, out);
        return width;
    }
    put_stretch(stretch, 4 * done as usize, out)
}
