// Words that are written one behind the other.
ghost use Rattle.std.specs.Prelude.{ℕ, ◌≡◌, ◌+◌, ◌*◌, ◌<◌, ◌≤◌, ◌^◌, ◌++◌, length, take};
ghost use Rattle.byteorder.specs.Endian.{big_bytes};
ghost use Rattle.plp_config.specs.declared.config.Config.{Config};
ghost use Rattle.scheduler.specs.Shape.{FrameShape};
ghost use Rattle.cell_map.specs.Stretches.{HasStretch, stretch_len};
ghost use Rattle.site_frame.specs.Lines.{line_bytes, strip_bytes, FitsStrip, FitsStretch};
ghost use Rattle.site_frame.specs.Words.{words};

use byteorder::{BigEndian, ByteOrder};
use cell_map::{Stretch, Strip};

// The word of a dummy cell.
const DUMMY_WORD: u32 = 0xFFFF_FFFF;

// The words of one block: its cells are fewer.
const BLOCK_WORDS: u32 = 32_768;

// The columns into which the time interleaver writes a block.
const COLUMNS: u32 = 5;

/// Writes a word at a place.
pub fn put_word(word: u32, at: usize, out: &mut [u8])
    requires { at + 4 ≤ length out.old }
    ensures front { take (at + 4) out.new ≡ take at out.old ++ big_bytes 4 word }
    ensures len { length out.new ≡ length out.old }
{
    BigEndian::write_u32(&mut out[at..at + 4], word);
}

// Writes words, each greater by a stride than the one before.
#[inline(always)]
fn put_line(word: u32, stride: u32, count: u32, at: usize, out: &mut [u8])
    requires room { at + 4 * count ≤ length out.old }
    requires small { (z : ℕ) → z < count → word + z * stride < 2 ^ 32 }
    ensures front { take (at + 4 * count) out.new ≡ take at out.old ++ line_bytes word stride count }
    ensures len { length out.new ≡ length out.old }
{
    for z in 0..count {
        put_word(word + z * stride, at + 4 * z as usize, out);
    }
}

// Writes the words of a strip. `columns` are told apart, so that a number that is known unrolls the inner loop.
#[inline(always)]
fn put_blocks(strip: Strip, columns: u32, at: usize, out: &mut [u8])
    requires columns { columns ≡ strip.columns }
    requires fits { FitsStrip strip }
    requires room { at + 4 * (strip.columns * strip.blocks) ≤ length out.old }
    ensures front { take (at + 4 * (strip.columns * strip.blocks)) out.new ≡ take at out.old
        ++ strip_bytes strip strip.blocks }
    ensures len { length out.new ≡ length out.old }
{
    for b in 0..strip.blocks {
        let word = (strip.first.ordinal + b) * BLOCK_WORDS + strip.first.cell;
        let place = at + 4 * (columns as usize * b as usize);
        put_line(word, strip.stride, columns, place, out);
    }
}

fn put_strip(strip: Strip, at: usize, out: &mut [u8])
    requires fits { FitsStrip strip }
    requires room { at + 4 * (strip.columns * strip.blocks) ≤ length out.old }
    ensures front { take (at + 4 * (strip.columns * strip.blocks)) out.new ≡ take at out.old
        ++ strip_bytes strip strip.blocks }
    ensures len { length out.new ≡ length out.old }
{
    if strip.columns == COLUMNS {
        put_blocks(strip, COLUMNS, at, out);
    } else {
        put_blocks(strip, strip.columns, at, out);
    }
}

/// Writes the words of a stretch at a place, and answers how many.
pub fn put_stretch(stretch: Stretch, at: usize, out: &mut [u8]) -> u32
    requires fits { FitsStretch stretch }
    requires room { at + 4 * stretch_len stretch ≤ length out.old }
    requires short { length out.old < 2 ^ 34 }
    ensures count { result ≡ stretch_len stretch }
    ensures front { (c : Config) (shape : FrameShape) (frame_idx address : ℕ)
        → HasStretch c shape frame_idx address stretch
        → take (at + 4 * stretch_len stretch) out.new ≡ take at out.old ++ words c shape frame_idx address
        (stretch_len stretch) }
    ensures len { length out.new ≡ length out.old }
{
    match stretch {
        Stretch::Dummy(count) => {
            put_line(DUMMY_WORD, 0, count, at, out);
            count
        }
        Stretch::Blocks(strip) => {
            put_strip(strip, at, out);
            strip.columns * strip.blocks
        }
    }
}
