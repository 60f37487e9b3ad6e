// The rest of a frame's record, part by part.
ghost use Rattle.std.specs.Prelude.{◌<◌, ◌^◌, length};
ghost use Rattle.site_frame.specs.Reading.{Gives};
ghost use Rattle.site_frame.specs.Rest.{parts_in};

use crate::blocks::{Blocks, skip};
use crate::cells::Cells;
use crate::cut::{cut_front, u16_front, u32_front};
use bit_slice::BitSlice;

// The bytes of L1-pre with its CRC_32.
const PRE: usize = 25;

/// The parts of a frame's record.
#[derive(Drop)]
pub struct FrameParts<'a> {
    /// L1-pre with its CRC.
    pub pre: BitSlice<'a>,
    /// L1-post.
    pub post: BitSlice<'a>,
    /// The scrambled blocks.
    pub blocks: Blocks<'a>,
    /// The cells by their addresses.
    pub cells: Cells<'a>,
}

// The parts that fill the rest of a record.
#[tactic(auto, unfolding(crate::specs::Rest::parts_in))]
pub(crate) fn split_rest(rest: &[u8]) -> Option<FrameParts<'_>>
    requires { length rest.now < 2 ^ 60 }
    ensures { Gives (λ p. p) result (parts_in rest.now) }
{
    let (pre, rest) = cut_front(rest, PRE)?;
    let (bits, rest) = u32_front(rest)?;
    let (post, rest) = cut_front(rest, (bits as usize).div_ceil(8))?;
    let (count, first) = u16_front(rest)?;
    let rest = skip(count, first)?;
    let (cells, words) = u32_front(rest)?;
    if words.len() != 4 * cells as usize {
        return None;
    }
    Some(FrameParts {
        pre: BitSlice::whole(pre),
        post: BitSlice::whole(post).sub(0, bits as usize),
        blocks: Blocks::new(count, first),
        cells: Cells::new(cells, words),
    })
}
