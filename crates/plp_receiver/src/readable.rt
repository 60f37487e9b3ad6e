// Which records of frames are readable (EN 302 755, clauses 5 to 8).
ghost use Rattle.std.specs.Prelude.{◌≡◌, ◌&&◌, ◌-◌, ◌<◌, ◌≤◌, ◌==◌, true, Some, None, List, length, take, replicate};
ghost use Rattle.std.specs.Prelude.{◌++◌, if◌then◌else◌};
ghost use Rattle.std.specs.Bool.{beq};
ghost use Rattle.std.specs.Cmp.Lexicographic.{pointwise};
ghost use Rattle.l1_signal.specs.Laws.{crc_behind};
ghost use Rattle.l1_signal.specs.declared.lengths.TheConstants.{CRC_BITS};
ghost use Rattle.frame_groups.specs.Readable.{told_dynamic, post_agrees, BlockSize, has_size, block_sizes, coming};
ghost use Rattle.frame_groups.specs.Readable.{shape_agrees, readable};
ghost use Rattle.plp_receiver.specs.Sizes.{size_of};

use crate::parts::begun_count;
use bit_slice::BitSlice;
use frame_groups::{
    Network, is_network_conf, is_of_frame, is_pre, map_passes, read_dynamic, tell_shape,
};
use l1_signal::{CRC_BITS, L1Dyn, check_post, conf_len, dyn_len, post_law, post_len};
use plp_config::Plan;
use scheduler::Shape;
use site_frame::{Blocks, BlocksIter, Cells};

// Whether L1-post ends with its CRC_32.
fn has_crc(post: &BitSlice<'_>) -> bool
    requires { CRC_BITS ≤ length post.now }
    ensures { result ≡ pointwise beq post.now (crc_behind true (take (length post.now - CRC_BITS) post.now)) }
{
    post_law();
    check_post(post.sub(0, post.len())).is_ok()
}

// Whether L1-post is one of the network and of a frame. Its dynamic part is given to `dynamic` then.
fn is_post(network: &Network<'_>, number: u64, post: &BitSlice<'_>, dynamic: &mut L1Dyn) -> bool
    requires rows { length dynamic.old.plps ≡ length network.now.plps }
    ensures agrees { result ≡ post_agrees network.now number post.now }
    ensures told { result ≡ true → told_dynamic network.now post.now ≡ Some dynamic.new }
    ensures rows { length dynamic.new.plps ≡ length dynamic.old.plps }
{
    let plps = network.plan().config().plps.len();
    let conf = conf_len(plps);
    post.len() == post_len(plps)
        && has_crc(post)
        && is_network_conf(network, &post.sub(0, conf))
        && read_dynamic(&post.sub(conf, dyn_len(plps)), dynamic)
        && is_of_frame(network.plan(), number, dynamic)
}

fn is_block(id: u8, len: u32, plp_id: u8, block: &[u8]) -> bool
    ensures { result ≡ ((plp_id == id) && (length block.now == len)) }
{
    plp_id == id && block.len() == len as usize
}

// Whether so many blocks of a PLP come next. Goes past them then.
fn come_next(rest: &mut BlocksIter<'_>, id: u8, len: u32, count: u16) -> bool
    ensures { (more : List BlockSize) → pointwise has_size rest.old (replicate count (size_of id len) ++ more)
        ≡ (result && pointwise has_size rest.new more) }
{
    for _ in 0..count {
        let Some((plp_id, block)) = rest.next() else {
            return false;
        };
        if !is_block(id, len, plp_id, block) {
            return false;
        }
    }
    true
}

// Whether blocks are those of a frame if it has this shape: PLP by PLP, as many as it tells of those whose epoch begins
// in it, each with its length.
fn has_blocks(plan: &Plan, shape: &Shape, number: u64, blocks: &Blocks<'_>) -> bool
    requires { length shape.now.counts ≡ length plan.now.plps }
    ensures { result ≡ pointwise has_size blocks.now (block_sizes plan.now (coming plan.now number shape.now)) }
{
    let mut rest = blocks.iter();
    for plp in 0..shape.len() {
        let id = plan.plp_id(plp);
        let len = plan.block_bytes(plp);
        let count = begun_count(plan, shape, number, plp);
        if !come_next(&mut rest, id, len, count) {
            return false;
        }
    }
    rest.next().is_none()
}

// Whether blocks and cells are those of a frame if it has this shape, and its cells stand apart, in the frame.
fn has_shape(
    plan: &Plan,
    shape: &Shape,
    number: u64,
    blocks: &Blocks<'_>,
    cells: &Cells<'_>,
) -> bool
    requires { length shape.now.counts ≡ length plan.now.plps }
    ensures { result ≡ shape_agrees plan.now number blocks.now cells.now shape.now }
{
    has_blocks(plan, shape, number, blocks)
        && cells.len() == plan.config().cells
        && map_passes(plan, shape)
}

/// Whether the record of a frame with these parts is readable. The shape that it tells is given to `shape` then.
#[tactic(auto, unfolding(frame_groups::specs::Readable::readable))]
pub fn is_readable(
    network: &Network<'_>,
    number: u64,
    pre: &BitSlice<'_>,
    post: &BitSlice<'_>,
    blocks: &Blocks<'_>,
    cells: &Cells<'_>,
    dynamic: &mut L1Dyn,
    shape: &mut Shape,
) -> bool
    requires rows { length dynamic.old.plps ≡ length network.now.plps }
    requires plps { length shape.old.counts ≡ length network.now.plps }
    ensures value { readable network.now number pre.now post.now blocks.now cells.now
        ≡ (if result then Some shape.new else None) }
    ensures agrees { result ≡ true → shape_agrees network.now number blocks.now cells.now shape.new ≡ true }
    ensures rows { length dynamic.new.plps ≡ length dynamic.old.plps }
    ensures plps { length shape.new.counts ≡ length shape.old.counts }
{
    if !is_pre(network.plan(), pre, true) || !is_post(network, number, post, dynamic) {
        return false;
    }
    tell_shape(dynamic, shape);
    has_shape(network.plan(), shape, number, blocks, cells)
}
