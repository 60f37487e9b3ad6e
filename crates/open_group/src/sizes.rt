// How many blocks and bytes the record of a frame has.
ghost use Rattle.std.specs.Prelude.{◌≡◌, ◌<◌, ◌≤◌, ◌+◌, ◌*◌, length, slice_index, sum_by};
ghost use Rattle.plp_config.specs.Capacity.{block_bytes};
ghost use Rattle.cell_map.specs.CellMap.{Passes};
ghost use Rattle.plp_config.specs.Places.{places};
ghost use Rattle.record_laws.specs.Laws.{rest_size};
ghost use Rattle.open_group.specs.WriterLaws.{post_size};
ghost use Rattle.open_group.specs.RecordBytes.{own_count};
ghost use Rattle.open_group.specs.Sizes.{most_plp};

use l1_signal::{CRC_BITS, MOST_DYN_BITS, PRE_BYTES, conf_len};
use plp_config::Plan;
use record_laws::fit_law;
use scheduler::Shape;

// The bytes of the numbers of a rest: of the bits of L1-post, of the blocks, and of the cells.
const NUMBERS: u32 = 4 + 2 + 4;

// The bytes of a block's head, and of a cell's word.
const BLOCK_HEAD: u32 = 4;

const WORD: u32 = 4;

// How many blocks of a PLP stand in the record of a frame whose shape tells so many.
fn own_count(plan: &Plan, number: u64, shape: &Shape, plp: usize) -> u16
    requires plp { plp < length plan.now.plps }
    requires plps { length shape.now.counts ≡ length plan.now.plps }
    ensures value { result ≡ own_count plan.now number shape.now plp }
    ensures most { result ≤ slice_index shape.now.counts plp }
{
    if !plan.is_first(plp, number) {
        return 0;
    }
    shape.count(plp)
}

/// How many blocks stand in the record of a frame.
pub fn block_count(plan: &Plan, number: u64, shape: &Shape) -> u16
    requires plps { length shape.now.counts ≡ length plan.now.plps }
    requires passes { Passes plan.now shape.now }
    ensures { result ≡ sum_by (own_count plan.now number shape.now) (places plan.now) }
{
    fit_law();
    plan.rules_law();
    let mut count = 0;
    for plp in 0..shape.len() {
        count += own_count(plan, number, shape, plp);
    }
    count
}

// The bytes of the blocks of a PLP.
fn plp_len(plan: &Plan, number: u64, shape: &Shape, plp: usize) -> u32
    requires plp { plp < length plan.now.plps }
    requires plps { length shape.now.counts ≡ length plan.now.plps }
    requires passes { Passes plan.now shape.now }
    ensures value { result ≡ own_count plan.now number shape.now plp * (4 + block_bytes plan.now plp) }
    ensures most { result ≤ most_plp }
{
    plan.rules_law();
    u32::from(own_count(plan, number, shape, plp)) * (BLOCK_HEAD + plan.block_bytes(plp))
}

// The bytes of all blocks.
fn blocks_len(plan: &Plan, number: u64, shape: &Shape) -> u32
    requires plps { length shape.now.counts ≡ length plan.now.plps }
    requires passes { Passes plan.now shape.now }
    ensures value { result
        ≡ sum_by (λ plp. own_count plan.now number shape.now plp * (4 + block_bytes plan.now plp)) (places plan.now) }
    ensures most { result ≤ most_plp * length plan.now.plps }
{
    plan.rules_law();
    let mut len = 0;
    for plp in 0..shape.len() {
        len += plp_len(plan, number, shape, plp);
    }
    len
}

/// How many bytes follow the head of a frame's record, if the dynamic part of L1-post has so many bits.
pub fn rest_len(plan: &Plan, number: u64, shape: &Shape, dynamic: usize) -> u32
    requires plps { length shape.now.counts ≡ length plan.now.plps }
    requires passes { Passes plan.now shape.now }
    requires short { dynamic ≤ MOST_DYN_BITS }
    ensures { result ≡ rest_size plan.now (post_size plan.now dynamic) (own_count plan.now number shape.now) }
{
    plan.rules_law();
    let bits = conf_len(plan.config().plps.len()) + dynamic + CRC_BITS;
    let l1 = (PRE_BYTES + bits.div_ceil(8)) as u32;
    l1 + NUMBERS + blocks_len(plan, number, shape) + WORD * plan.config().cells
}
