// Chunks of memory: those of a block of each PLP.
ghost use Rattle.std.specs.Prelude.{◌≡◌, ◌<◌, ◌≤◌, length};
ghost use Rattle.linked_pool.specs.Pool.{chunks_for};
ghost use Rattle.plp_config.specs.Capacity.{block_bytes};

use linked_pool::CHUNK;
use plp_config::Plan;

/// The chunks of the pool that a block of a PLP fills.
pub fn block_chunks(plan: &Plan, plp: usize) -> u32
    requires { plp < length plan.now.plps }
    ensures value { result ≡ chunks_for (block_bytes plan.now plp) }
    ensures most { result ≤ 27 }
{
    (plan.block_bytes(plp) as usize).div_ceil(CHUNK).max(1) as u32
}
