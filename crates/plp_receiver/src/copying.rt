// Blocks one behind the other.
ghost use Rattle.std.specs.Prelude.{◌≡◌, ◌+◌, ◌*◌, ◌^◌, ◌<◌, ◌≤◌, ◌++◌, ℕ, length, take, drop};
ghost use Rattle.plp_receiver.specs.Taken.{bytes_at};
ghost use Rattle.plp_receiver.specs.Taking.{HaveLength};
ghost use Rattle.plp_receiver.specs.Holds.{block_at};

use site_frame::BlocksIter;

// Writes a block to its place.
fn put_block(out: &mut [u8], at: usize, block: &[u8])
    requires { at + length block.now ≤ length out.old }
    ensures bytes { out.new ≡ take at out.old ++ block.now ++ drop (at + length block.now) out.old }
    ensures len { length out.new ≡ length out.old }
{
    out[at..at + block.len()].copy_from_slice(block);
}

/// Copies the next blocks, so many, one behind the other.
pub fn copy_blocks(out: &mut [u8], len: usize, rest: &mut BlocksIter<'_>, count: usize)
    requires room { count * len ≤ length out.old }
    requires small { (count < 2 ^ 16) × (len < 2 ^ 16) }
    requires there { HaveLength len count rest.old }
    ensures each { (k : ℕ) → k < count → block_at len out.new k ≡ bytes_at rest.old k }
    ensures len { length out.new ≡ length out.old }
{
    for k in 0..count {
        let Some((_, block)) = rest.next() else {
            return;
        };
        put_block(out, k * len, block);
    }
}
