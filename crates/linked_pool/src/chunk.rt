// The bytes of chunks.
ghost use Rattle.std.specs.Prelude.{ℕ, [], ◌≡◌, ◌++◌, ◌<◌, ◌≤◌, ◌*◌, ◌-◌, ◌%◌, length, take, drop, slice_index_or};
ghost use Rattle.terms.specs.Bits.{bytes_of};
ghost use Rattle.linked_pool.specs.Pool.{chunks_for as chunks_for_len};
ghost use Rattle.linked_pool.specs.Blocks.{piece_of, Fills};
ghost use Rattle.linked_pool.specs.Chains.{occurs};

use crate::chains::Chains;
use bit_slice::BitSlice;

/// Bytes of a chunk.
pub const CHUNK: usize = 256;

/// A block fills at most so many chunks for each [`FEWEST_CELLS`] of its cells.
pub const CHUNKS_OF_CELLS: u32 = 7;

/// The fewest cells that a block has: those of a short FECFRAME in 256-QAM.
pub const FEWEST_CELLS: u32 = 2_025;

/// The chunks that so many bytes fill: one at least.
pub fn chunks_for(len: usize) -> usize
    ensures { result ≡ chunks_for_len len }
{
    len.div_ceil(CHUNK).max(1)
}

/// The first bytes of a chunk.
pub fn front_of<'b>(chunks: &'b [[u8; CHUNK]], at: u32, count: usize) -> &'b [u8]
    requires at { at < length chunks.now }
    requires count { count ≤ CHUNK }
    ensures { result.now ≡ take count (slice_index_or chunks.now at []) }
{
    let chunk = &chunks[at as usize];
    &chunk[..count]
}

// Writes bytes to the front of a chunk.
fn put(chunk: &mut [u8; CHUNK], piece: &BitSlice<'_>)
    requires whole { length piece.now % 8 ≡ 0 }
    requires short { length piece.now ≤ 8 * CHUNK }
    ensures { chunk.new ≡ bytes_of piece.now ++ drop (length (bytes_of piece.now)) chunk.old }
{
    let count = piece.len() / 8;
    piece.copy_bytes(&mut chunk[..count]);
}

// The piece of a block that its i-th chunk takes.
fn piece_at<'b>(block: &BitSlice<'b>, i: u32) -> BitSlice<'b>
    requires whole { length block.now % 8 ≡ 0 }
    requires there { CHUNK * i ≤ length (bytes_of block.now) }
    ensures piece { bytes_of result ≡ piece_of (bytes_of block.now) i }
    ensures whole { length result % 8 ≡ 0 }
    ensures short { length result ≤ 8 * CHUNK }
{
    let from = 8 * CHUNK * i as usize;
    let end = block.len().min(from + 8 * CHUNK);
    block.sub(from, end - from)
}

/// Writes a block into the first free chunks.
pub fn fill(chains: &Chains, chunks: &mut [[u8; CHUNK]], count: u32, block: &BitSlice<'_>)
    requires bytes { length block.now % 8 ≡ 0 }
    requires free { 0 < length chains.now }
    requires some { 0 < count }
    requires enough { count ≤ length (slice_index_or chains.now 0 []) }
    requires tight { CHUNK * (count - 1) ≤ length (bytes_of block.now) }
    requires there { (c : ℕ) → 0 < occurs c chains.now → c < length chunks.old }
    requires apart { (c : ℕ) → occurs c chains.now ≤ 1 }
    requires whole { (c : ℕ) → c < length chunks.old → length (slice_index_or chunks.old c []) ≡ CHUNK }
    ensures { Fills (slice_index_or chains.now 0 []) (bytes_of block.now) count chunks.old chunks.new }
{
    let mut chunk = chains.first(0);
    for i in 0..count {
        put(&mut chunks[chunk as usize], &piece_at(block, i));
        chunk = chains.after(chunk);
    }
}
