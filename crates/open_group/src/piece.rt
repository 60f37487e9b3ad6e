// A buffer that takes its memory first.
ghost use Rattle.std.specs.Prelude.{◌≡◌, length};
ghost use Rattle.open_group.specs.RecordBytes.{scrambled_bytes};

use bb_frame::scramble;
use bit_slice::OutOfMemory;
use linked_pool::BlockRef;
use plp_config::Plan;
use scheduler::Shape;
use site_frame::fill_words;
use std::alloc::Global;
use std::marker::Model;

/// The most bytes of a piece. The greatest block, and the front of the greatest record, fit.
pub const PIECE: usize = 8192;

/// At most [`PIECE`] bytes.
#[derive(Drop)]
pub struct Piece {
    bytes: Vec<u8>,
    len: usize,
}

impl Model for Piece {
    ghost use Rattle.std.specs.Prelude.{◌≡◌, ◌≤◌, List, ℕ, take, vec_len};
    ghost use Rattle.open_group.specs.RecordBytes.{piece_len};

    ghost Value = { List ℕ };

    ghost view = { λ p. take p.len p.bytes.items };

    ghost invariant = { λ p. (vec_len p.bytes ≡ piece_len) × (p.len ≤ piece_len) };
}

// Copies the bytes of a block to a place of the same length, scrambled.
fn copy_scrambled(block: &BlockRef<'_>, out: &mut [u8])
    requires { length out.old ≡ length block.now }
    ensures bytes { out.new ≡ scrambled_bytes block.now }
    ensures len { length out.new ≡ length out.old }
{
    block.copy_to(out);
    scramble(out);
}

impl Piece {
    ghost use Rattle.std.specs.Prelude.{◌≡◌, ◌≤◌, ◌<◌, ◌+◌, ◌*◌, ◌++◌, [], length, IfOk, true, false};
    ghost use Rattle.cell_map.specs.CellMap.{Passes};
    ghost use Rattle.site_frame.specs.Words.{words};
    ghost use Rattle.open_group.specs.RecordBytes.{piece_len, scrambled_bytes};

    /// No bytes. It takes all the memory that it needs.
    pub fn open(alloc: Global) -> Result<Piece, OutOfMemory>
        ensures { IfOk result (λ p. p ≡ []) }
    {
        let bytes = vec![in alloc; 0; PIECE]?;
        Ok(Piece { bytes, len: 0 })
    }

    /// Gives all bytes up.
    pub fn clear(&mut self)
        ensures { self.new ≡ [] }
    {
        self.len = 0;
    }

    /// Appends bytes.
    pub fn put(&mut self, bytes: &[u8])
        requires { length self.old + length bytes.now ≤ piece_len }
        ensures { self.new ≡ self.old ++ bytes.now }
    {
        let end = self.len + bytes.len();
        self.bytes[self.len..end].copy_from_slice(bytes);
        self.len = end;
    }

    /// Appends the bytes of a block, scrambled.
    pub fn put_block(&mut self, block: &BlockRef<'_>)
        requires { length self.old + length block.now ≤ piece_len }
        ensures { self.new ≡ self.old ++ scrambled_bytes block.now }
    {
        let end = self.len + block.len();
        copy_scrambled(block, &mut self.bytes[self.len..end]);
        self.len = end;
    }

    /// Appends the words of so many cells of a frame from an address on. The frame is told by its number in the
    /// superframe.
    pub fn put_words(&mut self, plan: &Plan, shape: &Shape, frame_idx: u8, address: u32, count: u32)
        requires plps { length shape.now.counts ≡ length plan.now.plps }
        requires passes { Passes plan.now shape.now }
        requires inside { address + count ≤ plan.now.cells }
        requires room { length self.old + 4 * count ≤ piece_len }
        ensures { self.new ≡ self.old ++ words plan.now shape.now frame_idx address count }
    {
        let end = self.len + 4 * count as usize;
        fill_words(
            plan,
            shape,
            frame_idx,
            address,
            count,
            &mut self.bytes[self.len..end],
        );
        self.len = end;
    }

    /// How many bytes there are.
    pub fn len(&self) -> usize
        ensures value { result ≡ length self.now }
        ensures short { result ≤ piece_len }
    {
        self.len
    }

    /// Whether there is no byte.
    pub fn is_empty(&self) -> bool
        ensures yes { result ≡ true → self.now ≡ [] }
        ensures no { result ≡ false → 0 < length self.now }
    {
        self.len == 0
    }

    /// The bytes.
    pub fn as_slice(&self) -> &[u8]
        ensures { result.now ≡ self.now }
    {
        &self.bytes[..self.len]
    }
}
