// A block of a list, lent.
ghost use Rattle.std.specs.Prelude.{◌≡◌, ◌↔◌, ◌+◌, ◌≤◌, ◌++◌, IsTrue, length, take};

use crate::chains::Chains;
use crate::chunk::CHUNK;
use crate::pieces::Pieces;
use std::marker::Model;

/// A block of a list, lent by its pool: a string of bytes.
#[derive(Drop)]
pub struct BlockRef<'a> {
    pub(crate) chains: &'a Chains,
    pub(crate) chunks: &'a [[u8; CHUNK]],
    // Its chain, its place there, and the chunk at that place.
    pub(crate) chain: usize,
    pub(crate) offset: usize,
    pub(crate) first: u32,
    pub(crate) len: usize,
}

impl<'a> Model for BlockRef<'a> {
    ghost use Rattle.std.specs.Prelude.{List, ℕ};
    ghost use Rattle.linked_pool.specs.Blocks.{ref_bytes, IsRef};

    ghost Value = { List ℕ };

    ghost view = { λ b. ref_bytes b.chains.now b.chunks.now b.chain b.offset b.len };

    ghost invariant = { λ b. IsRef b.chains.now b.chunks.now b.chain b.offset b.first b.len };
}

impl<'a> BlockRef<'a> {
    /// How many bytes it has.
    pub fn len(&self) -> usize
        ensures { result ≡ length self.now }
    {
        self.len
    }

    /// Whether it has no byte.
    pub fn is_empty(&self) -> bool
        ensures { IsTrue result ↔ (length self.now ≡ 0) }
    {
        self.len() == 0
    }

    /// Its bytes, piece by piece.
    pub fn pieces(&self) -> Pieces<'a>
        ensures { result ≡ self.now }
    {
        Pieces {
            chains: self.chains,
            chunks: self.chunks,
            chain: self.chain,
            offset: self.offset,
            chunk: self.first,
            left: self.len,
        }
    }

    /// Copies its bytes to a place of the same length.
    pub fn copy_to(&self, out: &mut [u8])
        requires { length out.old ≡ length self.now }
        ensures { out.new ≡ self.now }
    {
        let mut pieces = self.pieces();
        let mut at = 0;
        while let Some(piece) = pieces.next() {
            put_at(out, at, piece);
            at += piece.len();
        }
    }
}

// Copies a piece to a place.
fn put_at(out: &mut [u8], at: usize, piece: &[u8])
    requires { at + length piece.now ≤ length out.old }
    ensures front { take (at + length piece.now) out.new ≡ take at out.old ++ piece.now }
    ensures len { length out.new ≡ length out.old }
{
    out[at..at + piece.len()].copy_from_slice(piece);
}
