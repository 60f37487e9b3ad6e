// The bytes of a block, lent piece by piece.
ghost use Rattle.std.specs.Prelude.{[], ◌≡◌, ◌++◌, ◌<◌, IfNone, IfSome, length, min};
ghost use Rattle.linked_pool.specs.Pool.{chunk_len};

use crate::chains::Chains;
use crate::chunk::{CHUNK, front_of};
use std::marker::Model;

/// The bytes of a block that were not lent yet.
#[derive(Drop)]
pub struct Pieces<'a> {
    pub(crate) chains: &'a Chains,
    pub(crate) chunks: &'a [[u8; CHUNK]],
    pub(crate) chain: usize,
    pub(crate) offset: usize,
    // The chunk in which they begin, if there are any.
    pub(crate) chunk: u32,
    pub(crate) left: usize,
}

impl<'a> Model for Pieces<'a> {
    ghost use Rattle.std.specs.Prelude.{List, ℕ};
    ghost use Rattle.linked_pool.specs.Blocks.{rest_bytes, IsRest};

    ghost Value = { List ℕ };

    ghost view = { λ p. rest_bytes p.chains.now p.chunks.now p.chain p.offset p.left };

    ghost invariant = { λ p. IsRest p.chains.now p.chunks.now p.chain p.offset p.chunk p.left };
}

impl<'a> Pieces<'a> {
    /// Lends the next bytes, a whole chunk or what is left; None if nothing is.
    pub fn next(&mut self) -> Option<&'a [u8]>
        ensures none { IfNone result ((self.old ≡ []) × (self.new ≡ [])) }
        ensures some { IfSome result (λ piece. (self.old ≡ piece.now ++ self.new) × (0 < length piece.now)
            × (length piece.now ≡ min (length self.old) chunk_len)) }
    {
        let left = self.left;
        if left == 0 {
            return None;
        }
        let at = self.chunk;
        let chunks = self.chunks;
        let count = left.min(CHUNK);
        let piece = front_of(chunks, at, count);
        self.chunk = self.chains.after(at);
        self.offset += 1;
        self.left = left - count;
        Some(piece)
    }
}
