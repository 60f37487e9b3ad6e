// The blocks of a list, lent one after another.
ghost use Rattle.std.specs.Prelude.{[], ◌∷◌, ◌≡◌, IfNone, IfSome};

use crate::block::BlockRef;
use crate::chains::Chains;
use crate::chunk::{CHUNK, chunks_for};
use crate::tables::{count_at, read};
use std::marker::Model;

/// The blocks of a list from a place on, lent by their pool: those that were not given yet.
#[derive(Drop)]
pub struct Blocks<'a> {
    pub(crate) chains: &'a Chains,
    pub(crate) chunks: &'a [[u8; CHUNK]],
    // At the first chunk of a block: the block's bytes, and its last chunk.
    pub(crate) lens: &'a [usize],
    pub(crate) lasts: &'a [u32],
    pub(crate) chain: usize,
    pub(crate) offset: usize,
    // The chunk in which they begin, if there are any.
    pub(crate) chunk: u32,
    pub(crate) left: usize,
}

impl<'a> Model for Blocks<'a> {
    ghost use Rattle.std.specs.Prelude.{List, ℕ};
    ghost use Rattle.linked_pool.specs.Blocks.{walk_blocks, IsWalk};

    ghost Value = { List (List ℕ) };

    ghost view = { λ b. walk_blocks b.chains.now b.chunks.now b.lens.now b.chain b.offset b.left };

    ghost invariant = { λ b. IsWalk b.chains.now b.chunks.now b.lens.now b.lasts.now b.chain b.offset b.chunk b.left };
}

impl<'a> Blocks<'a> {
    /// Lends the next block; None if all were given.
    pub fn next(&mut self) -> Option<BlockRef<'a>>
        ensures none { IfNone result ((self.old ≡ []) × (self.new ≡ [])) }
        ensures some { IfSome result (λ block. self.old ≡ block ∷ self.new) }
    {
        let left = self.left;
        if left == 0 {
            return None;
        }
        let first = self.chunk;
        let len = count_at(self.lens, first as usize);
        let block = BlockRef {
            chains: self.chains,
            chunks: self.chunks,
            chain: self.chain,
            offset: self.offset,
            first,
            len,
        };
        let last = read(self.lasts, first as usize);
        self.chunk = self.chains.after(last);
        self.offset += chunks_for(len);
        self.left = left - 1;
        Some(block)
    }
}
