// The pool.
ghost use Rattle.std.specs.Prelude.{[], ◌≡◌, ◌<◌, ◌≤◌, ◌↔◌, ◌*◌, ◌%◌, IsTrue, IsErr, IsNone, length, IfOk};
ghost use Rattle.std.specs.Prelude.{IfErr, OnOk, OnErr};
ghost use Rattle.std.specs.Prelude.{IfSome, slice_index_or, drop};
ghost use Rattle.terms.specs.Bits.{bytes_of};
ghost use Rattle.linked_pool.specs.Pool.{chunks_for as chunks_for_len, list_at, empty, appended, popped, cleared};
ghost use Rattle.linked_pool.specs.Pool.{IsWhole};

use crate::block::BlockRef;
use crate::blocks::Blocks;
use crate::chains::Chains;
use crate::chunk::{CHUNK, chunks_for, fill};
use crate::tables::{count_at, filled};
use bit_slice::{BitSlice, OutOfMemory};
use std::alloc::Global;
use std::marker::Model;
use thiserror::Error;

/// A block fills more chunks than are free.
#[derive(Clone, Copy, Debug, PartialEq, Eq, Error)]
#[error("a block needs {need} chunks, and {spare} are spare")]
pub struct PoolFull {
    /// The chunks that the block fills.
    pub need: u64,
    /// The chunks that are free.
    pub spare: u64,
}

/// Blocks of bytes in lists, over chunks of [`CHUNK`] bytes that all lists share.
#[derive(Drop)]
pub struct Pool {
    // Chain 0 has the free chunks, and the chain of list i stands at i + 1.
    chains: Chains,
    chunks: Vec<[u8; CHUNK]>,
    // At the first chunk of a block: the block's bytes, and its last chunk.
    lens: Vec<usize>,
    lasts: Vec<u32>,
    // The blocks of each list.
    counts: Vec<usize>,
}

impl Model for Pool {
    ghost use Rattle.linked_pool.specs.Pool.{State, state_code};
    ghost use Rattle.linked_pool.specs.Blocks.{view_of, IsPool, AreEnds};

    ghost Value = { State };

    ghost coded = { state_code };

    ghost view = { λ p. view_of p.chains p.chunks.items p.lens.items p.counts.items };

    ghost invariant = { λ p. IsPool p.chains p.chunks.items p.lens.items p.counts.items
        × AreEnds p.chains p.lens.items p.lasts.items p.counts.items };
}

impl Pool {
    /// Takes the memory of a pool: so many chunks, all of them free, and so many lists without blocks.
    pub fn open(alloc: Global, chunks: u32, lists: u32) -> Result<Pool, OutOfMemory>
        ensures opened { IfOk result (λ pool. pool ≡ empty chunks lists) }
        ensures whole { IfOk result IsWhole }
    {
        let chains = Chains::open(alloc, chunks, lists)?;
        let bytes = filled(alloc, chunks as usize, [0; CHUNK])?;
        let lens = filled(alloc, chunks as usize, 0)?;
        let lasts = filled(alloc, chunks as usize, 0)?;
        let counts = filled(alloc, lists as usize, 0)?;
        Ok(Pool {
            chains,
            chunks: bytes,
            lens,
            lasts,
            counts,
        })
    }

    /// Each chunk is free or has a part of a block. It does nothing.
    pub fn is_whole_law(&self)
        ensures { IsWhole self.now }
    {
        let _ = &self.chains;
    }

    /// How many chunks are free.
    pub fn spare(&self) -> u32
        ensures value { result ≡ self.now.spare }
        ensures whole { IsWhole self.now }
    {
        self.chains.size(0)
    }

    /// How many blocks a list has.
    pub fn count(&self, list: u32) -> u32
        requires { list < length self.now.lists }
        ensures { result ≡ length (list_at self.now list) }
    {
        count_at(self.counts.as_slice(), list as usize) as u32
    }

    // The chunks that a block of so many bytes fills, if as many are free.
    fn chunks_free(&self, len: usize) -> Result<u32, PoolFull>
        ensures ok { IfOk result (λ count. count ≡ chunks_for_len len) }
        ensures full { IsErr result ↔ (self.now.spare < chunks_for_len len) }
        ensures told { IfErr result (λ e. (e.need ≡ chunks_for_len len) × (e.spare ≡ self.now.spare)) }
        ensures whole { IsWhole self.now }
    {
        let count = chunks_for(len);
        let spare = self.chains.size(0);
        if count > spare as usize {
            return Err(PoolFull {
                need: count as u64,
                spare: u64::from(spare),
            });
        }
        Ok(count as u32)
    }

    // Puts a block of so many bytes at the end of a list, into as many free chunks as it fills.
    fn put_last(&mut self, list: u32, count: u32, len: usize, block: &BitSlice<'_>)
        requires list { list < length self.old.lists }
        requires len { length block.now ≡ 8 * len }
        requires count { count ≡ chunks_for_len len }
        requires free { count ≤ self.old.spare }
        ensures appended { self.new ≡ appended self.old list (bytes_of block.now) }
        ensures count { length self.new.lists ≡ length self.old.lists }
        ensures whole { IsWhole self.new }
    {
        fill(&self.chains, self.chunks.as_mut_slice(), count, block);
        let first = self.chains.first(0);
        self.lens[first as usize] = len;
        self.chains.move_front(0, list as usize + 1, count);
        self.lasts[first as usize] = self.chains.last(list as usize + 1);
        self.counts[list as usize] += 1;
    }

    /// Appends a block to a list. It takes as many steps as the block fills chunks.
    pub fn append(&mut self, list: u32, block: &[u8]) -> Result<(), PoolFull>
        requires { list < length self.old.lists }
        ensures ok { OnOk result (self.new ≡ appended self.old list block.now) }
        ensures full { IsErr result ↔ (self.old.spare < chunks_for_len (length block.now)) }
        ensures told { IfErr result (λ e. (e.need ≡ chunks_for_len (length block.now)) × (e.spare ≡ self.old.spare)) }
        ensures err { OnErr result (self.new ≡ self.old) }
        ensures count { length self.new.lists ≡ length self.old.lists }
        ensures whole { IsWhole self.new }
    {
        let len = block.len();
        let count = self.chunks_free(len)?;
        self.put_last(list, count, len, &BitSlice::whole(block));
        Ok(())
    }

    /// The same with the bytes that bits fill, which are not copied together before.
    pub fn append_bits(&mut self, list: u32, block: &BitSlice<'_>) -> Result<(), PoolFull>
        requires list { list < length self.old.lists }
        requires bytes { length block.now % 8 ≡ 0 }
        ensures ok { OnOk result (self.new ≡ appended self.old list (bytes_of block.now)) }
        ensures full { IsErr result ↔ (self.old.spare < chunks_for_len (length (bytes_of block.now))) }
        ensures told { IfErr result (λ e. (e.need ≡ chunks_for_len (length (bytes_of block.now)))
            × (e.spare ≡ self.old.spare)) }
        ensures err { OnErr result (self.new ≡ self.old) }
        ensures count { length self.new.lists ≡ length self.old.lists }
        ensures whole { IsWhole self.new }
    {
        let len = block.len() / 8;
        let count = self.chunks_free(len)?;
        self.put_last(list, count, len, block);
        Ok(())
    }

    /// Removes the first block of a list; false if the list has none. It takes as many steps as the
    /// block fills chunks.
    pub fn pop(&mut self, list: u32) -> bool
        requires { list < length self.old.lists }
        ensures some { IsTrue result ↔ (0 < length (list_at self.old list)) }
        ensures popped { self.new ≡ popped self.old list }
        ensures count { length self.new.lists ≡ length self.old.lists }
        ensures whole { IsWhole self.new }
    {
        let count = count_at(self.counts.as_slice(), list as usize);
        if count == 0 {
            return false;
        }
        let first = self.chains.first(list as usize + 1);
        let size = chunks_for(count_at(self.lens.as_slice(), first as usize));
        self.chains.move_front(list as usize + 1, 0, size as u32);
        self.counts[list as usize] = count - 1;
        true
    }

    /// Removes all blocks of a list. It takes as many steps as they fill chunks.
    pub fn clear(&mut self, list: u32)
        requires { list < length self.old.lists }
        ensures cleared { self.new ≡ cleared self.old list }
        ensures count { length self.new.lists ≡ length self.old.lists }
        ensures whole { IsWhole self.new }
    {
        let size = self.chains.size(list as usize + 1);
        self.chains.move_front(list as usize + 1, 0, size);
        self.counts[list as usize] = 0;
    }

    /// The first block of a list; None if the list has none.
    pub fn front(&self, list: u32) -> Option<BlockRef<'_>>
        requires { list < length self.now.lists }
        ensures none { IsNone result ↔ (length (list_at self.now list) ≡ 0) }
        ensures some { IfSome result (λ block. block ≡ slice_index_or (list_at self.now list) 0 []) }
    {
        self.block(list, 0)
    }

    /// The block of a list at a place, from 0; None if the list ends before. It takes as many steps as
    /// there are blocks before that place.
    pub fn block(&self, list: u32, place: u32) -> Option<BlockRef<'_>>
        requires { list < length self.now.lists }
        ensures none { IsNone result ↔ (length (list_at self.now list) ≤ place) }
        ensures some { IfSome result (λ block. block ≡ slice_index_or (list_at self.now list) place []) }
    {
        self.blocks(list, place).next()
    }

    /// The blocks of a list from a place on. It takes as many steps as there are blocks before that place.
    pub fn blocks(&self, list: u32, place: u32) -> Blocks<'_>
        requires { list < length self.now.lists }
        ensures { result ≡ drop place (list_at self.now list) }
    {
        let before = place.min(self.count(list));
        let mut blocks = self.all_blocks(list);
        for _p in 0..before {
            let _ = blocks.next();
        }
        blocks
    }

    // The blocks of a list.
    fn all_blocks(&self, list: u32) -> Blocks<'_>
        requires { list < length self.now.lists }
        ensures { result ≡ list_at self.now list }
    {
        Blocks {
            chains: &self.chains,
            chunks: self.chunks.as_slice(),
            lens: self.lens.as_slice(),
            lasts: self.lasts.as_slice(),
            chain: list as usize + 1,
            offset: 0,
            chunk: self.chains.first_if_any(list as usize + 1),
            left: count_at(self.counts.as_slice(), list as usize),
        }
    }
}
