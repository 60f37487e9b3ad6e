// The blocks of a pool, one after another.
ghost use Rattle.std.specs.Prelude.{[], ◌≡◌, ◌↔◌, ◌<◌, ◌≤◌, IfSome, IsNone, drop, length, slice_index_or};
ghost use Rattle.linked_pool.specs.Pool.{list_at};

use linked_pool::{BlockRef, Blocks, Pool};
use std::marker::Model;

// Passes over so many blocks.
fn skip(blocks: &mut Blocks<'_>, count: u64)
    ensures { blocks.new ≡ drop count blocks.old }
{
    for _block in 0..count {
        let _ = blocks.next();
    }
}

/// The blocks of a pool. One behind the last one that was asked for is found in as many steps as there are blocks from
/// this to that.
#[derive(Drop)]
pub struct PoolWalk<'g> {
    pool: &'g Pool,
    // The blocks of a list from a place on, if any was asked for.
    list: u32,
    place: u64,
    blocks: Option<Blocks<'g>>,
}

impl<'g> Model for PoolWalk<'g> {
    ghost use Rattle.std.specs.Prelude.{◌≡◌, IfSome, drop};
    ghost use Rattle.linked_pool.specs.Pool.{State, state_code, list_at};

    ghost Value = { State };

    ghost coded = { state_code };

    ghost view = { λ w. w.pool.now };

    ghost invariant = { λ w. IfSome w.blocks (λ blocks. blocks ≡ drop w.place (list_at w.pool.now w.list)) };
}

impl<'g> PoolWalk<'g> {
    /// A walk over a pool, of which no block was asked for.
    pub fn new(pool: &'g Pool) -> PoolWalk<'g>
        ensures { result ≡ pool.now }
    {
        PoolWalk {
            pool,
            list: 0,
            place: 0,
            blocks: None,
        }
    }

    // The blocks of a list from a place on.
    fn blocks_at(&mut self, list: u32, place: u32) -> Blocks<'g>
        requires { list < length self.old.lists }
        ensures blocks { result ≡ drop place (list_at self.old list) }
        ensures pool { self.new ≡ self.old }
    {
        let pool = self.pool;
        let from = self.place;
        let is_ahead = self.list == list && from <= u64::from(place);
        match self.blocks.take() {
            Some(mut blocks) => {
                if is_ahead {
                    skip(&mut blocks, u64::from(place) - from);
                    blocks
                } else {
                    pool.blocks(list, place)
                }
            }
            None => pool.blocks(list, place),
        }
    }

    /// The block of a list at a place, from 0; None if the list ends before. If the last one that was asked for stands
    /// before it in the list, it takes as many steps as there are blocks from this on, and else as many as there are
    /// before that place.
    pub fn block(&mut self, list: u32, place: u32) -> Option<BlockRef<'g>>
        requires { list < length self.old.lists }
        ensures none { IsNone result ↔ (length (list_at self.old list) ≤ place) }
        ensures some { IfSome result (λ block. block ≡ slice_index_or (list_at self.old list) place []) }
        ensures pool { self.new ≡ self.old }
    {
        let mut blocks = self.blocks_at(list, place);
        let block = blocks.next();
        self.list = list;
        self.place = u64::from(place) + 1;
        self.blocks = Some(blocks);
        block
    }
}
