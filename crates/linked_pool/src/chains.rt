// Chunks in chains, linked by index. Every chunk is in one chain.
ghost use Rattle.std.specs.Prelude.{ℕ, List, [], ◌≡◌, ◌≢◌, ◌<◌, ◌≤◌, ◌+◌, ◌-◌, length, IfOk};
ghost use Rattle.std.specs.Prelude.{slice_index};
ghost use Rattle.std.specs.Prelude.{slice_index_or};
ghost use Rattle.linked_pool.specs.Chains.{moved, last_on, rising, opened, IsSound, Moves};

use crate::tables::{filled, read};
use std::alloc::{AllocError, Global};
use std::marker::Model;

/// Chunks in chains: a list of lists of chunk numbers.
#[derive(Drop)]
pub struct Chains {
    // The chunk behind each chunk, which counts only inside a chain.
    next: Vec<u32>,
    // The first and the last chunk of each chain, if it has any, and how many it has.
    heads: Vec<u32>,
    tails: Vec<u32>,
    sizes: Vec<u32>,
}

impl Model for Chains {
    ghost use Rattle.std.specs.Prelude.{List, ℕ};
    ghost use Rattle.linked_pool.specs.Chains.{chains_of, IsSound};

    ghost Value = { List (List ℕ) };

    ghost view = { λ c. chains_of c.next.items c.heads.items c.sizes.items };

    ghost invariant = { λ c. IsSound c.next.items c.heads.items c.tails.items c.sizes.items };
}

// The last of so many chunks from the first on.
fn last_of(next: &[u32], first: u32, count: u32) -> u32
    requires some { 0 < count }
    requires inside { (i : ℕ) → i < count → last_on next.now i first < length next.now }
    ensures { result ≡ last_on next.now (count - 1) first }
{
    let mut last = first;
    for _step in 1..count {
        last = next[last as usize];
    }
    last
}

// Moves chunks from the front of one chain to the end of another.
fn link(
    next: &mut [u32],
    heads: &mut [u32],
    tails: &mut [u32],
    sizes: &mut [u32],
    from: usize,
    to: usize,
    count: u32,
)
    requires sound { IsSound next.old heads.old tails.old sizes.old }
    requires from { from < length sizes.old }
    requires to { to < length sizes.old }
    requires apart { from ≢ to }
    requires some { 0 < count }
    requires enough { count ≤ slice_index sizes.old from }
    ensures { Moves next.old heads.old sizes.old next.new heads.new tails.new sizes.new from to count }
{
    let first = heads[from];
    let last = last_of(next, first, count);
    let rest = next[last as usize];
    let front = if sizes[to] == 0 {
        first
    } else {
        let end = tails[to];
        next[end as usize] = first;
        heads[to]
    };
    heads[from] = rest;
    heads[to] = front;
    tails[to] = last;
    let less = sizes[from] - count;
    let more = sizes[to] + count;
    sizes[from] = less;
    sizes[to] = more;
}

// The numbers from 1 to a number.
fn numbers(alloc: Global, len: u32) -> Result<Vec<u32>, AllocError>
    ensures { IfOk result (λ v. v.items ≡ rising len 1) }
{
    let mut numbers = Vec::new(alloc);
    for i in 0..len {
        numbers.push(i + 1)?;
    }
    Ok(numbers)
}

impl Chains {
    /// All chunks in the first chain, and so many empty chains behind it.
    pub fn open(alloc: Global, count: u32, lists: u32) -> Result<Chains, AllocError>
        ensures { IfOk result (λ c. c ≡ opened count lists) }
    {
        let next = numbers(alloc, count)?;
        let heads = filled(alloc, lists as usize + 1, 0)?;
        let mut tails = filled(alloc, lists as usize + 1, 0)?;
        let mut sizes = filled(alloc, lists as usize + 1, 0)?;
        sizes[0] = count;
        tails[0] = count.saturating_sub(1);
        Ok(Chains {
            next,
            heads,
            tails,
            sizes,
        })
    }

    /// Moves chunks from the front of one chain to the end of another.
    pub fn move_front(&mut self, from: usize, to: usize, count: u32)
        requires from { from < length self.old }
        requires to { to < length self.old }
        requires apart { from ≢ to }
        requires enough { count ≤ length (slice_index_or self.old from []) }
        ensures { self.new ≡ moved self.old from to count }
    {
        if count == 0 {
            return;
        }
        link(
            self.next.as_mut_slice(),
            self.heads.as_mut_slice(),
            self.tails.as_mut_slice(),
            self.sizes.as_mut_slice(),
            from,
            to,
            count,
        );
    }

    /// How many chunks a chain has.
    pub fn size(&self, place: usize) -> u32
        requires { place < length self.now }
        ensures { result ≡ length (slice_index_or self.now place []) }
    {
        let sizes = self.sizes.as_slice();
        read(sizes, place)
    }

    /// The first chunk of a chain that has one.
    pub fn first(&self, place: usize) -> u32
        requires place { place < length self.now }
        requires some { 0 < length (slice_index_or self.now place []) }
        ensures { result ≡ slice_index (slice_index_or self.now place []) 0 }
    {
        let heads = self.heads.as_slice();
        read(heads, place)
    }

    /// The first chunk of a chain, if it has one.
    pub fn first_if_any(&self, place: usize) -> u32
        requires { place < length self.now }
        ensures { 0 < length (slice_index_or self.now place [])
            → result ≡ slice_index (slice_index_or self.now place []) 0 }
    {
        let heads = self.heads.as_slice();
        read(heads, place)
    }

    /// The last chunk of a chain that has one.
    pub fn last(&self, place: usize) -> u32
        requires place { place < length self.now }
        requires some { 0 < length (slice_index_or self.now place []) }
        ensures { result ≡ slice_index (slice_index_or self.now place []) (length (slice_index_or self.now place [])
            - 1) }
    {
        let tails = self.tails.as_slice();
        read(tails, place)
    }

    /// The chunk behind a chunk of a chain.
    pub fn after(&self, chunk: u32) -> u32
        ensures { (i k : ℕ) → i < length self.now → k + 1 < length (slice_index_or self.now i [])
            → slice_index (slice_index_or self.now i []) k ≡ chunk → result ≡ slice_index (slice_index_or self.now i [])
            (k + 1) }
    {
        let next = self.next.as_slice();
        if chunk as usize >= next.len() {
            return 0;
        }
        next[chunk as usize]
    }
}
