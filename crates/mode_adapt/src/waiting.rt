// Bytes that wait for a block.
ghost use Rattle.std.specs.Prelude.{◌≡◌, ◌-◌, ◌≤◌, ◌++◌, length, drop, replicate, vec_len, vec_capacity};
ghost use Rattle.bb_frame.specs.declared.header.TheConstants.{HEADER_BYTES};

use bb_frame::HEADER_BYTES;
use bit_slice::OutOfMemory;
use linked_pool::{Pool, PoolFull};
use std::alloc::Global;
use std::marker::Model;

/// Bytes that wait for a block, with room before them for its header: so it is lent whole, and not copied together.
#[derive(Drop)]
pub struct Waiting {
    // Room for a header, and the bytes behind it.
    bytes: Vec<u8>,
}

impl Model for Waiting {
    ghost use Rattle.std.specs.Prelude.{◌≤◌, ◌-◌, drop, vec_len, vec_capacity};
    ghost use Rattle.bb_frame.specs.declared.header.TheConstants.{HEADER_BYTES};
    ghost use Rattle.mode_adapt.specs.Waiting.{Held};

    ghost Value = { Held };

    ghost view = { λ w. record {
      items = drop HEADER_BYTES w.bytes.items;
      room = vec_capacity w.bytes
          - HEADER_BYTES;
    } };

    ghost invariant = { λ w. (HEADER_BYTES ≤ vec_len w.bytes) × (HEADER_BYTES ≤ vec_capacity w.bytes) };
}

// Writes a header over the front of bytes.
fn put_header(bytes: &mut [u8], header: &[u8; HEADER_BYTES])
    requires { HEADER_BYTES ≤ length bytes.old }
    ensures { bytes.new ≡ header.now ++ drop HEADER_BYTES bytes.old }
{
    bytes[..HEADER_BYTES].copy_from_slice(header);
}

// Appends zeros up to an end.
fn pad(bytes: &mut Vec<u8>, end: usize)
    requires { end ≤ vec_capacity bytes.old }
    ensures items { bytes.new.items ≡ bytes.old.items ++ replicate (end - vec_len bytes.old) 0 }
    ensures capacity { vec_capacity bytes.old ≤ vec_capacity bytes.new }
{
    if bytes.len() < end {
        bytes.resize(end, 0).unwrap();
    }
}

// Writes a header over the front of bytes, and appends zeros up to an end.
fn lay(bytes: &mut Vec<u8>, header: &[u8; HEADER_BYTES], end: usize)
    requires front { HEADER_BYTES ≤ vec_len bytes.old }
    requires room { end ≤ vec_capacity bytes.old }
    ensures items { bytes.new.items ≡ header.now ++ drop HEADER_BYTES bytes.old.items ++ replicate
        (end - vec_len bytes.old) 0 }
    ensures capacity { vec_capacity bytes.old ≤ vec_capacity bytes.new }
{
    put_header(bytes, header);
    pad(bytes, end);
}

impl Waiting {
    ghost use Rattle.std.specs.Prelude.{◌≡◌, ◌+◌, ◌^◌, ◌<◌, ◌≤◌, ◌++◌, ◌↔◌, [], length, drop, IfOk, IfErr, OnOk, OnErr};
    ghost use Rattle.std.specs.Prelude.{IsErr};
    ghost use Rattle.linked_pool.specs.Pool.{appended, chunks_for, IsWhole};
    ghost use Rattle.mode_adapt.specs.Waiting.{block_of};

    /// No bytes, with room for so many.
    pub fn open(alloc: Global, room: usize) -> Result<Waiting, OutOfMemory>
        requires { room ≤ 2 ^ 32 }
        ensures items { IfOk result (λ w. w.items ≡ []) }
        ensures room { IfOk result (λ w. room ≤ w.room) }
    {
        let mut bytes = Vec::with_capacity(alloc, HEADER_BYTES + room)?;
        bytes.extend_from_slice(&[0; HEADER_BYTES]).unwrap();
        Ok(Waiting { bytes })
    }

    /// How many bytes wait.
    pub fn len(&self) -> usize
        ensures { result ≡ length self.now.items }
    {
        self.bytes.len() - HEADER_BYTES
    }

    /// Appends bytes, for which there is room.
    pub fn add(&mut self, bytes: &[u8])
        requires { length self.old.items + length bytes.now ≤ self.old.room }
        ensures items { self.new.items ≡ self.old.items ++ bytes.now }
        ensures room { self.old.room ≤ self.new.room }
    {
        self.bytes.extend_from_slice(bytes).unwrap();
    }

    /// Takes so many bytes from the front.
    pub fn drop_front(&mut self, count: usize)
        requires { count ≤ length self.old.items }
        ensures items { self.new.items ≡ drop count self.old.items }
        ensures room { self.old.room ≤ self.new.room }
    {
        let rest = self.bytes.len() - count;
        self.bytes.copy_within(HEADER_BYTES + count.., HEADER_BYTES);
        self.bytes.truncate(rest);
    }

    /// Appends the block of a header and the first bytes to a list of a pool: those of a data field of so many bytes,
    /// with zeros behind if fewer wait.
    pub fn put_block(
        &mut self,
        header: &[u8; HEADER_BYTES],
        field_bytes: usize,
        pool: &mut Pool,
        list: u32,
    ) -> Result<(), PoolFull>
        requires room { field_bytes ≤ self.old.room }
        requires list { list < length pool.old.lists }
        ensures items { self.new.items ≡ self.old.items }
        ensures room { self.old.room ≤ self.new.room }
        ensures ok { OnOk result (pool.new ≡ appended pool.old list (block_of header.now self.old.items field_bytes)) }
        ensures full { IsErr result ↔ (pool.old.spare < chunks_for (HEADER_BYTES + field_bytes)) }
        ensures told { IfErr result (λ e. (e.need ≡ chunks_for (HEADER_BYTES + field_bytes))
            × (e.spare ≡ pool.old.spare)) }
        ensures err { OnErr result (pool.new ≡ pool.old) }
        ensures count { length pool.new.lists ≡ length pool.old.lists }
        ensures whole { IsWhole pool.new }
    {
        let len = self.bytes.len();
        let end = HEADER_BYTES + field_bytes;
        lay(&mut self.bytes, header, end);
        let result = pool.append(list, &self.bytes[..end]);
        self.bytes.truncate(len);
        result
    }
}
