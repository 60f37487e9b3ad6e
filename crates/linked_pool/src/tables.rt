// Tables: vectors of a fixed length, read by place.
ghost use Rattle.std.specs.Prelude.{◌≡◌, ◌<◌, length, IfOk, replicate, slice_index};

use std::alloc::{AllocError, Global};

/// A table with one value at each place.
pub fn filled<T: Copy>(alloc: Global, len: usize, value: T) -> Result<Vec<T>, AllocError>
    ensures { IfOk result (λ table. table.items ≡ replicate len value) }
{
    let mut table = Vec::with_capacity(alloc, len)?;
    for _i in 0..len {
        table.push(value)?;
    }
    Ok(table)
}

/// The number at a place.
pub fn read(numbers: &[u32], place: usize) -> u32
    requires { place < length numbers.now }
    ensures { result ≡ slice_index numbers.now place }
{
    numbers[place]
}

/// How many bytes or blocks there are at a place.
pub fn count_at(counts: &[usize], place: usize) -> usize
    requires { place < length counts.now }
    ensures { result ≡ slice_index counts.now place }
{
    counts[place]
}
