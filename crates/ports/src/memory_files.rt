// The files of a desk in memory, and the handles of those that were opened.
ghost use Rattle.std.specs.Prelude.{◌≡◌, min, ◌==◌, ◌<◌, ◌≤◌, ◌+◌, ◌-◌, ◌^◌, ◌++◌, ◌↔◌, [], length, map, take, drop};
ghost use Rattle.std.specs.Prelude.{true, false, option_copied, IfSome, OnOk, OnErr, string_bytes};
ghost use Rattle.std.specs.FinMap.{get, insert};
ghost use Rattle.ports.specs.Desk.{bytes_of};
ghost use Rattle.ports.specs.MemoryDesk.{given_by};
ghost use Rattle.ports.specs.Stored.{files_of};

use bit_slice::OutOfMemory;
use std::alloc::Global;
use std::collections::BTreeMap;

/// A file that was opened, the place up to which it was read, and whether the last read gave no byte.
#[derive(Drop)]
pub struct Handle {
    pub name: String,
    pub place: u64,
    pub ended: bool,
}

// Copies what stands from a place on, as much as there is room for, but at most so many bytes.
fn copy_next(bytes: &[u8], place: u64, buffer: &mut [u8], most: usize) -> usize
    requires room { 0 < length buffer.old }
    requires most { 0 < most }
    ensures count { result ≤ length buffer.new }
    ensures few { result ≤ most }
    ensures small { place + result < 2 ^ 64 }
    ensures next { drop place bytes.now ≡ take result buffer.new ++ drop (place + result) bytes.now }
    ensures end { (result ≡ 0) ↔ (drop place bytes.now ≡ []) }
{
    if place >= bytes.len() as u64 {
        return 0;
    }
    let rest = &bytes[place as usize..];
    let count = rest.len().min(buffer.len()).min(most);
    buffer[..count].copy_from_slice(&rest[..count]);
    count
}

// A name of one's own, if memory is found.
pub fn text(alloc: Global, name: &str) -> Option<String>
    ensures { IfSome result (λ text. string_bytes text ≡ name.now) }
{
    String::from_str(alloc, name).ok()
}

// The bytes of the file of a name, if there is one.
#[tactic(auto, using(crate::proofs::FileLemmas::files))]
pub fn find<'a>(files: &'a BTreeMap<String, Vec<u8>>, name: &str) -> Option<&'a [u8]>
    ensures { option_copied result ≡ get (files_of files.now) name.now }
{
    match files.get(name) {
        Some(bytes) => Some(bytes),
        None => None,
    }
}

// Sets the file of a name.
#[tactic(auto, using(crate::proofs::FileLemmas::files))]
pub fn set(
    files: &mut BTreeMap<String, Vec<u8>>,
    name: String,
    bytes: Vec<u8>,
) -> Result<(), OutOfMemory>
    ensures ok { OnOk result (files_of files.new ≡ insert (files_of files.old) (string_bytes name) bytes.items) }
    ensures err { OnErr result (files_of files.new ≡ files_of files.old) }
{
    files.insert(name, bytes)?;
    Ok(())
}

// Makes the file of a name empty, or makes one. `false` if no memory was found.
pub fn make_empty(files: &mut BTreeMap<String, Vec<u8>>, alloc: Global, name: &str) -> bool
    ensures done { result ≡ true → files_of files.new ≡ insert (files_of files.old) name.now [] }
    ensures not { result ≡ false → files_of files.new ≡ files_of files.old }
{
    match text(alloc, name) {
        Some(name) => set(files, name, Vec::new(alloc)).is_ok(),
        None => false,
    }
}

// Appends bytes to the file of a name. `false` if there is none, or no memory was found.
#[tactic(auto, using(crate::proofs::FileLemmas::files))]
pub fn append(files: &mut BTreeMap<String, Vec<u8>>, name: &str, piece: &[u8]) -> bool
    ensures done { result ≡ true → files_of files.new
        ≡ insert (files_of files.old) name.now (bytes_of (files_of files.old) name.now ++ piece.now) }
    ensures not { result ≡ false → files_of files.new ≡ files_of files.old }
{
    match files.get_mut(name) {
        Some(bytes) => bytes.extend_from_slice(piece).is_ok(),
        None => false,
    }
}

impl Handle {
    // Reads on from its place, as much as there is room for, but at most so many bytes.
    pub fn read(
        &mut self,
        files: &BTreeMap<String, Vec<u8>>,
        buffer: &mut [u8],
        most: usize,
    ) -> usize
        requires room { 0 < length buffer.old }
        requires most { 0 < most }
        ensures name { self.new.name ≡ self.old.name }
        ensures place { self.new.place ≡ self.old.place + result }
        ensures ended { self.new.ended ≡ (result == 0) }
        ensures count { result ≤ length buffer.new }
        ensures few { result ≤ most }
        ensures next { let file = bytes_of (files_of files.now) (string_bytes self.old.name) in
            drop self.old.place file ≡ take result buffer.new ++ drop self.new.place file }
        ensures end { let file = bytes_of (files_of files.now) (string_bytes self.old.name) in
            (result ≡ 0) ↔ (drop self.old.place file ≡ []) }
    {
        let bytes = find(files, self.name.as_str()).unwrap_or(&[]);
        let count = copy_next(bytes, self.place, buffer, most);
        self.place += count as u64;
        self.ended = count == 0;
        count
    }
}

// The places of the handles of a name together, at most 2^64 - 1.
pub fn given_by(handles: &[Handle], name: &str) -> u64
    ensures { result ≡ min (2 ^ 64 - 1) (given_by name.now (map (λ h. string_bytes h.name) handles.now)
        (map (λ h. h.place) handles.now)) }
{
    let mut given: u64 = 0;
    for handle in handles {
        if handle.name.as_str() == name {
            given = given.saturating_add(handle.place);
        }
    }
    given
}
