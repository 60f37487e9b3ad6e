//! CRC-32 of many bytes. X^2400 + X^1240 + X^936 + X^712 + 1 is a multiple of the generator, so the register stays the
//! same if a byte is taken from its place and added at four places behind it: 145, 183, 211 and 300 bytes on. What
//! stands at a place when its turn comes is a sum; the last 300 sums stand for the register.
ghost use Rattle.std.specs.Prelude.{◌≡◌, ◌+◌, ◌≤◌, length, take, drop, replicate};
ghost use Rattle.bit_slice.specs.declared.window.TheConstants.{ROOM};
ghost use Rattle.terms.specs.Bits.{bits_of};
ghost use Rattle.bit_slice.specs.Register.{register as register_of};
ghost use Rattle.bit_slice.specs.Window.{AreSums, window_register};

use crate::crc_32::after_few;
use std::marker::Model;

/// How many bytes are taken at once. They are fewer than 145, so that none of them comes to another one.
pub const BLOCK: usize = 144;

// How far a byte comes.
const SPAN: usize = 300;

// Which of the sums before a place come to it, besides the first one.
const SECOND: usize = 89;

const THIRD: usize = 117;

const LAST: usize = 155;

// Room for the sums of eight blocks more.
const ROOM: usize = SPAN + 8 * BLOCK;

/// The last 300 sums, seen as a list.
#[derive(Drop)]
pub struct Window {
    sums: [u8; ROOM],
    // Where they begin.
    at: usize,
}

impl Model for Window {
    ghost use Rattle.std.specs.Prelude.{◌≤◌, ◌+◌, List, ℕ, take, drop};
    ghost use Rattle.bit_slice.specs.declared.window.TheConstants.{ROOM};

    ghost Value = { List ℕ };

    ghost view = { λ w. take 300 (drop w.at w.sums) };

    ghost invariant = { λ w. w.at + 300 ≤ ROOM };
}

// Puts sums that stand for a register in place of zeros.
fn put_register(sums: &mut [u8; ROOM], register: u32)
    requires { sums.old ≡ replicate ROOM 0 }
    ensures { window_register (take 300 sums.new) ≡ register }
{
    sums[..4].copy_from_slice(&register.to_be_bytes());
}

// The sums of the bytes of a block.
fn sums_of(sums: &[u8], block: &[u8; BLOCK]) -> [u8; BLOCK]
    requires { length sums.now ≡ 300 }
    ensures { AreSums sums.now block.now result }
{
    let mut more = *block;
    for k in 0..BLOCK {
        more[k] ^= sums[k] ^ sums[k + SECOND] ^ sums[k + THIRD] ^ sums[k + LAST];
    }
    more
}

// Where the sums begin once they were moved to the front, if there was too little room behind them.
fn settle(sums: &mut [u8; ROOM], at: usize) -> usize
    requires { at + 300 ≤ ROOM }
    ensures sums { take 300 (drop result sums.new) ≡ take 300 (drop at sums.old) }
    ensures room { result + 444 ≤ ROOM }
{
    if ROOM - at >= SPAN + BLOCK {
        return at;
    }
    sums.copy_within(at..at + SPAN, 0);
    0
}

// Puts the sums of a block behind the sums that begin at a place.
fn put_behind(sums: &mut [u8; ROOM], at: usize, block: &[u8; BLOCK])
    requires { at + 444 ≤ ROOM }
    ensures { window_register (take 300 (drop (at + 144) sums.new))
        ≡ register_of 32 0x04C1_1DB7 (window_register (take 300 (drop at sums.old))) (bits_of block.now) }
{
    let end = at + SPAN;
    let more = sums_of(&sums[at..end], block);
    sums[end..end + BLOCK].copy_from_slice(&more);
}

// The register for which sums stand.
fn register_of_sums(sums: &[u8]) -> u32
    requires { length sums.now ≡ 300 }
    ensures { result ≡ window_register sums.now }
{
    let second = after_few(0, &sums[..SECOND]);
    let third = after_few(second, &sums[SECOND..THIRD]);
    let last = after_few(third, &sums[THIRD..LAST]);
    let whole = after_few(last, &sums[LAST..SPAN]);
    second ^ third ^ last ^ whole
}

impl Window {
    ghost use Rattle.std.specs.Prelude.{◌≡◌};
    ghost use Rattle.bit_slice.specs.Register.{register as register_of};
    ghost use Rattle.bit_slice.specs.Window.{window_register};
    ghost use Rattle.terms.specs.Bits.{bits_of};

    /// Sums that stand for a register.
    pub fn begin(register: u32) -> Window
        ensures { window_register result ≡ register }
    {
        let mut sums = [0; ROOM];
        put_register(&mut sums, register);
        Window { sums, at: 0 }
    }

    /// Takes the bytes of a block.
    pub fn pass(&mut self, block: &[u8; BLOCK])
        ensures { window_register self.new ≡ register_of 32 0x04C1_1DB7 (window_register self.old) (bits_of block.now) }
    {
        self.at = settle(&mut self.sums, self.at);
        put_behind(&mut self.sums, self.at, block);
        self.at += BLOCK;
    }

    /// The register for which they stand.
    pub fn register(&self) -> u32
        ensures { result ≡ window_register self.now }
    {
        register_of_sums(&self.sums[self.at..self.at + SPAN])
    }
}
