// How many bits L1 has (EN 302 755, clause 7.2).
ghost use Rattle.std.specs.Prelude.{◌≡◌, ◌+◌, ◌≤◌};
ghost use Rattle.l1_signal.specs.Lengths.{conf_len, dyn_len, post_len};

use plp_config::{L1_POST_BITS, L1_POST_PLP_BITS, MOST_PLPS};

/// Bits of a CRC_32.
pub const CRC_BITS: usize = 32;

/// Bits of L1-pre, without CRC_32.
pub const PRE_BITS: usize = 168;

/// Bytes of L1-pre, with CRC_32.
pub const PRE_BYTES: usize = (PRE_BITS + CRC_BITS) / 8;

/// Bits of the configurable part of L1-post, besides those of its PLPs (EN 302 755, clause 7.2.3.1).
pub const CONF_BITS: usize = 102;

/// Bits of one PLP in it.
pub const CONF_PLP_BITS: usize = 89;

/// Bits of the dynamic part of L1-post, besides those of its PLPs (EN 302 755, clause 7.2.3.2).
pub const DYN_BITS: usize = 79;

/// Bits of one PLP in it.
pub const DYN_PLP_BITS: usize = 48;

/// Bits of L1-post, both parts and CRC_32, besides those of its PLPs. [`post_len`] says that they are those of the
/// parts.
pub const POST_BITS: usize = L1_POST_BITS as usize;

/// Bits of one PLP in both parts.
pub const PLP_BITS: usize = L1_POST_PLP_BITS as usize;

/// Bits of both parts without CRC_32, besides those of their PLPs.
pub const INFO_BITS: usize = POST_BITS - CRC_BITS;

/// Bits of a configurable part at most.
pub const MOST_CONF_BITS: usize = CONF_BITS + CONF_PLP_BITS * MOST_PLPS;

/// Bits of a dynamic part at most.
pub const MOST_DYN_BITS: usize = DYN_BITS + DYN_PLP_BITS * MOST_PLPS;

/// Bytes of a dynamic part at most.
pub const MOST_DYN_BYTES: usize = (MOST_DYN_BITS + 7) / 8;

/// Bits of L1-post at most.
pub const MOST_POST_BITS: usize = POST_BITS + PLP_BITS * MOST_PLPS;

/// Bytes of L1-post at most.
pub const MOST_POST_BYTES: usize = (MOST_POST_BITS + 7) / 8;

/// The bits of a configurable part with so many PLPs.
pub fn conf_len(plps: usize) -> usize
    requires { plps ≤ MOST_PLPS }
    ensures value { result ≡ conf_len plps }
    ensures most { result ≤ MOST_CONF_BITS }
{
    CONF_BITS + CONF_PLP_BITS * plps
}

/// The bits of a dynamic part with so many PLPs.
pub fn dyn_len(plps: usize) -> usize
    requires { plps ≤ MOST_PLPS }
    ensures value { result ≡ dyn_len plps }
    ensures most { result ≤ MOST_DYN_BITS }
{
    DYN_BITS + DYN_PLP_BITS * plps
}

/// The bits of an L1-post with so many PLPs: both parts and CRC_32.
pub fn post_len(plps: usize) -> usize
    requires { plps ≤ MOST_PLPS }
    ensures value { result ≡ post_len plps }
    // both parts and CRC_32
    ensures parts { result ≡ conf_len plps + dyn_len plps + CRC_BITS }
    ensures most { result ≤ MOST_POST_BITS }
{
    POST_BITS + PLP_BITS * plps
}
