// The front of a frame's record: its head, and its L1 signalling.
ghost use Rattle.std.specs.Prelude.{◌≡◌, ◌≤◌, ◌+◌, ◌*◌, ◌<◌, ◌++◌, ◌∷◌, Bool, true, List, [], length};
ghost use Rattle.terms.specs.Bits.{byte_at, bytes_for, bytes_of};
ghost use Rattle.byteorder.specs.Endian.{big_bytes};
ghost use Rattle.bit_slice.specs.Sink.{Puts};
ghost use Rattle.l1_signal.specs.Laws.{crc_behind};
ghost use Rattle.l1_signal.specs.L1Of.{pre_of, conf_of};
ghost use Rattle.record_laws.specs.Frames.{l1_pre};
ghost use Rattle.l1_signal.specs.L1Configurable.{conf_bits};
ghost use Rattle.site_frame.specs.Record.{head_len, pre_len, head_bytes, frame_kind, muted_kind};
ghost use Rattle.open_group.specs.Fitting.{HasRoom};
ghost use Rattle.open_group.specs.Front.{front_bytes};
ghost use Rattle.open_group.specs.RecordBytes.{piece_len};

use crate::piece::Piece;
use bit_slice::{BitBuf, BitSink, BitSlice, CrcSink, FixedBits, OutOfMemory};
use byteorder::{BigEndian, ByteOrder};
use l1_signal::{
    CRC_BITS, MOST_DYN_BITS, MOST_POST_BYTES, PRE_BYTES, conf_law, conf_of, pre_law, pre_of,
    write_conf, write_pre,
};
use plp_config::{Moment, Plan};
use site_frame::{HEAD, write_head, write_muted, writing_law};
use std::alloc::Global;
use std::marker::Model;

/// The configurable part of L1-post, which stands in every frame of a network.
#[derive(Drop)]
pub struct Configurable {
    conf: BitBuf,
}

impl Model for Configurable {
    ghost use Rattle.std.specs.Prelude.{◌≤◌, Bool, List, length};
    ghost use Rattle.l1_signal.specs.declared.lengths.TheConstants.{MOST_CONF_BITS};

    ghost Value = { List Bool };

    ghost view = { λ s. s.conf };

    ghost invariant = { λ s. length s.conf ≤ MOST_CONF_BITS };
}

impl Configurable {
    ghost use Rattle.std.specs.Prelude.{◌≡◌, IfOk};
    ghost use Rattle.l1_signal.specs.L1Configurable.{conf_bits};
    ghost use Rattle.l1_signal.specs.L1Of.{conf_of};

    /// That of a network. It takes all the memory that it needs.
    pub fn open(alloc: Global, plan: &Plan) -> Result<Configurable, OutOfMemory>
        ensures { IfOk result (λ s. s ≡ conf_bits (conf_of plan.now)) }
    {
        conf_law();
        plan.rules_law();
        let mut bits = BitBuf::new(alloc);
        match write_conf(&mut bits, &conf_of(alloc, plan)?) {
            Ok(()) => Ok(Configurable { conf: bits }),
            Err(_) => Err(OutOfMemory),
        }
    }
}

// A byte of bits, a last part of it filled with zero bits.
fn byte_of(bits: &BitSlice<'_>, k: usize) -> u8
    requires { 8 * k < length bits.now }
    ensures { result ≡ byte_at bits.now k }
{
    let left = bits.len() - 8 * k;
    if left >= 8 {
        return bits.field(8 * k, 8) as u8;
    }
    let value = bits.field(8 * k, left as u32);
    (value << (8 - left)) as u8
}

// Appends the bytes that bits fill.
fn put_bits(bits: &BitSlice<'_>, out: &mut Piece)
    requires { length out.old + bytes_for (length bits.now) ≤ piece_len }
    ensures value { out.new ≡ out.old ++ bytes_of bits.now }
    ensures len { length out.new ≡ length out.old + bytes_for (length bits.now) }
{
    for k in 0..bits.len().div_ceil(8) {
        out.put(&[byte_of(bits, k)]);
    }
}

// Puts bits for which there is room.
fn put_fitting<S: BitSink>(sink: &mut S, bits: BitSlice<'_>)
    requires { HasRoom (S.state sink.old) (length bits) }
    ensures { Puts (S.state sink.old) (S.state sink.new) bits.entry }
{
    sink.put_slice(bits).unwrap();
}

// Puts the CRC-32 of all that was put through, for which there is room.
fn with_crc<const N: usize>(sink: CrcSink<FixedBits<N>>) -> FixedBits<N>
    requires room { HasRoom sink CRC_BITS }
    requires below { sink.below ≡ [] ∷ [] }
    ensures { result ≡ crc_behind true sink.entry.written }
{
    sink.finish().unwrap()
}

// L1-pre with its CRC_32.
fn pre_with_crc(plan: &Plan) -> FixedBits<PRE_BYTES>
    ensures value { result ≡ l1_pre plan.now }
    ensures len { length result ≡ 8 * pre_len }
{
    pre_law();
    let mut sink = CrcSink::new(FixedBits::<PRE_BYTES>::new());
    write_pre(&mut sink, &pre_of(plan)).unwrap();
    with_crc(sink)
}

// L1-post with these parts.
fn post_with(conf: BitSlice<'_>, dynamic: BitSlice<'_>) -> FixedBits<MOST_POST_BYTES>
    requires { length conf + length dynamic + CRC_BITS ≤ 8 * MOST_POST_BYTES }
    ensures value { result ≡ crc_behind true (conf.entry ++ dynamic.entry) }
    ensures len { length result ≡ length conf.entry + length dynamic.entry + CRC_BITS }
{
    let mut sink = CrcSink::new(FixedBits::<MOST_POST_BYTES>::new());
    put_fitting(&mut sink, conf);
    put_fitting(&mut sink, dynamic);
    with_crc(sink)
}

// Appends a number of four bytes.
fn put_long(number: u32, out: &mut Piece)
    requires { length out.old + 4 ≤ piece_len }
    ensures { out.new ≡ out.old ++ big_bytes 4 number }
{
    let mut bytes = [0; 4];
    BigEndian::write_u32(&mut bytes, number);
    out.put(&bytes);
}

// Appends a number of two bytes.
fn put_short(number: u16, out: &mut Piece)
    requires { length out.old + 2 ≤ piece_len }
    ensures { out.new ≡ out.old ++ big_bytes 2 number }
{
    let mut bytes = [0; 2];
    BigEndian::write_u16(&mut bytes, number);
    out.put(&bytes);
}

// Appends the head of a frame's record.
fn put_head(moment: &Moment, rest: u32, out: &mut Piece)
    requires { length out.old + head_len ≤ piece_len }
    ensures value { out.new ≡ out.old ++ head_bytes frame_kind moment.now rest }
    ensures len { length out.new ≡ length out.old + head_len }
{
    writing_law();
    let mut head = [0; HEAD];
    write_head(moment, rest, &mut head);
    out.put(&head);
}

/// Appends the record of a muted frame.
pub fn put_muted(moment: &Moment, out: &mut Piece)
    requires { length out.old + head_len ≤ piece_len }
    ensures value { out.new ≡ out.old ++ head_bytes muted_kind moment.now 0 }
    ensures short { length out.new ≤ piece_len }
{
    let mut head = [0; HEAD];
    write_muted(moment, &mut head);
    out.put(&head);
}

// Appends L1-post behind the number of its bits.
fn put_post(conf: &Configurable, dynamic: BitSlice<'_>, out: &mut Piece)
    requires short { length dynamic ≤ MOST_DYN_BITS }
    requires room { length out.old + 4 + MOST_POST_BYTES ≤ piece_len }
    ensures value { out.new ≡ out.old ++ (big_bytes 4 (length (crc_behind true (conf.now ++ dynamic.entry)))
        ++ bytes_of (crc_behind true (conf.now ++ dynamic.entry))) }
    ensures len { length out.new ≤ length out.old + 4 + MOST_POST_BYTES }
{
    let post = post_with(conf.conf.as_slice(), dynamic);
    let bits = post.as_slice();
    put_long(bits.len() as u32, out);
    put_bits(&bits, out);
}

/// Puts the first bytes of a frame's record: its head, which tells how many bytes follow it, its L1 signalling, and the
/// number of its blocks.
pub fn put_front(
    plan: &Plan,
    conf: &Configurable,
    moment: &Moment,
    dynamic: BitSlice<'_>,
    blocks: u16,
    rest: u32,
    out: &mut Piece,
)
    requires empty { out.old ≡ [] }
    requires conf { conf.now ≡ conf_bits (conf_of plan.now) }
    requires short { length dynamic ≤ MOST_DYN_BITS }
    ensures value { out.new ≡ front_bytes plan.now moment.now dynamic.entry blocks rest }
    ensures short { length out.new ≤ piece_len }
{
    put_head(moment, rest, out);
    put_bits(&pre_with_crc(plan).as_slice(), out);
    put_post(conf, dynamic, out);
    put_short(blocks, out);
}
