// T2-MI packets of a frame, each built whole.
ghost use Rattle.std.specs.Prelude.{◌≡◌, ◌<◌, ◌≤◌, ◌+◌, ◌*◌, ◌^◌, ◌%◌, ◌++◌, Bool, List, length, []};
ghost use Rattle.plp_config.specs.Plps.{plp_at};
ghost use Rattle.terms.specs.Bits.{bits_of};
ghost use Rattle.t2mi_packet.specs.Layout.{rows_bits};
ghost use Rattle.t2mi_packet.specs.T2miPacket.{Fits, covered_rows, written_bits};
ghost use Rattle.frame_writer.specs.Whole.{IsWhole};
ghost use Rattle.frame_writer.specs.FramePackets.{stamp_of, l1_body, packet_with};

use bit_slice::{BitSink, BitSlice, FixedBits};
use l1_signal::{MOST_CONF_BITS, MOST_DYN_BITS, PRE_BITS};
use linked_pool::BlockRef;
use plp_config::{Band, MOST_BLOCK_BYTES, Plan};
use t2mi_packet::{
    BlockHead, Body, LARGEST, Packet, Stamp, begin_block, finish_packet, write, written_law,
};

// Builds a packet in place of the one before.
fn put_packet(out: &mut FixedBits<LARGEST>, packet: &Packet<'_>)
    requires { Fits packet.now }
    ensures { out.new ≡ written_bits packet.now }
{
    written_law();
    out.clear();
    // There is room for any packet.
    write(out, packet).unwrap();
}

// The same, and it is whole bytes.
fn write_packet(out: &mut FixedBits<LARGEST>, packet: &Packet<'_>)
    requires { Fits packet.now }
    ensures bits { out.new ≡ written_bits packet.now }
    ensures whole { IsWhole out.new }
{
    written_law();
    put_packet(out, packet);
}

fn stamp_of(plan: &Plan, frame: u64) -> Stamp
    requires { frame < 2 ^ 32 }
    ensures value { result ≡ stamp_of plan.now frame }
    ensures seconds { result.seconds < 2 ^ 40 }
    ensures subseconds { result.subseconds < 2 ^ 27 }
    ensures utco { result.utco < 2 ^ 13 }
    ensures bw { result.bw < 2 ^ 4 }
{
    let emission = plan.emission(frame);
    let config = plan.config();
    Stamp {
        bw: config.band.bw(),
        seconds: emission.seconds,
        subseconds: emission.subseconds,
        utco: config.utco,
    }
}

/// The timestamp of the superframe that begins with a frame.
pub fn write_timestamp(out: &mut FixedBits<LARGEST>, plan: &Plan, packet_count: u8, frame: u64)
    requires { frame < 2 ^ 32 }
    ensures bits { out.new ≡ written_bits (packet_with plan.now packet_count frame
        (Body.Timestamp (stamp_of plan.now frame))) }
    ensures whole { IsWhole out.new }
{
    let packet = Packet {
        packet_count,
        superframe: plan.superframe_idx(frame),
        stream: 0,
        body: Body::Timestamp(stamp_of(plan, frame)),
    };
    write_packet(out, &packet);
}

/// The L1-current of a frame.
pub fn write_l1_current(
    out: &mut FixedBits<LARGEST>,
    plan: &Plan,
    packet_count: u8,
    frame: u64,
    pre: BitSlice<'_>,
    conf: BitSlice<'_>,
    dynamic: BitSlice<'_>,
)
    requires pre { length pre ≡ PRE_BITS }
    requires conf { length conf ≤ MOST_CONF_BITS }
    requires dynamic { length dynamic ≤ MOST_DYN_BITS }
    ensures bits { out.new ≡ written_bits (packet_with plan.now packet_count frame
        (l1_body plan.now frame pre.entry conf.entry dynamic.entry)) }
    ensures whole { IsWhole out.new }
{
    let packet = Packet {
        packet_count,
        superframe: plan.superframe_idx(frame),
        stream: 0,
        body: Body::L1Current {
            frame_idx: plan.frame_idx(frame),
            pre,
            conf,
            dynamic,
            extension: BitSlice::whole(&[]),
        },
    };
    write_packet(out, &packet);
}

// Begins the packet of a block of so many bytes, of a PLP by its identifier. The block is to be put behind it, and then
// a packet is made of it.
fn begin(
    out: &mut FixedBits<LARGEST>,
    plan: &Plan,
    packet_count: u8,
    frame: u64,
    plp_id: u8,
    first: bool,
    bytes: usize,
)
    requires { bytes ≤ MOST_BLOCK_BYTES }
    ensures covered { (block : List Bool) → length block ≡ 8 * bytes → out.new ++ block
        ≡ rows_bits (covered_rows (packet_with plan.now packet_count frame
        (Body.Block (frame % plan.now.frames) plp_id first block))) }
    ensures len { length out.new ≡ 72 }
{
    let head = BlockHead {
        packet_count,
        superframe: plan.superframe_idx(frame),
        stream: 0,
        frame_idx: plan.frame_idx(frame),
        plp_id,
        first,
    };
    begin_block(out, &head, bytes);
}

// Puts the bytes of a block behind what was written, chunk by chunk.
fn put_pieces(out: &mut FixedBits<LARGEST>, block: &BlockRef<'_>)
    requires { length out.old + 8 * length block.now ≤ 8 * LARGEST }
    ensures { out.new ≡ out.old ++ bits_of block.now }
{
    let mut pieces = block.pieces();
    while let Some(piece) = pieces.next() {
        // There is room for it.
        out.put_slice(BitSlice::whole(piece)).unwrap();
    }
}

/// A block of a PLP in a frame. Its bytes are copied once.
pub fn write_block(
    out: &mut FixedBits<LARGEST>,
    plan: &Plan,
    packet_count: u8,
    frame: u64,
    plp: usize,
    first: bool,
    block: &BlockRef<'_>,
)
    requires configured { plp < length plan.now.plps }
    requires short { length block.now ≤ MOST_BLOCK_BYTES }
    ensures bits { out.new ≡ written_bits (packet_with plan.now packet_count frame
        (Body.Block (frame % plan.now.frames) (plp_at plan.now.plps plp).id first (bits_of block.now))) }
    ensures whole { IsWhole out.new }
{
    begin(
        out,
        plan,
        packet_count,
        frame,
        plan.plp_id(plp),
        first,
        block.len(),
    );
    put_pieces(out, block);
    finish_packet(out);
}
