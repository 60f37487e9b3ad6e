// The group that is made.
ghost use Rattle.std.specs.Prelude.{◌≡◌, ◌<◌, ◌≤◌, ◌^◌, length, is_some, true, false};
ghost use Rattle.plp_config.specs.declared.plp.TheConstants.{MOST_BLOCK_BYTES};
ghost use Rattle.frame_writer.specs.FramePackets.{stamp_of as stamp_by};

use bit_slice::{BitSlice, OutOfMemory};
use frame_groups::{Key, OpenGroup};
use l1_signal::{MOST_CONF_BITS, MOST_DYN_BITS, PRE_BITS};
use open_group::{HeldParts, PooledGroup};
use plp_config::Plan;
use std::alloc::Global;
use t2mi_packet::{Body, Packet, Stamp};

/// A group that is made of packets.
#[derive(Drop)]
pub struct MadeGroup<'p> {
    plan: &'p Plan,
    group: PooledGroup<'p>,
    // It has a packet.
    is_begun: bool,
    ghost same: { group.network ≡ plan.now },
    ghost intact: { group.intact ≡ true },
    ghost key: { is_begun ≡ true → is_some group.key ≡ true },
}

// The timestamp of a frame.
fn stamp_of(plan: &Plan, number: u64) -> Stamp
    requires { number < 2 ^ 32 }
    ensures value { result ≡ stamp_by plan.now number }
    ensures seconds { result.seconds < 2 ^ 40 }
    ensures subseconds { result.subseconds < 2 ^ 27 }
    ensures utco { result.utco < 2 ^ 13 }
    ensures bw { result.bw < 2 ^ 4 }
{
    let emission = plan.emission(number);
    let config = plan.config();
    Stamp {
        bw: config.band.bw(),
        seconds: emission.seconds,
        subseconds: emission.subseconds,
        utco: config.utco,
    }
}

impl<'p> MadeGroup<'p> {
    ghost use Rattle.std.specs.Prelude.{◌≡◌, ◌<◌, ◌≤◌, ◌^◌, ◌++◌, ◌∷◌, [], true, false, List, None, IfOk, length};
    ghost use Rattle.t2mi_packet.specs.T2miPacket.{Fits};
    ghost use Rattle.t2mi_packet.specs.declared.packet.Body.{Body};
    ghost use Rattle.t2mi_packet.specs.declared.packet.Packet.{Packet};
    ghost use Rattle.frame_groups.specs.Carried.{L1Parts};
    ghost use Rattle.frame_writer.specs.FramePackets.{packet_with, l1_body};
    ghost use Rattle.open_group.specs.Parts.{parts_of};
    ghost use Rattle.plp_config.specs.declared.plp.TheConstants.{MOST_BLOCK_BYTES};
    ghost use Rattle.frame_weave.specs.Made.{IsAlone, HoldsMade, Fitting};
    ghost use Rattle.frame_weave.specs.Woven.{block_body, stamp_bodies};

    /// Takes the memory for a plan. There are no packets yet.
    pub fn open(alloc: Global, plan: &'p Plan) -> Result<MadeGroup<'p>, OutOfMemory>
        ensures alone { IfOk result (λ made. IsAlone made.group) }
        ensures plan { IfOk result (λ made. made.plan.now ≡ plan.now) }
    {
        Ok(MadeGroup {
            plan,
            group: PooledGroup::open(alloc, plan)?,
            is_begun: false,
        })
    }

    /// The group.
    pub fn group(&self) -> &PooledGroup<'p>
        ensures { result.now ≡ self.now.group }
    {
        &self.group
    }

    // One packet more, of frame `number`.
    fn push(&mut self, number: u64, packet: &Packet<'_>)
        requires fits { Fits packet.now }
        ensures holds { (bodies : List Body) (body : Body) → packet.now ≡ packet_with self.old.plan.now 0 number body
            → HoldsMade self.old.plan.now number self.old bodies
            → HoldsMade self.old.plan.now number self.new (bodies ++ body ∷ []) }
        ensures alone { IsAlone self.old.group → IsAlone self.new.group }
        ensures plan { self.new.plan.now ≡ self.old.plan.now }
    {
        if self.is_begun {
            self.group.add(packet);
            return;
        }
        let key = Key {
            superframe: self.plan.superframe_idx(number),
            frame: self.plan.frame_idx(number),
        };
        self.group.begin(None, key, packet);
        self.is_begun = true;
    }

    fn push_stamp(&mut self, number: u64)
        requires { number < 2 ^ 32 }
        ensures holds { (bodies : List Body) → HoldsMade self.old.plan.now number self.old bodies
            → HoldsMade self.old.plan.now number self.new (bodies ++ Body.Timestamp (stamp_by self.old.plan.now number)
            ∷ []) }
        ensures alone { IsAlone self.old.group → IsAlone self.new.group }
        ensures plan { self.new.plan.now ≡ self.old.plan.now }
    {
        let packet = Packet {
            packet_count: 0,
            superframe: self.plan.superframe_idx(number),
            stream: 0,
            body: Body::Timestamp(stamp_of(self.plan, number)),
        };
        self.push(number, &packet);
    }

    /// Forgets all packets. There is a timestamp if frame `number` begins a superframe.
    pub fn begin(&mut self, number: u64)
        requires { number < 2 ^ 32 }
        ensures holds { IsAlone self.old.group
            → HoldsMade self.old.plan.now number self.new (stamp_bodies self.old.plan.now number) }
        ensures alone { IsAlone self.old.group → IsAlone self.new.group }
        ensures plan { self.new.plan.now ≡ self.old.plan.now }
    {
        self.is_begun = false;
        if self.plan.frame_idx(number) == 0 {
            self.push_stamp(number);
        }
    }

    /// One L1-current more, if its parts can be those of one.
    pub fn push_l1(&mut self, number: u64, parts: &HeldParts)
        ensures holds { (bodies : List Body) (l1 : L1Parts) → parts_of parts.now ≡ l1 → Fitting l1
            → HoldsMade self.old.plan.now number self.old bodies
            → HoldsMade self.old.plan.now number self.new
            (bodies ++ l1_body self.old.plan.now number l1.pre l1.conf l1.dynamic ∷ []) }
        ensures alone { IsAlone self.old.group → IsAlone self.new.group }
        ensures plan { self.new.plan.now ≡ self.old.plan.now }
    {
        let pre = parts.pre();
        let conf = parts.conf();
        let dynamic = parts.dynamic();
        if pre.len() != PRE_BITS || conf.len() > MOST_CONF_BITS || dynamic.len() > MOST_DYN_BITS {
            return;
        }
        let packet = Packet {
            packet_count: 0,
            superframe: self.plan.superframe_idx(number),
            stream: 0,
            body: Body::L1Current {
                frame_idx: self.plan.frame_idx(number),
                pre,
                conf,
                dynamic,
                extension: BitSlice::whole(&[]),
            },
        };
        self.push(number, &packet);
    }

    /// One block of a PLP more.
    pub fn push_block(&mut self, number: u64, plp: usize, block: &[u8])
        requires inside { plp < length self.old.plan.now.plps }
        requires short { length block.now ≤ MOST_BLOCK_BYTES }
        ensures holds { (bodies : List Body) → HoldsMade self.old.plan.now number self.old bodies
            → HoldsMade self.old.plan.now number self.new (bodies ++ block_body self.old.plan.now number
            plp block.now ∷ []) }
        ensures alone { IsAlone self.old.group → IsAlone self.new.group }
        ensures plan { self.new.plan.now ≡ self.old.plan.now }
    {
        let packet = Packet {
            packet_count: 0,
            superframe: self.plan.superframe_idx(number),
            stream: 0,
            body: Body::Block {
                frame_idx: self.plan.frame_idx(number),
                plp_id: self.plan.plp_id(plp),
                first: false,
                bits: BitSlice::whole(block),
            },
        };
        self.push(number, &packet);
    }
}
