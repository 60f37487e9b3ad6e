// The packets of a region become blocks.
ghost use Rattle.plp_config.specs.declared.moment.TheConstants.{MOST_FRAMES};

use bit_slice::OutOfMemory;
use gateway_core::Input;
use linked_pool::{Pool, frame_chunks};
use plp_config::{Plan, spread_law};
use std::alloc::Global;
use ts_packet::TsPacket;

/// The packets that replace those of a PLP, and the blocks that its chain made of them: take the packets that the next
/// frame wants, end it, and leave its blocks.
#[derive(Drop)]
pub struct Region {
    input: Input,
    // A list for each PLP, of which only that of the PLP replaced ever has blocks.
    pub blocks: Pool,
    // Whether the list holds the blocks of the frame before the next one. Else it holds those that the chain put
    // already of a later interleaving frame.
    pub sends: bool,
    // The frame whose packets are taken.
    pub next: u64,
    // How many blocks the PLP has in the interleaving frame that the frame before that one carries.
    pub count: u16,
}

impl Region {
    ghost use Rattle.std.specs.Prelude.{◌≡◌, ◌<◌, ◌≤◌, ◌+◌, ◌*◌, ◌^◌, ℕ, List, [], true, false, length, IfOk};
    ghost use Rattle.plp_config.specs.InterleavingFrames.{is_first};
    ghost use Rattle.plp_config.specs.SlotTime.{slots_by};
    ghost use Rattle.gateway_core.specs.InputSoFar.{Told, with_packet, at_end, in_next, Continues};
    ghost use Rattle.gateway_core.specs.IsFed.{wanted};
    ghost use Rattle.region_swap.specs.RegionFed.{RegionStandsFor, IsRegionOf, GivesFrame, kept_of};

    /// No packets yet, for the PLP at a place of a plan. No later call takes memory.
    pub fn open(alloc: Global, plan: &Plan, plp: usize) -> Result<Region, OutOfMemory>
        requires { plp < length plan.now.plps }
        ensures stands { IfOk result (λ r. RegionStandsFor r plan.now plp
            (record { packets = []; ended = false; frame = 0 })) }
        ensures of { IfOk result (λ r. IsRegionOf r plan.now plp) }
        ensures free { IfOk result (λ r. r.sends ≡ false) }
        ensures next { IfOk result (λ r. r.next ≡ 0) }
        ensures few { plp < 255 }
    {
        plan.rules_law();
        let plps = plan.config().plps.len() as u32;
        let input = Input::open(alloc, plan, plp)?;
        let blocks = Pool::open(alloc, frame_chunks(plan), plps)?;
        Ok(Region {
            input,
            blocks,
            sends: false,
            next: 0,
            count: 0,
        })
    }

    /// How many packets the next frame still wants.
    pub fn wanted(&self) -> u64
        ensures { result ≡ wanted self.now.input }
    {
        self.input.wanted()
    }

    /// Takes the next packet.
    pub fn offer(&mut self, plan: &Plan, list: u32, packet: &TsPacket)
        requires of { IsRegionOf self.old plan.now list }
        requires wanted { 0 < wanted self.old.input }
        requires free { self.old.sends ≡ false }
        ensures stands { (t : Told) → RegionStandsFor self.old plan.now list t
            → RegionStandsFor self.new plan.now list (with_packet t packet.now) }
        ensures of { IsRegionOf self.new plan.now list }
        ensures wanted { wanted self.new.input + 1 ≡ wanted self.old.input }
        ensures free { self.new.sends ≡ false }
        ensures next { self.new.next ≡ self.old.next }
    {
        plan.rules_law();
        self.input.offer(packet, &mut self.blocks, list);
    }

    /// No more packets come: null packets follow.
    pub fn end(&mut self, plan: &Plan, list: u32)
        requires of { IsRegionOf self.old plan.now list }
        ensures stands { (t : Told) → RegionStandsFor self.old plan.now list t
            → RegionStandsFor self.new plan.now list (at_end t) }
        ensures of { IsRegionOf self.new plan.now list }
        ensures wanted { wanted self.new.input ≡ 0 }
        ensures kept { kept_of self.new ≡ kept_of self.old }
    {
        plan.rules_law();
        self.input.end();
    }

    /// Ends the next frame: the list then holds its blocks, if an interleaving frame begins in it.
    pub fn advance(&mut self, plan: &Plan, list: u32)
        requires of { IsRegionOf self.old plan.now list }
        requires wanted { wanted self.old.input ≡ 0 }
        requires free { self.old.sends ≡ false }
        requires early { self.old.next ≤ MOST_FRAMES }
        ensures stands { (t : Told) → RegionStandsFor self.old plan.now list t
            → RegionStandsFor self.new plan.now list (in_next t) }
        ensures gives { (t : Told) → RegionStandsFor self.old plan.now list t → (input : List (List ℕ))
            → Continues t input
            → GivesFrame self.new plan.now list t.frame input }
        ensures of { IsRegionOf self.new plan.now list }
        ensures next { self.new.next ≡ self.old.next + 1 }
    {
        if plan.is_first(list as usize, self.next) {
            self.cut(plan, list);
        } else {
            self.pass(plan, list);
        }
    }

    // The slots that are over when the frame behind the next one begins.
    fn due(&self, plan: &Plan, list: u32) -> u64
        requires place { list < length plan.now.plps }
        requires early { self.now.next ≤ MOST_FRAMES }
        ensures due { result ≡ slots_by plan.now list ((self.now.next + 1) * plan.now.ticks) }
        ensures small { result < 2 ^ 54 }
    {
        plan.rules_law();
        plan.slots_by(
            list as usize,
            (self.next + 1) * u64::from(plan.config().ticks),
        )
    }

    // Ends the next frame, in which an interleaving frame begins.
    fn cut(&mut self, plan: &Plan, list: u32)
        requires of { IsRegionOf self.old plan.now list }
        requires wanted { wanted self.old.input ≡ 0 }
        requires free { self.old.sends ≡ false }
        requires early { self.old.next ≤ MOST_FRAMES }
        requires first { is_first plan.now list self.old.next ≡ true }
        ensures stands { (t : Told) → RegionStandsFor self.old plan.now list t
            → RegionStandsFor self.new plan.now list (in_next t) }
        ensures gives { (t : Told) → RegionStandsFor self.old plan.now list t → (input : List (List ℕ))
            → Continues t input
            → GivesFrame self.new plan.now list t.frame input }
        ensures of { IsRegionOf self.new plan.now list }
        ensures next { self.new.next ≡ self.old.next + 1 }
    {
        plan.rules_law();
        spread_law();
        let slots = self.due(plan, list);
        self.count = self.input.cut(slots, &mut self.blocks, list);
        self.sends = true;
        self.next += 1;
    }

    // Ends the next frame, in which none begins.
    fn pass(&mut self, plan: &Plan, list: u32)
        requires of { IsRegionOf self.old plan.now list }
        requires free { self.old.sends ≡ false }
        requires early { self.old.next ≤ MOST_FRAMES }
        requires later { is_first plan.now list self.old.next ≡ false }
        ensures stands { (t : Told) → RegionStandsFor self.old plan.now list t
            → RegionStandsFor self.new plan.now list (in_next t) }
        ensures gives { (t : Told) → RegionStandsFor self.old plan.now list t → (input : List (List ℕ))
            → Continues t input
            → GivesFrame self.new plan.now list t.frame input }
        ensures of { IsRegionOf self.new plan.now list }
        ensures next { self.new.next ≡ self.old.next + 1 }
    {
        plan.rules_law();
        spread_law();
        let slots = self.due(plan, list);
        self.input.pass(slots);
        self.next += 1;
    }

    /// The blocks of the frame before were sent, or are not to be.
    pub fn leave(&mut self, plan: &Plan, list: u32)
        requires of { IsRegionOf self.old plan.now list }
        ensures stands { (t : Told) → RegionStandsFor self.old plan.now list t
            → RegionStandsFor self.new plan.now list t }
        ensures of { IsRegionOf self.new plan.now list }
        ensures wanted { wanted self.new.input ≡ wanted self.old.input }
        ensures free { self.new.sends ≡ false }
        ensures next { self.new.next ≡ self.old.next }
    {
        plan.rules_law();
        if !self.sends {
            return;
        }
        self.blocks.clear(list);
        self.sends = false;
    }
}
