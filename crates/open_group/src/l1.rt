// The L1 signalling of a group.
ghost use Rattle.std.specs.Prelude.{◌≡◌, ◌≤◌, true, length};
ghost use Rattle.l1_signal.specs.declared.lengths.TheConstants.{MOST_DYN_BITS};

use crate::parts::HeldParts;
use crate::signalling::Configurable;
use crate::sizes::{block_count, rest_len};
use crate::writer::Writer;
use bit_slice::{BitSlice, OutOfMemory};
use frame_groups::{
    Network, is_network_conf, is_of_frame, is_pre, map_test_law, read_dynamic, tell_shape,
};
use l1_signal::{L1Dyn, dyn_law};
use plp_config::{Moment, Plan};
use scheduler::Shape;
use std::alloc::Global;
use t2mi_packet::{Body, Packet};

/// What is held of the L1-current packets of a group.
#[derive(Drop)]
pub struct HeldL1 {
    // The first one, if there is one.
    is_held: bool,
    parts: HeldParts,
    // Whether the others are the same.
    alike: bool,
    // Of the first one, whether L1-pre and the configurable part are the configuration's.
    agrees: bool,
    // Whether its dynamic part was read, this, and the shape that it tells.
    told: bool,
    dynamic: L1Dyn,
    pub(crate) shape: Shape,
    ghost rows: { length shape.counts ≡ length dynamic.plps },
    // What reads is no longer than a dynamic part can be.
    ghost short: { told ≡ true → parts.dynamic ≤ MOST_DYN_BITS },
}

impl HeldL1 {
    ghost use Rattle.std.specs.Prelude.{◌≡◌, ◌&&◌, ◌+◌, ◌≤◌, ◌∷◌, [], true, false, Bool, Option, Some, None, length};
    ghost use Rattle.std.specs.Prelude.{IfOk, IfSome, List, ℕ, ◌++◌, sum_by};
    ghost use Rattle.std.specs.Option.{option_and_then, option_copied, option_map_or};
    ghost use Rattle.plp_config.specs.declared.config.Config.{Config};
    ghost use Rattle.frame_groups.specs.Carried.{L1Parts, l1s_of};
    ghost use Rattle.frame_groups.specs.Tests.{dyn_agrees, read_dynamic, parts_agree, l1_shape, has_map};
    ghost use Rattle.t2mi_packet.specs.T2miPacket.{Fits};
    ghost use Rattle.open_group.specs.declared.parts.TheConstants.{MOST_BITS};
    ghost use Rattle.open_group.specs.HoldsL1.{HasRead, HoldsL1, AddsL1, shape_told};
    ghost use Rattle.open_group.specs.Parts.{parts_of};
    ghost use Rattle.plp_config.specs.Places.{places};
    ghost use Rattle.open_group.specs.RecordBytes.{own_count};
    ghost use Rattle.l1_signal.specs.L1Configurable.{conf_bits};
    ghost use Rattle.l1_signal.specs.L1Of.{conf_of};
    ghost use Rattle.record_laws.specs.Laws.{rest_size};
    ghost use Rattle.open_group.specs.Front.{front_bytes};
    ghost use Rattle.open_group.specs.WriterLaws.{post_size};
    ghost use Rattle.open_group.specs.Steps.{step_bytes, HasLists};
    ghost use Rattle.linked_pool.specs.Pool.{used_chunks};
    ghost use Rattle.open_group.specs.Writes.{bytes_left, most_record, IsReady, is_done};
    ghost use Rattle.open_group.specs.declared.step.Step.TheVariants.{Blocks};

    /// Takes the memory for the PLPs of a plan. Nothing is held yet.
    pub fn open(alloc: Global, plan: &Plan) -> Result<HeldL1, OutOfMemory>
        ensures rows { IfOk result (λ held. length held.dynamic.plps ≡ length plan.now.plps) }
        ensures none { IfOk result (λ held. held.is_held ≡ false) }
        ensures alike { IfOk result (λ held. held.alike ≡ true) }
    {
        let plps = plan.config().plps.len() as u16;
        Ok(HeldL1 {
            is_held: false,
            parts: HeldParts::new(),
            alike: true,
            agrees: false,
            told: false,
            dynamic: L1Dyn::open(alloc, plps)?,
            shape: Shape::open(alloc, plan)?,
        })
    }

    /// Holds nothing.
    pub fn clear(&mut self)
        ensures held { self.new.is_held ≡ false }
        ensures alike { self.new.alike ≡ true }
        ensures rows { self.new.dynamic ≡ self.old.dynamic }
    {
        self.is_held = false;
        self.alike = true;
    }

    // Holds an L1-current, and reads it.
    fn add_first(
        &mut self,
        network: &Network<'_>,
        pre: &BitSlice<'_>,
        conf: &BitSlice<'_>,
        dynamic: &BitSlice<'_>,
        extension: &BitSlice<'_>,
    )
        requires room { length pre.now + length conf.now + length dynamic.now + length extension.now ≤ MOST_BITS }
        requires rows { length self.old.dynamic.plps ≡ length network.now.plps }
        ensures parts { parts_of self.new.parts ≡ record {
          pre = pre.now;
          conf = conf.now;
          dynamic = dynamic.now;
          extension = extension.now;
        } }
        ensures held { self.new.is_held ≡ true }
        ensures alike { self.new.alike ≡ self.old.alike }
        ensures reads { HasRead network.now self.new }
        ensures rows { length self.new.dynamic.plps ≡ length self.old.dynamic.plps }
    {
        dyn_law();
        network.plan().rules_law();
        self.parts.hold(pre, conf, dynamic, extension);
        self.is_held = true;
        self.agrees = is_pre(network.plan(), pre, false) && is_network_conf(network, conf);
        self.told = read_dynamic(dynamic, &mut self.dynamic);
        if self.told {
            tell_shape(&self.dynamic, &mut self.shape);
        }
    }

    fn add_l1(
        &mut self,
        network: &Network<'_>,
        pre: &BitSlice<'_>,
        conf: &BitSlice<'_>,
        dynamic: &BitSlice<'_>,
        extension: &BitSlice<'_>,
    )
        requires room { length pre.now + length conf.now + length dynamic.now + length extension.now ≤ MOST_BITS }
        requires rows { length self.old.dynamic.plps ≡ length network.now.plps }
        ensures adds { AddsL1 network.now self.old self.new (record {
          pre = pre.now;
          conf = conf.now;
          dynamic = dynamic.now;
          extension = extension.now;
        } ∷ []) }
        ensures rows { length self.new.dynamic.plps ≡ length self.old.dynamic.plps }
    {
        if !self.is_held {
            self.add_first(network, pre, conf, dynamic, extension);
            return;
        }
        if !self.parts.is_same(pre, conf, dynamic, extension) {
            self.alike = false;
        }
    }

    /// Adds the L1 signalling of a packet, if it carries some.
    pub fn add(&mut self, network: &Network<'_>, packet: &Packet<'_>)
        requires fits { Fits packet.now }
        requires rows { length self.old.dynamic.plps ≡ length network.now.plps }
        ensures adds { AddsL1 network.now self.old self.new (l1s_of (packet.now ∷ [])) }
        ensures rows { length self.new.dynamic.plps ≡ length self.old.dynamic.plps }
    {
        match &packet.body {
            Body::L1Current {
                pre,
                conf,
                dynamic,
                extension,
                ..
            } => self.add_l1(network, pre, conf, dynamic, extension),
            Body::Block { .. } => {}
            Body::Timestamp(_) => {}
            Body::Other { .. } => {}
        }
    }

    /// Whether there is an L1-current.
    pub fn is_held(&self) -> bool
        ensures { result ≡ self.now.is_held }
    {
        self.is_held
    }

    /// The parts of the first L1-current.
    pub fn parts(&self) -> &HeldParts
        ensures { result.now ≡ self.now.parts }
    {
        &self.parts
    }

    // Whether the dynamic part of the first one is of a frame.
    fn is_dynamic(&self, plan: &Plan, number: u64) -> bool
        requires rows { length self.now.dynamic.plps ≡ length plan.now.plps }
        ensures { HasRead plan.now self.now → result ≡ dyn_agrees plan.now number
            (read_dynamic plan.now (parts_of self.now.parts)) }
    {
        self.told && is_of_frame(plan, number, &self.dynamic)
    }

    // Whether the first one is of the configuration and of a frame.
    #[tactic(auto, unfolding(frame_groups::specs::Tests::parts_agree))]
    pub(crate) fn is_first(&self, plan: &Plan, number: u64) -> bool
        requires rows { length self.now.dynamic.plps ≡ length plan.now.plps }
        ensures { HasRead plan.now self.now → result ≡ parts_agree plan.now number (parts_of self.now.parts) }
    {
        self.agrees && self.is_dynamic(plan, number)
    }

    /// Whether all are the same, and those of the configuration and of a frame.
    pub fn agrees(&self, plan: &Plan, number: u64) -> bool
        requires rows { length self.now.dynamic.plps ≡ length plan.now.plps }
        ensures { (first : Option L1Parts) (alike : Bool) → HoldsL1 plan.now self.now first alike
            → result ≡ (alike && option_map_or (parts_agree plan.now number) first true) }
    {
        if !self.is_held {
            return self.alike;
        }
        self.alike && self.is_first(plan, number)
    }

    /// The shape that the first one tells, if it reads.
    pub fn shape(&self) -> Option<&Shape>
        ensures value { option_copied result ≡ shape_told self.now }
        ensures shape { (c : Config) (first : Option L1Parts) (alike : Bool) → HoldsL1 c self.now first alike
            → option_copied result ≡ option_and_then (l1_shape c) first }
        ensures len { IfSome result (λ shape. length shape.now.counts ≡ length self.now.dynamic.plps) }
    {
        if self.is_held && self.told {
            return Some(&self.shape);
        }
        None
    }

    /// The last shape that was told.
    pub fn last_shape(&self) -> &Shape
        ensures { result.now ≡ self.now.shape }
    {
        &self.shape
    }

    /// Begins the record of the frame that it tells: its number, the moment at which it leaves, and its number in its
    /// superframe.
    pub fn begin_frame(
        &self,
        plan: &Plan,
        conf: &Configurable,
        number: u64,
        moment: &Moment,
        frame_idx: u8,
        writer: &mut Writer,
    )
        requires conf { conf.now ≡ conf_bits (conf_of plan.now) }
        requires map { has_map plan.now (shape_told self.now) ≡ true }
        requires rows { length self.now.dynamic.plps ≡ length plan.now.plps }
        ensures left { (lists : List (List (List ℕ))) → bytes_left writer.new plan.now self.now.shape lists
            ≡ front_bytes plan.now moment.now (parts_of self.now.parts).dynamic
            (sum_by (own_count plan.now number self.now.shape) (places plan.now))
            (rest_size plan.now (post_size plan.now (length (parts_of self.now.parts).dynamic))
            (own_count plan.now number self.now.shape))
            ++ step_bytes plan.now self.now.shape frame_idx lists (Blocks 0) }
        ensures most { (lists : List (List (List ℕ)))
            → length (bytes_left writer.new plan.now self.now.shape lists) ≤ most_record plan.now (used_chunks lists) }
        ensures ready { (lists : List (List (List ℕ))) → HasLists plan.now lists
            → IsReady writer.new plan.now self.now.shape lists }
        ensures done { is_done writer.new ≡ false }
    {
        map_test_law();
        plan.rules_law();
        let dynamic = self.parts.dynamic();
        let blocks = block_count(plan, number, &self.shape);
        let rest = rest_len(plan, number, &self.shape, dynamic.len());
        writer.begin_frame(plan, conf, moment, frame_idx, dynamic, blocks, rest);
    }
}
