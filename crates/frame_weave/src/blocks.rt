// The blocks of a frame become packets.
ghost use Rattle.std.specs.Prelude.{◌≡◌, ◌<◌, ◌+◌, ◌-◌, ◌++◌, ◌∷◌, [], List, length, slice_index_or};
ghost use Rattle.linked_pool.specs.Pool.{list_at};
ghost use Rattle.t2mi_packet.specs.declared.packet.Body.{Body};
ghost use Rattle.frame_weave.specs.Made.{IsAlone, HoldsMade, slot_bodies, all_bodies};
ghost use Rattle.frame_weave.specs.Woven.{block_body};

use crate::layout::Layout;
use crate::made::MadeGroup;
use crate::slots::Slots;
use plp_config::{MOST_BLOCK_BYTES, Plan};

// The block at a place.
fn push_place(made: &mut MadeGroup<'_>, number: u64, slots: &Slots, plp: usize, place: u32)
    requires inside { plp < length made.old.plan.now.plps }
    ensures holds { (bodies : List Body) → HoldsMade made.old.plan.now number made.old bodies
        → HoldsMade made.old.plan.now number made.new
        (bodies ++ block_body made.old.plan.now number plp (slice_index_or (list_at slots.now.pool place) 0 []) ∷ []) }
    ensures alone { IsAlone made.old.group → IsAlone made.new.group }
    ensures plan { made.new.plan.now ≡ made.old.plan.now }
{
    let mut bytes = [0; MOST_BLOCK_BYTES as usize];
    let len = slots.copy_to(place, &mut bytes);
    made.push_block(number, plp, &bytes[..len]);
}

// Those of a PLP.
fn push_plp(made: &mut MadeGroup<'_>, number: u64, slots: &Slots, plp: usize, start: u32, end: u32)
    requires inside { plp < length made.old.plan.now.plps }
    ensures holds { (bodies : List Body) → HoldsMade made.old.plan.now number made.old bodies
        → HoldsMade made.old.plan.now number made.new
        (bodies ++ slot_bodies made.old.plan.now number slots.now.pool plp start (end - start)) }
    ensures alone { IsAlone made.old.group → IsAlone made.new.group }
    ensures plan { made.new.plan.now ≡ made.old.plan.now }
{
    for place in start..end {
        push_place(made, number, slots, plp, place);
    }
}

/// Those of all PLPs.
pub fn push_blocks(
    made: &mut MadeGroup<'_>,
    plan: &Plan,
    number: u64,
    layout: &Layout,
    slots: &Slots,
)
    requires same { made.old.plan.now ≡ plan.now }
    requires sized { length layout.now.starts.items ≡ length plan.now.plps + 1 }
    ensures holds { (bodies : List Body) → HoldsMade plan.now number made.old bodies
        → HoldsMade plan.now number made.new
        (bodies ++ all_bodies plan.now number slots.now.pool layout.now.starts.items (length plan.now.plps)) }
    ensures alone { IsAlone made.old.group → IsAlone made.new.group }
    ensures plan { made.new.plan.now ≡ made.old.plan.now }
{
    for plp in 0..plan.config().plps.len() {
        push_plp(
            made,
            number,
            slots,
            plp,
            layout.start(plp),
            layout.start(plp + 1),
        );
    }
}
