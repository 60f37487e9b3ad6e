// Units out of a flow, as long as there is room.
ghost use Rattle.std.specs.Prelude.{◌≡◌, ◌∷◌, ◌≤◌, [], false, true, length, take};
ghost use Rattle.ts_packet.specs.declared.sizes.TheConstants.{SIZE};
ghost use Rattle.frame_writer.specs.Units.{Gives, HasCaughtUp};

use crate::flow::Flow;
use crate::source::FrameSource;
use plp_config::Plan;
use ts_packet::SIZE;

// Gives the next unit of the frames begun, if it is complete.
fn next_unit<X, S: FrameSource<X>>(
    flow: &mut Flow,
    frame: &X,
    plan: &Plan,
    source: &mut S,
    unit: &mut [u8; SIZE],
) -> bool
    requires of { S.IsFor source.old frame.now plan.now }
    requires over { flow.old.dry ≡ true → S.left source.old frame.now plan.now ≡ [] }
    requires ends { flow.old.dry ≡ true → S.IsOver source.old }
    ensures some { result ≡ true → Gives plan.now flow.old flow.new (S.number source.old)
        (S.left source.old frame.now plan.now)
        (S.left source.new frame.now plan.now) (unit.new ∷ []) }
    ensures none { result ≡ false → HasCaughtUp plan.now flow.new (S.number source.old)
        (S.left source.new frame.now plan.now) }
    ensures stays { result ≡ false → (flow.new ≡ flow.old) × (source.new ≡ source.old) }
    ensures whole { length unit.new ≡ SIZE }
    ensures of { S.IsFor source.new frame.now plan.now }
    ensures over { flow.new.dry ≡ true → S.left source.new frame.now plan.now ≡ [] }
    ensures ends { flow.new.dry ≡ true → S.IsOver source.new }
    ensures number { S.number source.new ≡ S.number source.old }
{
    flow.next(frame, plan, source, unit)
}

// The same to the front of these bytes.
fn next_front<X, S: FrameSource<X>>(
    flow: &mut Flow,
    frame: &X,
    plan: &Plan,
    source: &mut S,
    out: &mut [u8],
) -> bool
    requires of { S.IsFor source.old frame.now plan.now }
    requires over { flow.old.dry ≡ true → S.left source.old frame.now plan.now ≡ [] }
    requires ends { flow.old.dry ≡ true → S.IsOver source.old }
    requires room { SIZE ≤ length out.old }
    ensures some { result ≡ true → Gives plan.now flow.old flow.new (S.number source.old)
        (S.left source.old frame.now plan.now)
        (S.left source.new frame.now plan.now) (take SIZE out.new ∷ []) }
    ensures none { result ≡ false → HasCaughtUp plan.now flow.new (S.number source.old)
        (S.left source.new frame.now plan.now) }
    ensures stays { result ≡ false → (flow.new ≡ flow.old) × (source.new ≡ source.old) }
    ensures size { length out.new ≡ length out.old }
    ensures of { S.IsFor source.new frame.now plan.now }
    ensures over { flow.new.dry ≡ true → S.left source.new frame.now plan.now ≡ [] }
    ensures ends { flow.new.dry ≡ true → S.IsOver source.new }
    ensures number { S.number source.new ≡ S.number source.old }
{
    next_unit(flow, frame, plan, source, out.first_chunk_mut().unwrap())
}

impl Flow {
    ghost use Rattle.std.specs.Prelude.{◌≡◌, ◌<◌, ◌≤◌, ◌+◌, [], true, length, take};
    ghost use Rattle.ts_packet.specs.declared.sizes.TheConstants.{SIZE};
    ghost use Rattle.frame_writer.specs.Units.{GivesAll};

    /// Gives units of the frames begun, to the front of these bytes, as long as one is complete and there is room: how
    /// many bytes, and whether it was the room that ended.
    pub fn give<X, S: FrameSource<X>>(
        &mut self,
        frame: &X,
        plan: &Plan,
        source: &mut S,
        out: &mut [u8],
    ) -> (usize, bool)
        requires of { S.IsFor source.old frame.now plan.now }
        requires over { self.old.dry ≡ true → S.left source.old frame.now plan.now ≡ [] }
        requires ends { self.old.dry ≡ true → S.IsOver source.old }
        requires room { SIZE ≤ length out.old }
        ensures gives { GivesAll plan.now self.old self.new (S.number source.old) (S.left source.old frame.now plan.now)
            (S.left source.new frame.now plan.now) result.1 (take result.0 out.new) }
        ensures count { result.0 ≤ length out.old }
        // The room ended only if none is left for a unit.
        ensures full { result.1 ≡ true → length out.old < result.0 + SIZE }
        ensures size { length out.new ≡ length out.old }
        ensures of { S.IsFor source.new frame.now plan.now }
        ensures ends { self.new.dry ≡ true → S.IsOver source.new }
        ensures number { S.number source.new ≡ S.number source.old }
    {
        let mut len = 0;
        while out.len() - len >= SIZE {
            if !next_front(self, frame, plan, source, &mut out[len..]) {
                return (len, false);
            }
            len += SIZE;
        }
        (len, true)
    }
}
