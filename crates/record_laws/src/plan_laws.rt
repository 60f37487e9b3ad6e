// What holds of the frames of every plan.
ghost use Rattle.record_laws.specs.Frames.{HasByteIds};

use plp_config::Plan;

/// The identifiers of a plan's PLPs are bytes. It reads each, and does nothing.
pub fn id_law(plan: &Plan)
    ensures { HasByteIds plan.now }
{
    for plp in 0..plan.config().plps.len() {
        let _ = plan.plp_id(plp);
    }
}
