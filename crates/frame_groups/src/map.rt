// Whether a shape has a cell map.
ghost use Rattle.std.specs.Prelude.{◌≡◌, length};
ghost use Rattle.frame_groups.specs.MapTest.{map_passes};

use crate::test_laws::map_test_law;
use cell_map::check;
use plp_config::Plan;
use scheduler::Shape;

/// Whether a shape has a cell map.
pub fn map_passes(plan: &Plan, shape: &Shape) -> bool
    requires { length shape.now.counts ≡ length plan.now.plps }
    ensures { result ≡ map_passes plan.now shape.now }
{
    map_test_law();
    plan.rules_law();
    check(plan, shape).is_ok()
}
