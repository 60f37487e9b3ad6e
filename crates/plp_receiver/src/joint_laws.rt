// Laws of the definitions. Their functions do nothing.
ghost use Rattle.plp_receiver.specs.JointLaws.{JoinedOnce, JoinedFront};

use crate::laws::readback_law;
use common_plp::join_law;

/// A PLP and the common one of its group are given back one list of packets, and of the first records a prefix of that
/// of more.
pub fn joined_law()
    ensures once { JoinedOnce }
    ensures front { JoinedFront }
{
    readback_law();
    join_law();
}
