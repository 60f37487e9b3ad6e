// Laws of the definitions. Their functions do nothing.
ghost use Rattle.network_laws.specs.CommonLaws.{CommonComesBack};

use crate::recover_laws::recover_law;
use common_plp::{groups_law, join_law, split_law};

/// What a PLP of a group with a common PLP is given back together with it of the records of a run, some of them muted:
/// each packet that is not null, if every interleaving frame that carries a byte of its user packet is there, in the
/// common PLP if all streams of the group share it, and else in its own; and null packets in all other slots.
pub fn common_law()
    ensures { CommonComesBack }
{
    groups_law();
    join_law();
    split_law();
    recover_law();
}
