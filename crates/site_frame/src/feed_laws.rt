// Laws of what a feed stands for. Their function does nothing.
ghost use Rattle.site_frame.specs.FeedLaws.{TakesOn, LacksWithin, NoneWaits};

use crate::laws::refusal_law;

/// What stands behind the records that were accepted: no record, unless one has come whole; and if more bytes are
/// taken, how many of it are lacking.
pub fn stands_law()
    ensures takes { TakesOn }
    ensures within { LacksWithin }
    ensures none { NoneWaits }
{
    refusal_law();
}
