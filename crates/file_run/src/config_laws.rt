// Laws of the definitions. Their functions do nothing.
ghost use Rattle.file_run.specs.ConfigLaws.{OneConfig, OnePlan, ConfigEnds, PlanEnds};

use config_text::{decided_law, not_refused_law, refused_once_law, spelled_once_law};
use plp_config::refusal_law;

/// A text gives one configuration or one cause, and one plan or one cause.
pub fn one_config_law()
    ensures config { OneConfig }
    ensures plan { OnePlan }
{
    spelled_once_law();
    not_refused_law();
    refused_once_law();
    refusal_law();
}

/// Each text gives a configuration or a cause, and a plan or a cause.
pub fn config_ends_law()
    ensures config { ConfigEnds }
    ensures plan { PlanEnds }
{
    decided_law();
    refusal_law();
}
