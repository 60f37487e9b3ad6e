//! What comes back of the frames of a network: of what a receiver gets, of two streams merged, of several made one, of
//! one PLP replaced, and of a group with a common PLP (EN 302 755, ETSI TS 102 773). It has no code.
#![tactic(auto)]

mod common_laws;
mod mended_run;
mod merge_laws;
mod recover_laws;
mod run_feeds;
mod swap_laws;

pub use common_laws::common_law;
pub use mended_run::mend_law;
pub use merge_laws::merge_law;
pub use recover_laws::{
    epochs_law, plan_epochs_law, records_law, recover_law, taken_law, whole_law,
};
pub use run_feeds::feeds_law;
pub use swap_laws::{back_law, region_law, replaced_law, whole_region_law};
