//! Null-packet deletion (EN 302 755, clause 5.1.5) and its inverse.
#![tactic(auto)]

mod deleter;
mod inserter;
mod laws;

pub use deleter::Deleter;
pub use inserter::Inserter;
pub use laws::{
    decided_by_the_past_law, dnp_fits_law, first_kept_law, next_kept_law, run_law,
    slots_restored_law, without_deletion_law,
};
