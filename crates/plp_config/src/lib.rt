//! The configuration of a DVB-T2 network: its rules, its capacity tests and its times.
#![tactic(auto)]

mod at;
mod band;
mod capacity;
mod config;
mod gcd;
mod laws;
mod list;
mod moment;
mod network_rules;
mod plan;
mod plp;
mod plp_rules;
mod rules;
mod slot_times;
mod values;

pub use band::Band;
pub use capacity::{CapacityFault, fits};
pub use config::{
    Config, FIXED_REST, GREATEST_REST, L1_POST_BITS, L1_POST_PLP_BITS, L1Numbers, MOST_CELLS,
};
pub use laws::{
    alone_law, block_law, delay_law, emission_law, interleaving_law, iscr_law, length_law,
    range_law, refusal_law, release_law, run_length_law, slot_time_law, spread_law,
};
pub use list::{MOST_PLPS, PlpList};
pub use moment::{ISCR_TICKS, MOST_FRAMES, Moment, SUPERFRAME_PERIOD};
pub use plan::Plan;
pub use plp::{
    FecSize, MOST_BLOCK_BYTES, MOST_BLOCKS, MOST_CAPACITY, MOST_FIELD_BYTES, MOST_INFO_BITS,
    Modulation, Plp, PlpType, Rate,
};
pub use rules::{ConfigFault, Valid, validate};
pub use slot_times::SlotTimes;
