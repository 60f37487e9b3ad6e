//! Mode adaptation of one PLP (EN 302 755, clause 5.1): its packets become baseband frames.
#![tactic(auto)]

mod block_header;
mod chain;
mod front;
mod laws;
mod matype;
mod waiting;

pub use block_header::LONG_ISCR;
pub use chain::Chain;
pub use laws::{
    alone_law, backlog_law, begin_law, blocks_law, count_law, early_fits_law, end_law, first_law,
    join_law, place_law, sent_law, sent_within_law, within_law,
};
