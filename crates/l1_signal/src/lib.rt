//! L1 signalling: L1-pre, and the configurable and the dynamic part of L1-post (EN 302 755, clause 7.2).
#![tactic(auto)]

mod comparing;
mod conf;
mod conf_plp;
mod crc;
mod dyn_plp;
mod dynamic;
mod fault;
mod fields;
mod laws;
mod lengths;
mod pre;
mod rows;
mod values;

pub use comparing::is_conf;
pub use conf::{L1Conf, read_conf, write_conf};
pub use conf_plp::ConfPlp;
pub use crc::check_post;
pub use dyn_plp::DynPlp;
pub use dynamic::{L1Dyn, read_dyn, write_dyn};
pub use fault::L1Fault;
pub use laws::{alone_law, conf_law, dyn_law, post_law, pre_law, table_law};
pub use lengths::{
    CONF_BITS, CONF_PLP_BITS, CRC_BITS, DYN_BITS, DYN_PLP_BITS, INFO_BITS, MOST_CONF_BITS,
    MOST_DYN_BITS, MOST_DYN_BYTES, MOST_POST_BITS, MOST_POST_BYTES, PLP_BITS, POST_BITS, PRE_BITS,
    PRE_BYTES, conf_len, dyn_len, post_len,
};
pub use pre::{L1Pre, read_pre, write_pre};
pub use rows::{PlpRows, ReadPlp, WritePlp};
pub use values::{conf_of, dyn_of, pre_of, shape_of};
