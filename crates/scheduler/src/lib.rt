//! Where the PLPs of a frame stand (EN 302 755, clause 8).
#![tactic(auto)]

mod frame;
mod laws;
mod numbers;

pub use frame::shape;
pub use laws::{alone_law, field_law, order_law};
pub use numbers::Shape;
