//! A region replaces one PLP of a T2-MI stream: its frames are made anew with the blocks of another input (EN 302 755).
#![tactic(auto)]

mod dynamic;
mod laws;
mod place;
mod region;
mod swapper;

pub use swapper::Swapper;
