//! Definitions that several crates cite, and their laws. It has no code.
#![tactic(auto)]
