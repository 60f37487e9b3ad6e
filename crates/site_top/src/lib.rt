//! The commands of the program, over any desk.
#![tactic(auto)]

mod command_line;
mod common_receive;
mod compare;
mod config_commands;
mod gateway;
mod last_lines;
mod laws;
mod mend;
mod merge;
mod modulate;
mod outcome;
mod plan_lines;
mod receive;
mod request;
mod run_end;
mod running;
mod swap;
mod trial;

pub use command_line::request_of;
pub use file_run::ConfigCause;
pub use laws::{commands_have_ending_law, completeness_law, one_ending_law, only_out_changes_law};
pub use outcome::Outcome;
pub use ports::Word;
pub use request::Request;
pub use running::run;
pub use trial_run::{Draws, trial_input};
