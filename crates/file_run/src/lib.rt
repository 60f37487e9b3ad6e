//! A machine over files: some are read, and one is written or standard output said; and a configuration, read from a
//! file.
#![tactic(auto)]

mod ahead;
mod config_laws;
mod config_reading;
mod config_stop;
mod desk_laws;
mod draining;
mod feed_counts;
mod feeding;
mod input;
mod laws;
mod line;
mod machine;
mod one_run;
mod opening;
mod out_buffer;
mod output;
mod page;
mod running;
mod stop;
mod telling;
mod writing;

pub use ahead::{LONGEST_FILE, ReadAhead, ReadStop};
pub use config_laws::{config_ends_law, one_config_law};
pub use config_reading::{read_config, read_plan};
pub use config_stop::{ConfigCause, ConfigStop};
pub use desk_laws::{appends_law, creates_law};
pub use feed_counts::FeedCounts;
pub use input::{BUFFER, InBuffer, MOST_WANTED};
pub use laws::{events_law, faults_law};
pub use line::{Line, ROOM};
pub use machine::{AHEAD, Ending, Machine, PIECE, Step, Working};
pub use one_run::{run_one, run_over, run_over_two, run_work_over};
pub use out_buffer::OutBuffer;
pub use output::Output;
pub use page::{PAGE, Page};
pub use running::run;
pub use stop::{RunFault, RunStop};
pub use telling::tell;
pub use writing::write_all;
