//! Two T2-MI streams of one network compared, over files: what both make of each frame (ETSI TS 102 773).
#![tactic(auto)]

mod answer;
mod answer_laws;
mod answer_run;
mod answering;
mod comparing;
mod counts;
mod laws;
mod lines;
mod machine;
mod running;
mod stop;
mod taking;
mod tally;

pub use answer::{Answer, Other, Place, Side};
pub use answer_laws::{answers_law, known_law, none_differs_law, own_law, plps_law, same_law};
pub use answering::{Carried, answer_by};
pub use counts::CompareRan;
pub use laws::{one_run_law, run_ends_law};
pub use running::run;
pub use stop::CompareStop;
pub use tally::{LONGEST_TEXT, Tally};
