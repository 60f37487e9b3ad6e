//! The records of frames, as they stand in a file: the boundary between head end, modulators and receivers; read whole,
//! as they come in pieces of any size, and written with the words of all cells.
#![tactic(auto)]

mod again;
mod agreeing;
mod begin;
mod blocks;
mod cells;
mod coming;
mod count;
mod cut;
mod fault;
mod feed;
mod feed_laws;
mod filling;
mod head;
mod head_part;
mod laws;
mod line;
mod parts;
mod placing;
mod reading;
mod told;
mod writing;

pub use agreeing::agree;
pub use blocks::{Blocks, BlocksIter};
pub use cells::{Cells, CellsIter};
pub use coming::Coming;
pub use count::RecordCount;
pub use fault::RecordWhy;
pub use feed::RecordFeed;
pub use feed_laws::stands_law;
pub use filling::fill_words;
pub use head::{GREATEST_REST, HEAD};
pub use laws::{place_law, reading_law, refusal_law, writing_law};
pub use parts::FrameParts;
pub use placing::place_record;
pub use reading::{RecordView, front_head, read_record, rest_len};
pub use writing::{write_head, write_muted};
