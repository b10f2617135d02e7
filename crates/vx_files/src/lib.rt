//! The shelf of the system's files, and the sink over a writer.
//!
//! It stands on `vx_base`, whose traits these are. To the program it gives `FileShelf` and `OutSink`, which tell nothing of what
//! a file holds or a terminal shows, and count their faults.
#![tactic(auto)]

mod file_shelf;
mod out_sink;

pub use file_shelf::FileShelf;
pub use out_sink::OutSink;
