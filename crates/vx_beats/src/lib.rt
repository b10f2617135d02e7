//! How many beats an instruction of vector arithmetic has: its handled words in groups of as many as the machine has lanes.
//!
//! It stands on the words of `vx_vector` and on the footprints of `vx_episode`. To the crate above it gives `beat_count`, which
//! finds the number without a list, from the family and the setting that the instruction is executed with; `step_of` and
//! `latency_of` of a unit; and the law that its footprint has as many beats as groups, on the unit of its family, and neither a
//! batch nor a stop.
#![tactic(auto)]

mod count;
mod laws;
mod units;
mod words;

pub use count::beat_count;
pub use laws::calculations_have_beats_alone;
pub use units::{latency_of, step_of};
