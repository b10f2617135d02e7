//! Physical memory with its clock: words of 64 bits in frames of 4,096 bytes, and the banks in front of it.
//!
//! It stands on `vx_base`. To the crates above it gives the trait `Cells` with what it tells (frames, cycle, contents and,
//! where it is told, the log of accesses) and what each call does to that; `VecCells`, which tell no log, and `LogCells`,
//! which tell it while its room lasts; and `Banks`, which serve accesses first in, first out on each bank.
#![tactic(auto)]

mod access;
mod banks;
mod cells;
mod laws;
mod log_cells;
mod merge;
#[cfg(test)]
mod tests;
mod vec_cells;

pub use access::{Access, Port};
pub use banks::{Banks, Queued, Served};
pub use cells::Cells;
pub use laws::{accesses_are_made_in_turn, words_are_merged_by_bytes};
pub use log_cells::LogCells;
pub use vec_cells::VecCells;
