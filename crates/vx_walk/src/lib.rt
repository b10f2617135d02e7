//! The page tables of processes, in physical memory: they are built, and walked as Sv39 has it.
//!
//! It stands on the definitions of `vx_tables` and on `vx_cells`. To the crates above it gives `build` and `build_present`,
//! after which tables stand for a residency, and `walk` and `Walker`, which answer the page map of the residency and set A
//! and D where they are to be set. Two Walkers, one on each port, may be on their way at once.
#![tactic(auto)]

mod building;
mod entry;
#[cfg(test)]
mod tests;
mod walker;
mod whole;

pub use building::{build, build_present, entry_at, write_word};
pub use vx_tables::Walked;
pub use walker::Walker;
pub use whole::walk;
