//! How long a process's instructions take on page tables: the timing equations, and the episode, which ends at a commit behind
//! the end of a slice or where an instruction stops.
//!
//! The crate is its definitions (`specs/`). It stands on the flat machine of `vx_flat`, and sees an instruction through its
//! footprint; on the residency, the walks and the caches of `vx_tables`; and on the physical memory of `vx_cells`.
#![tactic(auto)]

mod ended;
mod laws;

pub use ended::Ended;
pub use laws::examples_hold;
