//! What an instruction does to the registers and to any memory.
//!
//! It stands on `vx_decode`, on the vector state of `vx_vstate`, on the effects of `vx_scalar`, on the vector arithmetic of
//! `vx_exec`, on the accesses of vector memory of `vx_vaddr` and on the definitions of `vx_flat`, which it computes over any
//! `Memory`. To the crates above it gives `find`, which tells what stands at the pc, and `Executor`, which does it, as a whole or in
//! its parts.
#![tactic(auto)]

mod arch;
mod arithmetic;
mod controls;
mod direction;
mod executor;
mod failures;
mod finding;
mod kept;
mod memory;
mod movements;
mod operands;
mod progress;
mod scalars;
mod service;
mod transfers;
mod vectors;

pub use arch::Arch;
pub use direction::Direction;
pub use executor::Executor;
pub use finding::{Found, find};
pub use memory::Memory;
pub use operands::change_in;
pub use progress::{Advance, Progress};
pub use service::serve;
pub use vectors::writes;
