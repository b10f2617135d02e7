//! What the rows of RV64IM that touch no memory do, as a program, and the addresses of those that do.
//!
//! It stands on the arithmetic of `vx_bits`, on the instructions of `vx_decode` and on the definitions of `vx_flat`. To the
//! crates above it gives the registers, `scalar`, which is the effect of an instruction, and of a load or a store its
//! address, its width and the value that it loads. It takes no memory.
#![tactic(auto)]

mod access;
mod effects;
mod operation;
mod reading;
mod regs;

pub use access::{access_width, loaded};
pub use effects::{scalar, scalar_address};
pub use regs::Regs;
pub use vx_flat::Effect;
