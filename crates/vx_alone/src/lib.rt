//! The flat machine as a program: one process alone, an instruction at a time, on memory by page.
//!
//! It stands on the images of `vx_image`, on the instructions of `vx_hart`, which it does over a memory of its own, and on the
//! definitions of `vx_flat`, which it computes plainly. To the crates above it gives `Alone`: its boot is the boot of the image
//! on its hart, each of its steps is the flat step, and it takes no memory after boot.
#![tactic(auto)]

mod alone;
mod flat;
mod memory;
mod turn;

pub use alone::Alone;
pub use turn::Turn;
pub use vx_flat::{End, Hart, Upcoming};
pub use vx_hart::Arch;
pub use vx_scalar::Regs;
