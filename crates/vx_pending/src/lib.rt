//! That pending bytes don't matter: what a store that was cut off may have written already, the next instruction writes again
//! before anything reads it.
//!
//! The crate is a definition (`specs/`), when a memory differs from a flat state's in pending bytes alone, and its laws: from such
//! a memory, the flat machine of `vx_flat` does what it does from the state's, and the timing of `vx_episode` sees the same. An
//! engine that goes on from what physical memory shows needs them. Its functions have no code.
#![tactic(auto)]

mod laws;

pub use laws::{
    footprints_are_the_same, nothing_else_differs, pending_bytes_are_not_read, prefixes_are_alike,
    steps_are_alike,
};
