//! The instructions of vector arithmetic, executed a word at a time: each operation goes to the crate that makes its words.
//!
//! It stands on `vx_elem`, `vx_widen`, `vx_fixed`, `vx_mask` and `vx_perm`. To the crate above it gives `word_of`, which makes a
//! word of an instruction's destination, and `scalar_of`, which makes the number that it puts into an integer register, as the
//! definitions of `vx_vector` say; and `Calculator`, which does a whole instruction on the vector state, without taking memory.
#![tactic(auto)]

mod calculator;
mod executed;
mod run;

pub use calculator::Calculator;
pub use executed::{instructions_read, scalar_of, word_of};
