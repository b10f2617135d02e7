//! Words of vector arithmetic that widens or narrows its elements, carries and borrows, and comparisons.
//!
//! It stands on `vx_operands`, which reads the words of the operands and merges the new elements with the old ones, and on
//! the arithmetic of `vx_bits`. To the crate above it gives `word`, which makes a word of the destination as the
//! definitions of `vx_vector` say that the instruction leaves it.
#![tactic(auto)]

mod comparisons;
mod form;
mod kinds;
mod lanes;
mod numbers;
mod words;

pub use words::word;
