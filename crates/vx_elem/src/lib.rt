//! Words of vector arithmetic whose elements have one width, of extensions and of whole-register moves.
//!
//! It stands on `vx_operands`, which reads the words of the operands and merges the new elements with the old ones, and on
//! the arithmetic of `vx_bits`. To the crate above it gives `word`, which makes a word of the destination as the
//! definitions of `vx_vector` say that the instruction leaves it.
#![tactic(auto)]

mod form;
mod full;
mod kinds;
mod lanes;
mod named;
mod numbers;
mod words;

pub use full::full_words;
pub use words::word;
