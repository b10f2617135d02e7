//! Words of mask logic, of reductions, and of rows that count or find the bits of a mask; and the numbers that three of these
//! rows put into an integer register.
//!
//! It stands on `vx_operands`, which reads the words of the operands and merges the new elements with the old ones, and on
//! the arithmetic of `vx_bits`. To the crate above it gives `word`, which makes a word of the destination as the
//! definitions of `vx_vector` say that the instruction leaves it, and `count`, which makes the number of an integer register.
#![tactic(auto)]

mod form;
mod full;
mod indexed;
mod kinds;
mod logic;
mod marks;
mod reduced;
mod span;
mod told;
mod words;

pub use full::full_words;
pub use told::count;
pub use words::word;
