//! Words of permutations: slides, gathers, compressed elements, and the move of an integer register to element 0.
//!
//! It stands on `vx_operands`, which reads the words of the operands and merges the new elements with the old ones. To the
//! crate above it gives `word`, which makes a word of the destination as the definitions of `vx_vector` say that the
//! instruction leaves it; and `full_words`, which makes those of slides and gathers that hold only active elements in one loop.
#![tactic(auto)]

mod elements;
mod form;
mod full;
mod gathers;
mod moves;
mod packs;
mod runs;
mod words;

pub use full::full_words;
pub use words::word;
