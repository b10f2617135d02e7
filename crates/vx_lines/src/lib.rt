//! The law of lines: the canonical line of each word is a source, without a fault, whose code is that word.
//!
//! It stands on `vx_source`, which says what the line of a word is, and on `vx_language`, which says what a source is. To the
//! crate above it gives the law.
#![tactic(auto)]

mod law;

pub use law::lines_are_sources;
