//! The lexer of the assembler's language: the tokens of a source, or its first lexical fault.
//!
//! It stands on `vx_language`, whose definitions say what the pieces of a source are, and on the kit's `thiserror`. To the
//! crates above it gives `tokens`, and what an assembler needs that reads on behind a fault: `piece_at`, one piece after the
//! other without memory, `first_bad_byte`, and `number_of` and `push_text`, what a number and a text mean.
#![tactic(auto)]

mod byte;
mod fault;
mod lexer;
mod list;
mod numeral;
mod piece;
mod quoted;

pub use byte::first_bad_byte;
pub use fault::LexFault;
pub use lexer::tokens;
pub use list::Tokens;
pub use numeral::number_of;
pub use piece::{Piece, piece_at};
pub use quoted::push_text;
