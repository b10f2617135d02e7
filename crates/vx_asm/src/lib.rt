//! The assembler: from the text of a source to its program, or its first fault.
//!
//! It stands on `vx_language`, whose definitions say which faults a source has and which program it is, on `vx_lex`, which
//! cuts a source into pieces, on `vx_statement`, which judges a statement, and on `vx_code`, which puts what one says. To the
//! crate above it gives `assemble`: the program of a source without a fault, or else the first fault; and, from `vx_lines`,
//! the law that `assemble` of a word's line gives the word back.
#![tactic(auto)]

mod asm_fault;
mod assembler;
mod defining;
mod emit;
mod judge;
mod label;
mod labels;
mod laws;
mod lexical;
mod line;
mod part;
mod parts;
mod placing;

pub use asm_fault::AsmFault;
pub use assembler::assemble;
pub use defining::{define, define_all};
pub use label::{begin_with_label, labels_length};
pub use labels::{Defined, defined_labels};
pub use laws::lines_give_words_back;
pub use lexical::lexical_fault;
pub use line::{Line, read_line};
