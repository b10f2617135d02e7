//! One statement of the assembler's language: the names that it may use, the forms that it may have, and its faults.
//!
//! It stands on `vx_language`, whose definitions say all of this, on `vx_lex`, which tells what a number is, and on the kit's
//! `indexmap` for labels and `smallvec` for forms. To the crate above it gives `Lexeme`, a token with its text, `Labels`,
//! `own_fault`, the first fault of a statement where it stands, `form_for`, the form that it has, and `first`, the first of two
//! faults.
#![tactic(auto)]

mod faults;
mod form;
mod forms;
mod labels;
mod lexeme;
mod names;
mod operands;
mod own;
mod place;
mod places;
mod range;
mod slot;
mod statement;
mod way;
mod ways;

pub use faults::{earlier, first};
pub use form::{Action, Expansion, Form, NamedForm, Section, listed_forms};
pub use forms::forms_of;
pub use labels::Labels;
pub use lexeme::Lexeme;
pub use names::{control_number, instr_named, register_number, vector_number, vtype_number};
pub use operands::operand_fault;
pub use own::{own_fault, statement_forms};
pub use place::Place;
pub use range::{Range, Reach};
pub use slot::Slot;
pub use statement::{are_code, form_for, named_fault};
pub use way::Way;
