//! The text of instructions: which operands a row's line has, in order, how each is written, and the canonical line of
//! a word.
//!
//! It stands on `vx_decode`. To the crates above it gives `OperandKind`, the list of operands of each operation, the names of
//! registers and control registers, the words of vtype, and the definitions of a word's canonical line and of the listing of
//! a file's bytes.
#![tactic(auto)]

mod names;
mod operand;
#[cfg(test)]
mod tests;
mod vtype;

pub use names::{control_name, register_name, register_names, vector_name, vector_names};
pub use operand::{OperandKind, Order, operand_kinds, order_of};
pub use vtype::{VtypeField, has_words, vtype_word};
