//! Instruction words and what they mean: `decode` reads a word's row and operands, `encode` writes them, and `legal` tells
//! whether a vector instruction may be executed under a setting.
//!
//! It stands on `vx_rows` and, for the setting, on `vx_vstate`. To the crates above it gives `Instr` and, as a definition
//! and as `decode`, the instruction that a word means; `KnownWords`, which decodes a word once; `encode`, its inverse both
//! ways, and the laws that the instruction of a word is valid and has that word; and, as definitions, the groups of registers
//! that a vector instruction's operands are and the rules by which it is illegal, with `legal`, which is exact, and `moved`,
//! `width_of` and `bits_of_eew`, which tell what of such a group.
#![tactic(auto)]

mod decoder;
mod encoder;
mod field;
mod group;
mod immediate;
mod instr;
mod known;
mod known_words;
mod memory;
mod operation;
mod rules;
mod vector;

pub use decoder::{decode, decoded_is_valid};
pub use encoder::{decoded_has_its_word, encode};
pub use group::{Group, bits_of_eew, moved, width_of};
pub use instr::Instr;
pub use known::Known;
pub use known_words::KnownWords;
pub use rules::legal;
