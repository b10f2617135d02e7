//! The accesses of vector loads and stores, a batch at a time, and their values in the vector registers.
//!
//! It stands on the definitions of `vx_vector` and on the operand words of `vx_operands`. To the crates above it gives
//! `accesses`, which fills a list with the next batch of an instruction's accesses; `AccessPattern`, which does the same once
//! it has been told the instruction, for those that go through all of its elements; and `stored_value` and `put_loaded`, what an
//! access stores and what the registers are once it has loaded. Nothing here takes memory.
#![tactic(auto)]

mod instruction;
mod item;
mod pattern;
mod shape;
mod values;

pub use instruction::accesses;
pub use item::{AccessList, Item};
pub use pattern::AccessPattern;
pub use values::{put_loaded, stored_value};
