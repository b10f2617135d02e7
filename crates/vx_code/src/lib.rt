//! What one statement of the assembler's language puts into its section: the bytes of its numbers or text, or the words of its
//! instructions.
//!
//! It stands on `vx_statement`, which says which form a statement has, and on `vx_decode`, which makes an instruction's word.
//! To the crate above it gives `put_of`, what a statement without a fault does at its place, `reach_fault`, the first of its
//! labels that is out of reach, and `Aim`, which tells how far labels are.
#![tactic(auto)]

mod aim;
mod chunk;
mod data;
mod fill;
mod instrs;
mod laws;
mod load;
mod reach;
mod statement;

pub use aim::{Aim, address_of};
pub use chunk::{Chunk, chunk_of};
pub use data::push_bytes;
pub use fill::{Filled, fill_all};
pub use laws::nowhere_is_in_reach;
pub use reach::offsets_fault;
pub use statement::{Put, put_of, reach_fault};
