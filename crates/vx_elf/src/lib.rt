//! ELF files: what a file of a RISC-V program says of its memory, read and written.
//!
//! It stands on `vx_base`, and on the kit's `byteorder`, `bitflags` and `thiserror`. To the crates above it gives `read_elf`, whose answer is the entry
//! and the segments that the bytes hold or the first fault that they have, and `write_elf`, whose bytes are read again
//! as the program's segments.
#![tactic(auto)]

mod fault;
mod field;
mod header;
mod program;
mod read;
mod segment;
mod segments;
mod taken;
mod write;

pub use fault::ElfFault;
pub use program::Program;
pub use read::read_elf;
pub use segment::Segment;
pub use segments::{SegmentList, Segments};
pub use write::write_elf;
