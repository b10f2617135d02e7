use vx_base::{Bytes, Perm};

/// A part of a program's memory: `size` bytes from `address` on, of which the first are `bytes` and the rest are zero.
#[derive(Debug, Drop)]
pub struct Segment {
    /// The number of its program header, from 0.
    pub index: u32,
    /// The address of its first byte.
    pub address: u64,
    /// Its first bytes, those that the file holds.
    pub bytes: Bytes,
    /// How many bytes of memory it takes.
    pub size: u64,
    /// What may be done with its bytes.
    pub perm: Perm,
}
