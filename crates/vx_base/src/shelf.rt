ghost use Rattle.vx_base.specs.Shelf.{ShelfState, Fetches};

use crate::bytes::Bytes;
use std::alloc::{AllocError, Global};

/// What a fetch answers.
#[derive(Debug, Drop)]
pub enum Fetched {
    /// The file's bytes, at most as many as the limit.
    Got(Bytes),
    /// A fault came; a name that no file has is one.
    Failed,
    /// The file has more bytes than the limit.
    TooLong,
}

/// Files by name.
pub trait Shelf {
    /// What it tells of its files, of what was asked for, and of its faults.
    ghost state: { Self → ShelfState };

    /// Reads the file of that name whole, where it has at most `limit` bytes. No answer changes the files; each but
    /// `Err`, which is want of memory, adds the name to those asked for.
    fn fetch(&mut self, alloc: Global, name: &str, limit: u64) -> Result<Fetched, AllocError>
        ensures { Fetches (state self.old) (state self.new) name.now limit result };
}
