//! The ground that every other crate stands on: the traits of the outside (a shelf of files, a sink for text), the
//! machine's options, pages and permissions, and the laws of numbers of a fixed width.
//!
//! It stands on the kit alone. To the crates above it gives `Shelf` and `Sink` with what each answer tells,
//! `write_text`, which writes all of a text or a prefix of it where the sink's count of faults rose, and the
//! shelves and sinks in memory that tests run on, and `push_hex`, which writes hexadecimal digits.
#![tactic(auto)]

mod bytes;
mod hex;
mod machine;
mod memory_shelf;
mod memory_sink;
mod options;
mod page;
mod page_list;
mod perm;
mod shelf;
mod sink;
mod text;

pub use bytes::Bytes;
pub use hex::push_hex;
pub use machine::{Fault, Want};
pub use memory_shelf::{MemShelf, NamedFile, SureShelf};
pub use memory_sink::MemSink;
pub use options::Options;
pub use page::Page;
pub use page_list::PageList;
pub use perm::{PageEntry, Perm};
pub use shelf::{Fetched, Shelf};
pub use sink::{Put, Sink, WriteFault, write_text};
pub use text::Text;
