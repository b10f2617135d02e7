//! Images: the memory of a process page by page, and where it begins, made of a program's segments or of raw bytes.
//!
//! It stands on `vx_elf`. To the crates above it gives `Image`, which `image_of` and `raw_image` make or refuse with the
//! first fault, and what it holds: the permissions and the bytes of a page, the list of pages, how many frames its page
//! tables take, and all entries and bytes as they are kept, with the search for a page among entries. What an access asks of its
//! address is here too: `is_canonical`, `is_aligned`, `count_on_page`.
#![tactic(auto)]

mod address;
mod build;
mod fault;
mod frames;
mod image;
mod met;
mod search;

pub use address::{count_on_page, is_aligned, is_canonical};
pub use fault::ImageFault;
pub use image::{Contents, Image, image_of, raw_image};
pub use search::place_of;
