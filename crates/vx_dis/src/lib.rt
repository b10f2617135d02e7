//! The canonical line of an instruction word, and the listing of a file of words.
//!
//! It stands on `vx_decode` and on the definitions of `vx_source`. To the crate above it gives `line_of`, the line of a
//! word, and `write_listing`, which writes the lines of all whole words of a file, or a prefix of them with the reason.
#![tactic(auto)]

mod line;
mod listing;

pub use line::line_of;
pub use listing::{ListingFault, write_listing};
