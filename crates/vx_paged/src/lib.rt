//! A process's memory in frames of physical memory: where its pages are, and the accesses of its instructions to them.
//!
//! It stands on the physical memory of `vx_cells`, on the tables of `vx_tables`, which `vx_walk` builds, and on the flat memory of
//! `vx_image`. To the crates above it gives `Placement`, the frame of each mapped page, and `Paged`, a memory of `vx_hart` on
//! physical memory whose pages are where a placement says.
#![tactic(auto)]

mod boot;
mod bytes;
mod laws;
mod paged;
mod placement;

pub use boot::{boot_pages, place_pages};
pub use laws::{pages_are_placed_in_turn, shown_memory_is_alike, tables_stay, walks_leave_pages};
pub use paged::Paged;
pub use placement::{FramedPage, Placement};
