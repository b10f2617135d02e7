//! The look-ups and the walks of a batch of accesses, and those of a fetch, as a program.
//!
//! It stands on the timing equations of `vx_episode`, on the walks of `vx_walk` and the caches of `vx_tlb`. To the crates above
//! it gives `FetchLookUps` and `DataLookUps`, which answer as the equations do and leave cache and tables as they say, and a law
//! on the order of walks.
#![tactic(auto)]

mod ahead;
mod batches;
mod data_tlb;
mod fate;
mod fetching;
mod laws;
mod looking;
mod pages;

pub use fate::Looked;
pub use fetching::{FetchLookUps, Fetched};
pub use laws::{accesses_are_of_their_items, walks_commute};
pub use looking::DataLookUps;
