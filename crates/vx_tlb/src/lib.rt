//! A cache of translations: the frames and permissions of pages that were found by walks.
//!
//! It stands on the definitions of `vx_tables`. To the crates above it gives `Tlb`, whose look-ups are look-ups in what was
//! filled since it was emptied.
#![tactic(auto)]

#[cfg(test)]
mod tests;
mod tlb;

pub use tlb::Tlb;
pub use vx_tables::Look;
