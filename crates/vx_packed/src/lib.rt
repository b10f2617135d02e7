//! Elements packed into words of 64 bits: a word whose elements are made of the elements of other words, lane by lane.
//!
//! It stands on `vx_bits`, for numbers at a width. The crates that make words of vector registers (`vx_elem` and its kin)
//! give it what one element becomes, and it does the rest: taking elements out of words, at equal or at different widths,
//! joining new ones, and leaving alone the lanes that take no part.
#![tactic(auto)]

mod elements;
mod laws;
mod making;
mod merging;
#[cfg(test)]
mod tests;

pub use elements::{Lane, Made, Packing, Sources};
pub use laws::joined_by_elements;
pub use making::{even, make, make_even};
pub use merging::{active_lanes, any_lane, beside, merge, merge_bits, splat};
