//! Vector arithmetic as definitions: what each family computes, which elements and words a row reads and writes, and the
//! instruction as a fold over its elements.
//!
//! It stands on the arithmetic of `vx_bits`, on the rows of `vx_rows`, on the registers of `vx_vstate` and on the words of
//! elements of `vx_packed`. The crates that make words of the destination (`vx_elem` and its kin) are proved against it. Its
//! functions do nothing: each states a law of the definitions.
#![tactic(auto)]

mod laws;
mod movement;
mod places;

pub use laws::{
    elements_are_lanes, legal_readings_are_sound, other_words_stay, words_are_made,
    words_need_their_sources,
};
pub use movement::{
    batches_are_all_accesses, batches_are_longest_runs, batches_need_their_words,
    legal_movements_are_sound, loads_make_words,
};
pub use places::{Places, Word};
