//! Operands of vector arithmetic, a word at a time: the words from which a word of the destination is made, which of its
//! elements are active, and the word that holds the new elements where they are and the old ones elsewhere.
//!
//! It stands on the definitions of `vx_vector` and on the words of elements of `vx_packed`. The crates that make words
//! (`vx_elem` and its kin) add what an element becomes. A word that is given back is proved to be the one that the
//! instruction leaves in its place.
#![tactic(auto)]

mod active;
mod bits;
mod double;
mod first;
mod form;
mod full;
mod grouped;
mod merged;
mod moved_by;
mod narrow;
mod numbers;
mod parts;
mod sources;

pub use active::{active_word, has_few_elements, is_bit_set, lane_at, ones};
pub use bits::{compared_word, merged_bits};
pub use double::{doubled_word, make_doubled};
pub use first::{first_set, writes_first};
pub use form::{Form, form_with, is_unmasked};
pub use full::{full_count, full_words, group_place, is_group, word_in};
pub use grouped::{moved_word, whole_word, wide_word};
pub use merged::{even_word, kept, merged_word};
pub use moved_by::{moved_by_index, unchanged};
pub use narrow::narrow_word;
pub use numbers::{greater, is_less, lesser, plain, product_and};
pub use parts::{make_bits, make_narrow};
pub use sources::{group_word, has_a_word, mask_word, part, second_part, second_word};
