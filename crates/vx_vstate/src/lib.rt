//! The vector state: registers, configuration and control registers.
//!
//! It stands on `vx_base`. To the crates above it gives `VState`, whose every call has its exact effect on the state;
//! `Setting`, one instruction's view of it; `WordFile`, by which element crates read register words; and the definitions of
//! vtype, of a configuration, of elements as fields of words, and of the control registers, with the laws of an element
//! that is set and of its bytes.
#![tactic(auto)]

mod avl;
mod configure;
mod file;
mod laws;
mod setting;
mod state;
#[cfg(test)]
mod tests;
mod vtype;

pub use avl::Avl;
pub use file::WordFile;
pub use laws::{
    element_is_its_bytes, elements_lie_in_their_group, groups_have_sizes, mask_bit_is_of_its_byte,
    other_elements_stay, other_indices_are_apart, other_registers_are_apart, set_element_is_read,
    set_element_leaves_words, views_are_configured_alike, word_is_its_elements,
};
pub use setting::Setting;
pub use state::VState;
