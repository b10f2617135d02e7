//! That D tells which pages an episode changed: a page that hasn't D set at the episode's end has the bytes that it had at its
//! start. A system that takes such a page's frame away loses nothing that it hasn't kept already.
//!
//! The crate is a definition (`specs/`), a page with D set, and a law of the episode of `vx_episode`, which holds on any machine:
//! nothing here knows how an engine works. Its functions have no code.
#![tactic(auto)]

mod laws;

pub use laws::{changed_pages_are_dirty, examples_hold};
