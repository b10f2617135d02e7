//! The course of an episode in numbers, where one instruction is in flight at a time, and what the episode comes to at its end.
//!
//! The crate is its definitions (`specs/`); its functions have no code, and each states a law of them. It joins the quiet histories of
//! `vx_quiet` to the episodes of `vx_ending`: an engine with a window of one instruction keeps five numbers from instruction to
//! instruction, and has from them and from its last instruction all that the episode comes to, but for the log.
#![tactic(auto)]

mod laws;

pub use laws::{
    courses_end, courses_fetch, courses_go_on, instructions_follow_one_another,
    instructions_wait_for_their_issue,
};
