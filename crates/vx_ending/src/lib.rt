//! How an episode is found from its instructions, one after another: what an engine that goes from instruction to instruction
//! carries on, and what the episode's end is where one of them ends it.
//!
//! The crate is definitions (`specs/`) and laws of them; its functions have no code. It stands on the episode of `vx_episode`,
//! and its laws hold on any machine: nothing here knows how an engine works. The engines above call the laws.
#![tactic(auto)]

mod laws;

pub use laws::{
    ends_have_parts, episodes_end, episodes_go_on, happenings_are_counted, instructions_in_flight,
    retiring_instructions_commit,
};
