//! What the timing equations come to where one instruction is in flight at a time.
//!
//! The crate is its definitions (`specs/`); its functions have no code, and each states a law of them. It stands on the timing
//! equations of `vx_episode`. An engine with a window of one instruction cites it: of all that the equations look up in the history it
//! then has to keep one cycle, that of the last retire.
#![tactic(auto)]

mod laws;

pub use laws::{
    a_quiet_history_goes_on, a_quiet_history_is_over, instructions_issue_behind_a_quiet_history,
    instructions_without_accesses_complete, instructions_without_accesses_stop,
};
