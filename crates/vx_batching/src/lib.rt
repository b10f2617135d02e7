//! What the timing equations of batches come to where one instruction is in flight at a time.
//!
//! The crate is its definitions (`specs/`); its functions have no code, and each states a law of them. It stands on the timing equations
//! of `vx_episode`, and on the quiet histories of `vx_quiet`. An engine with a window of one instruction cites it: it goes through the
//! batches of a load or store one behind another, and keeps four cycles of those behind it (`IsReached`, its loop's invariant).
#![tactic(auto)]

mod laws;

pub use laws::{
    a_batch_passes, a_batch_starts, batches_are_in_flight, batches_begin, batches_commit,
    instructions_complete_behind_their_batches, instructions_stop_in_a_batch,
};
