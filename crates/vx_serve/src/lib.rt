//! The queue of a batch of accesses and their serves: at which cycle each access is done, in numbers alone.
//!
//! It stands on the definitions of `vx_episode`, whose queue and serve cycles it computes. To the crates above it gives `Fate`,
//! what is known of an access, and `BankTimes`, which serves a batch and keeps from which cycle each bank of memory is free.
#![tactic(auto)]

mod bank_times;
mod fate;
mod laws;
mod queue;
mod served;

pub use bank_times::BankTimes;
pub use fate::Fate;
pub use laws::{accesses_go_in_turn, known_accesses_are_queued, what_is_known_is_enough};
pub use served::{Failing, Served};
