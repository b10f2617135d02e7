//! The whole machine: its run, its stops, the report, and the claim of the program's call.
//!
//! The crate is its definitions (`specs/`). It stands on `vx_flat`, `vx_episode`, `vx_words`, and, for
//! what files give, on `vx_elf`, `vx_image` and `vx_source`; `vx_system` and `vx_top` cite it. Its
//! functions have no code: each states a law of the definitions.
#![tactic(auto)]

mod account;
mod laws;
mod stop;

pub use account::{Costs, Measure};
pub use laws::accounts_are_true;
pub use stop::Stop;
