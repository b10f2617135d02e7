//! The system: one process, its slices and services, its cycles and the report; and a process alone, without them.
//!
//! It stands on `vx_pipe`, whose engine plays its process's episodes on the physical memory that it is handed, on `vx_hart` for
//! services and on `vx_paged` for boot; on `vx_alone` for a process alone; and on the definitions of `vx_machine`. To the crate above it gives
//! `System`: what its run did to the process, how it stopped, and the report's bytes; `run_alone` and `report_alone`, which do
//! so under a budget of instructions; and `stop_word`.
#![tactic(auto)]

mod boot;
mod report;
mod solo;
mod system;
mod timing;

pub use boot::BootFault;
pub use report::stop_word;
pub use solo::{report_alone, run_alone};
pub use system::System;
pub use vx_machine::Stop;
