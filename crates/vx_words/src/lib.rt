//! The words of the command line, what they ask for, and what the program answers: its statuses and its notes.
//!
//! The crate is its definitions (`specs/`). It stands on `vx_elf` and `vx_image`, whose faults have notes. `vx_read`, `vx_machine` and
//! `vx_top` cite it.
#![tactic(auto)]

mod file_fault;
mod image_job;
mod status;

pub use file_fault::FileFault;
pub use image_job::ImageJob;
pub use status::Status;
