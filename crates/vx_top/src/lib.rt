//! The program's call `vexec`.
//!
//! It stands on `vx_read`, which reads the words, `vx_elf` and `vx_image`, which make images of files, `vx_system`, which
//! runs the machine, `vx_dis`, which lists, `vx_asm`, which assembles, and on the definitions of `vx_words` and `vx_machine`. To
//! the program it gives `vexec`, whose contract is the whole claim, and `frames_for`, which tells how much physical memory words ask for.
#![tactic(auto)]

mod asm;
mod call;
mod fault_notes;
mod frames;
mod load;
mod notes;
mod options;
mod refusal;
mod run;
mod source_notes;
mod tell;

pub use call::vexec;
pub use frames::frames_for;
pub use vx_words::Status;
