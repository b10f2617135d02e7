//! What a program computes: the flat machine, which runs one process alone, an instruction at a time, on memory by page.
//!
//! The crate is its definitions (`specs/`): what the operations do, memory, the boot of an image on a hart, the step, the run
//! and its end, states within an instruction, and the run that goes on past faults. It stands on the images of `vx_image`, on
//! `vx_decode`, on the vector state of `vx_vstate` and on what vector instructions compute and access in `vx_vector`. The
//! crates above cite it; `vx_alone` is its plain program. Its functions have no code: each states a law of the definitions.
#![tactic(auto)]

mod control;
mod effect;
mod end;
mod hart;
mod laws;
mod upcoming;

pub use control::{Change, Source};
pub use effect::Effect;
pub use end::End;
pub use hart::Hart;
pub use laws::{
    continued_is_the_step, continued_run_is_the_run, examples_hold, operations_do_as_their_class,
    output_only_grows, prefixes_join, runs_are_well_formed, steps_may_be_split,
};
pub use upcoming::Upcoming;
