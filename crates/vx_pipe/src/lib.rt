//! Episodes of a process over page tables in physical memory, with one instruction in flight: an engine does each instruction, tells
//! at which cycle it is issued and retires, and ends the episode at its slice's end, at a fault or where a service is asked for.
//!
//! It stands on the instructions of `vx_hart`, done on the process's memory of `vx_paged` in the physical memory of `vx_cells`; on the
//! look-ups and walks of `vx_look`, the banks of `vx_serve` and the beats of `vx_beats`, for its cycles; and on laws of episodes: of an
//! instruction that is issued or stops (`vx_quiet`), of batches of accesses (`vx_batching`), of steps that don't see what is pending
//! (`vx_pending`), of an episode's course and end (`vx_course`, `vx_ending`). Its contracts speak of the episodes of `vx_episode`.
//!
//! To the crate above it gives `Pipe`, which plays an episode as the definitions have it, and `Counts`, what it counted there.
//!
//! Its modules, in reading order:
//! - `pipe`: the engine as it is seen from above, and an episode from beginning to end;
//! - `engine`, `course`, `counts`, `turn`: what it is made of, its numbers, what it counts, and what comes of an instruction;
//! - `turning`: from instruction to instruction, each by its class;
//! - `fetches`: the fetch of the next instruction;
//! - `retire`: the retire of one that completes, with which the slice may end;
//! - `ending`: the fetch behind an instruction that ends the episode;
//! - `laws`: what the definitions say of instructions that retire, make no access or can't be done;
//! - `effects`, `plain`, `classes`: instructions that only have an effect, others without accesses, and how both are timed;
//! - `refused`: what can't be fetched, or means nothing;
//! - `accesses`: scalar loads and stores;
//! - `arithmetic`: vector arithmetic;
//! - `moving`: vector loads and stores;
//! - `passing`: their elements, one behind another, up to the slice's end;
//! - `transfers`: the look-ups and serves of one element;
//! - `ahead`: the same of an element in front of which the slice ends.
#![tactic(auto)]

mod accesses;
mod ahead;
mod arithmetic;
mod classes;
mod counts;
mod course;
mod effects;
mod ending;
mod engine;
mod fetches;
mod laws;
mod moving;
mod passing;
mod pipe;
mod plain;
mod refused;
mod retire;
mod transfers;
mod turn;
mod turning;

pub use counts::Counts;
pub use pipe::Pipe;
