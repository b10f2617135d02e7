//! The proved tests of the public calls of the crates of numbers, files, images and instructions: each call once on its happy
//! path, and what no command shows, as failing shelves and sinks in memory. What the program shows stands in tests/cases instead;
//! vx_machine_tests has the tests of the machines and of the program's call.
//!
//! It gives nothing: since a crate with tests is proved twice, the crates below have few of their own.
#![tactic(auto)]

#[cfg(test)]
mod base;
#[cfg(test)]
mod bits;
#[cfg(test)]
mod decode;
#[cfg(test)]
mod dis;
#[cfg(test)]
mod elf;
#[cfg(test)]
mod image;
#[cfg(test)]
mod scalar;
