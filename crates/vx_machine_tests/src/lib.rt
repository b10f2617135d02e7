//! The proved tests of the public calls of the machines, of the command line and of the program's call: each once on its happy path, and
//! what no command shows. What the program shows stands in tests/cases instead; vx_tests has the tests of the crates below.
//!
//! It gives nothing: since a crate with tests is proved twice, the crates below have few of their own.
#![tactic(auto)]

#[cfg(test)]
mod alone;
#[cfg(test)]
mod read;
#[cfg(test)]
mod system;
#[cfg(test)]
mod top;
