//! The reader of the words of the command line.
//!
//! It stands on `vx_words`, which defines what the words ask for. To the crate above it gives `read`, which accepts the
//! words exactly where they ask for a command, with all that they say, and else gives the index of the first word that
//! doesn't fit.
#![tactic(auto)]

mod asked;
mod digits;
mod files;
mod forms;
mod fronts;
mod image_word;
mod laws;
mod numbers;
mod reader;
mod run_words;
mod settings;

pub use asked::Asked;
pub use image_word::ImageWord;
pub use laws::{first_bad_word_is_one, words_ask_for_one_command};
pub use reader::read;
pub use run_words::RunWords;
