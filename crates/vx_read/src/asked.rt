use crate::run_words::RunWords;
use vx_words::ImageJob;

/// What the words of the command line ask for.
#[derive(Clone, Copy, PartialEq, Eq, Debug)]
pub enum Asked<'a> {
    /// Do this with an image, under options.
    Execute(ImageJob, RunWords<'a>),
    /// List the instructions of the file of this name, which isn't empty and doesn't begin with `-`.
    Dis(&'a str),
    /// Assemble the source in the file of this name, which isn't empty and doesn't begin with `-`.
    Asm(&'a str),
}
