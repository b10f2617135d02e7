/// What is done with an image.
#[derive(Clone, Copy, PartialEq, Eq, Debug)]
pub enum ImageJob {
    /// It runs on the machine, under its timing.
    Run,
    /// It runs alone on flat memory, an instruction at a time.
    Alone,
}
