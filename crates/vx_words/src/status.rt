ghost use Rattle.std.specs.Prelude.{◌≡◌};
ghost use Rattle.vx_words.specs.Statuses.{number_of};

/// How a call of `vexec` ended. Its number is the program's exit status.
#[derive(Clone, Copy, PartialEq, Eq, Debug)]
pub enum Status {
    /// The job ended.
    Done,
    /// The words are outside the grammar.
    Usage,
    /// A file could not be read.
    ReadFault,
    /// A file is no image, or is too long.
    BadImage,
    /// The output could not be written; a prefix of it was.
    WriteFault,
    /// The run reached its budget.
    Spent,
    /// Memory was wanting.
    NoMemory,
    /// A source has a fault.
    BadSource,
    /// Physical memory has too few frames for the image.
    TooFewFrames,
}

impl Status {
    /// The exit status.
    pub fn number(&self) -> u8
        ensures { result ≡ number_of self.now }
    {
        match self {
            Status::Done => 0,
            Status::Usage => 1,
            Status::ReadFault => 2,
            Status::BadImage => 3,
            Status::WriteFault => 4,
            Status::Spent => 5,
            Status::NoMemory => 8,
            Status::BadSource => 9,
            Status::TooFewFrames => 11,
        }
    }
}
