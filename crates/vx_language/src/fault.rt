use crate::token::Span;

/// What is wrong with a source, in the order in which faults that start at one byte come.
#[derive(Clone, Copy, PartialEq, Eq, Debug)]
pub enum FaultKind {
    /// A byte isn't one of a source.
    BadByte,
    /// A number is out of range, a text has another escape or no end, or no token begins at a byte.
    BadToken,
    /// A statement's name is none that is known.
    UnknownName,
    /// A token doesn't belong where it stands, or one is wanting.
    BadOperand,
    /// A number is outside its field's range, or the offset to a label is.
    OutOfRange,
    /// A label is defined again.
    Twice,
    /// A label that is used is never defined.
    Undefined,
    /// The program has more than 8 MiB.
    TooLarge,
}

/// One fault of a source, and where it is.
#[derive(Clone, Copy, PartialEq, Eq, Debug)]
pub struct Fault {
    /// What is wrong.
    pub kind: FaultKind,
    /// The bytes that it names.
    pub span: Span,
}
