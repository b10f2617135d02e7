ghost use Rattle.std.specs.Prelude.{◌≡◌, Some};
ghost use Rattle.vx_asm.specs.Assembling.{fault_in, fault_told};
ghost use Rattle.vx_asm.specs.declared.asm_fault.AsmFault.TheVariants.{NoMemory};

use std::alloc::{AllocError, AllocFailed};
use thiserror::Error;
use vx_language::{Fault, FaultKind, Span};

/// Why a source gives no program: its first fault, with the bytes that it names.
#[derive(Clone, Copy, PartialEq, Eq, Debug, Error)]
pub enum AsmFault {
    /// This byte isn't one of a source.
    #[error("bad byte")]
    BadByte(Span),
    /// A number is out of its range, a text has another escape or no end, or no token begins at this byte.
    #[error("bad token")]
    BadToken(Span),
    /// A statement's name is none that is known.
    #[error("unknown name")]
    UnknownName(Span),
    /// A token doesn't belong where it stands, or one is wanting.
    #[error("bad operand")]
    BadOperand(Span),
    /// A number is outside its field's range, or the offset to a label is.
    #[error("out of range")]
    OutOfRange(Span),
    /// A label is defined again.
    #[error("defined twice")]
    Twice(Span),
    /// A label that is used is never defined.
    #[error("undefined")]
    Undefined(Span),
    /// The program has more than 8 MiB.
    #[error("too large")]
    TooLarge(Span),
    /// Memory was wanting.
    #[error("out of memory")]
    NoMemory,
}

impl AsmFault {
    /// The fault of a source as an answer.
    pub fn of(fault: Fault) -> AsmFault
        ensures { fault_told result ≡ Some fault }
    {
        let span = fault.span;
        match fault.kind {
            FaultKind::BadByte => AsmFault::BadByte(span),
            FaultKind::BadToken => AsmFault::BadToken(span),
            FaultKind::UnknownName => AsmFault::UnknownName(span),
            FaultKind::BadOperand => AsmFault::BadOperand(span),
            FaultKind::OutOfRange => AsmFault::OutOfRange(span),
            FaultKind::Twice => AsmFault::Twice(span),
            FaultKind::Undefined => AsmFault::Undefined(span),
            FaultKind::TooLarge => AsmFault::TooLarge(span),
        }
    }

    /// The fault of the source that it tells; none where memory was wanting.
    pub fn fault(self) -> Option<Fault>
        ensures { result ≡ fault_told self }
    {
        match self {
            AsmFault::BadByte(span) => told(FaultKind::BadByte, span),
            AsmFault::BadToken(span) => told(FaultKind::BadToken, span),
            AsmFault::UnknownName(span) => told(FaultKind::UnknownName, span),
            AsmFault::BadOperand(span) => told(FaultKind::BadOperand, span),
            AsmFault::OutOfRange(span) => told(FaultKind::OutOfRange, span),
            AsmFault::Twice(span) => told(FaultKind::Twice, span),
            AsmFault::Undefined(span) => told(FaultKind::Undefined, span),
            AsmFault::TooLarge(span) => told(FaultKind::TooLarge, span),
            AsmFault::NoMemory => None,
        }
    }
}

/// The fault of this kind and these bytes.
fn told(kind: FaultKind, span: Span) -> Option<Fault>
    ensures { result ≡ fault_in kind span }
{
    Some(Fault { kind, span })
}

impl From<AllocError> for AsmFault {
    ghost from_gives = { λ _ fault. fault ≡ NoMemory };

    fn from(_error: AllocError) -> AsmFault {
        AsmFault::NoMemory
    }
}

impl<T: Drop> From<AllocFailed<T>> for AsmFault {
    ghost from_gives = { λ _ fault. fault ≡ NoMemory };

    fn from(_error: AllocFailed<T>) -> AsmFault {
        AsmFault::NoMemory
    }
}
