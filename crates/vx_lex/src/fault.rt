ghost use Rattle.std.specs.Prelude.{◌≡◌};
ghost use Rattle.vx_lex.specs.declared.fault.LexFault.TheVariants.{NoMemory};

use std::alloc::{AllocError, AllocFailed};
use thiserror::Error;
use vx_language::Span;

/// Why a source has no list of tokens.
#[derive(Clone, Copy, PartialEq, Eq, Debug, Error)]
pub enum LexFault {
    /// This byte isn't one of a source.
    #[error("bad byte")]
    BadByte(Span),
    /// A number is out of its range, a text has another escape or no end, or no token begins at this byte.
    #[error("bad token")]
    BadToken(Span),
    /// Memory was wanting.
    #[error("out of memory")]
    NoMemory,
}

impl From<AllocError> for LexFault {
    ghost from_gives = { λ _ fault. fault ≡ NoMemory };

    fn from(_error: AllocError) -> LexFault {
        LexFault::NoMemory
    }
}

impl<T: Drop> From<AllocFailed<T>> for LexFault {
    ghost from_gives = { λ _ fault. fault ≡ NoMemory };

    fn from(_error: AllocFailed<T>) -> LexFault {
        LexFault::NoMemory
    }
}
