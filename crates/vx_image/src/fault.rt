ghost use Rattle.std.specs.Prelude.{◌≡◌};
ghost use Rattle.vx_image.specs.declared.fault.ImageFault.TheVariants.{NoMemory};

use std::alloc::{AllocError, AllocFailed};
use thiserror::Error;

/// Why bytes or segments are no image.
#[derive(Clone, Copy, PartialEq, Eq, Debug, Error)]
pub enum ImageFault {
    /// Raw bytes, so many, which are none or no whole words.
    #[error("raw length {0}")]
    RawLength(u64),
    /// The page of this number may be both written and executed, and none below it.
    #[error("page {0} is writable and executable")]
    WriteExec(u64),
    /// So many pages, the stack's among them, which are more than 4,096.
    #[error("{0} pages")]
    TooManyPages(u64),
    /// The first instruction would be at this address, which is no multiple of 4 or not on a page that may be executed.
    #[error("entry 0x{0:016x} is not code")]
    EntryNotCode(u64),
    /// Memory was wanting.
    #[error("out of memory")]
    NoMemory,
}

impl From<AllocError> for ImageFault {
    ghost from_gives = { λ _ fault. fault ≡ NoMemory };

    fn from(_error: AllocError) -> ImageFault {
        ImageFault::NoMemory
    }
}

impl<T: Drop> From<AllocFailed<T>> for ImageFault {
    ghost from_gives = { λ _ fault. fault ≡ NoMemory };

    fn from(_error: AllocFailed<T>) -> ImageFault {
        ImageFault::NoMemory
    }
}
