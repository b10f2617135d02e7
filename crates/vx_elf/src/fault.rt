ghost use Rattle.std.specs.Prelude.{◌≡◌};
ghost use Rattle.vx_elf.specs.declared.fault.ElfFault.TheVariants.{NoMemory};

use std::alloc::{AllocError, AllocFailed};
use thiserror::Error;

/// Why bytes are no ELF file of a program that can be run.
#[derive(Clone, Copy, PartialEq, Eq, Debug, Error)]
pub enum ElfFault {
    /// So many bytes are needed, and fewer are there.
    #[error("short: {0} bytes needed, {1} there")]
    Short(u128, u64),
    /// It doesn't begin as a little-endian ELF64 file does.
    #[error("not ELF")]
    NotElf,
    /// It is for another machine than RISC-V, this one.
    #[error("machine {0}")]
    NotRiscv(u16),
    /// It isn't an executable file, but of this type.
    #[error("type {0}")]
    NotExec(u16),
    /// It uses the compressed instructions.
    #[error("compressed code")]
    Compressed,
    /// The field at this place of the file header describes no table of program headers that can be read.
    #[error("bad table at {0}")]
    BadTable(u64),
    /// The program header of this number asks for an interpreter.
    #[error("interpreter at header {0}")]
    Interp(u32),
    /// The segment of this number has more bytes than memory, or passes the memory that segments may take.
    #[error("bad range at header {0}")]
    BadRange(u32),
    /// The second of these segments meets the first, which is the first that it meets.
    #[error("segments {0} and {1} overlap")]
    Overlap(u32, u32),
    /// Memory was wanting.
    #[error("out of memory")]
    NoMemory,
}

impl From<AllocError> for ElfFault {
    ghost from_gives = { λ _ fault. fault ≡ NoMemory };

    fn from(_error: AllocError) -> ElfFault {
        ElfFault::NoMemory
    }
}

impl<T: Drop> From<AllocFailed<T>> for ElfFault {
    ghost from_gives = { λ _ fault. fault ≡ NoMemory };

    fn from(_error: AllocFailed<T>) -> ElfFault {
        ElfFault::NoMemory
    }
}
