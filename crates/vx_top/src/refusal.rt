ghost use Rattle.std.specs.Prelude.{◌≡◌};

use std::alloc::AllocError;
use vx_elf::ElfFault;
use vx_image::ImageFault;
use vx_system::BootFault;
use vx_words::FileFault;

/// Why a file gives no text.
#[derive(Clone, Copy, PartialEq, Eq, Debug)]
pub enum Refusal {
    /// It could not be read.
    ReadFault,
    /// It has a fault.
    BadFile(FileFault),
    /// It gives an image for which so many frames are needed, and fewer are there.
    TooFewFrames(u64, u32),
    /// Memory was wanting.
    NoMemory,
}

impl From<AllocError> for Refusal {
    ghost use Rattle.vx_top.specs.declared.refusal.Refusal.TheVariants.{NoMemory};

    ghost from_gives = { λ _ refusal. refusal ≡ NoMemory };

    fn from(_error: AllocError) -> Refusal {
        Refusal::NoMemory
    }
}

impl From<ElfFault> for Refusal {
    ghost use Rattle.vx_top.specs.Files.{refusal_of_elf};

    ghost from_gives = { λ fault refusal. refusal ≡ refusal_of_elf fault };

    fn from(fault: ElfFault) -> Refusal {
        match fault {
            ElfFault::NoMemory => Refusal::NoMemory,
            _ => Refusal::BadFile(FileFault::BadElf(fault)),
        }
    }
}

impl From<ImageFault> for Refusal {
    ghost use Rattle.vx_top.specs.Files.{refusal_of_image};

    ghost from_gives = { λ fault refusal. refusal ≡ refusal_of_image fault };

    fn from(fault: ImageFault) -> Refusal {
        match fault {
            ImageFault::NoMemory => Refusal::NoMemory,
            _ => Refusal::BadFile(FileFault::NoImage(fault)),
        }
    }
}

impl From<BootFault> for Refusal {
    ghost use Rattle.vx_top.specs.Files.{refusal_of_boot};

    ghost from_gives = { λ fault refusal. refusal ≡ refusal_of_boot fault };

    fn from(fault: BootFault) -> Refusal {
        match fault {
            BootFault::NoMemory => Refusal::NoMemory,
            BootFault::TooFewFrames(need, have) => Refusal::TooFewFrames(need, have),
        }
    }
}
