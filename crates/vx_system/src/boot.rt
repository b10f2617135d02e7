use std::alloc::AllocError;

/// Why an image isn't booted.
#[derive(Clone, Copy, PartialEq, Eq, Debug)]
pub enum BootFault {
    /// So many frames are needed, and fewer are there.
    TooFewFrames(u64, u32),
    /// Memory was wanting.
    NoMemory,
}

impl From<AllocError> for BootFault {
    ghost use Rattle.std.specs.Prelude.{◌≡◌};
    ghost use Rattle.vx_system.specs.declared.boot.BootFault.TheVariants.{NoMemory};

    ghost from_gives = { λ _ fault. fault ≡ NoMemory };

    fn from(_error: AllocError) -> BootFault {
        BootFault::NoMemory
    }
}
