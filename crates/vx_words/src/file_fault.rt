use vx_elf::ElfFault;
use vx_image::ImageFault;

/// Why a file is refused.
#[derive(Clone, Copy, PartialEq, Eq, Debug)]
pub enum FileFault {
    /// It has more bytes than the limit.
    TooLong,
    /// It is no ELF file of the right kind.
    BadElf(ElfFault),
    /// It gives no image.
    NoImage(ImageFault),
}
