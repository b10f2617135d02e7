use crate::image_word::ImageWord;

/// What the words of `run` or `alone` say. An option that isn't given has no number.
#[derive(Clone, Copy, PartialEq, Eq, Debug)]
pub struct RunWords<'a> {
    /// Bits of a vector register: 128, 256, 512, 1,024 or 2,048.
    pub vlen: Option<u32>,
    /// Instructions in flight: 1.
    pub window: Option<u32>,
    /// Lanes: 1, 2, 4 or 8.
    pub lanes: Option<u32>,
    /// Memory banks: 1, 2, 4, 8 or 16.
    pub banks: Option<u32>,
    /// Cycles for which an access holds its bank: 1 to 16.
    pub bank_time: Option<u32>,
    /// Frames of physical memory: 16 to 16,384.
    pub frames: Option<u32>,
    /// Cycles, or of `alone` instructions, after which the run ends: 1 to 2^40.
    pub budget: Option<u64>,
    /// What file the image is in.
    pub image: ImageWord<'a>,
}
