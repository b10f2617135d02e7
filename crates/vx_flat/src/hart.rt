/// What a hart is to a process: the length of its vector registers.
#[derive(Clone, Copy, PartialEq, Eq, Debug)]
pub struct Hart {
    /// VLEN, the bits of a vector register.
    pub vlen: u32,
}
