/// Where an instruction of vector arithmetic has its operands, and its number.
#[derive(Clone, Copy, PartialEq, Eq, Debug)]
pub struct Places {
    /// The destination register.
    pub vd: u8,
    /// The register in the place of `vs1`.
    pub vs1: u8,
    /// The register in the place of `vs2`.
    pub vs2: u8,
    /// Bit 25: no mask.
    pub vm: bool,
    /// The number of a row that has one.
    pub imm: i64,
}

/// A word of a destination, and whether one of its elements saturated.
#[derive(Clone, Copy, PartialEq, Eq, Debug)]
pub struct Word {
    pub value: u64,
    pub sat: bool,
}
