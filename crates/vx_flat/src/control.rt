/// Where an operand of an instruction stands.
#[derive(Clone, Copy, PartialEq, Eq, Debug)]
pub enum Source {
    /// In the integer register that the instruction names.
    Register,
    /// In the instruction, as a number.
    Immediate,
}

/// What an instruction writes to a control register (RISC-V Unprivileged ISA 20191213, section 9.1).
#[derive(Clone, Copy, PartialEq, Eq, Debug)]
pub enum Change {
    /// Its operand.
    Replace,
    /// The old value, with the bits set that are set in the operand.
    SetBits,
    /// The old value, with those bits cleared.
    ClearBits,
}
