use vx_rows::Op;

/// An instruction: an operation with its operands. Those that its shape lacks are 0, or true for `vm`.
#[derive(Clone, Copy, PartialEq, Eq, Debug)]
pub struct Instr {
    /// The operation.
    pub op: Op,
    /// The destination register, below 32: `rd` or `vd`, or `vs3` of a vector store.
    pub rd: u8,
    /// The first source register, below 32: `rs1` or `vs1`. Also the number of 5 bits in its place, of a row that has another
    /// number in `imm` (`csrrwi` and its kin, `vsetivli`).
    pub rs1: u8,
    /// The second source register, below 32: `rs2` or `vs2`.
    pub rs2: u8,
    /// The immediate, as a whole number. For `lui` it is the field of 20 bits, not shifted; for `vsetvli` and `vsetivli` vtype.
    pub imm: i64,
    /// The row isn't masked: bit 25 of a vector row, where it has one.
    pub vm: bool,
    /// Bits 31 to 29 of a vector load or store: one less than the number of its fields or registers.
    pub nf: u8,
}
