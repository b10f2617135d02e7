use crate::family::Family;
use crate::op::Op;

/// What stands in the place of `vs1` in a row of vector arithmetic, bits 19 to 15.
#[derive(Clone, Copy, PartialEq, Eq, Debug)]
pub enum First {
    /// The vector register `vs1`.
    Vector,
    /// The integer register `rs1`.
    Integer,
    /// A signed number of 5 bits.
    Signed,
    /// A number of 5 bits without sign.
    Unsigned,
    /// No operand.
    Fixed,
}

/// What stands in the place of `vs2` in a row of vector arithmetic, bits 24 to 20.
#[derive(Clone, Copy, PartialEq, Eq, Debug)]
pub enum Second {
    /// The vector register `vs2`.
    Vector,
    /// No operand.
    Fixed,
}

/// Bit 25 of a row of vector arithmetic.
#[derive(Clone, Copy, PartialEq, Eq, Debug)]
pub enum Vm {
    /// 0 where the mask in `v0` says which elements are active, else 1.
    Any,
    /// Always 0: the row reads `v0` as an operand, and its elements aren't masked.
    Zero,
    /// Always 1: the row has no mask.
    One,
}

/// Where a row's operands stand in its word: the instruction formats of the Unprivileged ISA, section 2.2, and what
/// the number of a format stands for, and those of the vector extension (RISC-V "V" 1.0, sections 5.1, 6 and 7.2).
#[derive(Clone, Copy, PartialEq, Eq, Debug)]
pub enum Shape {
    /// R: `rd`, `rs1` and `rs2`.
    Registers,
    /// I: `rd`, `rs1` and a signed number of 12 bits.
    Immediate,
    /// I: `rd`, `rs1` and an amount of 6 bits.
    Shift,
    /// I: `rd`, `rs1` and an amount of 5 bits.
    ShiftWord,
    /// I: `rd`, and a signed number of 12 bits from the address in `rs1`.
    Load,
    /// S: `rs2`, and a signed number of 12 bits from the address in `rs1`.
    Store,
    /// B: `rs1`, `rs2` and a signed even number of 13 bits.
    Branch,
    /// U: `rd` and a number of 20 bits.
    Upper,
    /// J: `rd` and a signed even number of 21 bits.
    Jump,
    /// I: `rd`, `rs1` and a number of 12 bits, which say what a fence orders.
    Fence,
    /// I: `rd`, `rs1` and the number of a control register.
    Csr,
    /// I: `rd`, a number of 5 bits in the place of `rs1`, and the number of a control register.
    CsrNumber,
    /// No operands.
    Fixed,
    /// `rd`, `rs1` and a number of 11 bits for vtype.
    SetType,
    /// `rd`, a number of 5 bits in the place of `rs1`, and one of 10 bits for vtype.
    SetNumber,
    /// `rd`, `rs1`, and vtype in `rs2`.
    SetRegister,
    /// `vd` or `rd`, what stands in the places of `vs1` and `vs2`, and the mask.
    Vector(First, Second, Vm),
    /// `vd` or `vs3`, the address in `rs1`, the mask, and the number of fields.
    UnitMemory,
    /// `vd` or `vs3`, and the address in `rs1`; the number of registers has a row each.
    WholeMemory,
    /// `vd` or `vs3`, and the address in `rs1`.
    MaskMemory,
    /// As `UnitMemory`, and the stride in `rs2`.
    StridedMemory,
    /// As `UnitMemory`, and the indices in `vs2`.
    IndexedMemory,
}

/// The number of an instruction: where it stands in a word, and how it is read (RISC-V Unprivileged ISA 20191213,
/// sections 2.2 and 2.3; RISC-V "V" 1.0, sections 6 and 10.1).
#[derive(Clone, Copy, PartialEq, Eq, Debug)]
pub enum Number {
    /// No number.
    Absent,
    /// A number without sign, from a bit on, of so many bits.
    Unsigned(u32, u32),
    /// A signed number, from a bit on, of so many bits.
    Signed(u32, u32),
    /// A signed number of 12 bits in the places of format S.
    FormatS,
    /// A signed even number of 13 bits in the places of format B.
    FormatB,
    /// A signed even number of 21 bits in the places of format J.
    FormatJ,
}

/// Bits 31 to 29 of a vector load or store: one less than its number of fields or of whole registers.
#[derive(Clone, Copy, PartialEq, Eq, Debug)]
pub enum Nf {
    /// No such field.
    Absent,
    /// Any number of fields from 1 to 8.
    Any,
    /// 1, 2, 4 or 8 registers: a row each.
    Registers,
}

/// What stands in the words of a shape beside their fixed bits.
#[derive(Clone, Copy, PartialEq, Eq, Debug)]
pub struct Layout {
    /// Bits 11 to 7 are `rd`, `vd` or `vs3`.
    pub rd: bool,
    /// Bits 19 to 15 are `rs1` or `vs1`, or a number that stands for a register.
    pub rs1: bool,
    /// Bits 24 to 20 are `rs2` or `vs2`.
    pub rs2: bool,
    pub number: Number,
    /// Bit 25 of a vector row; a scalar row counts as one without a mask.
    pub vm: Vm,
    pub nf: Nf,
}

/// Which addresses a vector load or store accesses (RISC-V "V" 1.0, sections 7.2 and 7.4 to 7.9).
#[derive(Clone, Copy, PartialEq, Eq, Debug)]
pub enum Addressing {
    /// Elements one behind another.
    Unit,
    /// The same; a fault behind the first element shortens vl.
    FaultOnlyFirst,
    /// Whole registers.
    Whole,
    /// The bytes of a mask.
    MaskBits,
    /// Elements at a distance that a register tells.
    Strided,
    /// Elements at indices, in any order by the standard, in element order here.
    Unordered,
    /// Elements at indices, in element order.
    Ordered,
}

/// The width that a vector load or store encodes: of its elements, or of its indices.
#[derive(Clone, Copy, PartialEq, Eq, Debug)]
pub enum Eew {
    E8,
    E16,
    E32,
    E64,
}

/// How the flat machine goes on at an instruction.
#[derive(Clone, Copy, PartialEq, Eq, Debug)]
pub enum Class {
    /// Computes the value of `rd` from registers, the immediate and the pc.
    Arithmetic,
    /// Computes a product.
    Multiply,
    /// Computes a quotient or a remainder.
    Divide,
    /// Jumps, and writes the address after itself to `rd`.
    Jump,
    /// Jumps where two registers compare so.
    Branch,
    /// Reads `rd` from memory.
    Load,
    /// Writes the low bytes of a register to memory.
    Store,
    /// Orders what is before and after it, and changes nothing here.
    Fence,
    /// Asks the system for a service.
    Ecall,
    /// Stops at a breakpoint.
    Ebreak,
    /// Reads and writes a control register.
    Csr,
    /// Configures the vector unit.
    Set,
    /// Computes elements of vector registers, or an integer register from them.
    VectorArithmetic(Family),
    /// Reads vector registers from memory.
    VectorLoad(Addressing, Eew),
    /// Writes vector registers to memory.
    VectorStore(Addressing, Eew),
}

/// A row of the instruction set. A word is an instruction of the row where `word & mask` is `value`.
#[derive(Clone, Copy, PartialEq, Eq, Debug)]
pub struct Row {
    pub op: Op,
    pub mask: u32,
    pub value: u32,
    pub shape: Shape,
    pub class: Class,
}
