ghost use Rattle.std.specs.Prelude.{◌≡◌};
ghost use Rattle.vx_rows.specs.Layouts.{layout_of, scalar, vector, memory};

use crate::row::{First, Layout, Nf, Number, Second, Shape, Vm};

impl Shape {
    /// What stands in its words beside their fixed bits.
    pub fn layout(self) -> Layout
        ensures { result ≡ layout_of self }
    {
        match self {
            Shape::Registers => scalar(true, true, true, Number::Absent),
            Shape::Immediate => scalar(true, true, false, Number::Signed(20, 12)),
            Shape::Shift => scalar(true, true, false, Number::Unsigned(20, 6)),
            Shape::ShiftWord => scalar(true, true, false, Number::Unsigned(20, 5)),
            Shape::Load => scalar(true, true, false, Number::Signed(20, 12)),
            Shape::Store => scalar(false, true, true, Number::FormatS),
            Shape::Branch => scalar(false, true, true, Number::FormatB),
            Shape::Upper => scalar(true, false, false, Number::Unsigned(12, 20)),
            Shape::Jump => scalar(true, false, false, Number::FormatJ),
            Shape::Fence => scalar(true, true, false, Number::Unsigned(20, 12)),
            Shape::Csr => scalar(true, true, false, Number::Unsigned(20, 12)),
            Shape::CsrNumber => scalar(true, true, false, Number::Unsigned(20, 12)),
            Shape::Fixed => scalar(false, false, false, Number::Absent),
            Shape::SetType => scalar(true, true, false, Number::Unsigned(20, 11)),
            Shape::SetNumber => scalar(true, true, false, Number::Unsigned(20, 10)),
            Shape::SetRegister => scalar(true, true, true, Number::Absent),
            Shape::Vector(first, second, vm) => vector(first, second, vm),
            Shape::UnitMemory => memory(false, Vm::Any, Nf::Any),
            Shape::WholeMemory => memory(false, Vm::One, Nf::Registers),
            Shape::MaskMemory => memory(false, Vm::One, Nf::Absent),
            Shape::StridedMemory => memory(true, Vm::Any, Nf::Any),
            Shape::IndexedMemory => memory(true, Vm::Any, Nf::Any),
        }
    }
}

/// Of a scalar row or a vset: which registers it has, and its number.
fn scalar(rd: bool, rs1: bool, rs2: bool, number: Number) -> Layout
    ensures { result ≡ scalar rd rs1 rs2 number }
{
    Layout {
        rd,
        rs1,
        rs2,
        number,
        vm: Vm::One,
        nf: Nf::Absent,
    }
}

/// Of vector arithmetic.
fn vector(first: First, second: Second, vm: Vm) -> Layout
    ensures { result ≡ vector first second vm }
{
    let (rs1, number) = match first {
        First::Vector | First::Integer => (true, Number::Absent),
        First::Signed => (false, Number::Signed(15, 5)),
        First::Unsigned => (false, Number::Unsigned(15, 5)),
        First::Fixed => (false, Number::Absent),
    };
    Layout {
        rd: true,
        rs1,
        rs2: second == Second::Vector,
        number,
        vm,
        nf: Nf::Absent,
    }
}

/// Of a vector load or store: whether it has an `rs2` or `vs2`, the mask, and the number of fields or registers.
fn memory(rs2: bool, vm: Vm, nf: Nf) -> Layout
    ensures { result ≡ memory rs2 vm nf }
{
    Layout {
        rd: true,
        rs1: true,
        rs2,
        number: Number::Absent,
        vm,
        nf,
    }
}
