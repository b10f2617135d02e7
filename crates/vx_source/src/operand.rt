ghost use Rattle.std.specs.Prelude.{◌≡◌};
ghost use Rattle.vx_source.specs.Operands.{family_order, order_of, vector_kinds, shape_kinds, operand_kinds};
ghost use Rattle.vx_source.specs.declared.operand.Order.TheVariants.{Usual, MultiplyAdd, ToInteger};

use vx_rows::{Class, Family, First, Op, Second, Shape, Vm};

/// What one operand of a line is: a register or a number, and the part of the instruction that it tells.
#[derive(Clone, Copy, PartialEq, Eq, Debug)]
pub enum OperandKind {
    /// The integer register `rd`.
    Destination,
    /// The integer register `rs1`.
    FirstSource,
    /// The integer register `rs2`.
    SecondSource,
    /// The immediate, a signed number of so many bits.
    Signed(u32),
    /// The immediate, a number without sign of so many bits.
    Unsigned(u32),
    /// The immediate, a signed even number of so many bits: how many bytes a place is from the instruction.
    Target(u32),
    /// The immediate, a signed number of 12 bits, and behind it the integer register `rs1` in parentheses.
    Address,
    /// The control register that the immediate numbers, a number without sign of 12 bits.
    Control,
    /// The number of 5 bits that stands in the place of `rs1`.
    SourceNumber,
    /// The vector register `vd` or `vs3`.
    VectorDestination,
    /// The vector register `vs1`.
    FirstVector,
    /// The vector register `vs2`.
    SecondVector,
    /// The integer register `rs1` in parentheses.
    Base,
    /// The immediate, a vtype of so many bits: its words, or else its number.
    Vtype(u32),
    /// `v0.t` where the instruction is masked, and no operand where it isn't.
    Masked,
    /// `v0`, which the instruction reads as an operand.
    Carry,
}

/// In which order the operands of vector arithmetic stand in a line.
#[derive(Clone, Copy, PartialEq, Eq, Debug)]
pub enum Order {
    /// `vd`, `vs2`, and what stands in the place of `vs1`.
    Usual,
    /// `vd`, what stands in the place of `vs1`, and `vs2`.
    MultiplyAdd,
    /// As `Usual`, with the integer register `rd` in the place of `vd`.
    ToInteger,
}

/// The order of the operands of an operation of this class.
pub fn order_of(class: Class) -> Order
    ensures { result ≡ order_of class }
{
    match class {
        Class::VectorArithmetic(family) => family_order(family),
        _ => Order::Usual,
    }
}

/// The order of the operands of a family.
fn family_order(family: Family) -> Order
    ensures { result ≡ family_order family }
{
    match family {
        Family::Vmadd | Family::Vnmsub | Family::Vmacc | Family::Vnmsac => Order::MultiplyAdd,
        Family::Vwmaccu | Family::Vwmacc => Order::MultiplyAdd,
        Family::Vwmaccus | Family::Vwmaccsu => Order::MultiplyAdd,
        Family::VmvXS | Family::Vcpop | Family::Vfirst => Order::ToInteger,
        _ => Order::Usual,
    }
}

/// These operands, and behind them the mask.
macro_rules! with_mask {
    ($vm:ident, [$($kind:ident $(($width:literal))?),*]) => {
        match $vm {
            Vm::Any => &[$(OperandKind::$kind $(($width))?,)* OperandKind::Masked],
            Vm::Zero => &[$(OperandKind::$kind $(($width))?,)* OperandKind::Carry],
            Vm::One => &[$(OperandKind::$kind $(($width))?),*],
        }
    };
}

/// The operands of a row with a destination, what stands in the place of `vs1`, and the mask, where there is no `vs2`.
macro_rules! without_second {
    ($destination:ident, $first:ident, $vm:ident) => {
        match $first {
            First::Vector => with_mask!($vm, [$destination, FirstVector]),
            First::Integer => with_mask!($vm, [$destination, FirstSource]),
            First::Signed => with_mask!($vm, [$destination, Signed(5)]),
            First::Unsigned => with_mask!($vm, [$destination, Unsigned(5)]),
            First::Fixed => with_mask!($vm, [$destination]),
        }
    };
}

/// The same with `vs2` before it.
macro_rules! behind_second {
    ($destination:ident, $first:ident, $vm:ident) => {
        match $first {
            First::Vector => with_mask!($vm, [$destination, SecondVector, FirstVector]),
            First::Integer => with_mask!($vm, [$destination, SecondVector, FirstSource]),
            First::Signed => with_mask!($vm, [$destination, SecondVector, Signed(5)]),
            First::Unsigned => with_mask!($vm, [$destination, SecondVector, Unsigned(5)]),
            First::Fixed => with_mask!($vm, [$destination, SecondVector]),
        }
    };
}

/// The same with `vs2` behind it.
macro_rules! before_second {
    ($destination:ident, $first:ident, $vm:ident) => {
        match $first {
            First::Vector => with_mask!($vm, [$destination, FirstVector, SecondVector]),
            First::Integer => with_mask!($vm, [$destination, FirstSource, SecondVector]),
            First::Signed => with_mask!($vm, [$destination, Signed(5), SecondVector]),
            First::Unsigned => with_mask!($vm, [$destination, Unsigned(5), SecondVector]),
            First::Fixed => with_mask!($vm, [$destination, SecondVector]),
        }
    };
}

/// The operands in the usual order.
fn usual_kinds(first: First, second: Second, vm: Vm) -> &'static [OperandKind]
    ensures { result.now ≡ vector_kinds Usual first second vm }
{
    match second {
        Second::Vector => behind_second!(VectorDestination, first, vm),
        Second::Fixed => without_second!(VectorDestination, first, vm),
    }
}

/// The operands of a multiply-add.
fn multiply_add_kinds(first: First, second: Second, vm: Vm) -> &'static [OperandKind]
    ensures { result.now ≡ vector_kinds MultiplyAdd first second vm }
{
    match second {
        Second::Vector => before_second!(VectorDestination, first, vm),
        Second::Fixed => without_second!(VectorDestination, first, vm),
    }
}

/// The operands of a row that answers in an integer register.
fn to_integer_kinds(first: First, second: Second, vm: Vm) -> &'static [OperandKind]
    ensures { result.now ≡ vector_kinds ToInteger first second vm }
{
    match second {
        Second::Vector => behind_second!(Destination, first, vm),
        Second::Fixed => without_second!(Destination, first, vm),
    }
}

/// The operands of vector arithmetic.
fn vector_kinds(order: Order, first: First, second: Second, vm: Vm) -> &'static [OperandKind]
    ensures { result.now ≡ vector_kinds order first second vm }
{
    match order {
        Order::Usual => usual_kinds(first, second, vm),
        Order::MultiplyAdd => multiply_add_kinds(first, second, vm),
        Order::ToInteger => to_integer_kinds(first, second, vm),
    }
}

/// The operands of an operation's rows, in the order of their lines.
pub fn operand_kinds(op: Op) -> &'static [OperandKind]
    ensures { result.now ≡ operand_kinds op }
{
    shape_kinds(op.shape(), order_of(op.class()))
}

/// The operands of a row of this shape, of vector arithmetic in this order.
fn shape_kinds(shape: Shape, order: Order) -> &'static [OperandKind]
    ensures { result.now ≡ shape_kinds shape order }
{
    use OperandKind::{
        Address, Base, Control, Destination, FirstSource, Masked, SecondSource, SecondVector,
        Signed, SourceNumber, Target, Unsigned, VectorDestination, Vtype,
    };
    match shape {
        Shape::Registers => &[Destination, FirstSource, SecondSource],
        Shape::Immediate => &[Destination, FirstSource, Signed(12)],
        Shape::Shift => &[Destination, FirstSource, Unsigned(6)],
        Shape::ShiftWord => &[Destination, FirstSource, Unsigned(5)],
        Shape::Load => &[Destination, Address],
        Shape::Store => &[SecondSource, Address],
        Shape::Branch => &[FirstSource, SecondSource, Target(13)],
        Shape::Upper => &[Destination, Unsigned(20)],
        Shape::Jump => &[Destination, Target(21)],
        Shape::Fence => &[Destination, FirstSource, Unsigned(12)],
        Shape::Csr => &[Destination, Control, FirstSource],
        Shape::CsrNumber => &[Destination, Control, SourceNumber],
        Shape::Fixed => &[],
        Shape::SetType => &[Destination, FirstSource, Vtype(11)],
        Shape::SetNumber => &[Destination, SourceNumber, Vtype(10)],
        Shape::SetRegister => &[Destination, FirstSource, SecondSource],
        Shape::Vector(first, second, vm) => vector_kinds(order, first, second, vm),
        Shape::UnitMemory => &[VectorDestination, Base, Masked],
        Shape::WholeMemory => &[VectorDestination, Base],
        Shape::MaskMemory => &[VectorDestination, Base],
        Shape::StridedMemory => &[VectorDestination, Base, SecondSource, Masked],
        Shape::IndexedMemory => &[VectorDestination, Base, SecondVector, Masked],
    }
}
