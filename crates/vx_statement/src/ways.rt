ghost use Rattle.std.specs.Prelude.{◌≡◌, map};
ghost use Rattle.vx_language.specs.Slots.{operand_ways};
ghost use Rattle.vx_source.specs.Operands.{vector_kinds, shape_kinds, operand_kinds};
ghost use Rattle.vx_source.specs.declared.operand.Order.TheVariants.{Usual, MultiplyAdd, ToInteger};
ghost use Rattle.vx_statement.specs.Ways.{slots_of};

use crate::range::{Range, Reach};
use crate::slot::Slot;
use vx_rows::{First, Op, Second, Shape, Vm};
use vx_source::{Order, VtypeField, order_of};

const COMMA: Slot = Slot::Mark(b',');

const NUMBER: Slot = Slot::Immediate(Range {
    least: -2048,
    greatest: 2047,
});

const AMOUNT: Slot = Slot::Immediate(Range {
    least: 0,
    greatest: 63,
});

const WORD_AMOUNT: Slot = Slot::Immediate(Range {
    least: 0,
    greatest: 31,
});

const UPPER: Slot = Slot::Immediate(Range {
    least: 0,
    greatest: 1_048_575,
});

const ORDER: Slot = Slot::Immediate(Range {
    least: 0,
    greatest: 4095,
});

const SOURCE: Slot = Slot::SourceField(Range {
    least: 0,
    greatest: 31,
});

const SMALL: Slot = Slot::Immediate(Range {
    least: -16,
    greatest: 15,
});

const SMALL_UNSIGNED: Slot = Slot::Immediate(Range {
    least: 0,
    greatest: 31,
});

const VTYPE: Slot = Slot::Immediate(Range {
    least: 0,
    greatest: 2047,
});

const SHORT_VTYPE: Slot = Slot::Immediate(Range {
    least: 0,
    greatest: 1023,
});

const SEW: Slot = Slot::VtypeWord(VtypeField::Sew);

const LMUL: Slot = Slot::VtypeWord(VtypeField::Lmul);

const TAIL: Slot = Slot::VtypeWord(VtypeField::Tail);

const MASK: Slot = Slot::VtypeWord(VtypeField::Mask);

/// The ways to write these operands, and behind them the mask.
macro_rules! with_mask {
    ($vm:ident, [$($slot:expr),*]) => {
        match $vm {
            Vm::Any => &[&[$($slot),*], &[$($slot),*, COMMA, Slot::Masked]],
            Vm::Zero => &[&[$($slot),*, COMMA, Slot::Carry]],
            Vm::One => &[&[$($slot),*]],
        }
    };
}

/// The ways to write a destination, what stands in the place of `vs1`, and the mask, where there is no `vs2`.
macro_rules! without_second {
    ($destination:expr, $first:ident, $vm:ident) => {
        match $first {
            First::Vector => with_mask!($vm, [$destination, COMMA, Slot::Vs1]),
            First::Integer => with_mask!($vm, [$destination, COMMA, Slot::Rs1]),
            First::Signed => with_mask!($vm, [$destination, COMMA, SMALL]),
            First::Unsigned => with_mask!($vm, [$destination, COMMA, SMALL_UNSIGNED]),
            First::Fixed => with_mask!($vm, [$destination]),
        }
    };
}

/// The same with `vs2` before it.
macro_rules! behind_second {
    ($destination:expr, $first:ident, $vm:ident) => {
        match $first {
            First::Vector => with_mask!($vm, [$destination, COMMA, Slot::Vs2, COMMA, Slot::Vs1]),
            First::Integer => with_mask!($vm, [$destination, COMMA, Slot::Vs2, COMMA, Slot::Rs1]),
            First::Signed => with_mask!($vm, [$destination, COMMA, Slot::Vs2, COMMA, SMALL]),
            First::Unsigned => {
                with_mask!($vm, [$destination, COMMA, Slot::Vs2, COMMA, SMALL_UNSIGNED])
            }
            First::Fixed => with_mask!($vm, [$destination, COMMA, Slot::Vs2]),
        }
    };
}

/// The same with `vs2` behind it.
macro_rules! before_second {
    ($destination:expr, $first:ident, $vm:ident) => {
        match $first {
            First::Vector => with_mask!($vm, [$destination, COMMA, Slot::Vs1, COMMA, Slot::Vs2]),
            First::Integer => with_mask!($vm, [$destination, COMMA, Slot::Rs1, COMMA, Slot::Vs2]),
            First::Signed => with_mask!($vm, [$destination, COMMA, SMALL, COMMA, Slot::Vs2]),
            First::Unsigned => {
                with_mask!($vm, [$destination, COMMA, SMALL_UNSIGNED, COMMA, Slot::Vs2])
            }
            First::Fixed => with_mask!($vm, [$destination, COMMA, Slot::Vs2]),
        }
    };
}

/// The ways to write operands in the usual order.
#[tactic(auto, unfolding(vx_language::specs::Slots::ways_behind_commas))]
fn usual_ways(first: First, second: Second, vm: Vm) -> &'static [&'static [Slot]]
    ensures { map slots_of result.now ≡ operand_ways (vector_kinds Usual first second vm) }
{
    match second {
        Second::Vector => behind_second!(Slot::Vd, first, vm),
        Second::Fixed => without_second!(Slot::Vd, first, vm),
    }
}

/// The ways to write the operands of a multiply-add.
#[tactic(auto, unfolding(vx_language::specs::Slots::ways_behind_commas))]
fn multiply_add_ways(first: First, second: Second, vm: Vm) -> &'static [&'static [Slot]]
    ensures { map slots_of result.now ≡ operand_ways (vector_kinds MultiplyAdd first second vm) }
{
    match second {
        Second::Vector => before_second!(Slot::Vd, first, vm),
        Second::Fixed => without_second!(Slot::Vd, first, vm),
    }
}

/// The ways to write the operands of a row that answers in an integer register.
#[tactic(auto, unfolding(vx_language::specs::Slots::ways_behind_commas))]
fn to_integer_ways(first: First, second: Second, vm: Vm) -> &'static [&'static [Slot]]
    ensures { map slots_of result.now ≡ operand_ways (vector_kinds ToInteger first second vm) }
{
    match second {
        Second::Vector => behind_second!(Slot::Rd, first, vm),
        Second::Fixed => without_second!(Slot::Rd, first, vm),
    }
}

/// The ways to write the operands of vector arithmetic.
fn vector_ways(order: Order, first: First, second: Second, vm: Vm) -> &'static [&'static [Slot]]
    ensures { map slots_of result.now ≡ operand_ways (vector_kinds order first second vm) }
{
    match order {
        Order::Usual => usual_ways(first, second, vm),
        Order::MultiplyAdd => multiply_add_ways(first, second, vm),
        Order::ToInteger => to_integer_ways(first, second, vm),
    }
}

/// The ways to write the operands of an operation's rows.
pub fn instr_ways(op: Op) -> &'static [&'static [Slot]]
    ensures { map slots_of result.now ≡ operand_ways (operand_kinds op) }
{
    shape_ways(op.shape(), order_of(op.class()))
}

/// The ways to write the operands of a row of this shape, of vector arithmetic in this order.
#[tactic(auto, unfolding(vx_language::specs::Slots::ways_behind_commas))]
fn shape_ways(shape: Shape, order: Order) -> &'static [&'static [Slot]]
    ensures { map slots_of result.now ≡ operand_ways (shape_kinds shape order) }
{
    use Slot::{ControlRegister, Mark, Masked, Offset, Rd, Rs1, Rs2, Vd, Vs2};
    match shape {
        Shape::Registers => &[&[Rd, COMMA, Rs1, COMMA, Rs2]],
        Shape::Immediate => &[&[Rd, COMMA, Rs1, COMMA, NUMBER]],
        Shape::Shift => &[&[Rd, COMMA, Rs1, COMMA, AMOUNT]],
        Shape::ShiftWord => &[&[Rd, COMMA, Rs1, COMMA, WORD_AMOUNT]],
        Shape::Load => &[&[Rd, COMMA, NUMBER, Mark(b'('), Rs1, Mark(b')')]],
        Shape::Store => &[&[Rs2, COMMA, NUMBER, Mark(b'('), Rs1, Mark(b')')]],
        Shape::Branch => &[&[Rs1, COMMA, Rs2, COMMA, Offset(Reach::Branch)]],
        Shape::Upper => &[&[Rd, COMMA, UPPER]],
        Shape::Jump => &[&[Rd, COMMA, Offset(Reach::Jump)]],
        Shape::Fence => &[&[Rd, COMMA, Rs1, COMMA, ORDER]],
        Shape::Csr => &[&[Rd, COMMA, ControlRegister, COMMA, Rs1]],
        Shape::CsrNumber => &[&[Rd, COMMA, ControlRegister, COMMA, SOURCE]],
        Shape::Fixed => &[&[]],
        Shape::SetType => &[
            &[
                Rd, COMMA, Rs1, COMMA, SEW, COMMA, LMUL, COMMA, TAIL, COMMA, MASK,
            ],
            &[Rd, COMMA, Rs1, COMMA, VTYPE],
        ],
        Shape::SetNumber => &[
            &[
                Rd, COMMA, SOURCE, COMMA, SEW, COMMA, LMUL, COMMA, TAIL, COMMA, MASK,
            ],
            &[Rd, COMMA, SOURCE, COMMA, SHORT_VTYPE],
        ],
        Shape::SetRegister => &[&[Rd, COMMA, Rs1, COMMA, Rs2]],
        Shape::Vector(first, second, vm) => vector_ways(order, first, second, vm),
        Shape::UnitMemory => &[
            &[Vd, COMMA, Mark(b'('), Rs1, Mark(b')')],
            &[Vd, COMMA, Mark(b'('), Rs1, Mark(b')'), COMMA, Masked],
        ],
        Shape::WholeMemory => &[&[Vd, COMMA, Mark(b'('), Rs1, Mark(b')')]],
        Shape::MaskMemory => &[&[Vd, COMMA, Mark(b'('), Rs1, Mark(b')')]],
        Shape::StridedMemory => &[
            &[Vd, COMMA, Mark(b'('), Rs1, Mark(b')'), COMMA, Rs2],
            &[
                Vd,
                COMMA,
                Mark(b'('),
                Rs1,
                Mark(b')'),
                COMMA,
                Rs2,
                COMMA,
                Masked,
            ],
        ],
        Shape::IndexedMemory => &[
            &[Vd, COMMA, Mark(b'('), Rs1, Mark(b')'), COMMA, Vs2],
            &[
                Vd,
                COMMA,
                Mark(b'('),
                Rs1,
                Mark(b')'),
                COMMA,
                Vs2,
                COMMA,
                Masked,
            ],
        ],
    }
}
