//! What a line of the tables says: the macros that make a row, a line and a name of it.

use crate::row::{Class, Shape};

/// What the table says of an operation: its fixed bits, but for those of the field nf, its shape and its class.
#[derive(Clone, Copy)]
pub(crate) struct Line {
    pub(crate) bits: u32,
    pub(crate) shape: Shape,
    pub(crate) class: Class,
}

/// The bits of a word in which no operand of a shape stands.
macro_rules! mask {
    (Registers) => { 0xfe00_707f };
    (Immediate) => { 0x0000_707f };
    (Shift) => { 0xfc00_707f };
    (ShiftWord) => { 0xfe00_707f };
    (Load) => { 0x0000_707f };
    (Store) => { 0x0000_707f };
    (Branch) => { 0x0000_707f };
    (Upper) => { 0x0000_007f };
    (Jump) => { 0x0000_007f };
    (Fence) => { 0x0000_707f };
    (Csr) => { 0x0000_707f };
    (CsrNumber) => { 0x0000_707f };
    (Fixed) => { 0xffff_ffff };
    (SetType) => { 0x8000_707f };
    (SetNumber) => { 0xc000_707f };
    (SetRegister) => { 0xfe00_707f };
    (UnitMemory) => { 0x1df0_707f };
    (WholeMemory) => { 0xfff0_707f };
    (MaskMemory) => { 0xfff0_707f };
    (StridedMemory) => { 0x1c00_707f };
    (IndexedMemory) => { 0x1c00_707f };
}

/// The bits 19 to 15 where no operand stands there, those at 24 to 20, and bit 25.
macro_rules! first_mask {
    (Vector) => { 0 };
    (Integer) => { 0 };
    (Signed) => { 0 };
    (Unsigned) => { 0 };
    (Fixed) => { 0x000f_8000 };
}

macro_rules! second_mask {
    (Vector) => { 0 };
    (Fixed) => { 0x01f0_0000 };
}

macro_rules! vm_mask {
    (Any) => { 0 };
    (Zero) => { 1 << 25 };
    (One) => { 1 << 25 };
}

macro_rules! vm_bit {
    (Any) => { 0 };
    (Zero) => { 0 };
    (One) => { 1 << 25 };
}

/// A line of vector arithmetic: category, funct6, the number that selects an operation, what stands in the places of
/// `vs1` and `vs2`, the mask, the family.
macro_rules! vector {
    ($then:ident $head:tt $category:expr, $funct6:expr, $selector:expr, $first:ident, $second:ident, $vm:ident, $family:ident) => {
        $then!(
            $head
            0xfc00_707f | first_mask!($first) | second_mask!($second) | vm_mask!($vm),
            0x57 | $category << 12 | $selector << 15 | vm_bit!($vm) | $funct6 << 26,
            Shape::Vector(First::$first, Second::$second, Vm::$vm),
            Class::VectorArithmetic(Family::$family)
        )
    };
}

/// The opcode of a vector load or store, and its class.
macro_rules! direction_bits {
    (Load) => { 0x07 };
    (Store) => { 0x27 };
}

macro_rules! direction_class {
    (Load $addressing:ident $width:ident) => { Class::VectorLoad(Addressing::$addressing, Eew::$width) };
    (Store $addressing:ident $width:ident) => { Class::VectorStore(Addressing::$addressing, Eew::$width) };
}

/// The number of an encoded width.
macro_rules! width_number {
    (E8) => { 0b000 };
    (E16) => { 0b101 };
    (E32) => { 0b110 };
    (E64) => { 0b111 };
}

/// The bits 27 and 26 (mop) of an addressing, those at 24 to 20 where no operand stands there, and bit 25 where it is
/// fixed.
macro_rules! addressing_bits {
    (Unit) => { 0 };
    (Whole) => { 0b01000 << 20 | 1 << 25 };
    (MaskBits) => { 0b01011 << 20 | 1 << 25 };
    (FaultOnlyFirst) => { 0b10000 << 20 };
    (Unordered) => { 0b01 << 26 };
    (Strided) => { 0b10 << 26 };
    (Ordered) => { 0b11 << 26 };
}

/// A line of a vector load or store.
macro_rules! memory {
    ($then:ident $head:tt $direction:ident, $addressing:ident, $shape:ident, $width:ident) => {
        $then!(
            $head
            mask!($shape),
            direction_bits!($direction) | width_number!($width) << 12 | addressing_bits!($addressing),
            Shape::$shape,
            direction_class!($direction $addressing $width)
        )
    };
}

/// A line in its parts: hands `$then!` the mask, the fixed bits, the shape and the class, behind a head of its own.
macro_rules! parts {
    ($then:ident $head:tt scalar($bits:expr, $shape:ident, $class:ident, $name:literal)) => {
        $then!($head mask!($shape), $bits, Shape::$shape, Class::$class)
    };
    ($then:ident $head:tt set($bits:expr, $shape:ident, $name:literal)) => {
        $then!($head mask!($shape), $bits, Shape::$shape, Class::Set)
    };
    ($then:ident $head:tt ivv($funct6:expr, $vm:ident, $name:literal, $family:ident)) => {
        vector!($then $head 0b000, $funct6, 0, Vector, Vector, $vm, $family)
    };
    ($then:ident $head:tt mvv($funct6:expr, $vm:ident, $name:literal, $family:ident)) => {
        vector!($then $head 0b010, $funct6, 0, Vector, Vector, $vm, $family)
    };
    ($then:ident $head:tt ivi($funct6:expr, $vm:ident, $name:literal, $family:ident)) => {
        vector!($then $head 0b011, $funct6, 0, Signed, Vector, $vm, $family)
    };
    ($then:ident $head:tt ivu($funct6:expr, $vm:ident, $name:literal, $family:ident)) => {
        vector!($then $head 0b011, $funct6, 0, Unsigned, Vector, $vm, $family)
    };
    ($then:ident $head:tt ivx($funct6:expr, $vm:ident, $name:literal, $family:ident)) => {
        vector!($then $head 0b100, $funct6, 0, Integer, Vector, $vm, $family)
    };
    ($then:ident $head:tt mvx($funct6:expr, $vm:ident, $name:literal, $family:ident)) => {
        vector!($then $head 0b110, $funct6, 0, Integer, Vector, $vm, $family)
    };
    ($then:ident $head:tt unary($funct6:expr, $selector:expr, $vm:ident, $name:literal, $family:ident)) => {
        vector!($then $head 0b010, $funct6, $selector, Fixed, Vector, $vm, $family)
    };
    ($then:ident $head:tt nullary($funct6:expr, $selector:expr, $name:literal, $family:ident)) => {
        vector!($then $head 0b010, $funct6, $selector, Fixed, Fixed, Any, $family)
    };
    ($then:ident $head:tt copy($selector:expr, $name:literal, $family:ident)) => {
        vector!($then $head 0b011, 0b100111, $selector, Fixed, Vector, One, $family)
    };
    ($then:ident $head:tt move_v($funct6:expr, $name:literal, $family:ident)) => {
        vector!($then $head 0b000, $funct6, 0, Vector, Fixed, One, $family)
    };
    ($then:ident $head:tt move_x($funct6:expr, $name:literal, $family:ident)) => {
        vector!($then $head 0b100, $funct6, 0, Integer, Fixed, One, $family)
    };
    ($then:ident $head:tt move_i($funct6:expr, $name:literal, $family:ident)) => {
        vector!($then $head 0b011, $funct6, 0, Signed, Fixed, One, $family)
    };
    ($then:ident $head:tt move_s($funct6:expr, $name:literal, $family:ident)) => {
        vector!($then $head 0b110, $funct6, 0, Integer, Fixed, One, $family)
    };
    ($then:ident $head:tt segments($direction:ident, Unit, $width:ident, $stem:literal, $tail:literal)) => {
        memory!($then $head $direction, Unit, UnitMemory, $width)
    };
    ($then:ident $head:tt segments($direction:ident, FaultOnlyFirst, $width:ident, $stem:literal, $tail:literal)) => {
        memory!($then $head $direction, FaultOnlyFirst, UnitMemory, $width)
    };
    ($then:ident $head:tt segments($direction:ident, Strided, $width:ident, $stem:literal, $tail:literal)) => {
        memory!($then $head $direction, Strided, StridedMemory, $width)
    };
    ($then:ident $head:tt segments($direction:ident, $addressing:ident, $width:ident, $stem:literal, $tail:literal)) => {
        memory!($then $head $direction, $addressing, IndexedMemory, $width)
    };
    ($then:ident $head:tt plain($direction:ident, $addressing:ident, $width:ident, $stem:literal, $tail:literal)) => {
        memory!($then $head $direction, $addressing, MaskMemory, $width)
    };
    ($then:ident $head:tt whole($direction:ident, $width:ident, $stem:literal, $tail:literal)) => {
        memory!($then $head $direction, Whole, WholeMemory, $width)
    };
}

/// The line of an operation.
macro_rules! line {
    ([] $mask:expr, $bits:expr, $shape:expr, $class:expr) => {
        Line { bits: $bits, shape: $shape, class: $class }
    };
}

/// The row of an operation with a field nf.
macro_rules! row {
    ([$op:expr, $nf:expr] $mask:expr, $bits:expr, $shape:expr, $class:expr) => {
        Row { op: $op, mask: $mask, value: $bits | $nf << 29, shape: $shape, class: $class }
    };
}

/// All rows: of each part, in brackets, its name, the type of its operations and its lines, those of whole registers last.
macro_rules! rows_of_parts {
    ($(($part:ident $kind:ident $($op:ident = $form:ident $parts:tt,)*))*
        [$whole_part:ident $whole_kind:ident $($whole_op:ident = $whole_form:ident $whole_parts:tt,)*]) => {
        [
            $($(parts!(row [Op::$part($kind::$op), 0] $form $parts),)*)*
            $(
                parts!(row [Op::$whole_part($whole_kind::$whole_op), 0] $whole_form $whole_parts),
                parts!(row [Op::$whole_part($whole_kind::$whole_op), 1] $whole_form $whole_parts),
                parts!(row [Op::$whole_part($whole_kind::$whole_op), 3] $whole_form $whole_parts),
                parts!(row [Op::$whole_part($whole_kind::$whole_op), 7] $whole_form $whole_parts),
            )*
        ]
    };
}

/// Gathers the lines of the tables that are named, and hands them to `rows_of_parts!`.
macro_rules! gather {
    (([$($done:tt)*] $part:ident $kind:ident); $($lines:tt)*) => {
        rows_of_parts!($($done)* [$part $kind $($lines)*])
    };
    (([$($done:tt)*] $part:ident $kind:ident, $next:ident $($rest:tt)*); $($lines:tt)*) => {
        $next!(gather, ([$($done)* ($part $kind $($lines)*)] $($rest)*))
    };
}

/// The name of each line of a table.
macro_rules! name {
    (scalar($bits:expr, $shape:ident, $class:ident, $name:literal)) => { $name };
    (set($bits:expr, $shape:ident, $name:literal)) => { $name };
    (unary($funct6:expr, $selector:expr, $vm:ident, $name:literal, $family:ident)) => { $name };
    (nullary($funct6:expr, $selector:expr, $name:literal, $family:ident)) => { $name };
    (copy($selector:expr, $name:literal, $family:ident)) => { $name };
    (move_v($funct6:expr, $name:literal, $family:ident)) => { $name };
    (move_x($funct6:expr, $name:literal, $family:ident)) => { $name };
    (move_i($funct6:expr, $name:literal, $family:ident)) => { $name };
    (move_s($funct6:expr, $name:literal, $family:ident)) => { $name };
    ($form:ident($funct6:expr, $vm:ident, $name:literal, $family:ident)) => { $name };
}

/// The names of a table, in its order.
macro_rules! name_lines {
    ($($op:ident = $form:ident $parts:tt,)*) => {
        [$(name!($form $parts)),*]
    };
}

/// The variants of a table's operations, in its order.
macro_rules! variants {
    ($($op:ident = $form:ident $parts:tt,)*) => {
        [$(stringify!($op)),*]
    };
}

macro_rules! variants_of_both {
    ([$($op:ident = $form:ident $parts:tt,)*]; $($whole_op:ident = $whole_form:ident $whole_parts:tt,)*) => {
        [$(stringify!($op),)* $(stringify!($whole_op),)*]
    };
}

/// The names of a vector load or store by its field nf.
macro_rules! names {
    (segments($direction:ident, $addressing:ident, $width:ident, $stem:literal, $tail:literal)) => {
        [
            concat!($stem, $tail),
            concat!($stem, "seg2", $tail),
            concat!($stem, "seg3", $tail),
            concat!($stem, "seg4", $tail),
            concat!($stem, "seg5", $tail),
            concat!($stem, "seg6", $tail),
            concat!($stem, "seg7", $tail),
            concat!($stem, "seg8", $tail),
        ]
    };
    (plain($direction:ident, $addressing:ident, $width:ident, $stem:literal, $tail:literal)) => {
        [
            concat!($stem, $tail),
            concat!($stem, $tail),
            concat!($stem, $tail),
            concat!($stem, $tail),
            concat!($stem, $tail),
            concat!($stem, $tail),
            concat!($stem, $tail),
            concat!($stem, $tail),
        ]
    };
    (whole($direction:ident, $width:ident, $stem:literal, $tail:literal)) => {
        [
            concat!($stem, "1", $tail),
            concat!($stem, "2", $tail),
            concat!($stem, "3", $tail),
            concat!($stem, "4", $tail),
            concat!($stem, "5", $tail),
            concat!($stem, "6", $tail),
            concat!($stem, "7", $tail),
            concat!($stem, "8", $tail),
        ]
    };
}

/// The lines of two tables, in their order.
macro_rules! lines_of_both {
    ([$($op:ident = $form:ident $parts:tt,)*]; $($whole_op:ident = $whole_form:ident $whole_parts:tt,)*) => {
        [$(parts!(line [] $form $parts),)* $(parts!(line [] $whole_form $whole_parts),)*]
    };
}

macro_rules! names_of_both {
    ([$($op:ident = $form:ident $parts:tt,)*]; $($whole_op:ident = $whole_form:ident $whole_parts:tt,)*) => {
        [$(names!($form $parts),)* $(names!($whole_form $whole_parts),)*]
    };
}

/// Hands the lines of vector loads and stores, those of whole registers behind the others, to a macro.
macro_rules! with_whole {
    ($then:ident; $($lines:tt)*) => {
        whole_lines!($then, [$($lines)*])
    };
}

/// The lines of a table, in its order.
macro_rules! lines {
    ($($op:ident = $form:ident $parts:tt,)*) => {
        [$(parts!(line [] $form $parts)),*]
    };
}

pub(crate) use addressing_bits;
pub(crate) use direction_bits;
pub(crate) use direction_class;
pub(crate) use first_mask;
pub(crate) use gather;
pub(crate) use line;
pub(crate) use lines;
pub(crate) use lines_of_both;
pub(crate) use mask;
pub(crate) use memory;
pub(crate) use name;
pub(crate) use name_lines;
pub(crate) use names;
pub(crate) use names_of_both;
pub(crate) use parts;
pub(crate) use row;
pub(crate) use rows_of_parts;
pub(crate) use second_mask;
pub(crate) use variants;
pub(crate) use variants_of_both;
pub(crate) use vector;
pub(crate) use vm_bit;
pub(crate) use vm_mask;
pub(crate) use width_number;
pub(crate) use with_whole;
