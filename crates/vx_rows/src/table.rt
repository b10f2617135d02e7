ghost use Rattle.std.specs.Prelude.{◌≡◌, ℕ, length, map};
ghost use Rattle.vx_rows.specs.Layouts.{HasFields, layout_of};
ghost use Rattle.vx_rows.specs.Table.{
  table,
  bits_of,
  shape_of,
  class_of,
  kept_line,
  mnemonic,
  all_memory_names,
  FitsOneAtMost,
  HasItsRows,
};

use crate::family::Family;
use crate::line::{
    Line, addressing_bits, direction_bits, direction_class, first_mask, gather, line, lines,
    lines_of_both, mask, memory, name, name_lines, names, names_of_both, parts, row, rows_of_parts,
    second_mask, vector, vm_bit, vm_mask, width_number, with_whole,
};
use crate::lines::{
    elem_lines, fixed_lines, mask_lines, memory_lines, perm_lines, scalar_lines, set_lines,
    whole_lines, widen_lines,
};
use crate::op::{ElemOp, FixedOp, MaskOp, MemoryOp, Op, PermOp, ScalarOp, SetOp, WidenOp};
use crate::row::{Addressing, Class, Eew, First, Row, Second, Shape, Vm};

static SCALAR: [Line; 71] = scalar_lines!(lines);

static SCALAR_NAMES: [&'static str; 71] = scalar_lines!(name_lines);

static SET: [Line; 3] = set_lines!(lines);

static SET_NAMES: [&'static str; 3] = set_lines!(name_lines);

static ELEM: [Line; 73] = elem_lines!(lines);

static ELEM_NAMES: [&'static str; 73] = elem_lines!(name_lines);

static WIDEN: [Line; 70] = widen_lines!(lines);

static WIDEN_NAMES: [&'static str; 70] = widen_lines!(name_lines);

static FIXED: [Line; 32] = fixed_lines!(lines);

static FIXED_NAMES: [&'static str; 32] = fixed_lines!(name_lines);

static MASK: [Line; 26] = mask_lines!(lines);

static MASK_NAMES: [&'static str; 26] = mask_lines!(name_lines);

static PERM: [Line; 12] = perm_lines!(lines);

static PERM_NAMES: [&'static str; 12] = perm_lines!(name_lines);

static MEMORY: [Line; 43] = memory_lines!(with_whole, lines_of_both);

static MEMORY_NAMES: [[&'static str; 8]; 43] = memory_lines!(with_whole, names_of_both);

static ROWS: [Row; 345] = scalar_lines!(
    gather,
    ([] Scalar ScalarOp, set_lines Set SetOp, elem_lines Elem ElemOp, widen_lines Widen WidenOp,
        fixed_lines Fixed FixedOp, mask_lines Mask MaskOp, perm_lines Perm PermOp, memory_lines Memory MemoryOp,
        whole_lines Memory MemoryOp)
);

/// All rows. No word has the fixed bits of two.
#[tactic(auto, unfolding(crate::specs::Table::operations))]
pub fn rows() -> &'static [Row]
    ensures { result.now ≡ table }
{
    &ROWS
}

/// No word has the fixed bits of two rows.
pub fn fits_one_at_most()
    ensures { FitsOneAtMost table }
{}

/// Each operation has its rows in the table.
pub fn has_its_rows()
    ensures { HasItsRows table }
{}

impl Op {
    /// The fixed bits of its rows, but for those of the field nf of a vector load or store.
    pub fn bits(self) -> u32
        ensures { result ≡ bits_of self }
    {
        line_of(self).bits
    }

    /// Where its operands stand.
    pub fn shape(self) -> Shape
        ensures { result ≡ shape_of self }
    {
        line_of(self).shape
    }

    /// How the flat machine goes on at it.
    pub fn class(self) -> Class
        ensures { result ≡ class_of self }
    {
        line_of(self).class
    }
}

/// The mnemonic of an operation (RISC-V Unprivileged ISA 20191213, chapter 24, and RISC-V "V" 1.0, sections 6, 7 and 10 to
/// 16), where a row has it with this `nf`, which plays no part but in a vector load or store.
pub fn name_of(op: Op, nf: u8) -> &'static str
    requires { HasFields (layout_of (shape_of op)).nf nf }
    ensures { result.now ≡ mnemonic op nf }
{
    match op {
        Op::Scalar(op) => scalar_name(op),
        Op::Set(op) => set_name(op),
        Op::Elem(op) => elem_name(op),
        Op::Widen(op) => widen_name(op),
        Op::Fixed(op) => fixed_name(op),
        Op::Mask(op) => mask_name(op),
        Op::Perm(op) => perm_name(op),
        Op::Memory(op) => memory_name(op, nf),
    }
}

/// The line of an operation.
fn line_of(op: Op) -> &'static Line
    ensures { result.now ≡ kept_line op }
{
    match op {
        Op::Scalar(op) => scalar_line(op),
        Op::Set(op) => set_line(op),
        Op::Elem(op) => elem_line(op),
        Op::Widen(op) => widen_line(op),
        Op::Fixed(op) => fixed_line(op),
        Op::Mask(op) => mask_line(op),
        Op::Perm(op) => perm_line(op),
        Op::Memory(op) => memory_line(op),
    }
}

fn scalar_line(op: ScalarOp) -> &'static Line
    ensures { result.now ≡ kept_line (Op.Scalar op) }
{
    &SCALAR[op as usize]
}

fn set_line(op: SetOp) -> &'static Line
    ensures { result.now ≡ kept_line (Op.Set op) }
{
    &SET[op as usize]
}

fn elem_line(op: ElemOp) -> &'static Line
    ensures { result.now ≡ kept_line (Op.Elem op) }
{
    &ELEM[op as usize]
}

fn widen_line(op: WidenOp) -> &'static Line
    ensures { result.now ≡ kept_line (Op.Widen op) }
{
    &WIDEN[op as usize]
}

fn fixed_line(op: FixedOp) -> &'static Line
    ensures { result.now ≡ kept_line (Op.Fixed op) }
{
    &FIXED[op as usize]
}

fn mask_line(op: MaskOp) -> &'static Line
    ensures { result.now ≡ kept_line (Op.Mask op) }
{
    &MASK[op as usize]
}

fn perm_line(op: PermOp) -> &'static Line
    ensures { result.now ≡ kept_line (Op.Perm op) }
{
    &PERM[op as usize]
}

fn memory_line(op: MemoryOp) -> &'static Line
    ensures { result.now ≡ kept_line (Op.Memory op) }
{
    &MEMORY[op as usize]
}

fn scalar_name(op: ScalarOp) -> &'static str
    ensures { (nf : ℕ) → result.now ≡ mnemonic (Op.Scalar op) nf }
{
    SCALAR_NAMES[op as usize]
}

fn set_name(op: SetOp) -> &'static str
    ensures { (nf : ℕ) → result.now ≡ mnemonic (Op.Set op) nf }
{
    SET_NAMES[op as usize]
}

fn elem_name(op: ElemOp) -> &'static str
    ensures { (nf : ℕ) → result.now ≡ mnemonic (Op.Elem op) nf }
{
    ELEM_NAMES[op as usize]
}

fn widen_name(op: WidenOp) -> &'static str
    ensures { (nf : ℕ) → result.now ≡ mnemonic (Op.Widen op) nf }
{
    WIDEN_NAMES[op as usize]
}

fn fixed_name(op: FixedOp) -> &'static str
    ensures { (nf : ℕ) → result.now ≡ mnemonic (Op.Fixed op) nf }
{
    FIXED_NAMES[op as usize]
}

fn mask_name(op: MaskOp) -> &'static str
    ensures { (nf : ℕ) → result.now ≡ mnemonic (Op.Mask op) nf }
{
    MASK_NAMES[op as usize]
}

fn perm_name(op: PermOp) -> &'static str
    ensures { (nf : ℕ) → result.now ≡ mnemonic (Op.Perm op) nf }
{
    PERM_NAMES[op as usize]
}

/// The names of the vector loads and stores, by the field nf.
fn memory_names() -> &'static [[&'static str; 8]]
    ensures names { map (map (λ name. name.now)) result.now ≡ all_memory_names }
    ensures count { length result.now ≡ 43 }
{
    &MEMORY_NAMES
}

fn memory_name(op: MemoryOp, nf: u8) -> &'static str
    requires { HasFields (layout_of (shape_of (Op.Memory op))).nf nf }
    ensures { result.now ≡ mnemonic (Op.Memory op) nf }
{
    let names = &memory_names()[op as usize];
    names[usize::from(nf % 8)]
}
