//! The groups of registers that an instruction's vector operands are.

ghost use Rattle.std.specs.Prelude.{◌≡◌, ◌≤◌, option_to_list};
ghost use Rattle.vx_decode.specs.Groups.{
  AreGroupsOf,
  bits_of_eew,
  eighths_of,
  extent,
  first_source,
  group_at,
  group_of,
  indices,
  mask_at,
  meet,
  moved,
  second_source,
  width_of,
};
ghost use Rattle.vx_rows.specs.Families.{operands_of};
ghost use Rattle.vx_rows.specs.Table.{class_of, shape_of};
ghost use Rattle.vx_rows.specs.declared.row.Class.TheVariants as class;
ghost use Rattle.vx_vstate.specs.Groups.{emul_eighths, registers_of_group};
ghost use Rattle.vx_vstate.specs.Views.{view_of};

use crate::instr::Instr;
use vx_rows::{Addressing, Class, Eew, Family, First, Operand, Operands, Second, Shape};
use vx_vstate::Setting;

/// A vector operand as a group of registers (RISC-V "V" 1.0, sections 3.4.2 and 5.2).
#[derive(Clone, Copy, PartialEq, Eq, Debug)]
pub struct Group {
    /// The first register.
    pub register: u32,
    /// EEW, the width of an element in bits; 1 for a mask.
    pub eew: u32,
    /// The operand is a mask.
    pub is_mask: bool,
    /// EMUL, the registers of one field, in eighths.
    pub emul_eighths: u32,
    /// How many such groups stand one behind another: the fields of a segment, else 1.
    pub fields: u32,
}

/// What an instruction writes and reads, but for the mask in `v0`.
#[derive(Clone, Copy)]
pub(crate) struct Groups {
    /// Its operation's class.
    pub(crate) class: Class,
    /// What it writes.
    pub(crate) destination: Option<Group>,
    /// The source in the place of `vs2`, or what a store moves.
    pub(crate) second: Option<Group>,
    /// The source in the place of `vs1`, or the indices of a load or store.
    pub(crate) first: Option<Group>,
}

impl Group {
    /// The registers of one field: EMUL, and one where it is less.
    #[inline(always)]
    pub fn registers(self) -> u32
        ensures is { result ≡ registers_of_group self.emul_eighths }
        ensures positive { 1 ≤ result }
        ensures in_range { result ≤ 0x1fffffff }
    {
        (self.emul_eighths / 8).max(1)
    }

    /// The registers of all fields.
    #[inline(always)]
    pub(crate) fn extent(self) -> u64
        ensures is { result ≡ extent self }
        ensures in_range { result ≤ 0x1fffffffffffffff }
    {
        u64::from(self.fields) * u64::from(self.registers())
    }

    /// Whether two groups have a register in common.
    #[inline(always)]
    pub(crate) fn meets(self, other: Group) -> bool
        ensures { result ≡ meet self other }
    {
        u64::from(self.register) < u64::from(other.register) + other.extent()
            && u64::from(other.register) < u64::from(self.register) + self.extent()
    }
}

/// The mask that begins at a register.
#[inline(always)]
pub(crate) fn mask_at(register: u8) -> Group
    ensures { result ≡ mask_at register }
{
    Group {
        register: u32::from(register),
        eew: 1,
        is_mask: true,
        emul_eighths: 8,
        fields: 1,
    }
}

/// The groups of a vector load.
#[inline(always)]
pub(crate) fn load_groups(addressing: Addressing, width: Eew, i: &Instr, at: &Setting) -> Groups
    requires { class_of i.now.op ≡ class.VectorLoad addressing width }
    ensures { AreGroupsOf result i.now (view_of at.now) }
{
    Groups {
        class: Class::VectorLoad(addressing, width),
        destination: Some(moved(addressing, width, i, at)),
        second: None,
        first: indices(addressing, width, i, at),
    }
}

/// The groups of a vector store.
#[inline(always)]
pub(crate) fn store_groups(addressing: Addressing, width: Eew, i: &Instr, at: &Setting) -> Groups
    requires { class_of i.now.op ≡ class.VectorStore addressing width }
    ensures { AreGroupsOf result i.now (view_of at.now) }
{
    Groups {
        class: Class::VectorStore(addressing, width),
        destination: None,
        second: Some(moved(addressing, width, i, at)),
        first: indices(addressing, width, i, at),
    }
}

/// The groups of a row of vector arithmetic with these operands.
#[inline(always)]
pub(crate) fn arithmetic_groups(
    family: Family,
    operands: Operands,
    shape: Shape,
    i: &Instr,
    at: &Setting,
) -> Groups
    requires class { class_of i.now.op ≡ class.VectorArithmetic family }
    requires shape { shape_of i.now.op ≡ shape }
    requires destination { operands.destination ≡ (operands_of family).destination }
    requires vs2 { operands.vs2 ≡ (operands_of family).vs2 }
    requires vs1 { operands.vs1 ≡ (operands_of family).vs1 }
    ensures { AreGroupsOf result i.now (view_of at.now) }
{
    let class = Class::VectorArithmetic(family);
    let destination = operand_group(operands.destination, at, i.rd);
    match shape {
        Shape::Vector(first, second, _) => Groups {
            class,
            destination,
            second: second_source(second, operands.vs2, i, at),
            first: first_source(first, operands.vs1, i, at),
        },
        _ => Groups {
            class,
            destination,
            second: None,
            first: None,
        },
    }
}

/// The source in the place of `vs2`, where a register stands there.
#[inline(always)]
fn second_source(second: Second, operand: Operand, i: &Instr, at: &Setting) -> Option<Group>
    ensures { option_to_list result ≡ second_source second operand i.now (view_of at.now) }
{
    match second {
        Second::Vector => operand_group(operand, at, i.rs2),
        Second::Fixed => None,
    }
}

/// The source in the place of `vs1`, where a register stands there.
#[inline(always)]
fn first_source(first: First, operand: Operand, i: &Instr, at: &Setting) -> Option<Group>
    ensures { option_to_list result ≡ first_source first operand i.now (view_of at.now) }
{
    match first {
        First::Vector => operand_group(operand, at, i.rs1),
        _ => None,
    }
}

/// A register as an operand, where it is one.
#[inline(always)]
fn operand_group(operand: Operand, at: &Setting, register: u8) -> Option<Group>
    ensures { option_to_list result ≡ group_of operand (view_of at.now) register }
{
    match operand {
        Operand::Absent => None,
        Operand::Mask => Some(mask_at(register)),
        _ => Some(Group {
            register: u32::from(register),
            eew: width_of(operand, at.sew()),
            is_mask: false,
            emul_eighths: eighths_of(operand, at),
            fields: 1,
        }),
    }
}

/// EEW of an operand, the width of its elements in bits, where SEW is that of the configuration: 1 for a mask, 0 where there is
/// no register (RISC-V "V" 1.0, sections 5.2 and 11.1).
#[inline(always)]
pub fn width_of(operand: Operand, sew: u32) -> u32
    requires { sew ≤ 64 }
    ensures is { result ≡ width_of operand sew }
    ensures in_range { result ≤ 128 }
{
    match operand {
        Operand::Absent => 0,
        Operand::Double | Operand::WideElement => 2 * sew,
        Operand::Half => sew / 2,
        Operand::Quarter => sew / 4,
        Operand::Eighth => sew / 8,
        Operand::Sixteen => 16,
        Operand::Mask => 1,
        _ => sew,
    }
}

/// EMUL of an operand, in eighths.
#[inline(always)]
fn eighths_of(operand: Operand, at: &Setting) -> u32
    ensures { result ≡ eighths_of operand at.now.vtype }
{
    match operand {
        Operand::Absent => 0,
        Operand::Mask | Operand::Element | Operand::WideElement | Operand::Whole1 => 8,
        Operand::Whole2 => 16,
        Operand::Whole4 => 32,
        Operand::Whole8 => 64,
        Operand::Single => at.lmul_eighths(),
        _ => emul_eighths(at, width_of(operand, at.sew())),
    }
}

/// EMUL of a group of elements of a width, in eighths.
#[inline(always)]
fn emul_eighths(at: &Setting, width: u32) -> u32
    requires { width ≤ 128 }
    ensures { result ≡ emul_eighths at.now.vtype width }
{
    width * at.lmul_eighths() / at.sew()
}

/// The width that a vector load or store encodes, in bits (RISC-V "V" 1.0, section 7.3).
#[inline(always)]
pub fn bits_of_eew(width: Eew) -> u32
    ensures is { result ≡ bits_of_eew width }
    ensures least { 8 ≤ result }
    ensures most { result ≤ 64 }
{
    match width {
        Eew::E8 => 8,
        Eew::E16 => 16,
        Eew::E32 => 32,
        Eew::E64 => 64,
    }
}

/// A register as a group of elements of a width, of so many fields.
#[inline(always)]
fn group_at(at: &Setting, register: u8, width: u32, fields: u32) -> Group
    requires { width ≤ 128 }
    ensures { result ≡ group_at (view_of at.now) register width fields }
{
    Group {
        register: u32::from(register),
        eew: width,
        is_mask: false,
        emul_eighths: emul_eighths(at, width),
        fields,
    }
}

/// What a vector load or store moves: the group that a load writes or a store reads (RISC-V "V" 1.0, sections 7.3 to 7.9).
#[inline(always)]
pub fn moved(addressing: Addressing, width: Eew, i: &Instr, at: &Setting) -> Group
    ensures { result ≡ moved addressing width i.now (view_of at.now) }
{
    let fields = u32::from(i.nf) + 1;
    match addressing {
        Addressing::Unit | Addressing::FaultOnlyFirst | Addressing::Strided => {
            group_at(at, i.rd, bits_of_eew(width), fields)
        }
        Addressing::Unordered | Addressing::Ordered => group_at(at, i.rd, at.sew(), fields),
        Addressing::Whole => Group {
            register: u32::from(i.rd),
            eew: bits_of_eew(width),
            is_mask: false,
            emul_eighths: 8 * fields,
            fields: 1,
        },
        Addressing::MaskBits => mask_at(i.rd),
    }
}

/// The indices of a vector load or store that has them.
#[inline(always)]
fn indices(addressing: Addressing, width: Eew, i: &Instr, at: &Setting) -> Option<Group>
    ensures { option_to_list result ≡ indices addressing width i.now (view_of at.now) }
{
    match addressing {
        Addressing::Unordered | Addressing::Ordered => {
            Some(group_at(at, i.rs2, bits_of_eew(width), 1))
        }
        _ => None,
    }
}
