//! Which words of its destination an instruction makes.

ghost use Rattle.std.specs.Prelude.{◌≡◌, ◌≤◌, IsTrue};
ghost use Rattle.vx_exec.specs.Runs.{count_by, run_by};
ghost use Rattle.vx_mask.specs.Kinds.{is_element, is_telling};
ghost use Rattle.vx_rows.specs.Families.{operands_of};
ghost use Rattle.vx_vstate.specs.Views.{view_of};

use vx_decode::width_of;
use vx_operands::has_few_elements;
use vx_rows::{Family, Operand};
use vx_vstate::Setting;

/// Words of a group, one behind another, counted from its first.
#[derive(Clone, Copy, PartialEq, Eq, Debug)]
pub(crate) struct Run {
    pub(crate) first: u32,
    pub(crate) count: u32,
}

/// Whether an integer register is told something.
#[inline(always)]
pub(crate) fn is_telling(family: Family) -> bool
    ensures { result ≡ is_telling family }
{
    match family {
        Family::VmvXS | Family::Vcpop | Family::Vfirst => true,
        _ => false,
    }
}

/// Whether an operand is one element.
#[inline(always)]
fn is_element(operand: Operand) -> bool
    ensures { result ≡ is_element operand }
{
    match operand {
        Operand::Element | Operand::WideElement => true,
        _ => false,
    }
}

/// How many elements an instruction with this destination has.
#[inline(always)]
fn count_by(destination: Operand, at: &Setting) -> u32
    ensures is { result ≡ count_by destination (view_of at.now) }
    ensures in_range { result ≤ 65536 }
{
    has_few_elements(at);
    match destination {
        Operand::Whole1 => at.vlen / at.sew(),
        Operand::Whole2 => 2 * at.vlen / at.sew(),
        Operand::Whole4 => 4 * at.vlen / at.sew(),
        Operand::Whole8 => 8 * at.vlen / at.sew(),
        Operand::Absent
        | Operand::Single
        | Operand::Double
        | Operand::Half
        | Operand::Quarter
        | Operand::Eighth
        | Operand::Sixteen
        | Operand::Mask
        | Operand::Element
        | Operand::WideElement => at.vl,
    }
}

/// The words that an instruction of a family makes.
#[inline(always)]
pub(crate) fn run_by(family: Family, at: &Setting) -> Run
    ensures { result ≡ run_by (operands_of family).destination (view_of at.now) }
{
    let destination = family.operands().destination;
    let count = count_by(destination, at);
    if at.vstart >= count {
        return Run { first: 0, count: 0 };
    }
    if is_element(destination) {
        return Run { first: 0, count: 1 };
    }
    let width = width_of(destination, at.sew());
    let first = at.vstart * width / 64;
    Run {
        first,
        count: (count - 1) * width / 64 + 1 - first,
    }
}
