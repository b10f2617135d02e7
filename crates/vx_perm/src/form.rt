ghost use Rattle.std.specs.Prelude.{◌≡◌, IsTrue};
ghost use Rattle.vx_perm.specs.Kinds.{is_perm_form};
ghost use Rattle.vx_operands.specs.Forms.{form_of};
ghost use Rattle.vx_rows.specs.declared.op.Op.TheVariants.{Perm};

use vx_operands::Form;
use vx_rows::{Family, First, PermOp, Vm};

/// The form with these parts.
#[inline(always)]
fn form(family: Family, first: First, vm: Vm) -> Form
    ensures { result ≡ record { family = family; first = first; vm = vm } }
{
    Form { family, first, vm }
}

/// What the table of rows says of an operation.
#[inline(always)]
pub(crate) fn form_of(op: PermOp) -> Form
    ensures is { result ≡ form_of (Perm op) }
    ensures kind { IsTrue (is_perm_form result) }
{
    match op {
        PermOp::VrgatherVv => form(Family::Vrgather, First::Vector, Vm::Any),
        PermOp::VrgatherVx => form(Family::Vrgather, First::Integer, Vm::Any),
        PermOp::VrgatherVi => form(Family::Vrgather, First::Unsigned, Vm::Any),
        PermOp::Vrgatherei16Vv => form(Family::Vrgatherei16, First::Vector, Vm::Any),
        PermOp::VslideupVx => form(Family::Vslideup, First::Integer, Vm::Any),
        PermOp::VslideupVi => form(Family::Vslideup, First::Unsigned, Vm::Any),
        PermOp::VslidedownVx => form(Family::Vslidedown, First::Integer, Vm::Any),
        PermOp::VslidedownVi => form(Family::Vslidedown, First::Unsigned, Vm::Any),
        PermOp::Vslide1upVx => form(Family::Vslide1up, First::Integer, Vm::Any),
        PermOp::Vslide1downVx => form(Family::Vslide1down, First::Integer, Vm::Any),
        PermOp::VmvSX => form(Family::VmvSX, First::Integer, Vm::One),
        PermOp::VcompressVm => form(Family::Vcompress, First::Vector, Vm::One),
    }
}
