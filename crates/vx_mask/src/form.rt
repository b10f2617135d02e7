ghost use Rattle.std.specs.Prelude.{◌≡◌, IsTrue};
ghost use Rattle.vx_mask.specs.Kinds.{is_mask_form};
ghost use Rattle.vx_operands.specs.Forms.{form_of};
ghost use Rattle.vx_rows.specs.declared.op.Op.TheVariants.{Mask};

use vx_operands::Form;
use vx_rows::{Family, First, MaskOp, Vm};

/// The form with these parts.
#[inline(always)]
fn form(family: Family, first: First, vm: Vm) -> Form
    ensures { result ≡ record { family = family; first = first; vm = vm } }
{
    Form { family, first, vm }
}

/// What the table of rows says of an operation.
#[inline(always)]
pub(crate) fn form_of(op: MaskOp) -> Form
    ensures is { result ≡ form_of (Mask op) }
    ensures kind { IsTrue (is_mask_form result) }
{
    match op {
        MaskOp::VredsumVs => form(Family::Vredsum, First::Vector, Vm::Any),
        MaskOp::VredandVs => form(Family::Vredand, First::Vector, Vm::Any),
        MaskOp::VredorVs => form(Family::Vredor, First::Vector, Vm::Any),
        MaskOp::VredxorVs => form(Family::Vredxor, First::Vector, Vm::Any),
        MaskOp::VredminuVs => form(Family::Vredminu, First::Vector, Vm::Any),
        MaskOp::VredminVs => form(Family::Vredmin, First::Vector, Vm::Any),
        MaskOp::VredmaxuVs => form(Family::Vredmaxu, First::Vector, Vm::Any),
        MaskOp::VredmaxVs => form(Family::Vredmax, First::Vector, Vm::Any),
        MaskOp::VwredsumuVs => form(Family::Vwredsumu, First::Vector, Vm::Any),
        MaskOp::VwredsumVs => form(Family::Vwredsum, First::Vector, Vm::Any),
        MaskOp::VmvXS => form(Family::VmvXS, First::Fixed, Vm::One),
        MaskOp::VcpopM => form(Family::Vcpop, First::Fixed, Vm::Any),
        MaskOp::VfirstM => form(Family::Vfirst, First::Fixed, Vm::Any),
        MaskOp::VmsbfM => form(Family::Vmsbf, First::Fixed, Vm::Any),
        MaskOp::VmsofM => form(Family::Vmsof, First::Fixed, Vm::Any),
        MaskOp::VmsifM => form(Family::Vmsif, First::Fixed, Vm::Any),
        MaskOp::ViotaM => form(Family::Viota, First::Fixed, Vm::Any),
        MaskOp::VidV => form(Family::Vid, First::Fixed, Vm::Any),
        MaskOp::VmandnMm => form(Family::Vmandn, First::Vector, Vm::One),
        MaskOp::VmandMm => form(Family::Vmand, First::Vector, Vm::One),
        MaskOp::VmorMm => form(Family::Vmor, First::Vector, Vm::One),
        MaskOp::VmxorMm => form(Family::Vmxor, First::Vector, Vm::One),
        MaskOp::VmornMm => form(Family::Vmorn, First::Vector, Vm::One),
        MaskOp::VmnandMm => form(Family::Vmnand, First::Vector, Vm::One),
        MaskOp::VmnorMm => form(Family::Vmnor, First::Vector, Vm::One),
        MaskOp::VmxnorMm => form(Family::Vmxnor, First::Vector, Vm::One),
    }
}
