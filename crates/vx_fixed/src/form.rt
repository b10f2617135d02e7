ghost use Rattle.std.specs.Prelude.{◌≡◌, IsTrue};
ghost use Rattle.vx_fixed.specs.Kinds.{is_fixed_family};
ghost use Rattle.vx_operands.specs.Forms.{form_of};
ghost use Rattle.vx_rows.specs.declared.op.Op.TheVariants.{Fixed};

use vx_operands::{Form, form_with};
use vx_rows::{Family, First, FixedOp, Vm};

/// What the table of rows says of an operation.
#[inline(always)]
pub(crate) fn form_of(op: FixedOp) -> Form
    ensures is { result ≡ form_of (Fixed op) }
    ensures kind { IsTrue (is_fixed_family result.family) }
{
    match op {
        FixedOp::VsadduVv => form_with(Family::Vsaddu, First::Vector, Vm::Any),
        FixedOp::VsadduVx => form_with(Family::Vsaddu, First::Integer, Vm::Any),
        FixedOp::VsadduVi => form_with(Family::Vsaddu, First::Signed, Vm::Any),
        FixedOp::VsaddVv => form_with(Family::Vsadd, First::Vector, Vm::Any),
        FixedOp::VsaddVx => form_with(Family::Vsadd, First::Integer, Vm::Any),
        FixedOp::VsaddVi => form_with(Family::Vsadd, First::Signed, Vm::Any),
        FixedOp::VssubuVv => form_with(Family::Vssubu, First::Vector, Vm::Any),
        FixedOp::VssubuVx => form_with(Family::Vssubu, First::Integer, Vm::Any),
        FixedOp::VssubVv => form_with(Family::Vssub, First::Vector, Vm::Any),
        FixedOp::VssubVx => form_with(Family::Vssub, First::Integer, Vm::Any),
        FixedOp::VsmulVv => form_with(Family::Vsmul, First::Vector, Vm::Any),
        FixedOp::VsmulVx => form_with(Family::Vsmul, First::Integer, Vm::Any),
        FixedOp::VssrlVv => form_with(Family::Vssrl, First::Vector, Vm::Any),
        FixedOp::VssrlVx => form_with(Family::Vssrl, First::Integer, Vm::Any),
        FixedOp::VssrlVi => form_with(Family::Vssrl, First::Unsigned, Vm::Any),
        FixedOp::VssraVv => form_with(Family::Vssra, First::Vector, Vm::Any),
        FixedOp::VssraVx => form_with(Family::Vssra, First::Integer, Vm::Any),
        FixedOp::VssraVi => form_with(Family::Vssra, First::Unsigned, Vm::Any),
        FixedOp::VnclipuWv => form_with(Family::Vnclipu, First::Vector, Vm::Any),
        FixedOp::VnclipuWx => form_with(Family::Vnclipu, First::Integer, Vm::Any),
        FixedOp::VnclipuWi => form_with(Family::Vnclipu, First::Unsigned, Vm::Any),
        FixedOp::VnclipWv => form_with(Family::Vnclip, First::Vector, Vm::Any),
        FixedOp::VnclipWx => form_with(Family::Vnclip, First::Integer, Vm::Any),
        FixedOp::VnclipWi => form_with(Family::Vnclip, First::Unsigned, Vm::Any),
        FixedOp::VaadduVv => form_with(Family::Vaaddu, First::Vector, Vm::Any),
        FixedOp::VaadduVx => form_with(Family::Vaaddu, First::Integer, Vm::Any),
        FixedOp::VaaddVv => form_with(Family::Vaadd, First::Vector, Vm::Any),
        FixedOp::VaaddVx => form_with(Family::Vaadd, First::Integer, Vm::Any),
        FixedOp::VasubuVv => form_with(Family::Vasubu, First::Vector, Vm::Any),
        FixedOp::VasubuVx => form_with(Family::Vasubu, First::Integer, Vm::Any),
        FixedOp::VasubVv => form_with(Family::Vasub, First::Vector, Vm::Any),
        FixedOp::VasubVx => form_with(Family::Vasub, First::Integer, Vm::Any),
    }
}
