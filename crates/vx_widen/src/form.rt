ghost use Rattle.std.specs.Prelude.{◌≡◌, IsTrue};
ghost use Rattle.vx_widen.specs.Kinds.{is_widen_family};
ghost use Rattle.vx_operands.specs.Forms.{form_of};
ghost use Rattle.vx_rows.specs.declared.op.Op.TheVariants.{Widen};

use vx_operands::{Form, form_with};
use vx_rows::{Family, First, Vm, WidenOp};

/// What the table of rows says of an operation.
#[inline(always)]
pub(crate) fn form_of(op: WidenOp) -> Form
    ensures is { result ≡ form_of (Widen op) }
    ensures kind { IsTrue (is_widen_family result.family) }
{
    match op {
        WidenOp::VadcVvm => form_with(Family::Vadc, First::Vector, Vm::Zero),
        WidenOp::VadcVxm => form_with(Family::Vadc, First::Integer, Vm::Zero),
        WidenOp::VadcVim => form_with(Family::Vadc, First::Signed, Vm::Zero),
        WidenOp::VmadcVvm => form_with(Family::Vmadc, First::Vector, Vm::Zero),
        WidenOp::VmadcVxm => form_with(Family::Vmadc, First::Integer, Vm::Zero),
        WidenOp::VmadcVim => form_with(Family::Vmadc, First::Signed, Vm::Zero),
        WidenOp::VmadcVv => form_with(Family::Vmadc, First::Vector, Vm::One),
        WidenOp::VmadcVx => form_with(Family::Vmadc, First::Integer, Vm::One),
        WidenOp::VmadcVi => form_with(Family::Vmadc, First::Signed, Vm::One),
        WidenOp::VsbcVvm => form_with(Family::Vsbc, First::Vector, Vm::Zero),
        WidenOp::VsbcVxm => form_with(Family::Vsbc, First::Integer, Vm::Zero),
        WidenOp::VmsbcVvm => form_with(Family::Vmsbc, First::Vector, Vm::Zero),
        WidenOp::VmsbcVxm => form_with(Family::Vmsbc, First::Integer, Vm::Zero),
        WidenOp::VmsbcVv => form_with(Family::Vmsbc, First::Vector, Vm::One),
        WidenOp::VmsbcVx => form_with(Family::Vmsbc, First::Integer, Vm::One),
        WidenOp::VmseqVv => form_with(Family::Vmseq, First::Vector, Vm::Any),
        WidenOp::VmseqVx => form_with(Family::Vmseq, First::Integer, Vm::Any),
        WidenOp::VmseqVi => form_with(Family::Vmseq, First::Signed, Vm::Any),
        WidenOp::VmsneVv => form_with(Family::Vmsne, First::Vector, Vm::Any),
        WidenOp::VmsneVx => form_with(Family::Vmsne, First::Integer, Vm::Any),
        WidenOp::VmsneVi => form_with(Family::Vmsne, First::Signed, Vm::Any),
        WidenOp::VmsltuVv => form_with(Family::Vmsltu, First::Vector, Vm::Any),
        WidenOp::VmsltuVx => form_with(Family::Vmsltu, First::Integer, Vm::Any),
        WidenOp::VmsltVv => form_with(Family::Vmslt, First::Vector, Vm::Any),
        WidenOp::VmsltVx => form_with(Family::Vmslt, First::Integer, Vm::Any),
        WidenOp::VmsleuVv => form_with(Family::Vmsleu, First::Vector, Vm::Any),
        WidenOp::VmsleuVx => form_with(Family::Vmsleu, First::Integer, Vm::Any),
        WidenOp::VmsleuVi => form_with(Family::Vmsleu, First::Signed, Vm::Any),
        WidenOp::VmsleVv => form_with(Family::Vmsle, First::Vector, Vm::Any),
        WidenOp::VmsleVx => form_with(Family::Vmsle, First::Integer, Vm::Any),
        WidenOp::VmsleVi => form_with(Family::Vmsle, First::Signed, Vm::Any),
        WidenOp::VmsgtuVx => form_with(Family::Vmsgtu, First::Integer, Vm::Any),
        WidenOp::VmsgtuVi => form_with(Family::Vmsgtu, First::Signed, Vm::Any),
        WidenOp::VmsgtVx => form_with(Family::Vmsgt, First::Integer, Vm::Any),
        WidenOp::VmsgtVi => form_with(Family::Vmsgt, First::Signed, Vm::Any),
        WidenOp::VnsrlWv => form_with(Family::Vnsrl, First::Vector, Vm::Any),
        WidenOp::VnsrlWx => form_with(Family::Vnsrl, First::Integer, Vm::Any),
        WidenOp::VnsrlWi => form_with(Family::Vnsrl, First::Unsigned, Vm::Any),
        WidenOp::VnsraWv => form_with(Family::Vnsra, First::Vector, Vm::Any),
        WidenOp::VnsraWx => form_with(Family::Vnsra, First::Integer, Vm::Any),
        WidenOp::VnsraWi => form_with(Family::Vnsra, First::Unsigned, Vm::Any),
        WidenOp::VwadduVv => form_with(Family::Vwaddu, First::Vector, Vm::Any),
        WidenOp::VwadduVx => form_with(Family::Vwaddu, First::Integer, Vm::Any),
        WidenOp::VwaddVv => form_with(Family::Vwadd, First::Vector, Vm::Any),
        WidenOp::VwaddVx => form_with(Family::Vwadd, First::Integer, Vm::Any),
        WidenOp::VwsubuVv => form_with(Family::Vwsubu, First::Vector, Vm::Any),
        WidenOp::VwsubuVx => form_with(Family::Vwsubu, First::Integer, Vm::Any),
        WidenOp::VwsubVv => form_with(Family::Vwsub, First::Vector, Vm::Any),
        WidenOp::VwsubVx => form_with(Family::Vwsub, First::Integer, Vm::Any),
        WidenOp::VwadduWv => form_with(Family::VwadduW, First::Vector, Vm::Any),
        WidenOp::VwadduWx => form_with(Family::VwadduW, First::Integer, Vm::Any),
        WidenOp::VwaddWv => form_with(Family::VwaddW, First::Vector, Vm::Any),
        WidenOp::VwaddWx => form_with(Family::VwaddW, First::Integer, Vm::Any),
        WidenOp::VwsubuWv => form_with(Family::VwsubuW, First::Vector, Vm::Any),
        WidenOp::VwsubuWx => form_with(Family::VwsubuW, First::Integer, Vm::Any),
        WidenOp::VwsubWv => form_with(Family::VwsubW, First::Vector, Vm::Any),
        WidenOp::VwsubWx => form_with(Family::VwsubW, First::Integer, Vm::Any),
        WidenOp::VwmuluVv => form_with(Family::Vwmulu, First::Vector, Vm::Any),
        WidenOp::VwmuluVx => form_with(Family::Vwmulu, First::Integer, Vm::Any),
        WidenOp::VwmulsuVv => form_with(Family::Vwmulsu, First::Vector, Vm::Any),
        WidenOp::VwmulsuVx => form_with(Family::Vwmulsu, First::Integer, Vm::Any),
        WidenOp::VwmulVv => form_with(Family::Vwmul, First::Vector, Vm::Any),
        WidenOp::VwmulVx => form_with(Family::Vwmul, First::Integer, Vm::Any),
        WidenOp::VwmaccuVv => form_with(Family::Vwmaccu, First::Vector, Vm::Any),
        WidenOp::VwmaccuVx => form_with(Family::Vwmaccu, First::Integer, Vm::Any),
        WidenOp::VwmaccVv => form_with(Family::Vwmacc, First::Vector, Vm::Any),
        WidenOp::VwmaccVx => form_with(Family::Vwmacc, First::Integer, Vm::Any),
        WidenOp::VwmaccusVx => form_with(Family::Vwmaccus, First::Integer, Vm::Any),
        WidenOp::VwmaccsuVv => form_with(Family::Vwmaccsu, First::Vector, Vm::Any),
        WidenOp::VwmaccsuVx => form_with(Family::Vwmaccsu, First::Integer, Vm::Any),
    }
}
