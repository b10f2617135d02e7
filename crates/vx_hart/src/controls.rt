//! Instructions of the vector control registers and of the configuration of vectors.

ghost use Rattle.std.specs.Prelude.{true, ◌≡◌, ℕ, List, ◌&&◌, is_some, Some, None, IfSome};
ghost use Rattle.vx_base.specs.declared.machine.Fault.{Fault};
ghost use Rattle.vx_flat.specs.Step.{configure, control_by, exchange_at};
ghost use Rattle.vx_hart.specs.Outcomes.{flat_of, outcome_of};
ghost use Rattle.vx_image.specs.Pages.{Memory as FlatMemory};
ghost use Rattle.vx_scalar.specs.Operands.{NamesRegisters};

use crate::arch::Arch;
use crate::operands::{change_in, control_number, operand_of, source_in, vtype_of};
use crate::progress::Progress;
use crate::scalars::complete;
use crate::vectors::{exchange, length_asked};
use vx_decode::Instr;

/// Reads and changes a control register where that is legal; where it isn't, nothing changes.
#[inline(never)]
pub fn control(arch: &mut Arch, i: &Instr) -> Option<Progress>
    requires registers { NamesRegisters i.now }
    ensures legal { (memory : FlatMemory) (output : List ℕ) → is_some result ≡ (is_some (exchange_at (flat_of arch.old memory output) i.now)) }
    ensures illegal { result ≡ None → (memory : FlatMemory) (output : List ℕ) → flat_of arch.new memory output ≡ flat_of arch.old memory output }
    ensures performed { IfSome result (λ p. (fault : Fault) (memory : FlatMemory) (output : List ℕ) → outcome_of p fault (flat_of arch.new memory output) ≡ Some (control_by (exchange_at (flat_of arch.old memory output) i.now) (flat_of arch.old memory output) i.now)) }
{
    let operand = operand_of(i, &arch.regs);
    let number = control_number(i);
    let Some(read) = exchange(&mut arch.v, number, change_in(i.op), i.rs1, operand) else {
        return None;
    };
    arch.regs.write(i.rd, read);
    Some(complete(arch))
}

/// Configures vectors.
#[inline(never)]
pub fn configure(arch: &mut Arch, i: &Instr) -> Option<Progress>
    requires registers { NamesRegisters i.now }
    ensures legal { is_some result ≡ true }
    ensures illegal { result ≡ None → (memory : FlatMemory) (output : List ℕ) → flat_of arch.new memory output ≡ flat_of arch.old memory output }
    ensures performed { IfSome result (λ p. (fault : Fault) (memory : FlatMemory) (output : List ℕ) → outcome_of p fault (flat_of arch.new memory output) ≡ Some (configure (flat_of arch.old memory output) i.now)) }
{
    let operand = operand_of(i, &arch.regs);
    let avl = length_asked(source_in(i.op), i.rd, i.rs1, operand);
    let vl = arch.v.set_vl(avl, vtype_of(i, &arch.regs));
    arch.regs.write(i.rd, vl);
    Some(complete(arch))
}
