//! Vector arithmetic: whether it is legal, and what it does.

ghost use Rattle.std.specs.Prelude.{◌≡◌, ℕ, Bool, List, ◌&&◌, not, is_some, slice_index, false, Some, None, IfSome};
ghost use Rattle.vx_base.specs.declared.machine.Fault.{Fault};
ghost use Rattle.vx_decode.specs.Encoded.{IsValid};
ghost use Rattle.vx_decode.specs.Legal.{is_illegal};
ghost use Rattle.vx_flat.specs.Step.{calculate_by};
ghost use Rattle.vx_flat.specs.Vectors.{reading_at, setting_at};
ghost use Rattle.vx_hart.specs.Outcomes.{flat_of, outcome_of};
ghost use Rattle.vx_image.specs.Pages.{Memory as FlatMemory};
ghost use Rattle.vx_rows.specs.Table.{class_of};
ghost use Rattle.vx_rows.specs.declared.row.Class.TheVariants as class;
ghost use Rattle.vx_scalar.specs.Operands.{NamesRegisters};
ghost use Rattle.vx_vstate.specs.State.{setting_of};
ghost use Rattle.vx_vstate.specs.Views.{view_of};

use crate::arch::Arch;
use crate::progress::Progress;
use crate::scalars::complete;
use crate::vectors::put_told;
use vx_decode::{Instr, legal};
use vx_exec::{Calculator, instructions_read};
use vx_rows::Family;
use vx_vstate::Setting;

/// The setting of vector arithmetic, where it is legal.
pub fn calculation(arch: &Arch, i: &Instr) -> Option<Setting>
    requires registers { NamesRegisters i.now }
    ensures legal { (memory : FlatMemory) (output : List ℕ) → is_some result ≡ (not (is_illegal i.now (setting_at (flat_of arch.now memory output) i.now))) }
    ensures setting { IfSome result (λ at. view_of at ≡ setting_of arch.now.v (slice_index arch.now.regs.x i.now.rs1)) }
    ensures accepted { IfSome result (λ at. is_illegal i.now (view_of at) ≡ false) }
{
    let at = arch.v.setting(arch.regs.read(i.rs1));
    if !legal(i, &at) {
        return None;
    }
    Some(at)
}

/// Does vector arithmetic, which is legal with this setting.
pub fn calculate(
    calculator: &mut Calculator,
    arch: &mut Arch,
    i: &Instr,
    family: Family,
    at: &Setting,
) -> Progress
    requires valid { IsValid i.now }
    requires registers { NamesRegisters i.now }
    requires class { class_of i.now.op ≡ class.VectorArithmetic family }
    requires setting { view_of at.now ≡ setting_of arch.old.v (slice_index arch.old.regs.x i.now.rs1) }
    requires accepted { is_illegal i.now (view_of at.now) ≡ false }
    ensures { (fault : Fault) (memory : FlatMemory) (output : List ℕ) → outcome_of result fault (flat_of arch.new memory output) ≡ Some (calculate_by (reading_at (flat_of arch.old memory output) i.now) (flat_of arch.old memory output) i.now) }
{
    instructions_read();
    let told = calculator.execute(i, family, at, &mut arch.v);
    put_told(&mut arch.regs, i.rd, told);
    complete(arch)
}

/// Does vector arithmetic where it is legal; where it isn't, nothing changes.
#[inline(never)]
pub fn calculate_legal(
    calculator: &mut Calculator,
    arch: &mut Arch,
    i: &Instr,
    family: Family,
) -> Option<Progress>
    requires valid { IsValid i.now }
    requires registers { NamesRegisters i.now }
    requires class { class_of i.now.op ≡ class.VectorArithmetic family }
    ensures legal { (memory : FlatMemory) (output : List ℕ) → is_some result ≡ (not (is_illegal i.now (setting_at (flat_of arch.old memory output) i.now))) }
    ensures illegal { result ≡ None → (memory : FlatMemory) (output : List ℕ) → flat_of arch.new memory output ≡ flat_of arch.old memory output }
    ensures performed { IfSome result (λ p. (fault : Fault) (memory : FlatMemory) (output : List ℕ) → outcome_of p fault (flat_of arch.new memory output) ≡ Some (calculate_by (reading_at (flat_of arch.old memory output) i.now) (flat_of arch.old memory output) i.now)) }
{
    let Some(at) = calculation(arch, i) else {
        return None;
    };
    Some(calculate(calculator, arch, i, family, &at))
}
