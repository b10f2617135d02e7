ghost use Rattle.std.specs.Prelude.{◌≡◌, List, ℕ};
ghost use Rattle.vx_operands.specs.Forms.{is_unmasked, reading};
ghost use Rattle.vx_vstate.specs.State.{SettingView};

use vx_rows::{Family, First, Vm};
use vx_vector::Places;

/// What a row of vector arithmetic says of an instruction: what it computes, what stands in the place of `vs1`, and what
/// bit 25 is for.
#[derive(Clone, Copy, PartialEq, Eq, Debug)]
pub struct Form {
    pub family: Family,
    pub first: First,
    pub vm: Vm,
}

/// The form with these parts.
#[inline(always)]
pub fn form_with(family: Family, first: First, vm: Vm) -> Form
    ensures { result ≡ record { family = family; first = first; vm = vm } }
{
    Form { family, first, vm }
}

/// Whether all elements take part, whatever the mask in `v0` is.
#[inline(always)]
pub fn is_unmasked(form: Form, regs: &Places) -> bool
    ensures { (at : SettingView) (words : List ℕ) → result ≡ is_unmasked (reading form at regs.now words) }
{
    match form.vm {
        Vm::Any => regs.vm,
        Vm::Zero => true,
        Vm::One => true,
    }
}
