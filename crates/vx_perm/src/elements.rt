ghost use Rattle.vx_vstate.specs.Views.{view_of};
ghost use Rattle.std.specs.Prelude.{IsTrue, ◌≡◌, ℕ, List, ◌*◌, ◌/◌, ◌<◌};
ghost use Rattle.vx_operands.specs.Forms.{reading};
ghost use Rattle.vx_operands.specs.Lanes.{FillsPart};
ghost use Rattle.vx_rows.specs.Families.{operands_of};
ghost use Rattle.vx_rows.specs.declared.family.Operand.TheVariants.{Single};
ghost use Rattle.vx_vector.specs.Laws.{IsSound};
ghost use Rattle.vx_vector.specs.Lists.{element_or_zero};
ghost use Rattle.vx_vector.specs.Reading.{lists_of, number_by, sew_of};
ghost use Rattle.vx_vstate.specs.Registers.{element, element_word, is_element_width, place_of, words_of_all};
ghost use Rattle.vx_vstate.specs.Vtype.{vlmax};

use vx_bits::low;
use vx_operands::{Form, part};
use vx_rows::First;
use vx_vector::Places;
use vx_vstate::{Setting, WordFile};

/// Element `i` of a width, counted from the first of a register on.
#[inline(always)]
pub(crate) fn element_at<S: WordFile>(
    file: &S,
    at: &Setting,
    register: u8,
    width: u32,
    i: u32,
) -> u64
    requires same { S.vlen file.now ≡ at.now.vlen }
    requires width { IsTrue (is_element_width width) }
    requires within { place_of at.now.vlen register (element_word width i) < words_of_all at.now.vlen }
    ensures { result ≡ element at.now.vlen (S.words file.now) register width i }
{
    low(width, part(file, at, register, width, 1, i))
}

/// Element `i` of vs2, or 0 where there is none: there are VLMAX.
#[inline(always)]
pub(crate) fn source<S: WordFile>(
    form: Form,
    file: &S,
    at: &Setting,
    regs: &Places,
    sew: u32,
    most: u32,
    i: u64,
) -> u64
    requires same { S.vlen file.now ≡ at.now.vlen }
    requires sound { IsSound (reading form (view_of at.now) regs.now (S.words file.now)) }
    requires vs2 { (operands_of form.family).vs2 ≡ Single }
    requires sew { sew ≡ sew_of (reading form (view_of at.now) regs.now (S.words file.now)) }
    requires width { IsTrue (is_element_width sew) }
    requires most { most ≡ vlmax at.now.vlen at.now.vtype }
    ensures { result ≡ element_or_zero (lists_of (reading form (view_of at.now) regs.now (S.words file.now))) i }
{
    if i < u64::from(most) {
        element_at(file, at, regs.vs2, sew, i as u32)
    } else {
        0
    }
}

/// The number that stands in the place of vs1.
#[inline(always)]
pub(crate) fn number(form: Form, at: &Setting, regs: &Places) -> u64
    ensures { (words : List ℕ) → result ≡ number_by (reading form (view_of at.now) regs.now words) form.first }
{
    match form.first {
        First::Vector => 0,
        First::Integer => at.scalar,
        First::Signed => regs.imm.cast_unsigned(),
        First::Unsigned => regs.imm.cast_unsigned(),
        First::Fixed => 0,
    }
}
