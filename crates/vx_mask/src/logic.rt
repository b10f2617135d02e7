ghost use Rattle.vx_vstate.specs.Views.{view_of};
ghost use Rattle.std.specs.Prelude.{IsTrue, ◌≡◌, ℕ, ◌*◌, ◌<◌, length};
ghost use Rattle.vx_mask.specs.Kinds.{is_logic};
ghost use Rattle.vx_operands.specs.Forms.{reading};
ghost use Rattle.vx_operands.specs.Lanes.{answer};
ghost use Rattle.vx_packed.specs.Joined.{lane};
ghost use Rattle.vx_rows.specs.declared.row.First.TheVariants.{Vector};
ghost use Rattle.vx_vector.specs.Laws.{IsSound, made_word, word_saturates};
ghost use Rattle.vx_vector.specs.Numbers.{Numbers};
ghost use Rattle.vx_vector.specs.Words.{destination_words};

use vx_operands::{Form, active_word, group_word, unchanged};
use vx_packed::{joined_by_elements, merge_bits};
use vx_rows::Family;
use vx_vector::{Places, Word, elements_are_lanes};
use vx_vstate::{Setting, WordFile};

/// What mask logic makes of two words of bits.
#[inline(always)]
pub(crate) fn bits_of(family: Family, a: u64, b: u64) -> u64
    requires { IsTrue (is_logic family) }
    ensures { (n : Numbers) (k : ℕ) → k < 64 → n.a ≡ lane 1 a k → n.b ≡ lane 1 b k → lane 1 result k ≡ (answer family n).value }
{
    match family {
        Family::Vmand => a & b,
        Family::Vmnand => !(a & b),
        Family::Vmandn => a & !b,
        Family::Vmxor => a ^ b,
        Family::Vmor => a | b,
        Family::Vmnor => !(a | b),
        Family::Vmorn => a | !b,
        Family::Vmxnor => !(a ^ b),
        _ => unreachable!(),
    }
}

/// Word `w` of the destination of mask logic.
#[inline(always)]
pub(crate) fn logic_word<S: WordFile>(
    form: Form,
    file: &S,
    at: &Setting,
    regs: &Places,
    w: u32,
) -> Word
    requires same { S.vlen file.now ≡ at.now.vlen }
    requires sound { IsSound (reading form (view_of at.now) regs.now (S.words file.now)) }
    requires logic { IsTrue (is_logic form.family) }
    requires registers { form.first ≡ Vector }
    requires within { w < length (destination_words (reading form (view_of at.now) regs.now (S.words file.now))) }
    ensures value { result.value ≡ made_word (reading form (view_of at.now) regs.now (S.words file.now)) w }
    ensures sat { result.sat ≡ word_saturates (reading form (view_of at.now) regs.now (S.words file.now)) w }
{
    joined_by_elements();
    elements_are_lanes();
    let old = group_word(file, at, regs.vd, w);
    if at.vl <= w * 64 {
        return unchanged(old);
    }
    let active = active_word(form, file, at, regs, 64, w);
    let a = group_word(file, at, regs.vs2, w);
    let b = group_word(file, at, regs.vs1, w);
    Word {
        value: merge_bits(active, bits_of(form.family, a, b), old),
        sat: false,
    }
}
