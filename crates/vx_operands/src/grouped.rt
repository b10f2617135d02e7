ghost use Rattle.vx_vstate.specs.Views.{view_of};
ghost use Rattle.std.specs.Prelude.{IsTrue, true, false, ◌≡◌, ℕ, ◌+◌, ◌-◌, ◌*◌, ◌/◌, ◌^◌, ◌<◌, ◌≤◌, List, length};
ghost use Rattle.vx_bits.specs.Width.{is_width};
ghost use Rattle.vx_operands.specs.Forms.{reading};
ghost use Rattle.vx_operands.specs.Lanes.{FillsPart, answer, are_groups, is_each, is_whole, numbers_of, packing_of};
ghost use Rattle.vx_packed.specs.Made.{made};
ghost use Rattle.vx_packed.specs.declared.elements.Made.{Made};
ghost use Rattle.vx_packed.specs.declared.elements.Sources.{Sources};
ghost use Rattle.vx_rows.specs.Families.{operands_of};
ghost use Rattle.vx_rows.specs.declared.family.Family.TheVariants.{VmvV};
ghost use Rattle.vx_vector.specs.Laws.{IsSound, made_word, word_saturates};
ghost use Rattle.vx_vector.specs.Numbers.{Numbers, plain};
ghost use Rattle.vx_vector.specs.Reading.{sew_of, whole_registers};
ghost use Rattle.vx_vector.specs.Rules.{rule_of};
ghost use Rattle.vx_vector.specs.Words.{destination_words};
ghost use Rattle.vx_vstate.specs.Registers.{words_of_register, words_of_all, place_of, element_word};

use crate::form::Form;
use crate::merged::{kept, merged_word};
use crate::sources::{group_word, mask_word, part, second_part, second_word};
use vx_packed::{Made, Packing, Sources, joined_by_elements};
use vx_vector::{Places, Word};
use vx_vstate::{Setting, WordFile, elements_lie_in_their_group};

/// Word `w` of the destination of vmv.v: active elements are those in the place of `vs1`.
#[inline(always)]
pub fn moved_word<S: WordFile>(
    form: Form,
    file: &S,
    at: &Setting,
    regs: &Places,
    sew: u32,
    w: u32,
) -> Word
    requires same { S.vlen file.now ≡ at.now.vlen }
    requires sound { IsSound (reading form (view_of at.now) regs.now (S.words file.now)) }
    requires moves { form.family ≡ VmvV }
    requires sew { sew ≡ sew_of (reading form (view_of at.now) regs.now (S.words file.now)) }
    requires width { IsTrue (is_width sew) }
    requires within { w < length (destination_words (reading form (view_of at.now) regs.now (S.words file.now))) }
    ensures value { result.value ≡ made_word (reading form (view_of at.now) regs.now (S.words file.now)) w }
    ensures sat { result.sat ≡ word_saturates (reading form (view_of at.now) regs.now (S.words file.now)) w }
{
    elements_lie_in_their_group();
    let per_word = 64 / sew;
    let old = group_word(file, at, regs.vd, w);
    if at.vl <= w * per_word {
        return kept(old);
    }
    let mask = mask_word(file, at, regs, per_word, w);
    let made = Made {
        value: second_word(form, file, at, regs, sew, w),
        sats: 0,
    };
    merged_word(form, at, regs, sew, at.vl, w, mask, old, made)
}

/// Word `w` of so many whole registers that are copied, from element vstart on.
#[inline(always)]
pub fn whole_word<S: WordFile>(
    form: Form,
    file: &S,
    at: &Setting,
    regs: &Places,
    sew: u32,
    registers: u32,
    w: u32,
) -> Word
    requires same { S.vlen file.now ≡ at.now.vlen }
    requires sound { IsSound (reading form (view_of at.now) regs.now (S.words file.now)) }
    requires each { IsTrue (is_each (rule_of form.family)) }
    requires whole { IsTrue (is_whole (operands_of form.family) form.vm) }
    requires copies { (n : Numbers) → answer form.family n ≡ plain n.a }
    requires registers { registers ≡ whole_registers (operands_of form.family).destination }
    requires few { registers ≤ 8 }
    requires sew { sew ≡ sew_of (reading form (view_of at.now) regs.now (S.words file.now)) }
    requires width { IsTrue (is_width sew) }
    requires within { w < length (destination_words (reading form (view_of at.now) regs.now (S.words file.now))) }
    ensures value { result.value ≡ made_word (reading form (view_of at.now) regs.now (S.words file.now)) w }
    ensures sat { result.sat ≡ word_saturates (reading form (view_of at.now) regs.now (S.words file.now)) w }
{
    let old = group_word(file, at, regs.vd, w);
    let made = Made {
        value: group_word(file, at, regs.vs2, w),
        sats: 0,
    };
    let count = registers * at.vlen / sew;
    merged_word(form, at, regs, sew, count, w, 0, old, made)
}

/// Word `w` of the destination of a row whose sources have narrower elements, or elements as wide. `f` gets those at the
/// places of the word's elements, and gives the new elements.
#[inline(always)]
pub fn wide_word<S: WordFile, F: FnOnce(Sources) -> Made>(
    form: Form,
    file: &S,
    at: &Setting,
    regs: &Places,
    widths: Packing,
    w: u32,
    f: F,
) -> Word
    requires same { S.vlen file.now ≡ at.now.vlen }
    requires sound { IsSound (reading form (view_of at.now) regs.now (S.words file.now)) }
    requires each { IsTrue (is_each (rule_of form.family)) }
    requires groups { IsTrue (are_groups form.first (operands_of form.family)) }
    requires widths { widths ≡ packing_of (reading form (view_of at.now) regs.now (S.words file.now)) }
    requires width { IsTrue (is_width widths.width) }
    requires b_width { IsTrue (is_width widths.b) }
    requires some_a { 0 < widths.a * widths.count }
    requires some_b { 0 < widths.b * widths.count }
    requires a_part { FillsPart widths.a widths.count }
    requires b_part { FillsPart widths.b widths.count }
    requires few { widths.count ≤ 64 / widths.b }
    requires within { w < length (destination_words (reading form (view_of at.now) regs.now (S.words file.now))) }
    requires callable { (from : Sources) → F.pre f from }
    requires makes { (from : Sources) (new : Made) → F.post f from new → new ≡ made widths from (λ l. answer form.family (numbers_of widths.b at.now.vxrm l)) }
    ensures value { result.value ≡ made_word (reading form (view_of at.now) regs.now (S.words file.now)) w }
    ensures sat { result.sat ≡ word_saturates (reading form (view_of at.now) regs.now (S.words file.now)) w }
{
    elements_lie_in_their_group();
    joined_by_elements();
    let old = group_word(file, at, regs.vd, w);
    if at.vl <= w * widths.count {
        return kept(old);
    }
    let mask = mask_word(file, at, regs, widths.count, w);
    let from = Sources {
        a: part(file, at, regs.vs2, widths.a, widths.count, w),
        b: second_part(form, file, at, regs, widths.b, widths.count, w),
        d: old,
        m: mask,
    };
    merged_word(form, at, regs, widths.width, at.vl, w, mask, old, f(from))
}
