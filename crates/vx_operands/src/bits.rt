ghost use Rattle.vx_vstate.specs.Views.{view_of};
ghost use Rattle.std.specs.Prelude.{IsTrue, false, ◌≡◌, ℕ, ◌+◌, ◌*◌, ◌/◌, ◌<◌, ◌≤◌, List, length};
ghost use Rattle.vx_bits.specs.Width.{is_width};
ghost use Rattle.vx_operands.specs.Forms.{is_unmasked, reading};
ghost use Rattle.vx_operands.specs.Lanes.{AreMaskBits, answer, is_each, numbers_of};
ghost use Rattle.vx_operands.specs.Parts.{AreBitsMade, bit_packing, is_comparing};
ghost use Rattle.vx_packed.specs.Made.{made};
ghost use Rattle.vx_packed.specs.declared.elements.Made.{Made};
ghost use Rattle.vx_packed.specs.declared.elements.Sources.{Sources};
ghost use Rattle.vx_rows.specs.Families.{operands_of};
ghost use Rattle.vx_vector.specs.Laws.{IsSound, made_word, word_saturates};
ghost use Rattle.vx_vector.specs.Numbers.{Numbers};
ghost use Rattle.vx_vector.specs.Reading.{count_of, destination_width, sew_of};
ghost use Rattle.vx_vector.specs.Rules.{rule_of};
ghost use Rattle.vx_vector.specs.Words.{destination_words};
ghost use Rattle.vx_vstate.specs.Registers.{word_at};

use crate::form::Form;
use crate::merged::let_in;
use crate::parts::{bits, part_sources};
use crate::sources::{group_word, mask_word};
use vx_packed::{Made, Sources, active_lanes, beside, joined_by_elements, merge_bits};
use vx_vector::{Places, Word};
use vx_vstate::{Setting, WordFile, elements_lie_in_their_group};

/// Word `w` of a destination that is a mask: new bits where elements are active, and old ones elsewhere. None saturates.
#[inline(always)]
pub fn merged_bits(
    form: Form,
    at: &Setting,
    regs: &Places,
    w: u32,
    mask: u64,
    old: u64,
    new: u64,
) -> Word
    requires small { w < 1024 }
    ensures value { (words : List ℕ) → IsTrue (is_each (rule_of form.family)) → destination_width (reading form (view_of at.now) regs.now words) ≡ 1 → count_of (reading form (view_of at.now) regs.now words) ≡ at.now.vl → (is_unmasked (reading form (view_of at.now) regs.now words) ≡ false → AreMaskBits (reading form (view_of at.now) regs.now words) w mask) → old ≡ word_at at.now.vlen words regs.now.vd w → AreBitsMade (reading form (view_of at.now) regs.now words) w 64 new → result.value ≡ made_word (reading form (view_of at.now) regs.now words) w }
    ensures sat { (words : List ℕ) → IsTrue (is_each (rule_of form.family)) → ((n : Numbers) → (answer form.family n).sat ≡ false) → result.sat ≡ word_saturates (reading form (view_of at.now) regs.now words) w }
{
    joined_by_elements();
    let lanes = active_lanes(64, w * 64, at.vstart, at.vl, let_in(form, regs, mask));
    Word {
        value: merge_bits(lanes, new, old),
        sat: false,
    }
}

/// How many words hold the elements from element `first` on that are below `vl`, `count` a word, 64 elements at the most.
#[inline(always)]
fn parts(vl: u32, first: u32, count: u32) -> u32
    requires some { 0 < count }
    requires few { count ≤ 64 }
    ensures all { (k : ℕ) → k < 64 → first + k < vl → k < result * count }
    ensures least { result * count < 64 + count }
{
    (vl.saturating_sub(first).min(64) + (count - 1)) / count
}

/// The new bits of word `w` of a destination that is a mask, made of as many words of `vs2` as hold its elements.
#[inline(always)]
fn new_bits<S: WordFile, F: Fn(Sources) -> Made>(
    form: Form,
    file: &S,
    at: &Setting,
    regs: &Places,
    sew: u32,
    w: u32,
    old: u64,
    f: F,
) -> u64
    requires same { S.vlen file.now ≡ at.now.vlen }
    requires sound { IsSound (reading form (view_of at.now) regs.now (S.words file.now)) }
    requires compares { IsTrue (is_comparing form.first (operands_of form.family)) }
    requires sew { sew ≡ sew_of (reading form (view_of at.now) regs.now (S.words file.now)) }
    requires width { IsTrue (is_width sew) }
    requires small { w < 32 }
    requires old { old ≡ word_at at.now.vlen (S.words file.now) regs.now.vd w }
    requires callable { (from : Sources) → F.pre f from }
    requires makes { (from : Sources) (new : Made) → F.post f from new → new ≡ made (bit_packing sew) from (λ l. answer form.family (numbers_of sew at.now.vxrm l)) }
    ensures { AreBitsMade (reading form (view_of at.now) regs.now (S.words file.now)) w 64 result }
{
    joined_by_elements();
    let widths = bits(sew);
    let count = 64 / sew;
    let mut new = 0;
    for j in 0..parts(at.vl, w * 64, count) {
        let from = part_sources(
            form,
            file,
            at,
            regs,
            widths,
            w * sew + j,
            old >> (j * count),
        );
        new = beside(1, j * count, new, count, f(from).value);
    }
    new
}

/// `new_bits`, by a width that is known.
#[inline(always)]
fn all_bits<S: WordFile, F: Fn(Sources) -> Made>(
    form: Form,
    file: &S,
    at: &Setting,
    regs: &Places,
    sew: u32,
    w: u32,
    old: u64,
    f: F,
) -> u64
    requires same { S.vlen file.now ≡ at.now.vlen }
    requires sound { IsSound (reading form (view_of at.now) regs.now (S.words file.now)) }
    requires compares { IsTrue (is_comparing form.first (operands_of form.family)) }
    requires sew { sew ≡ sew_of (reading form (view_of at.now) regs.now (S.words file.now)) }
    requires width { IsTrue (is_width sew) }
    requires small { w < 32 }
    requires old { old ≡ word_at at.now.vlen (S.words file.now) regs.now.vd w }
    requires callable { (from : Sources) → F.pre f from }
    requires makes { (from : Sources) (new : Made) → F.post f from new → new ≡ made (bit_packing sew) from (λ l. answer form.family (numbers_of sew at.now.vxrm l)) }
    ensures { AreBitsMade (reading form (view_of at.now) regs.now (S.words file.now)) w 64 result }
{
    match sew {
        8 => new_bits(form, file, at, regs, 8, w, old, f),
        16 => new_bits(form, file, at, regs, 16, w, old, f),
        32 => new_bits(form, file, at, regs, 32, w, old, f),
        _ => new_bits(form, file, at, regs, sew, w, old, f),
    }
}

/// Word `w` of the destination of a row whose results are a mask's bits, made of elements of SEW. `f` gets the words at the
/// places of as many elements as a word of `vs2` holds, and gives their bits. None saturates.
#[inline(always)]
pub fn compared_word<S: WordFile, F: Fn(Sources) -> Made>(
    form: Form,
    file: &S,
    at: &Setting,
    regs: &Places,
    sew: u32,
    w: u32,
    f: F,
) -> Word
    requires same { S.vlen file.now ≡ at.now.vlen }
    requires sound { IsSound (reading form (view_of at.now) regs.now (S.words file.now)) }
    requires each { IsTrue (is_each (rule_of form.family)) }
    requires compares { IsTrue (is_comparing form.first (operands_of form.family)) }
    requires unsaturated { (n : Numbers) → (answer form.family n).sat ≡ false }
    requires sew { sew ≡ sew_of (reading form (view_of at.now) regs.now (S.words file.now)) }
    requires width { IsTrue (is_width sew) }
    requires within { w < length (destination_words (reading form (view_of at.now) regs.now (S.words file.now))) }
    requires callable { (from : Sources) → F.pre f from }
    requires makes { (from : Sources) (new : Made) → F.post f from new → new ≡ made (bit_packing sew) from (λ l. answer form.family (numbers_of sew at.now.vxrm l)) }
    ensures value { result.value ≡ made_word (reading form (view_of at.now) regs.now (S.words file.now)) w }
    ensures sat { result.sat ≡ word_saturates (reading form (view_of at.now) regs.now (S.words file.now)) w }
{
    elements_lie_in_their_group();
    let old = group_word(file, at, regs.vd, w);
    let mask = mask_word(file, at, regs, 64, w);
    let new = all_bits(form, file, at, regs, sew, w, old, f);
    merged_bits(form, at, regs, w, mask, old, new)
}
