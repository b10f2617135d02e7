ghost use Rattle.vx_vstate.specs.Views.{view_of};
ghost use Rattle.std.specs.Prelude.{IsTrue, ◌≡◌, ◌*◌, ◌/◌, ◌<◌, ◌≤◌, length};
ghost use Rattle.vx_bits.specs.Width.{is_width};
ghost use Rattle.vx_operands.specs.Forms.{reading};
ghost use Rattle.vx_operands.specs.Lanes.{AreMade, answer, is_each, numbers_of};
ghost use Rattle.vx_operands.specs.Parts.{is_narrowing, narrow_packing};
ghost use Rattle.vx_packed.specs.Made.{made};
ghost use Rattle.vx_packed.specs.declared.elements.Made.{Made};
ghost use Rattle.vx_packed.specs.declared.elements.Sources.{Sources};
ghost use Rattle.vx_rows.specs.Families.{operands_of};
ghost use Rattle.vx_vector.specs.Laws.{IsSound, made_word, word_saturates};
ghost use Rattle.vx_vector.specs.Reading.{sew_of};
ghost use Rattle.vx_vector.specs.Rules.{rule_of};
ghost use Rattle.vx_vector.specs.Words.{destination_words};
ghost use Rattle.vx_vstate.specs.Registers.{word_at};

use crate::form::Form;
use crate::merged::{kept, merged_word};
use crate::parts::{narrow, part_sources};
use crate::sources::{group_word, mask_word};
use vx_packed::{Made, Sources, beside, joined_by_elements};
use vx_vector::{Places, Word};
use vx_vstate::{Setting, WordFile, elements_lie_in_their_group};

/// The new elements of word `w` of the destination, made of two words of `vs2`.
#[inline(always)]
fn halves<S: WordFile, F: Fn(Sources) -> Made>(
    form: Form,
    file: &S,
    at: &Setting,
    regs: &Places,
    sew: u32,
    w: u32,
    old: u64,
    f: F,
) -> Made
    requires same { S.vlen file.now ≡ at.now.vlen }
    requires sound { IsSound (reading form (view_of at.now) regs.now (S.words file.now)) }
    requires narrows { IsTrue (is_narrowing form.first (operands_of form.family)) }
    requires sew { sew ≡ sew_of (reading form (view_of at.now) regs.now (S.words file.now)) }
    requires width { IsTrue (is_width sew) }
    requires few { sew ≤ 32 }
    requires small { w < 1024 }
    requires old { old ≡ word_at at.now.vlen (S.words file.now) regs.now.vd w }
    requires callable { (from : Sources) → F.pre f from }
    requires makes { (from : Sources) (new : Made) → F.post f from new → new ≡ made (narrow_packing sew) from (λ l. answer form.family (numbers_of sew at.now.vxrm l)) }
    ensures { AreMade (reading form (view_of at.now) regs.now (S.words file.now)) w result }
{
    joined_by_elements();
    let widths = narrow(sew);
    let count = 32 / sew;
    let low = f(part_sources(form, file, at, regs, widths, 2 * w, old));
    let high = f(part_sources(form, file, at, regs, widths, 2 * w + 1, old >> 32));
    Made {
        value: beside(sew, count, low.value, count, high.value),
        sats: beside(1, count, low.sats, count, high.sats),
    }
}

/// Word `w` of the destination of a row that narrows: elements of SEW, made of elements of twice SEW. `f` gets the words at
/// the places of as many elements as a word of `vs2` holds, and gives the new elements.
#[inline(always)]
pub fn narrow_word<S: WordFile, F: Fn(Sources) -> Made>(
    form: Form,
    file: &S,
    at: &Setting,
    regs: &Places,
    sew: u32,
    w: u32,
    f: F,
) -> Word
    requires same { S.vlen file.now ≡ at.now.vlen }
    requires sound { IsSound (reading form (view_of at.now) regs.now (S.words file.now)) }
    requires each { IsTrue (is_each (rule_of form.family)) }
    requires narrows { IsTrue (is_narrowing form.first (operands_of form.family)) }
    requires sew { sew ≡ sew_of (reading form (view_of at.now) regs.now (S.words file.now)) }
    requires width { IsTrue (is_width sew) }
    requires small { sew ≤ 32 }
    requires within { w < length (destination_words (reading form (view_of at.now) regs.now (S.words file.now))) }
    requires callable { (from : Sources) → F.pre f from }
    requires makes { (from : Sources) (new : Made) → F.post f from new → new ≡ made (narrow_packing sew) from (λ l. answer form.family (numbers_of sew at.now.vxrm l)) }
    ensures value { result.value ≡ made_word (reading form (view_of at.now) regs.now (S.words file.now)) w }
    ensures sat { result.sat ≡ word_saturates (reading form (view_of at.now) regs.now (S.words file.now)) w }
{
    elements_lie_in_their_group();
    let per_word = 64 / sew;
    let old = group_word(file, at, regs.vd, w);
    if at.vl <= w * per_word {
        return kept(old);
    }
    let mask = mask_word(file, at, regs, per_word, w);
    let made = halves(form, file, at, regs, sew, w, old, f);
    merged_word(form, at, regs, sew, at.vl, w, mask, old, made)
}
