ghost use Rattle.vx_vstate.specs.Views.{view_of};
ghost use Rattle.std.specs.Prelude.{IsTrue, true, false, ◌≡◌, ℕ, ◌+◌, ◌-◌, ◌*◌, ◌/◌, ◌^◌, ◌<◌, ◌≤◌, List, length};
ghost use Rattle.vx_bits.specs.Width.{is_width};
ghost use Rattle.vx_operands.specs.Forms.{reading};
ghost use Rattle.vx_operands.specs.Lanes.{AreMade, AreMaskBits, answer, is_each, is_even, numbers_of};
ghost use Rattle.vx_packed.specs.Made.{even_packing, made};
ghost use Rattle.vx_packed.specs.declared.elements.Made.{Made};
ghost use Rattle.vx_packed.specs.declared.elements.Sources.{Sources};
ghost use Rattle.vx_rows.specs.Families.{operands_of};
ghost use Rattle.vx_vector.specs.Laws.{IsSound, made_word, per_word, word_saturates};
ghost use Rattle.vx_vector.specs.Reading.{Reading, sew_of, destination_width, count_of};
ghost use Rattle.vx_operands.specs.Forms.{is_unmasked};
ghost use Rattle.vx_vector.specs.Rules.{rule_of};
ghost use Rattle.vx_vector.specs.Words.{destination_words};
ghost use Rattle.vx_vstate.specs.Registers.{word_at};
ghost use Rattle.vx_vstate.specs.State.{SettingView};

use crate::form::{Form, is_unmasked};
use crate::sources::{group_word, mask_word, second_word};
use vx_packed::{Made, Sources, active_lanes, any_lane, joined_by_elements, merge};
use vx_vector::{Places, Word};
use vx_vstate::{Setting, WordFile, elements_lie_in_their_group};

/// A word whose elements are all behind the last: it stays.
#[inline(always)]
pub fn kept(old: u64) -> Word
    ensures value { (r : Reading) (w : ℕ) → IsTrue (is_each (rule_of r.family)) → IsTrue (is_width (destination_width r)) → count_of r ≤ w * per_word r → old ≡ word_at r.at.vlen r.words r.places.vd w → result.value ≡ made_word r w }
    ensures sat { (r : Reading) (w : ℕ) → IsTrue (is_each (rule_of r.family)) → count_of r ≤ w * per_word r → result.sat ≡ word_saturates r w }
{
    joined_by_elements();
    Word {
        value: old,
        sat: false,
    }
}

/// A bit for each element, whether the mask lets it take part.
#[inline(always)]
pub(crate) fn let_in(form: Form, regs: &Places, mask: u64) -> u64
    ensures all { (at : SettingView) (words : List ℕ) → is_unmasked (reading form at regs.now words) ≡ true → result ≡ 2 ^ 64 - 1 }
    ensures some { (at : SettingView) (words : List ℕ) → is_unmasked (reading form at regs.now words) ≡ false → result ≡ mask }
{
    if is_unmasked(form, regs) {
        u64::MAX
    } else {
        mask
    }
}

/// Word `w` of the destination, of elements of a width: new elements where they are active, and old ones elsewhere.
#[inline(always)]
pub fn merged_word(
    form: Form,
    at: &Setting,
    regs: &Places,
    width: u32,
    count: u32,
    w: u32,
    mask: u64,
    old: u64,
    made: Made,
) -> Word
    requires width { IsTrue (is_width width) }
    requires begins { w * (64 / width) < count }
    ensures value { (words : List ℕ) → IsTrue (is_each (rule_of form.family)) → width ≡ destination_width (reading form (view_of at.now) regs.now words) → count ≡ count_of (reading form (view_of at.now) regs.now words) → (is_unmasked (reading form (view_of at.now) regs.now words) ≡ false → AreMaskBits (reading form (view_of at.now) regs.now words) w mask) → old ≡ word_at at.now.vlen words regs.now.vd w → AreMade (reading form (view_of at.now) regs.now words) w made → result.value ≡ made_word (reading form (view_of at.now) regs.now words) w }
    ensures sat { (words : List ℕ) → IsTrue (is_each (rule_of form.family)) → width ≡ destination_width (reading form (view_of at.now) regs.now words) → count ≡ count_of (reading form (view_of at.now) regs.now words) → (is_unmasked (reading form (view_of at.now) regs.now words) ≡ false → AreMaskBits (reading form (view_of at.now) regs.now words) w mask) → AreMade (reading form (view_of at.now) regs.now words) w made → result.sat ≡ word_saturates (reading form (view_of at.now) regs.now words) w }
{
    joined_by_elements();
    let per_word = 64 / width;
    let lanes = active_lanes(
        per_word,
        w * per_word,
        at.vstart,
        count,
        let_in(form, regs, mask),
    );
    Word {
        value: merge(width, lanes, made.value, old),
        sat: any_lane(per_word, lanes, made.sats),
    }
}

/// Word `w` of the destination of a row whose operands all have elements of SEW. `f` gets the words at their places, and
/// gives the new elements, in lanes of SEW.
#[inline(always)]
pub fn even_word<S: WordFile, F: FnOnce(Sources) -> Made>(
    form: Form,
    file: &S,
    at: &Setting,
    regs: &Places,
    sew: u32,
    w: u32,
    f: F,
) -> Word
    requires same { S.vlen file.now ≡ at.now.vlen }
    requires sound { IsSound (reading form (view_of at.now) regs.now (S.words file.now)) }
    requires each { IsTrue (is_each (rule_of form.family)) }
    requires even { IsTrue (is_even form.first (operands_of form.family)) }
    requires sew { sew ≡ sew_of (reading form (view_of at.now) regs.now (S.words file.now)) }
    requires width { IsTrue (is_width sew) }
    requires within { w < length (destination_words (reading form (view_of at.now) regs.now (S.words file.now))) }
    requires callable { (from : Sources) → F.pre f from }
    requires makes { (from : Sources) (new : Made) → F.post f from new → new ≡ made (even_packing sew) from (λ l. answer form.family (numbers_of sew at.now.vxrm l)) }
    ensures value { result.value ≡ made_word (reading form (view_of at.now) regs.now (S.words file.now)) w }
    ensures sat { result.sat ≡ word_saturates (reading form (view_of at.now) regs.now (S.words file.now)) w }
{
    elements_lie_in_their_group();
    joined_by_elements();
    let per_word = 64 / sew;
    let old = group_word(file, at, regs.vd, w);
    if at.vl <= w * per_word {
        return kept(old);
    }
    let mask = mask_word(file, at, regs, per_word, w);
    let from = Sources {
        a: group_word(file, at, regs.vs2, w),
        b: second_word(form, file, at, regs, sew, w),
        d: old,
        m: mask,
    };
    merged_word(form, at, regs, sew, at.vl, w, mask, old, f(from))
}
