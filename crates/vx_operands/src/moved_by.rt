ghost use Rattle.vx_vstate.specs.Views.{view_of};
ghost use Rattle.std.specs.Prelude.{IsTrue, true, false, ◌≡◌, ℕ, ◌+◌, ◌*◌, ◌/◌, ◌<◌, ◌≤◌, ◌==◌, if◌then◌else◌, Option, None, unwrap_or, length};
ghost use Rattle.vx_bits.specs.Width.{is_width};
ghost use Rattle.vx_operands.specs.Forms.{reading};
ghost use Rattle.vx_operands.specs.Rising.{is_by_index, moved_by};
ghost use Rattle.vx_packed.specs.Joined.{joined, lane};
ghost use Rattle.vx_rows.specs.Families.{operands_of};
ghost use Rattle.vx_rows.specs.declared.family.Operand.TheVariants.{Single};
ghost use Rattle.vx_vector.specs.Arithmetic.{becomes};
ghost use Rattle.vx_vector.specs.Laws.{IsSound, made_word, per_word, word_saturates};
ghost use Rattle.vx_vector.specs.Reading.{Reading, destination_width, lists_of, sew_of};
ghost use Rattle.vx_vector.specs.Rules.{rule_of};
ghost use Rattle.vx_vector.specs.Words.{destination_words};
ghost use Rattle.vx_vstate.specs.Registers.{is_element_width, word_at};

use crate::active::{active_word, is_bit_set, lane_at};
use crate::form::Form;
use crate::sources::group_word;
use vx_bits::low;
use vx_packed::{beside, joined_by_elements};
use vx_vector::{Places, Word, elements_are_lanes};
use vx_vstate::{Setting, WordFile};

/// A word none of whose elements becomes anything: it stays.
#[inline(always)]
pub fn unchanged(old: u64) -> Word
    ensures value { (r : Reading) (w : ℕ) → IsTrue (is_element_width (destination_width r)) → ((k : ℕ) → k < per_word r → becomes r (w * per_word r + k) ≡ None) → old ≡ word_at r.at.vlen r.words r.places.vd w → result.value ≡ made_word r w }
    ensures sat { (r : Reading) (w : ℕ) → ((k : ℕ) → k < per_word r → becomes r (w * per_word r + k) ≡ None) → result.sat ≡ word_saturates r w }
{
    joined_by_elements();
    elements_are_lanes();
    Word {
        value: old,
        sat: false,
    }
}

/// Element `k` of a word afterwards: what `f` answers of its index where it is active, and where it answers nothing or
/// isn't asked, the old one.
#[inline(always)]
fn lane_after<F: Fn(u32) -> Option<u64>>(
    width: u32,
    first: u32,
    active: u64,
    old: u64,
    k: u32,
    f: &F,
) -> u64
    requires positive { 0 < width }
    requires fits { k * width + width ≤ 64 }
    requires few { k < 64 }
    requires index { first + k < 4294967296 }
    requires callable { (lane 1 active k == 1) ≡ true → F.pre f.now (first + k) }
    ensures { (g : Option ℕ) → ((lane 1 active k == 1) ≡ true → (o : Option ℕ) → F.post f.now (first + k) o → o ≡ g) → result ≡ (if lane 1 active k == 1 then unwrap_or g (lane width old k) else lane width old k) }
{
    let before = lane_at(width, old, k);
    if is_bit_set(active, k) {
        f(first + k).unwrap_or(before)
    } else {
        before
    }
}

/// The word with so many elements, each of which is what `f` answers of its index where it is active, and where it answers
/// nothing or isn't asked, the old one.
#[inline(always)]
fn lanes_after<F: Fn(u32) -> Option<u64>>(
    width: u32,
    count: u32,
    first: u32,
    active: u64,
    old: u64,
    f: F,
) -> u64
    requires positive { 0 < width }
    requires fits { count * width ≤ 64 }
    requires index { first + count < 4294967296 }
    requires callable { (k : ℕ) → k < count → (lane 1 active k == 1) ≡ true → F.pre f (first + k) }
    ensures { (g : ℕ → Option ℕ) → ((k : ℕ) → k < count → (lane 1 active k == 1) ≡ true → (o : Option ℕ) → F.post f (first + k) o → o ≡ g k) → result ≡ joined width count (λ k. if lane 1 active k == 1 then unwrap_or (g k) (lane width old k) else lane width old k) }
{
    joined_by_elements();
    let mut word = 0;
    for k in 0..count {
        let next = lane_after(width, first, active, old, k, &f);
        word = beside(width, k, word, 1, low(width, next));
    }
    word
}

/// `lanes_after` of as many elements as fill a word.
#[inline(always)]
fn word_after<F: Fn(u32) -> Option<u64>>(width: u32, first: u32, active: u64, old: u64, f: F) -> u64
    requires width { IsTrue (is_width width) }
    requires index { first + 64 < 4294967296 }
    requires callable { (k : ℕ) → k < 64 / width → (lane 1 active k == 1) ≡ true → F.pre f (first + k) }
    ensures { (g : ℕ → Option ℕ) → ((k : ℕ) → k < 64 / width → (lane 1 active k == 1) ≡ true → (o : Option ℕ) → F.post f (first + k) o → o ≡ g k) → result ≡ joined width (64 / width) (λ k. if lane 1 active k == 1 then unwrap_or (g k) (lane width old k) else lane width old k) }
{
    match width {
        8 => lanes_after(8, 8, first, active, old, f),
        16 => lanes_after(16, 4, first, active, old, f),
        32 => lanes_after(32, 2, first, active, old, f),
        _ => lanes_after(64, 1, first, active, old, f),
    }
}

/// Word `w` of the destination of a row whose active elements become something of their index and of elements at others: what
/// `f` answers of the index, or the old element where it answers nothing.
#[inline(always)]
pub fn moved_by_index<S: WordFile, F: Fn(u32) -> Option<u64>>(
    form: Form,
    file: &S,
    at: &Setting,
    regs: &Places,
    sew: u32,
    w: u32,
    f: F,
) -> Word
    requires same { S.vlen file.now ≡ at.now.vlen }
    requires sound { IsSound (reading form (view_of at.now) regs.now (S.words file.now)) }
    requires by_index { IsTrue (is_by_index (rule_of form.family)) }
    requires destination { (operands_of form.family).destination ≡ Single }
    requires sew { sew ≡ sew_of (reading form (view_of at.now) regs.now (S.words file.now)) }
    requires width { IsTrue (is_width sew) }
    requires within { w < length (destination_words (reading form (view_of at.now) regs.now (S.words file.now))) }
    requires callable { (k : ℕ) → k < 64 / sew → w * (64 / sew) + k < at.now.vl → F.pre f (w * (64 / sew) + k) }
    requires moves { (k : ℕ) → k < 64 / sew → w * (64 / sew) + k < at.now.vl → (o : Option ℕ) → F.post f (w * (64 / sew) + k) o → o ≡ moved_by (rule_of form.family) (lists_of (reading form (view_of at.now) regs.now (S.words file.now))) (w * (64 / sew) + k) }
    ensures value { result.value ≡ made_word (reading form (view_of at.now) regs.now (S.words file.now)) w }
    ensures sat { result.sat ≡ word_saturates (reading form (view_of at.now) regs.now (S.words file.now)) w }
{
    joined_by_elements();
    elements_are_lanes();
    let per_word = 64 / sew;
    let old = group_word(file, at, regs.vd, w);
    if at.vl <= w * per_word {
        return unchanged(old);
    }
    let active = active_word(form, file, at, regs, per_word, w);
    Word {
        value: word_after(sew, w * per_word, active, old, f),
        sat: false,
    }
}
