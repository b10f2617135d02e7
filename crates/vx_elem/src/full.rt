ghost use Rattle.vx_vstate.specs.Views.{view_of};
ghost use Rattle.std.specs.Prelude.{IsTrue, true, false, ◌≡◌, ℕ, ◌*◌, ◌/◌, ◌<◌, ◌≤◌, length, slice_index};
ghost use Rattle.vx_bits.specs.Width.{is_width};
ghost use Rattle.vx_elem.specs.Kinds.{is_elem, is_plain};
ghost use Rattle.vx_operands.specs.Forms.{form_of, reading};
ghost use Rattle.vx_operands.specs.Lanes.{answer, numbers_of};
ghost use Rattle.vx_packed.specs.Made.{even_packing, made};
ghost use Rattle.vx_vector.specs.Arithmetic.{words_after};
ghost use Rattle.vx_vector.specs.Laws.{IsSound, word_saturates};
ghost use Rattle.vx_vector.specs.Reading.{sew_of};
ghost use Rattle.vx_vector.specs.Words.{destination_words};
ghost use Rattle.vx_vstate.specs.Registers.{word_at};

use crate::form::form_of;
use crate::kinds::is_plain;
use crate::lanes::lanes;
use crate::named::{
    Add, And, Any, ExclusiveOr, Maximum, Minimum, Multiply, MultiplyAccumulate, MultiplyAdd,
    MultiplyDecrease, MultiplySubtract, Named, Or, ReverseSubtract, ShiftLeft, ShiftRight,
    ShiftRightSigned, Subtract, UnsignedMaximum, UnsignedMinimum,
};
use vx_operands::{Form, full_count, full_words as words_of_lanes};
use vx_packed::{Made, Sources};
use vx_rows::{Family, Op};
use vx_vector::Places;
use vx_vstate::Setting;

/// The new elements of a family that is named.
#[inline(always)]
fn named_lanes<N: Named>(named: &N, sew: u32, from: Sources) -> Made
    requires kind { IsTrue (is_plain (N.family named.now)) }
    requires width { IsTrue (is_width sew) }
    ensures { result ≡ made (even_packing sew) from (λ l. answer (N.family named.now) (numbers_of sew 0 l)) }
{
    lanes(named.family(), sew, from)
}

/// The first words of the destination of a row of a family whose operands all have elements of SEW, where all elements of them
/// are active. There is a loop for each width, and the family and the width stand in it as literals, so that it goes through no
/// dispatch.
fn words_of<N: Named>(
    named: &N,
    form: Form,
    words: &[u64],
    at: &Setting,
    regs: &Places,
    sew: u32,
    count: u32,
    made: &mut [u64],
)
    requires family { N.family named.now ≡ form.family }
    requires named { IsTrue (is_plain (N.family named.now)) }
    requires kind { IsTrue (is_plain form.family) }
    requires sound { IsSound (reading form (view_of at.now) regs.now words.now) }
    requires sew { sew ≡ sew_of (reading form (view_of at.now) regs.now words.now) }
    requires width { IsTrue (is_width sew) }
    requires below { count * (64 / sew) ≤ at.now.vl }
    requires start { 0 < count → at.now.vstart ≡ 0 }
    requires unmasked { 0 < count → regs.now.vm ≡ true }
    requires within { (k : ℕ) → k < count → k < length (destination_words (reading form (view_of at.now) regs.now words.now)) }
    requires room { count ≤ length made.old }
    ensures room { length made.new ≡ length made.old }
    ensures made { (k : ℕ) → k < count → slice_index made.new k ≡ word_at at.now.vlen (words_after (reading form (view_of at.now) regs.now words.now)) regs.now.vd k }
{
    match sew {
        8 => words_of_lanes(
            form,
            words,
            at,
            regs,
            8,
            count,
            made,
            |from| named_lanes(named, 8, from),
        ),
        16 => words_of_lanes(
            form,
            words,
            at,
            regs,
            16,
            count,
            made,
            |from| named_lanes(named, 16, from),
        ),
        32 => words_of_lanes(
            form,
            words,
            at,
            regs,
            32,
            count,
            made,
            |from| named_lanes(named, 32, from),
        ),
        _ => words_of_lanes(
            form,
            words,
            at,
            regs,
            64,
            count,
            made,
            |from| named_lanes(named, 64, from),
        ),
    }
}

/// The same, with loops of its own for each family that programs use most.
fn words_at(
    form: Form,
    words: &[u64],
    at: &Setting,
    regs: &Places,
    sew: u32,
    count: u32,
    made: &mut [u64],
)
    requires kind { IsTrue (is_plain form.family) }
    requires sound { IsSound (reading form (view_of at.now) regs.now words.now) }
    requires sew { sew ≡ sew_of (reading form (view_of at.now) regs.now words.now) }
    requires width { IsTrue (is_width sew) }
    requires below { count * (64 / sew) ≤ at.now.vl }
    requires start { 0 < count → at.now.vstart ≡ 0 }
    requires unmasked { 0 < count → regs.now.vm ≡ true }
    requires within { (k : ℕ) → k < count → k < length (destination_words (reading form (view_of at.now) regs.now words.now)) }
    requires room { count ≤ length made.old }
    ensures room { length made.new ≡ length made.old }
    ensures made { (k : ℕ) → k < count → slice_index made.new k ≡ word_at at.now.vlen (words_after (reading form (view_of at.now) regs.now words.now)) regs.now.vd k }
{
    match form.family {
        Family::Vadd => words_of(&Add, form, words, at, regs, sew, count, made),
        Family::Vsub => words_of(&Subtract, form, words, at, regs, sew, count, made),
        Family::Vrsub => words_of(&ReverseSubtract, form, words, at, regs, sew, count, made),
        Family::Vminu => words_of(&UnsignedMinimum, form, words, at, regs, sew, count, made),
        Family::Vmin => words_of(&Minimum, form, words, at, regs, sew, count, made),
        Family::Vmaxu => words_of(&UnsignedMaximum, form, words, at, regs, sew, count, made),
        Family::Vmax => words_of(&Maximum, form, words, at, regs, sew, count, made),
        Family::Vand => words_of(&And, form, words, at, regs, sew, count, made),
        Family::Vor => words_of(&Or, form, words, at, regs, sew, count, made),
        Family::Vxor => words_of(&ExclusiveOr, form, words, at, regs, sew, count, made),
        Family::Vsll => words_of(&ShiftLeft, form, words, at, regs, sew, count, made),
        Family::Vsrl => words_of(&ShiftRight, form, words, at, regs, sew, count, made),
        Family::Vsra => words_of(&ShiftRightSigned, form, words, at, regs, sew, count, made),
        Family::Vmul => words_of(&Multiply, form, words, at, regs, sew, count, made),
        Family::Vmadd => words_of(&MultiplyAdd, form, words, at, regs, sew, count, made),
        Family::Vnmsub => words_of(&MultiplySubtract, form, words, at, regs, sew, count, made),
        Family::Vmacc => words_of(&MultiplyAccumulate, form, words, at, regs, sew, count, made),
        Family::Vnmsac => words_of(&MultiplyDecrease, form, words, at, regs, sew, count, made),
        family => words_of(&Any { family }, form, words, at, regs, sew, count, made),
    }
}

/// The first words of the destination of a row of this form, as many as have only active elements, where its operands all have
/// elements of SEW. Answers how many.
#[inline(always)]
fn words_of_form(
    form: Form,
    words: &[u64],
    at: &Setting,
    regs: &Places,
    most: u32,
    made: &mut [u64],
) -> u32
    requires sound { IsSound (reading form (view_of at.now) regs.now words.now) }
    requires within { (k : ℕ) → k < most → k < length (destination_words (reading form (view_of at.now) regs.now words.now)) }
    requires room { most ≤ length made.old }
    ensures most { result ≤ most }
    ensures room { length made.new ≡ length made.old }
    ensures made { (k : ℕ) → k < result → slice_index made.new k ≡ word_at at.now.vlen (words_after (reading form (view_of at.now) regs.now words.now)) regs.now.vd k }
    ensures sat { (k : ℕ) → k < result → word_saturates (reading form (view_of at.now) regs.now words.now) k ≡ false }
{
    if !is_plain(form.family) {
        return 0;
    }
    let sew = at.sew();
    let count = full_count(at, regs, 64 / sew, most);
    words_at(form, words, at, regs, sew, count, made);
    count
}

/// Makes the first words of the destination that hold only active elements, of the words of all registers, where the operands
/// of the row all have elements of SEW: as the instruction leaves them. Answers how many it made, at most so many. No element
/// of them saturated. The operation is one of this crate, and the instruction is legal under the setting.
pub fn full_words(
    op: Op,
    words: &[u64],
    at: &Setting,
    regs: &Places,
    most: u32,
    made: &mut [u64],
) -> u32
    requires row { IsTrue (is_elem op) }
    requires sound { IsSound (reading (form_of op) (view_of at.now) regs.now words.now) }
    requires within { (k : ℕ) → k < most → k < length (destination_words (reading (form_of op) (view_of at.now) regs.now words.now)) }
    requires room { most ≤ length made.old }
    ensures most { result ≤ most }
    ensures room { length made.new ≡ length made.old }
    ensures made { (k : ℕ) → k < result → slice_index made.new k ≡ word_at at.now.vlen (words_after (reading (form_of op) (view_of at.now) regs.now words.now)) regs.now.vd k }
    ensures sat { (k : ℕ) → k < result → word_saturates (reading (form_of op) (view_of at.now) regs.now words.now) k ≡ false }
{
    match op {
        Op::Elem(op) => words_of_form(form_of(op), words, at, regs, most, made),
        _ => unreachable!(),
    }
}
