ghost use Rattle.vx_vstate.specs.Views.{view_of};
ghost use Rattle.std.specs.Prelude.{IsTrue, ◌≡◌, ℕ, ◌<◌, ◌≤◌, length};
ghost use Rattle.vx_mask.specs.Kinds.{is_index, is_mask, is_mask_form};
ghost use Rattle.vx_operands.specs.Forms.{form_of, reading};
ghost use Rattle.vx_vector.specs.Arithmetic.{words_after};
ghost use Rattle.vx_vector.specs.Laws.{IsSound, made_word, word_saturates};
ghost use Rattle.vx_vector.specs.Words.{destination_words};
ghost use Rattle.vx_vstate.specs.Registers.{word_at};

use crate::form::form_of;
use crate::indexed::{index_word, iota_word};
use crate::kinds::{is_even_reduction, is_logic, is_span, is_wide_reduction};
use crate::logic::logic_word;
use crate::reduced::{even_reduction, wide_reduction};
use crate::span::span_word;
use vx_operands::{Form, has_a_word, has_few_elements};
use vx_rows::{Family, Op};
use vx_vector::{Places, Word, words_are_made};
use vx_vstate::{Setting, WordFile};

/// Word `w` of the destination of a row whose elements are counts of marks or indices.
#[inline(always)]
fn indexed_word<S: WordFile>(form: Form, file: &S, at: &Setting, regs: &Places, w: u32) -> Word
    requires same { S.vlen file.now ≡ at.now.vlen }
    requires sound { IsSound (reading form (view_of at.now) regs.now (S.words file.now)) }
    requires kind { IsTrue (is_index form.family) }
    requires small { at.now.vl ≤ 65536 }
    requires within { w < length (destination_words (reading form (view_of at.now) regs.now (S.words file.now))) }
    ensures value { result.value ≡ made_word (reading form (view_of at.now) regs.now (S.words file.now)) w }
    ensures sat { result.sat ≡ word_saturates (reading form (view_of at.now) regs.now (S.words file.now)) w }
{
    match form.family {
        Family::Vid => index_word(form, file, at, regs, at.sew(), w),
        Family::Viota => iota_word(form, file, at, regs, at.sew(), w),
        _ => unreachable!(),
    }
}

/// Word `w` of the destination of a row of this form.
#[inline(always)]
fn word_of_form<S: WordFile>(form: Form, file: &S, at: &Setting, regs: &Places, w: u32) -> Word
    requires same { S.vlen file.now ≡ at.now.vlen }
    requires sound { IsSound (reading form (view_of at.now) regs.now (S.words file.now)) }
    requires kind { IsTrue (is_mask_form form) }
    requires within { w < length (destination_words (reading form (view_of at.now) regs.now (S.words file.now))) }
    ensures value { result.value ≡ made_word (reading form (view_of at.now) regs.now (S.words file.now)) w }
    ensures sat { result.sat ≡ word_saturates (reading form (view_of at.now) regs.now (S.words file.now)) w }
{
    has_few_elements(at);
    if is_logic(form.family) {
        logic_word(form, file, at, regs, w)
    } else if is_span(form.family) {
        span_word(form, file, at, regs, w)
    } else if is_even_reduction(form.family) {
        even_reduction(form, file, at, regs, at.sew(), w)
    } else if is_wide_reduction(form.family) {
        wide_reduction(form, file, at, regs, at.sew(), w)
    } else {
        indexed_word(form, file, at, regs, w)
    }
}

/// Word `w` of the destination, counted from its first register on, as an instruction leaves it: active elements are the
/// operation's results, and all others stay. Whether an element of it saturated: none does. The operation is one of this
/// crate, and the instruction is legal under the setting.
pub fn word<S: WordFile>(op: Op, at: &Setting, file: &S, regs: &Places, w: u32) -> Word
    requires row { IsTrue (is_mask op) }
    requires same { S.vlen file.now ≡ at.now.vlen }
    requires sound { IsSound (reading (form_of op) (view_of at.now) regs.now (S.words file.now)) }
    requires within { w < length (destination_words (reading (form_of op) (view_of at.now) regs.now (S.words file.now))) }
    ensures value { result.value ≡ word_at at.now.vlen (words_after (reading (form_of op) (view_of at.now) regs.now (S.words file.now))) regs.now.vd w }
    ensures sat { result.sat ≡ word_saturates (reading (form_of op) (view_of at.now) regs.now (S.words file.now)) w }
{
    words_are_made();
    has_a_word(file, at, regs.vd, w);
    match op {
        Op::Mask(op) => word_of_form(form_of(op), file, at, regs, w),
        _ => unreachable!(),
    }
}
