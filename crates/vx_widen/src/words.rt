ghost use Rattle.vx_vstate.specs.Views.{view_of};
ghost use Rattle.std.specs.Prelude.{IsTrue, ◌≡◌, ◌*◌, ◌<◌, ◌≤◌, length};
ghost use Rattle.vx_bits.specs.Width.{is_width};
ghost use Rattle.vx_operands.specs.Forms.{form_of, reading};
ghost use Rattle.vx_vector.specs.Arithmetic.{words_after};
ghost use Rattle.vx_vector.specs.Laws.{IsSound, made_word, word_saturates};
ghost use Rattle.vx_vector.specs.Reading.{sew_of};
ghost use Rattle.vx_vector.specs.Words.{destination_words};
ghost use Rattle.vx_vstate.specs.Registers.{word_at};
ghost use Rattle.vx_widen.specs.Kinds.{is_widen, is_widen_family, narrows};

use crate::comparisons::compared;
use crate::form::form_of;
use crate::kinds::{compares, doubles, extends, narrows};
use crate::lanes::{carried, doubled, extended, shifted_right, sign_shifted_right};
use vx_operands::{Form, doubled_word, even_word, has_a_word, narrow_word};
use vx_rows::{Family, Op};
use vx_vector::{Places, Word, words_are_made};
use vx_vstate::{Setting, WordFile};

/// Word `w` of the destination of a shift that narrows.
#[inline(always)]
fn narrowed<S: WordFile>(
    form: Form,
    file: &S,
    at: &Setting,
    regs: &Places,
    sew: u32,
    w: u32,
) -> Word
    requires same { S.vlen file.now ≡ at.now.vlen }
    requires sound { IsSound (reading form (view_of at.now) regs.now (S.words file.now)) }
    requires kind { IsTrue (narrows form.family) }
    requires sew { sew ≡ sew_of (reading form (view_of at.now) regs.now (S.words file.now)) }
    requires width { IsTrue (is_width sew) }
    requires small { sew ≤ 32 }
    requires wide { IsTrue (is_width (2 * sew)) }
    requires within { w < length (destination_words (reading form (view_of at.now) regs.now (S.words file.now))) }
    ensures value { result.value ≡ made_word (reading form (view_of at.now) regs.now (S.words file.now)) w }
    ensures sat { result.sat ≡ word_saturates (reading form (view_of at.now) regs.now (S.words file.now)) w }
{
    match form.family {
        Family::Vnsrl => narrow_word(
            form,
            file,
            at,
            regs,
            sew,
            w,
            |from| shifted_right(sew, from),
        ),
        Family::Vnsra => narrow_word(
            form,
            file,
            at,
            regs,
            sew,
            w,
            |from| sign_shifted_right(sew, from),
        ),
        _ => unreachable!(),
    }
}

/// Word `w` of the destination of a row of this form.
#[inline(always)]
fn word_of_form<S: WordFile>(form: Form, file: &S, at: &Setting, regs: &Places, w: u32) -> Word
    requires same { S.vlen file.now ≡ at.now.vlen }
    requires sound { IsSound (reading form (view_of at.now) regs.now (S.words file.now)) }
    requires kind { IsTrue (is_widen_family form.family) }
    requires within { w < length (destination_words (reading form (view_of at.now) regs.now (S.words file.now))) }
    ensures value { result.value ≡ made_word (reading form (view_of at.now) regs.now (S.words file.now)) w }
    ensures sat { result.sat ≡ word_saturates (reading form (view_of at.now) regs.now (S.words file.now)) w }
{
    let sew = at.sew();
    let family = form.family;
    if compares(family) {
        compared(form, file, at, regs, sew, w)
    } else if narrows(family) {
        narrowed(form, file, at, regs, sew, w)
    } else if doubles(family) {
        doubled_word(
            form,
            file,
            at,
            regs,
            sew,
            false,
            w,
            |from| doubled(family, sew, from),
        )
    } else if extends(family) {
        doubled_word(
            form,
            file,
            at,
            regs,
            sew,
            true,
            w,
            |from| extended(family, sew, from),
        )
    } else {
        even_word(
            form,
            file,
            at,
            regs,
            sew,
            w,
            |from| carried(family, sew, from),
        )
    }
}

/// Word `w` of the destination, counted from its first register on, as an instruction leaves it: active elements are the
/// operation's results, and all others stay. Whether an element of it saturated: none does. The operation is one of this
/// crate, and the instruction is legal under the setting.
pub fn word<S: WordFile>(op: Op, at: &Setting, file: &S, regs: &Places, w: u32) -> Word
    requires row { IsTrue (is_widen op) }
    requires same { S.vlen file.now ≡ at.now.vlen }
    requires sound { IsSound (reading (form_of op) (view_of at.now) regs.now (S.words file.now)) }
    requires within { w < length (destination_words (reading (form_of op) (view_of at.now) regs.now (S.words file.now))) }
    ensures value { result.value ≡ word_at at.now.vlen (words_after (reading (form_of op) (view_of at.now) regs.now (S.words file.now))) regs.now.vd w }
    ensures sat { result.sat ≡ word_saturates (reading (form_of op) (view_of at.now) regs.now (S.words file.now)) w }
{
    words_are_made();
    has_a_word(file, at, regs.vd, w);
    match op {
        Op::Widen(op) => word_of_form(form_of(op), file, at, regs, w),
        _ => unreachable!(),
    }
}
