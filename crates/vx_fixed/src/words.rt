ghost use Rattle.vx_vstate.specs.Views.{view_of};
ghost use Rattle.std.specs.Prelude.{IsTrue, ◌≡◌, ◌*◌, ◌<◌, ◌≤◌, length};
ghost use Rattle.vx_bits.specs.Width.{is_width};
ghost use Rattle.vx_fixed.specs.Kinds.{clips, is_fixed_family, is_fixed_point};
ghost use Rattle.vx_operands.specs.Forms.{form_of, reading};
ghost use Rattle.vx_vector.specs.Arithmetic.{words_after};
ghost use Rattle.vx_vector.specs.Laws.{IsSound, made_word, word_saturates};
ghost use Rattle.vx_vector.specs.Reading.{sew_of};
ghost use Rattle.vx_vector.specs.Words.{destination_words};
ghost use Rattle.vx_vstate.specs.Registers.{word_at};

use crate::form::form_of;
use crate::kinds::clips;
use crate::lanes::{clipped_lanes, lanes, signed_clipped_lanes};
use vx_operands::{Form, even_word, has_a_word, narrow_word};
use vx_rows::{Family, Op};
use vx_vector::{Places, Word, words_are_made};
use vx_vstate::{Setting, WordFile};

/// Word `w` of the destination of a clip of elements of twice SEW.
#[inline(always)]
fn clipped_word<S: WordFile>(
    form: Form,
    file: &S,
    at: &Setting,
    regs: &Places,
    sew: u32,
    w: u32,
) -> Word
    requires same { S.vlen file.now ≡ at.now.vlen }
    requires sound { IsSound (reading form (view_of at.now) regs.now (S.words file.now)) }
    requires kind { IsTrue (clips form.family) }
    requires sew { sew ≡ sew_of (reading form (view_of at.now) regs.now (S.words file.now)) }
    requires width { IsTrue (is_width sew) }
    requires small { sew ≤ 32 }
    requires wide { IsTrue (is_width (2 * sew)) }
    requires within { w < length (destination_words (reading form (view_of at.now) regs.now (S.words file.now))) }
    ensures value { result.value ≡ made_word (reading form (view_of at.now) regs.now (S.words file.now)) w }
    ensures sat { result.sat ≡ word_saturates (reading form (view_of at.now) regs.now (S.words file.now)) w }
{
    let vxrm = at.vxrm;
    match form.family {
        Family::Vnclipu => narrow_word(
            form,
            file,
            at,
            regs,
            sew,
            w,
            |from| clipped_lanes(sew, vxrm, from),
        ),
        Family::Vnclip => narrow_word(
            form,
            file,
            at,
            regs,
            sew,
            w,
            |from| signed_clipped_lanes(sew, vxrm, from),
        ),
        _ => unreachable!(),
    }
}

/// Word `w` of the destination of a row of this form.
#[inline(always)]
fn word_of_form<S: WordFile>(form: Form, file: &S, at: &Setting, regs: &Places, w: u32) -> Word
    requires same { S.vlen file.now ≡ at.now.vlen }
    requires sound { IsSound (reading form (view_of at.now) regs.now (S.words file.now)) }
    requires kind { IsTrue (is_fixed_family form.family) }
    requires within { w < length (destination_words (reading form (view_of at.now) regs.now (S.words file.now))) }
    ensures value { result.value ≡ made_word (reading form (view_of at.now) regs.now (S.words file.now)) w }
    ensures sat { result.sat ≡ word_saturates (reading form (view_of at.now) regs.now (S.words file.now)) w }
{
    let sew = at.sew();
    let vxrm = at.vxrm;
    if clips(form.family) {
        clipped_word(form, file, at, regs, sew, w)
    } else {
        even_word(
            form,
            file,
            at,
            regs,
            sew,
            w,
            |from| lanes(form.family, sew, vxrm, from),
        )
    }
}

/// Word `w` of the destination, counted from its first register on, as an instruction leaves it: active elements are the
/// operation's results, and all others stay. Whether an active element of it saturated. The operation is one of this crate,
/// and the instruction is legal under the setting.
pub fn word<S: WordFile>(op: Op, at: &Setting, file: &S, regs: &Places, w: u32) -> Word
    requires row { IsTrue (is_fixed_point op) }
    requires same { S.vlen file.now ≡ at.now.vlen }
    requires sound { IsSound (reading (form_of op) (view_of at.now) regs.now (S.words file.now)) }
    requires within { w < length (destination_words (reading (form_of op) (view_of at.now) regs.now (S.words file.now))) }
    ensures value { result.value ≡ word_at at.now.vlen (words_after (reading (form_of op) (view_of at.now) regs.now (S.words file.now))) regs.now.vd w }
    ensures sat { result.sat ≡ word_saturates (reading (form_of op) (view_of at.now) regs.now (S.words file.now)) w }
{
    words_are_made();
    has_a_word(file, at, regs.vd, w);
    match op {
        Op::Fixed(op) => word_of_form(form_of(op), file, at, regs, w),
        _ => unreachable!(),
    }
}
