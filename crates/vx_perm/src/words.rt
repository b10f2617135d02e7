ghost use Rattle.vx_vstate.specs.Views.{view_of};
ghost use Rattle.std.specs.Prelude.{IsTrue, false, ◌≡◌, ℕ, ◌*◌, ◌^◌, ◌<◌, ◌≤◌, length};
ghost use Rattle.vx_bits.specs.Width.{is_width};
ghost use Rattle.vx_operands.specs.Forms.{form_of, reading};
ghost use Rattle.vx_perm.specs.Kinds.{is_gather, is_perm, is_perm_form, is_slide};
ghost use Rattle.vx_rows.specs.declared.family.Family.TheVariants.{VmvSX};
ghost use Rattle.vx_vector.specs.Arithmetic.{words_after};
ghost use Rattle.vx_vector.specs.Laws.{IsSound, made_word, word_saturates};
ghost use Rattle.vx_vector.specs.Reading.{sew_of};
ghost use Rattle.vx_vector.specs.Words.{destination_words};
ghost use Rattle.vx_vstate.specs.Registers.{word_at};

use crate::form::form_of;
use crate::moves::{gathered_word, is_gather, is_slide, slid_word};
use crate::packs::{is_pack, packed_word};
use vx_operands::{
    Form, first_set, group_word, has_a_word, has_few_elements, unchanged, writes_first,
};
use vx_rows::Op;
use vx_vector::{Places, Word, words_are_made};
use vx_vstate::{Setting, WordFile};

/// Word `w` of the destination of a move of the integer register to element 0.
#[inline(always)]
fn put_word<S: WordFile>(
    form: Form,
    file: &S,
    at: &Setting,
    regs: &Places,
    sew: u32,
    w: u32,
) -> Word
    requires same { S.vlen file.now ≡ at.now.vlen }
    requires sound { IsSound (reading form (view_of at.now) regs.now (S.words file.now)) }
    requires family { form.family ≡ VmvSX }
    requires sew { sew ≡ sew_of (reading form (view_of at.now) regs.now (S.words file.now)) }
    requires width { IsTrue (is_width sew) }
    requires within { w < length (destination_words (reading form (view_of at.now) regs.now (S.words file.now))) }
    ensures value { result.value ≡ made_word (reading form (view_of at.now) regs.now (S.words file.now)) w }
    ensures sat { result.sat ≡ word_saturates (reading form (view_of at.now) regs.now (S.words file.now)) w }
{
    let old = group_word(file, at, regs.vd, w);
    if writes_first(at, w) {
        first_set(sew, old, at.scalar)
    } else {
        unchanged(old)
    }
}

/// Word `w` of the destination of a row that packs elements or puts one.
#[inline(never)]
fn other_word<S: WordFile>(
    form: Form,
    file: &S,
    at: &Setting,
    regs: &Places,
    sew: u32,
    w: u32,
) -> Word
    requires same { S.vlen file.now ≡ at.now.vlen }
    requires sound { IsSound (reading form (view_of at.now) regs.now (S.words file.now)) }
    requires kind { IsTrue (is_perm_form form) }
    requires no_slide { is_slide form.family ≡ false }
    requires no_gather { is_gather form.family ≡ false }
    requires sew { sew ≡ sew_of (reading form (view_of at.now) regs.now (S.words file.now)) }
    requires width { IsTrue (is_width sew) }
    requires few_elements { at.now.vl ≤ 65536 }
    requires within { w < length (destination_words (reading form (view_of at.now) regs.now (S.words file.now))) }
    ensures value { result.value ≡ made_word (reading form (view_of at.now) regs.now (S.words file.now)) w }
    ensures sat { result.sat ≡ word_saturates (reading form (view_of at.now) regs.now (S.words file.now)) w }
{
    if is_pack(form.family) {
        packed_word(form, file, at, regs, sew, w)
    } else {
        put_word(form, file, at, regs, sew, w)
    }
}

/// Word `w` of the destination of a row of this form.
#[inline(never)]
fn word_of_form<S: WordFile>(form: Form, file: &S, at: &Setting, regs: &Places, w: u32) -> Word
    requires same { S.vlen file.now ≡ at.now.vlen }
    requires sound { IsSound (reading form (view_of at.now) regs.now (S.words file.now)) }
    requires kind { IsTrue (is_perm_form form) }
    requires within { w < length (destination_words (reading form (view_of at.now) regs.now (S.words file.now))) }
    ensures value { result.value ≡ made_word (reading form (view_of at.now) regs.now (S.words file.now)) w }
    ensures sat { result.sat ≡ word_saturates (reading form (view_of at.now) regs.now (S.words file.now)) w }
{
    has_few_elements(at);
    if is_slide(form.family) {
        slid_word(form, file, at, regs, at.sew(), w)
    } else if is_gather(form.family) {
        gathered_word(form, file, at, regs, at.sew(), w)
    } else {
        other_word(form, file, at, regs, at.sew(), w)
    }
}

/// Word `w` of the destination, counted from its first register on, as an instruction leaves it: elements are the operation's
/// results where it writes them, and all others stay. Whether an element of it saturated: none does. The operation is one of
/// this crate, and the instruction is legal under the setting.
#[inline(always)]
pub fn word<S: WordFile>(op: Op, at: &Setting, file: &S, regs: &Places, w: u32) -> Word
    requires row { IsTrue (is_perm op) }
    requires same { S.vlen file.now ≡ at.now.vlen }
    requires sound { IsSound (reading (form_of op) (view_of at.now) regs.now (S.words file.now)) }
    requires within { w < length (destination_words (reading (form_of op) (view_of at.now) regs.now (S.words file.now))) }
    ensures value { result.value ≡ word_at at.now.vlen (words_after (reading (form_of op) (view_of at.now) regs.now (S.words file.now))) regs.now.vd w }
    ensures sat { result.sat ≡ word_saturates (reading (form_of op) (view_of at.now) regs.now (S.words file.now)) w }
{
    words_are_made();
    has_a_word(file, at, regs.vd, w);
    match op {
        Op::Perm(op) => word_of_form(form_of(op), file, at, regs, w),
        _ => unreachable!(),
    }
}
