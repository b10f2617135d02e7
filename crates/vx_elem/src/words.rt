ghost use Rattle.vx_vstate.specs.Views.{view_of};
ghost use Rattle.std.specs.Prelude.{IsTrue, ◌≡◌, ℕ, ◌*◌, ◌/◌, ◌<◌, ◌≤◌, length, if◌then◌else◌};
ghost use Rattle.vx_bits.specs.Width.{is_width};
ghost use Rattle.vx_elem.specs.Kinds.{is_elem, is_elem_form, is_other};
ghost use Rattle.vx_operands.specs.Forms.{form_of, reading};
ghost use Rattle.vx_operands.specs.Lanes.{answer, are_groups, is_each, numbers_of};
ghost use Rattle.vx_packed.specs.Made.{IsPacking, made};
ghost use Rattle.vx_packed.specs.declared.elements.Lane.{Lane};
ghost use Rattle.vx_rows.specs.Families.{operands_of};
ghost use Rattle.vx_vector.specs.Arithmetic.{words_after};
ghost use Rattle.vx_vector.specs.Laws.{IsSound, made_word, word_saturates};
ghost use Rattle.vx_vector.specs.Numbers.{extended_at, plain};
ghost use Rattle.vx_vector.specs.Reading.{sew_of, destination_width, vs2_width};
ghost use Rattle.vx_vector.specs.Rules.{rule_of};
ghost use Rattle.vx_vector.specs.Words.{destination_words};
ghost use Rattle.vx_vstate.specs.Registers.{word_at};

use crate::form::form_of;
use crate::kinds::is_plain;
use crate::lanes::lanes;
use vx_bits::{reduce, signed_reading};
use vx_operands::{Form, even_word, has_a_word, moved_word, plain, whole_word, wide_word};
use vx_packed::{Made, Packing, Sources, make};
use vx_rows::{Family, Op};
use vx_vector::{Places, Word, words_are_made};
use vx_vstate::{Setting, WordFile};

/// A number of one width, extended to another.
#[inline(always)]
fn extend(narrow: u32, width: u32, is_signed: bool, a: u64) -> u64
    requires positive { 0 < narrow }
    requires narrow { narrow ≤ 64 }
    requires width { IsTrue (is_width width) }
    ensures { result ≡ (if is_signed then extended_at narrow width a else a) }
{
    if is_signed {
        reduce(width, i128::from(signed_reading(narrow, a)))
    } else {
        a
    }
}

/// Elements extended to the width of new ones.
#[inline(always)]
fn extended(widths: Packing, is_signed: bool, from: Sources) -> Made
    requires packing { IsPacking widths }
    requires narrow { widths.a ≤ 64 }
    requires width { IsTrue (is_width widths.width) }
    ensures { result ≡ made widths from (λ l. plain (if is_signed then extended_at widths.a widths.width l.a else l.a)) }
{
    make(
        widths,
        from,
        |l| plain(extend(widths.a, widths.width, is_signed, l.a)),
    )
}

/// Word `w` of the destination of an extension from a width.
#[inline(always)]
fn extended_word<S: WordFile>(
    form: Form,
    file: &S,
    at: &Setting,
    regs: &Places,
    sew: u32,
    narrow: u32,
    is_signed: bool,
    w: u32,
) -> Word
    requires same { S.vlen file.now ≡ at.now.vlen }
    requires sound { IsSound (reading form (view_of at.now) regs.now (S.words file.now)) }
    requires each { IsTrue (is_each (rule_of form.family)) }
    requires groups { IsTrue (are_groups form.first (operands_of form.family)) }
    requires sew { sew ≡ sew_of (reading form (view_of at.now) regs.now (S.words file.now)) }
    requires is_width { IsTrue (is_width sew) }
    requires width { sew ≡ destination_width (reading form (view_of at.now) regs.now (S.words file.now)) }
    requires narrow { narrow ≡ vs2_width (reading form (view_of at.now) regs.now (S.words file.now)) }
    requires less { narrow ≤ sew }
    requires extends { (mode : ℕ) (l : Lane) → answer form.family (numbers_of sew mode l) ≡ plain (if is_signed then extended_at narrow sew l.a else l.a) }
    requires within { w < length (destination_words (reading form (view_of at.now) regs.now (S.words file.now))) }
    ensures value { result.value ≡ made_word (reading form (view_of at.now) regs.now (S.words file.now)) w }
    ensures sat { result.sat ≡ word_saturates (reading form (view_of at.now) regs.now (S.words file.now)) w }
{
    let widths = Packing {
        count: 64 / sew,
        width: sew,
        a: narrow,
        b: sew,
    };
    wide_word(
        form,
        file,
        at,
        regs,
        widths,
        w,
        |from| extended(widths, is_signed, from),
    )
}

/// Word `w` of the destination of a row with other operands than elements of SEW.
#[inline(always)]
fn other_word<S: WordFile>(
    form: Form,
    file: &S,
    at: &Setting,
    regs: &Places,
    sew: u32,
    w: u32,
) -> Word
    requires same { S.vlen file.now ≡ at.now.vlen }
    requires sound { IsSound (reading form (view_of at.now) regs.now (S.words file.now)) }
    requires kind { IsTrue (is_other form.family form.first form.vm) }
    requires sew { sew ≡ sew_of (reading form (view_of at.now) regs.now (S.words file.now)) }
    requires is_width { IsTrue (is_width sew) }
    requires within { w < length (destination_words (reading form (view_of at.now) regs.now (S.words file.now))) }
    ensures value { result.value ≡ made_word (reading form (view_of at.now) regs.now (S.words file.now)) w }
    ensures sat { result.sat ≡ word_saturates (reading form (view_of at.now) regs.now (S.words file.now)) w }
{
    match form.family {
        Family::VmvV => moved_word(form, file, at, regs, sew, w),
        Family::Vmv1r => whole_word(form, file, at, regs, sew, 1, w),
        Family::Vmv2r => whole_word(form, file, at, regs, sew, 2, w),
        Family::Vmv4r => whole_word(form, file, at, regs, sew, 4, w),
        Family::Vmv8r => whole_word(form, file, at, regs, sew, 8, w),
        Family::VzextVf8 => extended_word(form, file, at, regs, sew, sew / 8, false, w),
        Family::VsextVf8 => extended_word(form, file, at, regs, sew, sew / 8, true, w),
        Family::VzextVf4 => extended_word(form, file, at, regs, sew, sew / 4, false, w),
        Family::VsextVf4 => extended_word(form, file, at, regs, sew, sew / 4, true, w),
        Family::VzextVf2 => extended_word(form, file, at, regs, sew, sew / 2, false, w),
        Family::VsextVf2 => extended_word(form, file, at, regs, sew, sew / 2, true, w),
        _ => unreachable!(),
    }
}

/// Word `w` of the destination of a row of this form.
#[inline(always)]
fn word_of_form<S: WordFile>(form: Form, file: &S, at: &Setting, regs: &Places, w: u32) -> Word
    requires same { S.vlen file.now ≡ at.now.vlen }
    requires sound { IsSound (reading form (view_of at.now) regs.now (S.words file.now)) }
    requires kind { IsTrue (is_elem_form form) }
    requires within { w < length (destination_words (reading form (view_of at.now) regs.now (S.words file.now))) }
    ensures value { result.value ≡ made_word (reading form (view_of at.now) regs.now (S.words file.now)) w }
    ensures sat { result.sat ≡ word_saturates (reading form (view_of at.now) regs.now (S.words file.now)) w }
{
    let sew = at.sew();
    if is_plain(form.family) {
        even_word(
            form,
            file,
            at,
            regs,
            sew,
            w,
            |from| lanes(form.family, sew, from),
        )
    } else {
        other_word(form, file, at, regs, sew, w)
    }
}

/// Word `w` of the destination, counted from its first register on, as an instruction leaves it: active elements are the
/// operation's results, and all others stay. Whether an element of it saturated: none does. The operation is one of this
/// crate, and the instruction is legal under the setting.
#[inline(always)]
pub fn word<S: WordFile>(op: Op, at: &Setting, file: &S, regs: &Places, w: u32) -> Word
    requires row { IsTrue (is_elem op) }
    requires same { S.vlen file.now ≡ at.now.vlen }
    requires sound { IsSound (reading (form_of op) (view_of at.now) regs.now (S.words file.now)) }
    requires within { w < length (destination_words (reading (form_of op) (view_of at.now) regs.now (S.words file.now))) }
    ensures value { result.value ≡ word_at at.now.vlen (words_after (reading (form_of op) (view_of at.now) regs.now (S.words file.now))) regs.now.vd w }
    ensures sat { result.sat ≡ word_saturates (reading (form_of op) (view_of at.now) regs.now (S.words file.now)) w }
{
    words_are_made();
    has_a_word(file, at, regs.vd, w);
    match op {
        Op::Elem(op) => word_of_form(form_of(op), file, at, regs, w),
        _ => unreachable!(),
    }
}
