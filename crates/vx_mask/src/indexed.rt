ghost use Rattle.vx_vstate.specs.Views.{view_of};
ghost use Rattle.std.specs.Prelude.{IsTrue, ◌≡◌, ℕ, ◌+◌, ◌*◌, ◌/◌, ◌%◌, ◌^◌, ◌<◌, ◌≤◌, ◌==◌, ◌&&◌, nat_lt, length};
ghost use Rattle.vx_bits.specs.Width.{is_width};
ghost use Rattle.vx_operands.specs.Forms.{reading};
ghost use Rattle.vx_operands.specs.Rising.{count_below};
ghost use Rattle.vx_packed.specs.Joined.{lane};
ghost use Rattle.vx_rows.specs.declared.family.Family.TheVariants.{Vid, Viota};
ghost use Rattle.vx_vector.specs.Laws.{IsSound, made_word, word_saturates};
ghost use Rattle.vx_vector.specs.Reading.{sew_of};
ghost use Rattle.vx_vector.specs.Words.{destination_words};

use crate::marks::{count_marks, marks_word, ones_before};
use vx_bits::low;
use vx_operands::{Form, group_word, moved_by_index, unchanged};
use vx_vector::{Places, Word};
use vx_vstate::{Setting, WordFile};

/// Word `w` of the destination of vid: elements are their indices.
#[inline(always)]
pub(crate) fn index_word<S: WordFile>(
    form: Form,
    file: &S,
    at: &Setting,
    regs: &Places,
    sew: u32,
    w: u32,
) -> Word
    requires same { S.vlen file.now ≡ at.now.vlen }
    requires sound { IsSound (reading form (view_of at.now) regs.now (S.words file.now)) }
    requires family { form.family ≡ Vid }
    requires sew { sew ≡ sew_of (reading form (view_of at.now) regs.now (S.words file.now)) }
    requires width { IsTrue (is_width sew) }
    requires within { w < length (destination_words (reading form (view_of at.now) regs.now (S.words file.now))) }
    ensures value { result.value ≡ made_word (reading form (view_of at.now) regs.now (S.words file.now)) w }
    ensures sat { result.sat ≡ word_saturates (reading form (view_of at.now) regs.now (S.words file.now)) w }
{
    moved_by_index(
        form,
        file,
        at,
        regs,
        sew,
        w,
        |i| Some(low(sew, u64::from(i))),
    )
}

/// The element of viota with index `i`, by the count of marks before the word's first element and the word's own marks.
#[inline(always)]
fn iota_at(sew: u32, before: u32, marks: u64, first: u32, i: u32) -> u64
    requires width { IsTrue (is_width sew) }
    requires small { before ≤ 65536 }
    requires begins { first ≤ 65536 }
    ensures { result ≡ (before + count_below (λ k. nat_lt (first + k) i && lane 1 marks k == 1) 64) % 2 ^ sew }
{
    low(sew, u64::from(before + ones_before(marks, first, i)))
}

/// Word `w` of the destination of viota: elements are how many marks there are before them.
#[inline(always)]
pub(crate) fn iota_word<S: WordFile>(
    form: Form,
    file: &S,
    at: &Setting,
    regs: &Places,
    sew: u32,
    w: u32,
) -> Word
    requires same { S.vlen file.now ≡ at.now.vlen }
    requires sound { IsSound (reading form (view_of at.now) regs.now (S.words file.now)) }
    requires family { form.family ≡ Viota }
    requires small { at.now.vl ≤ 65536 }
    requires sew { sew ≡ sew_of (reading form (view_of at.now) regs.now (S.words file.now)) }
    requires width { IsTrue (is_width sew) }
    requires within { w < length (destination_words (reading form (view_of at.now) regs.now (S.words file.now))) }
    ensures value { result.value ≡ made_word (reading form (view_of at.now) regs.now (S.words file.now)) w }
    ensures sat { result.sat ≡ word_saturates (reading form (view_of at.now) regs.now (S.words file.now)) w }
{
    let first = w * (64 / sew);
    if at.vl <= first {
        return unchanged(group_word(file, at, regs.vd, w));
    }
    let before = count_marks(form, file, at, regs, first);
    let marks = marks_word(form, file, at, regs, 64 / sew, w);
    moved_by_index(
        form,
        file,
        at,
        regs,
        sew,
        w,
        |i| Some(iota_at(sew, before, marks, first, i)),
    )
}
