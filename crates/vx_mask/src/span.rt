ghost use Rattle.vx_vstate.specs.Views.{view_of};
ghost use Rattle.std.specs.Prelude.{IsTrue, ◌≡◌, ℕ, ◌+◌, ◌*◌, ◌<◌, ◌≤◌, nat_le, nat_lt, ◌&&◌, length};
ghost use Rattle.vx_mask.specs.Kinds.{is_span, spans_from, spans_to};
ghost use Rattle.vx_operands.specs.Forms.{reading};
ghost use Rattle.vx_packed.specs.Joined.{lane};
ghost use Rattle.vx_base.specs.Numbers.{truth};
ghost use Rattle.vx_vector.specs.Laws.{IsSound, made_word, word_saturates};
ghost use Rattle.vx_vector.specs.Words.{destination_words};

use crate::marks::first_mark;
use vx_operands::{Form, active_word, group_word, unchanged};
use vx_packed::{active_lanes, joined_by_elements, merge_bits};
use vx_rows::Family;
use vx_vector::{Places, Word, elements_are_lanes};
use vx_vstate::{Setting, WordFile};

/// From which element on the bits are set, by the first mark.
#[inline(always)]
fn spans_from(family: Family, first: u32) -> u32
    ensures { result ≡ spans_from family first }
{
    match family {
        Family::Vmsof => first,
        _ => 0,
    }
}

/// Below which element the bits are set, by the first mark.
#[inline(always)]
fn spans_to(family: Family, first: u32) -> u32
    requires { first ≤ 65536 }
    ensures { result ≡ spans_to family first }
{
    match family {
        Family::Vmsbf => first,
        _ => first + 1,
    }
}

/// Word `w` of the destination of a row that sets bits by the first mark.
#[inline(always)]
pub(crate) fn span_word<S: WordFile>(
    form: Form,
    file: &S,
    at: &Setting,
    regs: &Places,
    w: u32,
) -> Word
    requires same { S.vlen file.now ≡ at.now.vlen }
    requires sound { IsSound (reading form (view_of at.now) regs.now (S.words file.now)) }
    requires span { IsTrue (is_span form.family) }
    requires small { at.now.vl ≤ 65536 }
    requires within { w < length (destination_words (reading form (view_of at.now) regs.now (S.words file.now))) }
    ensures value { result.value ≡ made_word (reading form (view_of at.now) regs.now (S.words file.now)) w }
    ensures sat { result.sat ≡ word_saturates (reading form (view_of at.now) regs.now (S.words file.now)) w }
{
    joined_by_elements();
    elements_are_lanes();
    let old = group_word(file, at, regs.vd, w);
    if at.vl <= w * 64 {
        return unchanged(old);
    }
    let active = active_word(form, file, at, regs, 64, w);
    let first = first_mark(form, file, at, regs);
    let from = spans_from(form.family, first);
    let to = spans_to(form.family, first);
    let new = active_lanes(64, w * 64, from, to, u64::MAX);
    Word {
        value: merge_bits(active, new, old),
        sat: false,
    }
}
