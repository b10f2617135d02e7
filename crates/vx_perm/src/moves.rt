ghost use Rattle.vx_vstate.specs.Views.{view_of};
ghost use Rattle.std.specs.Prelude.{IsTrue, ◌≡◌, ℕ, ◌+◌, ◌-◌, ◌*◌, ◌/◌, ◌%◌, ◌^◌, ◌<◌, ◌≤◌, ◌==◌, ◌&&◌, if◌then◌else◌, length, nat_le, nat_lt, true, List, Option, Some};
ghost use Rattle.vx_bits.specs.Width.{is_width};
ghost use Rattle.vx_decode.specs.Groups.{width_of};
ghost use Rattle.vx_operands.specs.Forms.{is_unmasked, reading};
ghost use Rattle.vx_operands.specs.Rising.{moved_by};
ghost use Rattle.vx_perm.specs.Kinds.{IsIndexed, IsRun, is_gather, is_move, is_slide};
ghost use Rattle.vx_packed.specs.Joined.{joined, lane};
ghost use Rattle.vx_rows.specs.Families.{operands_of};
ghost use Rattle.vx_rows.specs.declared.family.Family.TheVariants.{Vrgather};
ghost use Rattle.vx_rows.specs.declared.row.First.TheVariants.{Vector};
ghost use Rattle.vx_rows.specs.declared.family.Operand.TheVariants.{Single};
ghost use Rattle.vx_vector.specs.Laws.{IsSound, made_word, word_saturates};
ghost use Rattle.vx_vector.specs.Lists.{element_or_zero, gather_index, slid_up};
ghost use Rattle.vx_vector.specs.Reading.{lists_of, sew_of, vs1_width};
ghost use Rattle.vx_vector.specs.Rules.{rule_of};
ghost use Rattle.vx_vector.specs.Words.{destination_words};
ghost use Rattle.vx_vstate.specs.Registers.{element_word, is_element_width, place_of, words_of_all};
ghost use Rattle.vx_vstate.specs.Vtype.{vlmax};

use crate::elements::{element_at, number, source};
use crate::runs::{are_active, elements_from, run_of};
use vx_bits::low;
use vx_operands::{Form, group_word, lane_at, moved_by_index};
use vx_packed::{beside, joined_by_elements};
use vx_rows::{Family, First};
use vx_vector::{Places, Word, elements_are_lanes};
use vx_vstate::{Setting, WordFile};

/// Whether a family is one of slides.
#[inline(always)]
pub(crate) fn is_slide(family: Family) -> bool
    ensures { result ≡ is_slide family }
{
    match family {
        Family::Vslideup | Family::Vslidedown | Family::Vslide1up | Family::Vslide1down => true,
        _ => false,
    }
}

/// Whether a family is one of gathers.
#[inline(always)]
pub(crate) fn is_gather(family: Family) -> bool
    ensures { result ≡ is_gather family }
{
    match family {
        Family::Vrgather | Family::Vrgatherei16 => true,
        _ => false,
    }
}

/// The width of a gather's indices: SEW, or 16.
#[inline(always)]
fn index_width(family: Family, sew: u32) -> u32
    requires gathers { IsTrue (is_gather family) }
    requires width { IsTrue (is_width sew) }
    ensures is { result ≡ width_of (operands_of family).vs1 sew }
    ensures width { IsTrue (is_element_width result) }
{
    match family {
        Family::Vrgatherei16 => 16,
        _ => sew,
    }
}

/// Element `i` of a slide up: none below the offset.
#[inline(always)]
fn slid_up<S: WordFile>(
    form: Form,
    file: &S,
    at: &Setting,
    regs: &Places,
    sew: u32,
    most: u32,
    i: u32,
) -> Option<u64>
    requires same { S.vlen file.now ≡ at.now.vlen }
    requires sound { IsSound (reading form (view_of at.now) regs.now (S.words file.now)) }
    requires vs2 { (operands_of form.family).vs2 ≡ Single }
    requires sew { sew ≡ sew_of (reading form (view_of at.now) regs.now (S.words file.now)) }
    requires width { IsTrue (is_width sew) }
    requires most { most ≡ vlmax at.now.vlen at.now.vtype }
    ensures { result ≡ slid_up (lists_of (reading form (view_of at.now) regs.now (S.words file.now))) (lists_of (reading form (view_of at.now) regs.now (S.words file.now))).x i }
{
    let offset = number(form, at, regs);
    if u64::from(i) < offset {
        None
    } else {
        Some(source(form, file, at, regs, sew, most, u64::from(i) - offset))
    }
}

/// An index and an offset, or the greatest number where their sum is above it.
#[inline(always)]
fn behind(i: u32, offset: u64) -> u64
    ensures { result ≡ (if nat_lt (i + offset) (2 ^ 64) then i + offset else 2 ^ 64 - 1) }
{
    u64::from(i).saturating_add(offset)
}

/// Element `i` of a slide down: that of vs2 behind the offset, or 0 past the last.
#[inline(always)]
fn slid_down<S: WordFile>(
    form: Form,
    file: &S,
    at: &Setting,
    regs: &Places,
    sew: u32,
    most: u32,
    i: u32,
) -> Option<u64>
    requires same { S.vlen file.now ≡ at.now.vlen }
    requires sound { IsSound (reading form (view_of at.now) regs.now (S.words file.now)) }
    requires vs2 { (operands_of form.family).vs2 ≡ Single }
    requires sew { sew ≡ sew_of (reading form (view_of at.now) regs.now (S.words file.now)) }
    requires width { IsTrue (is_width sew) }
    requires most { most ≡ vlmax at.now.vlen at.now.vtype }
    ensures { result ≡ Some (element_or_zero (lists_of (reading form (view_of at.now) regs.now (S.words file.now))) (i + (lists_of (reading form (view_of at.now) regs.now (S.words file.now))).x)) }
{
    let place = behind(i, number(form, at, regs));
    Some(source(form, file, at, regs, sew, most, place))
}

/// Element `i` of a slide up by one: the first is the integer register.
#[inline(always)]
fn slid_one_up<S: WordFile>(
    form: Form,
    file: &S,
    at: &Setting,
    regs: &Places,
    sew: u32,
    most: u32,
    i: u32,
) -> Option<u64>
    requires same { S.vlen file.now ≡ at.now.vlen }
    requires sound { IsSound (reading form (view_of at.now) regs.now (S.words file.now)) }
    requires vs2 { (operands_of form.family).vs2 ≡ Single }
    requires sew { sew ≡ sew_of (reading form (view_of at.now) regs.now (S.words file.now)) }
    requires width { IsTrue (is_width sew) }
    requires most { most ≡ vlmax at.now.vlen at.now.vtype }
    ensures { result ≡ Some (if i == 0 then (lists_of (reading form (view_of at.now) regs.now (S.words file.now))).x % 2 ^ sew else element_or_zero (lists_of (reading form (view_of at.now) regs.now (S.words file.now))) (i - 1)) }
{
    if i == 0 {
        Some(low(sew, number(form, at, regs)))
    } else {
        Some(source(form, file, at, regs, sew, most, u64::from(i) - 1))
    }
}

/// Element `i` of a slide down by one: the last, at vl - 1, is the integer register.
#[inline(always)]
fn slid_one_down<S: WordFile>(
    form: Form,
    file: &S,
    at: &Setting,
    regs: &Places,
    sew: u32,
    most: u32,
    i: u32,
) -> Option<u64>
    requires same { S.vlen file.now ≡ at.now.vlen }
    requires sound { IsSound (reading form (view_of at.now) regs.now (S.words file.now)) }
    requires vs2 { (operands_of form.family).vs2 ≡ Single }
    requires sew { sew ≡ sew_of (reading form (view_of at.now) regs.now (S.words file.now)) }
    requires width { IsTrue (is_width sew) }
    requires most { most ≡ vlmax at.now.vlen at.now.vtype }
    ensures { result ≡ Some (if i + 1 == at.now.vl then (lists_of (reading form (view_of at.now) regs.now (S.words file.now))).x % 2 ^ sew else element_or_zero (lists_of (reading form (view_of at.now) regs.now (S.words file.now))) (i + 1)) }
{
    if u64::from(i) + 1 == u64::from(at.vl) {
        Some(low(sew, number(form, at, regs)))
    } else {
        Some(source(form, file, at, regs, sew, most, u64::from(i) + 1))
    }
}

/// The index that a gather takes for element `i`: that of vs1, at a width, or the number in its place.
#[inline(always)]
fn gathered_index<S: WordFile>(
    form: Form,
    file: &S,
    at: &Setting,
    regs: &Places,
    width: u32,
    i: u32,
) -> u64
    requires same { S.vlen file.now ≡ at.now.vlen }
    requires sound { IsSound (reading form (view_of at.now) regs.now (S.words file.now)) }
    requires group { IsIndexed (reading form (view_of at.now) regs.now (S.words file.now)) }
    requires width { width ≡ vs1_width (reading form (view_of at.now) regs.now (S.words file.now)) }
    requires is_width { IsTrue (is_element_width width) }
    requires below { i < at.now.vl }
    ensures { result ≡ gather_index (lists_of (reading form (view_of at.now) regs.now (S.words file.now))) i }
{
    match form.first {
        First::Vector => element_at(file, at, regs.vs1, width, i),
        First::Integer => number(form, at, regs),
        First::Signed => number(form, at, regs),
        First::Unsigned => number(form, at, regs),
        First::Fixed => number(form, at, regs),
    }
}

/// Element `i` of a gather, whose indices have a width.
#[inline(always)]
fn gathered<S: WordFile>(
    form: Form,
    file: &S,
    at: &Setting,
    regs: &Places,
    sew: u32,
    most: u32,
    width: u32,
    i: u32,
) -> Option<u64>
    requires same { S.vlen file.now ≡ at.now.vlen }
    requires sound { IsSound (reading form (view_of at.now) regs.now (S.words file.now)) }
    requires vs2 { (operands_of form.family).vs2 ≡ Single }
    requires sew { sew ≡ sew_of (reading form (view_of at.now) regs.now (S.words file.now)) }
    requires width { IsTrue (is_width sew) }
    requires most { most ≡ vlmax at.now.vlen at.now.vtype }
    requires group { IsIndexed (reading form (view_of at.now) regs.now (S.words file.now)) }
    requires index { width ≡ vs1_width (reading form (view_of at.now) regs.now (S.words file.now)) }
    requires is_width { IsTrue (is_element_width width) }
    requires below { i < at.now.vl }
    ensures { result ≡ Some (element_or_zero (lists_of (reading form (view_of at.now) regs.now (S.words file.now))) (gather_index (lists_of (reading form (view_of at.now) regs.now (S.words file.now))) i)) }
{
    let index = gathered_index(form, file, at, regs, width, i);
    Some(source(form, file, at, regs, sew, most, index))
}

/// Word `w` of the destination of a slide or a gather, where `f` answers what an element becomes.
#[inline(always)]
fn by_index<S: WordFile, F: Fn(u32) -> Option<u64>>(
    form: Form,
    file: &S,
    at: &Setting,
    regs: &Places,
    sew: u32,
    w: u32,
    f: F,
) -> Word
    requires same { S.vlen file.now ≡ at.now.vlen }
    requires sound { IsSound (reading form (view_of at.now) regs.now (S.words file.now)) }
    requires kind { IsTrue (is_move form.family) }
    requires sew { sew ≡ sew_of (reading form (view_of at.now) regs.now (S.words file.now)) }
    requires width { IsTrue (is_width sew) }
    requires within { w < length (destination_words (reading form (view_of at.now) regs.now (S.words file.now))) }
    requires callable { (i : ℕ) → i < at.now.vl → F.pre f i }
    requires moves { (i : ℕ) → i < at.now.vl → (o : Option ℕ) → F.post f i o → o ≡ moved_by (rule_of form.family) (lists_of (reading form (view_of at.now) regs.now (S.words file.now))) i }
    ensures value { result.value ≡ made_word (reading form (view_of at.now) regs.now (S.words file.now)) w }
    ensures sat { result.sat ≡ word_saturates (reading form (view_of at.now) regs.now (S.words file.now)) w }
{
    moved_by_index(form, file, at, regs, sew, w, f)
}

/// Word `w` of the destination of a slide.
#[inline(always)]
fn slid_by_family<S: WordFile>(
    form: Form,
    file: &S,
    at: &Setting,
    regs: &Places,
    sew: u32,
    w: u32,
) -> Word
    requires same { S.vlen file.now ≡ at.now.vlen }
    requires sound { IsSound (reading form (view_of at.now) regs.now (S.words file.now)) }
    requires kind { IsTrue (is_slide form.family) }
    requires vs2 { (operands_of form.family).vs2 ≡ Single }
    requires sew { sew ≡ sew_of (reading form (view_of at.now) regs.now (S.words file.now)) }
    requires width { IsTrue (is_width sew) }
    requires within { w < length (destination_words (reading form (view_of at.now) regs.now (S.words file.now))) }
    ensures value { result.value ≡ made_word (reading form (view_of at.now) regs.now (S.words file.now)) w }
    ensures sat { result.sat ≡ word_saturates (reading form (view_of at.now) regs.now (S.words file.now)) w }
{
    let most = at.vlmax();
    match form.family {
        Family::Vslideup => by_index(
            form,
            file,
            at,
            regs,
            sew,
            w,
            |i| slid_up(form, file, at, regs, sew, most, i),
        ),
        Family::Vslidedown => by_index(
            form,
            file,
            at,
            regs,
            sew,
            w,
            |i| slid_down(form, file, at, regs, sew, most, i),
        ),
        Family::Vslide1up => by_index(
            form,
            file,
            at,
            regs,
            sew,
            w,
            |i| slid_one_up(form, file, at, regs, sew, most, i),
        ),
        Family::Vslide1down => by_index(
            form,
            file,
            at,
            regs,
            sew,
            w,
            |i| slid_one_down(form, file, at, regs, sew, most, i),
        ),
        _ => unreachable!(),
    }
}

/// The same. Each width stands as a literal, so that the loop over a word's lanes is one at a known width.
#[inline(never)]
pub(crate) fn slid_by_lanes<S: WordFile>(
    form: Form,
    file: &S,
    at: &Setting,
    regs: &Places,
    sew: u32,
    w: u32,
) -> Word
    requires same { S.vlen file.now ≡ at.now.vlen }
    requires sound { IsSound (reading form (view_of at.now) regs.now (S.words file.now)) }
    requires kind { IsTrue (is_slide form.family) }
    requires vs2 { (operands_of form.family).vs2 ≡ Single }
    requires sew { sew ≡ sew_of (reading form (view_of at.now) regs.now (S.words file.now)) }
    requires width { IsTrue (is_width sew) }
    requires within { w < length (destination_words (reading form (view_of at.now) regs.now (S.words file.now))) }
    ensures value { result.value ≡ made_word (reading form (view_of at.now) regs.now (S.words file.now)) w }
    ensures sat { result.sat ≡ word_saturates (reading form (view_of at.now) regs.now (S.words file.now)) w }
{
    match sew {
        8 => slid_by_family(form, file, at, regs, 8, w),
        16 => slid_by_family(form, file, at, regs, 16, w),
        32 => slid_by_family(form, file, at, regs, 32, w),
        _ => slid_by_family(form, file, at, regs, sew, w),
    }
}

/// From which element of vs2 on all elements of a word of a slide are taken, where all are active and taken from there. The
/// first of them is element `first`, and there are `count`.
#[inline(always)]
fn whole_run(
    form: Form,
    at: &Setting,
    regs: &Places,
    most: u32,
    first: u32,
    count: u32,
) -> Option<u32>
    requires slides { IsTrue (is_slide form.family) }
    requires most { most ≡ vlmax at.now.vlen at.now.vtype }
    requires few_elements { at.now.vl ≤ most }
    requires small { first + count < 4294967296 }
    ensures run { (words : List ℕ) (from : ℕ) → result ≡ Some from → IsRun (reading form (view_of at.now) regs.now words) first count from }
    ensures active { (words : List ℕ) (from : ℕ) → result ≡ Some from → (is_unmasked (reading form (view_of at.now) regs.now words) && nat_le at.now.vstart first && nat_le (first + count) at.now.vl) ≡ true }
{
    if are_active(form, at, regs, first, count) {
        run_of(form.family, form, at, regs, most, first, count)
    } else {
        None
    }
}

/// The same: a word of which all elements are active and stand in a row in vs2 is made of the two words there.
#[inline(always)]
pub(crate) fn slid_word<S: WordFile>(
    form: Form,
    file: &S,
    at: &Setting,
    regs: &Places,
    sew: u32,
    w: u32,
) -> Word
    requires same { S.vlen file.now ≡ at.now.vlen }
    requires sound { IsSound (reading form (view_of at.now) regs.now (S.words file.now)) }
    requires kind { IsTrue (is_slide form.family) }
    requires vs2 { (operands_of form.family).vs2 ≡ Single }
    requires sew { sew ≡ sew_of (reading form (view_of at.now) regs.now (S.words file.now)) }
    requires width { IsTrue (is_width sew) }
    requires within { w < length (destination_words (reading form (view_of at.now) regs.now (S.words file.now))) }
    ensures value { result.value ≡ made_word (reading form (view_of at.now) regs.now (S.words file.now)) w }
    ensures sat { result.sat ≡ word_saturates (reading form (view_of at.now) regs.now (S.words file.now)) w }
{
    joined_by_elements();
    elements_are_lanes();
    let per_word = 64 / sew;
    match whole_run(form, at, regs, at.vlmax(), w * per_word, per_word) {
        Some(from) => Word {
            value: elements_from(file, at, regs.vs2, sew, from),
            sat: false,
        },
        None => slid_by_lanes(form, file, at, regs, sew, w),
    }
}

/// Word `w` of the destination of a gather.
#[inline(always)]
fn gathered_by_index<S: WordFile>(
    form: Form,
    file: &S,
    at: &Setting,
    regs: &Places,
    sew: u32,
    w: u32,
) -> Word
    requires same { S.vlen file.now ≡ at.now.vlen }
    requires sound { IsSound (reading form (view_of at.now) regs.now (S.words file.now)) }
    requires kind { IsTrue (is_gather form.family) }
    requires group { IsIndexed (reading form (view_of at.now) regs.now (S.words file.now)) }
    requires vs2 { (operands_of form.family).vs2 ≡ Single }
    requires sew { sew ≡ sew_of (reading form (view_of at.now) regs.now (S.words file.now)) }
    requires width { IsTrue (is_width sew) }
    requires within { w < length (destination_words (reading form (view_of at.now) regs.now (S.words file.now))) }
    ensures value { result.value ≡ made_word (reading form (view_of at.now) regs.now (S.words file.now)) w }
    ensures sat { result.sat ≡ word_saturates (reading form (view_of at.now) regs.now (S.words file.now)) w }
{
    let most = at.vlmax();
    let width = index_width(form.family, sew);
    by_index(
        form,
        file,
        at,
        regs,
        sew,
        w,
        |i| gathered(form, file, at, regs, sew, most, width, i),
    )
}

/// The same. Each width stands as a literal.
#[inline(never)]
fn gathered_by_lanes<S: WordFile>(
    form: Form,
    file: &S,
    at: &Setting,
    regs: &Places,
    sew: u32,
    w: u32,
) -> Word
    requires same { S.vlen file.now ≡ at.now.vlen }
    requires sound { IsSound (reading form (view_of at.now) regs.now (S.words file.now)) }
    requires kind { IsTrue (is_gather form.family) }
    requires group { IsIndexed (reading form (view_of at.now) regs.now (S.words file.now)) }
    requires vs2 { (operands_of form.family).vs2 ≡ Single }
    requires sew { sew ≡ sew_of (reading form (view_of at.now) regs.now (S.words file.now)) }
    requires width { IsTrue (is_width sew) }
    requires within { w < length (destination_words (reading form (view_of at.now) regs.now (S.words file.now))) }
    ensures value { result.value ≡ made_word (reading form (view_of at.now) regs.now (S.words file.now)) w }
    ensures sat { result.sat ≡ word_saturates (reading form (view_of at.now) regs.now (S.words file.now)) w }
{
    match sew {
        8 => gathered_by_index(form, file, at, regs, 8, w),
        16 => gathered_by_index(form, file, at, regs, 16, w),
        32 => gathered_by_index(form, file, at, regs, 32, w),
        _ => gathered_by_index(form, file, at, regs, sew, w),
    }
}

/// Whether a row is a gather whose indices stand in a register and have SEW.
#[inline(always)]
fn is_even_gather(form: Form) -> bool
    ensures family { result ≡ true → form.family ≡ Vrgather }
    ensures register { result ≡ true → form.first ≡ Vector }
{
    match form.family {
        Family::Vrgather => match form.first {
            First::Vector => true,
            First::Integer => false,
            First::Signed => false,
            First::Unsigned => false,
            First::Fixed => false,
        },
        _ => false,
    }
}

/// The elements of vs2 at the indices in a word, as many as there are in it.
#[inline(always)]
fn gathered_lanes<S: WordFile>(
    form: Form,
    file: &S,
    at: &Setting,
    regs: &Places,
    sew: u32,
    most: u32,
    indices: u64,
) -> u64
    requires same { S.vlen file.now ≡ at.now.vlen }
    requires sound { IsSound (reading form (view_of at.now) regs.now (S.words file.now)) }
    requires vs2 { (operands_of form.family).vs2 ≡ Single }
    requires sew { sew ≡ sew_of (reading form (view_of at.now) regs.now (S.words file.now)) }
    requires width { IsTrue (is_width sew) }
    requires most { most ≡ vlmax at.now.vlen at.now.vtype }
    ensures { result ≡ joined sew (64 / sew) (λ k. element_or_zero (lists_of (reading form (view_of at.now) regs.now (S.words file.now))) (lane sew indices k)) }
{
    let mut value = 0;
    for k in 0..64 / sew {
        let index = lane_at(sew, indices, k);
        let next = source(form, file, at, regs, sew, most, index);
        value = beside(sew, k, value, 1, low(sew, next));
    }
    value
}

/// Word `w` of the destination of a gather, where all its elements are active, and their indices stand in word `w` of vs1.
#[inline(always)]
fn gathered_whole<S: WordFile>(
    form: Form,
    file: &S,
    at: &Setting,
    regs: &Places,
    sew: u32,
    w: u32,
) -> u64
    requires same { S.vlen file.now ≡ at.now.vlen }
    requires sound { IsSound (reading form (view_of at.now) regs.now (S.words file.now)) }
    requires family { form.family ≡ Vrgather }
    requires register { form.first ≡ Vector }
    requires group { IsIndexed (reading form (view_of at.now) regs.now (S.words file.now)) }
    requires vs2 { (operands_of form.family).vs2 ≡ Single }
    requires sew { sew ≡ sew_of (reading form (view_of at.now) regs.now (S.words file.now)) }
    requires width { IsTrue (is_width sew) }
    requires below { w * (64 / sew) + 64 / sew ≤ at.now.vl }
    ensures { result ≡ joined sew (64 / sew) (λ k. element_or_zero (lists_of (reading form (view_of at.now) regs.now (S.words file.now))) (gather_index (lists_of (reading form (view_of at.now) regs.now (S.words file.now))) (w * (64 / sew) + k))) }
{
    joined_by_elements();
    elements_are_lanes();
    let indices = group_word(file, at, regs.vs1, w);
    gathered_lanes(form, file, at, regs, sew, at.vlmax(), indices)
}

/// The same: the indices of a word of which all elements are active are read at once.
#[inline(always)]
pub(crate) fn gathered_word<S: WordFile>(
    form: Form,
    file: &S,
    at: &Setting,
    regs: &Places,
    sew: u32,
    w: u32,
) -> Word
    requires same { S.vlen file.now ≡ at.now.vlen }
    requires sound { IsSound (reading form (view_of at.now) regs.now (S.words file.now)) }
    requires kind { IsTrue (is_gather form.family) }
    requires group { IsIndexed (reading form (view_of at.now) regs.now (S.words file.now)) }
    requires vs2 { (operands_of form.family).vs2 ≡ Single }
    requires sew { sew ≡ sew_of (reading form (view_of at.now) regs.now (S.words file.now)) }
    requires width { IsTrue (is_width sew) }
    requires within { w < length (destination_words (reading form (view_of at.now) regs.now (S.words file.now))) }
    ensures value { result.value ≡ made_word (reading form (view_of at.now) regs.now (S.words file.now)) w }
    ensures sat { result.sat ≡ word_saturates (reading form (view_of at.now) regs.now (S.words file.now)) w }
{
    joined_by_elements();
    elements_are_lanes();
    let per_word = 64 / sew;
    if is_even_gather(form) && are_active(form, at, regs, w * per_word, per_word) {
        Word {
            value: gathered_whole(form, file, at, regs, sew, w),
            sat: false,
        }
    } else {
        gathered_by_lanes(form, file, at, regs, sew, w)
    }
}
