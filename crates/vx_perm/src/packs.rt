ghost use Rattle.vx_vstate.specs.Views.{view_of};
ghost use Rattle.std.specs.Prelude.{IsTrue, true, if◌then◌else◌, ◌≡◌, ℕ, ◌+◌, ◌*◌, ◌/◌, ◌%◌, ◌^◌, ◌<◌, ◌≤◌, ◌==◌, ◌&&◌, nat_lt, length};
ghost use Rattle.vx_bits.specs.Width.{is_width};
ghost use Rattle.vx_operands.specs.Forms.{reading};
ghost use Rattle.vx_operands.specs.Rising.{count_below};
ghost use Rattle.vx_packed.specs.Joined.{joined, lane};
ghost use Rattle.vx_perm.specs.Kinds.{IsPassed, chooses, is_pack};
ghost use Rattle.vx_perm.specs.declared.packs.Passed.{Passed};
ghost use Rattle.vx_rows.specs.Families.{operands_of};
ghost use Rattle.vx_rows.specs.declared.family.Family.TheVariants.{Vcompress};
ghost use Rattle.vx_rows.specs.declared.row.First.TheVariants.{Vector};
ghost use Rattle.vx_vector.specs.Arithmetic.{becomes};
ghost use Rattle.vx_vector.specs.Laws.{IsSound, made_word, value_after, word_saturates};
ghost use Rattle.vx_vector.specs.Reading.{sew_of};
ghost use Rattle.vx_vector.specs.Words.{destination_words};

use crate::elements::element_at;
use vx_bits::low;
use vx_operands::{Form, group_word, lane_at, ones};
use vx_packed::{active_lanes, beside, joined_by_elements};
use vx_rows::Family;
use vx_vector::{Places, Word, elements_are_lanes};
use vx_vstate::{Setting, WordFile, elements_lie_in_their_group};

/// How many elements of vs2 were passed, and how many of them the mask chooses.
#[derive(Clone, Copy, PartialEq, Eq, Debug)]
pub(crate) struct Passed {
    pub elements: u32,
    pub chosen: u32,
}

/// Whether a family packs elements.
#[inline(always)]
pub(crate) fn is_pack(family: Family) -> bool
    ensures { result ≡ is_pack family }
{
    match family {
        Family::Vcompress => true,
        _ => false,
    }
}

/// How many elements of word `v` of the mask are chosen, of those below vl.
#[inline(always)]
fn chosen_in_word<S: WordFile>(form: Form, file: &S, at: &Setting, regs: &Places, v: u32) -> u32
    requires same { S.vlen file.now ≡ at.now.vlen }
    requires sound { IsSound (reading form (view_of at.now) regs.now (S.words file.now)) }
    requires family { form.family ≡ Vcompress }
    requires register { form.first ≡ Vector }
    requires begins { v * 64 < at.now.vl }
    requires few_elements { at.now.vl ≤ 65536 }
    ensures value { result ≡ count_below (λ k. nat_lt (v * 64 + k) at.now.vl && chooses (reading form (view_of at.now) regs.now (S.words file.now)) (v * 64 + k)) 64 }
    ensures few { result ≤ 64 }
{
    elements_are_lanes();
    elements_lie_in_their_group();
    let mask = group_word(file, at, regs.vs1, v);
    ones(active_lanes(64, v * 64, 0, at.vl, mask))
}

/// As many whole words of the mask as choose no more than so many elements, up to vl.
#[inline(always)]
fn pass_words<S: WordFile>(form: Form, file: &S, at: &Setting, regs: &Places, target: u32) -> Passed
    requires same { S.vlen file.now ≡ at.now.vlen }
    requires sound { IsSound (reading form (view_of at.now) regs.now (S.words file.now)) }
    requires family { form.family ≡ Vcompress }
    requires register { form.first ≡ Vector }
    requires few_elements { at.now.vl ≤ 65536 }
    ensures { IsPassed (reading form (view_of at.now) regs.now (S.words file.now)) target result }
{
    let mut chosen = 0;
    for v in 0..at.vl.div_ceil(64) {
        let more = chosen_in_word(form, file, at, regs, v);
        if target < chosen + more {
            return Passed {
                elements: v * 64,
                chosen,
            };
        }
        chosen += more;
    }
    Passed {
        elements: at.vl,
        chosen,
    }
}

/// Whether the mask chooses element `i`.
#[inline(always)]
fn is_chosen<S: WordFile>(form: Form, file: &S, at: &Setting, regs: &Places, i: u32) -> bool
    requires same { S.vlen file.now ≡ at.now.vlen }
    requires sound { IsSound (reading form (view_of at.now) regs.now (S.words file.now)) }
    requires family { form.family ≡ Vcompress }
    requires register { form.first ≡ Vector }
    requires below { i < at.now.vl }
    ensures { result ≡ chooses (reading form (view_of at.now) regs.now (S.words file.now)) i }
{
    elements_lie_in_their_group();
    element_at(file, at, regs.vs1, 1, i) == 1
}

/// Whether an element is the one that is chosen behind so many others.
#[inline(always)]
fn is_found(here: bool, chosen: u32, target: u32) -> bool
    ensures { result ≡ (here && chosen == target) }
{
    here && chosen == target
}

/// 1 where a condition holds.
#[inline(always)]
fn one_where(here: bool) -> u32
    ensures { result ≡ (if here then 1 else 0) }
{
    if here { 1 } else { 0 }
}

/// On to the element that is chosen behind so many others, or to vl where there is none.
#[inline(always)]
fn seek<S: WordFile>(
    form: Form,
    file: &S,
    at: &Setting,
    regs: &Places,
    from: Passed,
    target: u32,
) -> Passed
    requires same { S.vlen file.now ≡ at.now.vlen }
    requires sound { IsSound (reading form (view_of at.now) regs.now (S.words file.now)) }
    requires family { form.family ≡ Vcompress }
    requires register { form.first ≡ Vector }
    requires few_elements { at.now.vl ≤ 65536 }
    requires passed { IsPassed (reading form (view_of at.now) regs.now (S.words file.now)) target from }
    ensures passed { IsPassed (reading form (view_of at.now) regs.now (S.words file.now)) target result }
    ensures there { result.elements < at.now.vl → (chooses (reading form (view_of at.now) regs.now (S.words file.now)) result.elements ≡ true) × (result.chosen ≡ target) }
{
    let mut chosen = from.chosen;
    for i in from.elements..at.vl {
        let here = is_chosen(form, file, at, regs, i);
        if is_found(here, chosen, target) {
            return Passed {
                elements: i,
                chosen,
            };
        }
        chosen += one_where(here);
    }
    Passed {
        elements: at.vl,
        chosen,
    }
}

/// Element `target` of the destination: the one of vs2 that was sought, or the old one where there is none.
#[inline(always)]
fn packed_element<S: WordFile>(
    form: Form,
    file: &S,
    at: &Setting,
    regs: &Places,
    sew: u32,
    target: u32,
    found: Passed,
    old: u64,
) -> u64
    requires same { S.vlen file.now ≡ at.now.vlen }
    requires sound { IsSound (reading form (view_of at.now) regs.now (S.words file.now)) }
    requires family { form.family ≡ Vcompress }
    requires register { form.first ≡ Vector }
    requires sew { sew ≡ sew_of (reading form (view_of at.now) regs.now (S.words file.now)) }
    requires width { IsTrue (is_width sew) }
    requires passed { IsPassed (reading form (view_of at.now) regs.now (S.words file.now)) target found }
    requires there { found.elements < at.now.vl → (chooses (reading form (view_of at.now) regs.now (S.words file.now)) found.elements ≡ true) × (found.chosen ≡ target) }
    ensures { result ≡ value_after (becomes (reading form (view_of at.now) regs.now (S.words file.now)) target) old }
{
    if found.elements < at.vl {
        element_at(file, at, regs.vs2, sew, found.elements)
    } else {
        old
    }
}

/// The word with so many elements, from element `first` of the destination on.
#[inline(always)]
fn packed_lanes<S: WordFile>(
    form: Form,
    file: &S,
    at: &Setting,
    regs: &Places,
    sew: u32,
    count: u32,
    first: u32,
    old: u64,
) -> u64
    requires same { S.vlen file.now ≡ at.now.vlen }
    requires sound { IsSound (reading form (view_of at.now) regs.now (S.words file.now)) }
    requires family { form.family ≡ Vcompress }
    requires register { form.first ≡ Vector }
    requires sew { sew ≡ sew_of (reading form (view_of at.now) regs.now (S.words file.now)) }
    requires width { IsTrue (is_width sew) }
    requires fits { count * sew ≤ 64 }
    requires few_elements { at.now.vl ≤ 65536 }
    requires begins { first ≤ 65536 }
    requires few { count ≤ 64 }
    ensures { result ≡ joined sew count (λ k. value_after (becomes (reading form (view_of at.now) regs.now (S.words file.now)) (first + k)) (lane sew old k)) }
{
    joined_by_elements();
    let mut passed = pass_words(form, file, at, regs, first);
    let mut value = 0;
    for k in 0..count {
        passed = seek(form, file, at, regs, passed, first + k);
        let before = lane_at(sew, old, k);
        let next = packed_element(form, file, at, regs, sew, first + k, passed, before);
        value = beside(sew, k, value, 1, low(sew, next));
    }
    value
}

/// Word `w` of the destination of a row that packs elements.
#[inline(never)]
pub(crate) fn packed_word<S: WordFile>(
    form: Form,
    file: &S,
    at: &Setting,
    regs: &Places,
    sew: u32,
    w: u32,
) -> Word
    requires same { S.vlen file.now ≡ at.now.vlen }
    requires sound { IsSound (reading form (view_of at.now) regs.now (S.words file.now)) }
    requires family { form.family ≡ Vcompress }
    requires register { form.first ≡ Vector }
    requires sew { sew ≡ sew_of (reading form (view_of at.now) regs.now (S.words file.now)) }
    requires width { IsTrue (is_width sew) }
    requires few_elements { at.now.vl ≤ 65536 }
    requires within { w < length (destination_words (reading form (view_of at.now) regs.now (S.words file.now))) }
    ensures value { result.value ≡ made_word (reading form (view_of at.now) regs.now (S.words file.now)) w }
    ensures sat { result.sat ≡ word_saturates (reading form (view_of at.now) regs.now (S.words file.now)) w }
{
    joined_by_elements();
    elements_are_lanes();
    let old = group_word(file, at, regs.vd, w);
    let per_word = 64 / sew;
    let value = packed_lanes(form, file, at, regs, sew, per_word, w * per_word, old);
    Word { value, sat: false }
}
