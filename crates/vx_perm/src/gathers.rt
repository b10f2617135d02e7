ghost use Rattle.vx_vstate.specs.Views.{view_of};
ghost use Rattle.std.specs.Prelude.{IsTrue, true, false, ◌≡◌, ℕ, ◌+◌, ◌*◌, ◌/◌, ◌<◌, ◌≤◌, length, slice_index};
ghost use Rattle.vx_bits.specs.Width.{is_width};
ghost use Rattle.vx_operands.specs.Forms.{reading};
ghost use Rattle.vx_packed.specs.Joined.{joined, lane};
ghost use Rattle.vx_perm.specs.Kinds.{IsIndexed, is_gather};
ghost use Rattle.vx_rows.specs.Families.{operands_of};
ghost use Rattle.vx_rows.specs.declared.family.Operand.TheVariants.{Single};
ghost use Rattle.vx_rows.specs.declared.row.First.TheVariants.{Vector};
ghost use Rattle.vx_vector.specs.Arithmetic.{words_after};
ghost use Rattle.vx_vector.specs.Laws.{IsSound};
ghost use Rattle.vx_vector.specs.Lists.{element_or_zero, gather_index};
ghost use Rattle.vx_vector.specs.Reading.{lists_of, number_by, sew_of, vs1_width};
ghost use Rattle.vx_vector.specs.Words.{destination_words};
ghost use Rattle.vx_vstate.specs.Registers.{element, element_word, is_element_width, place_of, words_of_all, word_at};
ghost use Rattle.vx_vstate.specs.Vtype.{vlmax};

use crate::elements::number;
use vx_bits::low;
use vx_operands::{Form, full_count, group_place, has_few_elements, is_group, lane_at, word_in};
use vx_packed::{beside, joined_by_elements, splat};
use vx_rows::{Family, First};
use vx_vector::{Places, elements_are_lanes, words_are_made};
use vx_vstate::Setting;

/// Element `i` of a width of the group whose words begin at a place.
#[inline(always)]
fn element_in(words: &[u64], at: &Setting, register: u8, place: usize, width: u32, i: u32) -> u64
    requires all { length words.now ≡ words_of_all at.now.vlen }
    requires place { place ≡ place_of at.now.vlen register 0 }
    requires below { place < 65536 }
    requires width { IsTrue (is_element_width width) }
    requires small { i ≤ 65536 }
    requires within { place_of at.now.vlen register (element_word width i) < words_of_all at.now.vlen }
    ensures { result ≡ element at.now.vlen words.now register width i }
{
    let bit = i * width;
    low(
        width,
        word_in(words, place + bit as usize / 64) >> (bit % 64),
    )
}

/// Element `i` of vs2, or 0 where there is none.
#[inline(always)]
fn source_in(
    form: Form,
    words: &[u64],
    at: &Setting,
    regs: &Places,
    sew: u32,
    most: u32,
    place: usize,
    i: u64,
) -> u64
    requires sound { IsSound (reading form (view_of at.now) regs.now words.now) }
    requires vs2 { (operands_of form.family).vs2 ≡ Single }
    requires sew { sew ≡ sew_of (reading form (view_of at.now) regs.now words.now) }
    requires width { IsTrue (is_element_width sew) }
    requires most { most ≡ vlmax at.now.vlen at.now.vtype }
    requires few { most ≤ 65536 }
    requires place { place ≡ place_of at.now.vlen regs.now.vs2 0 }
    requires near { place < 65536 }
    ensures { result ≡ element_or_zero (lists_of (reading form (view_of at.now) regs.now words.now)) i }
{
    if i < u64::from(most) {
        element_in(words, at, regs.vs2, place, sew, i as u32)
    } else {
        0
    }
}

/// The elements of vs2 at the indices in a word, as many as there are in it.
#[inline(always)]
fn even_lanes(
    form: Form,
    words: &[u64],
    at: &Setting,
    regs: &Places,
    sew: u32,
    most: u32,
    place: usize,
    indices: u64,
) -> u64
    requires sound { IsSound (reading form (view_of at.now) regs.now words.now) }
    requires vs2 { (operands_of form.family).vs2 ≡ Single }
    requires sew { sew ≡ sew_of (reading form (view_of at.now) regs.now words.now) }
    requires width { IsTrue (is_width sew) }
    requires most { most ≡ vlmax at.now.vlen at.now.vtype }
    requires few { most ≤ 65536 }
    requires place { place ≡ place_of at.now.vlen regs.now.vs2 0 }
    requires near { place < 65536 }
    ensures { result ≡ joined sew (64 / sew) (λ k. element_or_zero (lists_of (reading form (view_of at.now) regs.now words.now)) (lane sew indices k)) }
{
    let mut value = 0;
    for k in 0..64 / sew {
        let index = lane_at(sew, indices, k);
        let next = source_in(form, words, at, regs, sew, most, place, index);
        value = beside(sew, k, value, 1, low(sew, next));
    }
    value
}

/// The elements of vs2 for word `w` of the destination, whose indices have 16 bits and stand in the group whose words begin at
/// a place.
#[inline(always)]
fn narrow_lanes(
    form: Form,
    words: &[u64],
    at: &Setting,
    regs: &Places,
    sew: u32,
    most: u32,
    place: usize,
    indices: usize,
    w: u32,
) -> u64
    requires sound { IsSound (reading form (view_of at.now) regs.now words.now) }
    requires group { IsIndexed (reading form (view_of at.now) regs.now words.now) }
    requires register { form.first ≡ Vector }
    requires index { 16 ≡ vs1_width (reading form (view_of at.now) regs.now words.now) }
    requires vs2 { (operands_of form.family).vs2 ≡ Single }
    requires sew { sew ≡ sew_of (reading form (view_of at.now) regs.now words.now) }
    requires width { IsTrue (is_width sew) }
    requires most { most ≡ vlmax at.now.vlen at.now.vtype }
    requires few { most ≤ 65536 }
    requires few_elements { at.now.vl ≤ 65536 }
    requires place { place ≡ place_of at.now.vlen regs.now.vs2 0 }
    requires near { place < 65536 }
    requires indices { indices ≡ place_of at.now.vlen regs.now.vs1 0 }
    requires indices_near { indices < 65536 }
    requires below { w * (64 / sew) + 64 / sew ≤ at.now.vl }
    ensures { result ≡ joined sew (64 / sew) (λ k. element_or_zero (lists_of (reading form (view_of at.now) regs.now words.now)) (gather_index (lists_of (reading form (view_of at.now) regs.now words.now)) (w * (64 / sew) + k))) }
{
    let first = w * (64 / sew);
    let mut value = 0;
    for k in 0..64 / sew {
        let index = element_in(words, at, regs.vs1, indices, 16, first + k);
        let next = source_in(form, words, at, regs, sew, most, place, index);
        value = beside(sew, k, value, 1, low(sew, next));
    }
    value
}

/// The elements of vs2 for word `w` of the destination. The family is named, and whether there is a register of indices: where
/// there is none, all words are one.
#[inline(always)]
fn gathered_lanes(
    family: Family,
    is_group: bool,
    form: Form,
    words: &[u64],
    at: &Setting,
    regs: &Places,
    sew: u32,
    most: u32,
    place: usize,
    indices: usize,
    fixed: u64,
    w: u32,
) -> u64
    requires family { form.family ≡ family }
    requires gathers { IsTrue (is_gather family) }
    requires registers { is_group ≡ true → form.first ≡ Vector }
    requires other { is_group ≡ false → form.first ≡ Vector → ⊥ }
    requires fixed { fixed ≡ joined sew (64 / sew) (λ k. element_or_zero (lists_of (reading form (view_of at.now) regs.now words.now)) (number_by (reading form (view_of at.now) regs.now words.now) form.first)) }
    requires sound { IsSound (reading form (view_of at.now) regs.now words.now) }
    requires group { IsIndexed (reading form (view_of at.now) regs.now words.now) }
    requires vs2 { (operands_of form.family).vs2 ≡ Single }
    requires sew { sew ≡ sew_of (reading form (view_of at.now) regs.now words.now) }
    requires width { IsTrue (is_width sew) }
    requires most { most ≡ vlmax at.now.vlen at.now.vtype }
    requires few { most ≤ 65536 }
    requires few_elements { at.now.vl ≤ 65536 }
    requires place { place ≡ place_of at.now.vlen regs.now.vs2 0 }
    requires near { place < 65536 }
    requires indices { indices ≡ place_of at.now.vlen regs.now.vs1 0 }
    requires indices_near { indices < 65536 }
    requires below { w * (64 / sew) + 64 / sew ≤ at.now.vl }
    ensures { result ≡ joined sew (64 / sew) (λ k. element_or_zero (lists_of (reading form (view_of at.now) regs.now words.now)) (gather_index (lists_of (reading form (view_of at.now) regs.now words.now)) (w * (64 / sew) + k))) }
{
    joined_by_elements();
    elements_are_lanes();
    if !is_group {
        return fixed;
    }
    match family {
        Family::Vrgather => {
            let word = word_in(words, indices + w as usize);
            even_lanes(form, words, at, regs, sew, most, place, word)
        }
        Family::Vrgatherei16 => {
            narrow_lanes(form, words, at, regs, sew, most, place, indices, w)
        }
        _ => unreachable!(),
    }
}

/// The first words of the destination of a gather, where all elements of them are active. The family is named, and whether
/// there is a register of indices, so that the loop goes through no dispatch.
#[inline(always)]
fn gathered_words(
    family: Family,
    is_group: bool,
    form: Form,
    words: &[u64],
    at: &Setting,
    regs: &Places,
    sew: u32,
    count: u32,
    made: &mut [u64],
)
    requires family { form.family ≡ family }
    requires gathers { IsTrue (is_gather family) }
    requires registers { is_group ≡ true → form.first ≡ Vector }
    requires other { is_group ≡ false → form.first ≡ Vector → ⊥ }
    requires sound { IsSound (reading form (view_of at.now) regs.now words.now) }
    requires group { IsIndexed (reading form (view_of at.now) regs.now words.now) }
    requires vs2 { (operands_of form.family).vs2 ≡ Single }
    requires sew { sew ≡ sew_of (reading form (view_of at.now) regs.now words.now) }
    requires width { IsTrue (is_width sew) }
    requires below { count * (64 / sew) ≤ at.now.vl }
    requires start { 0 < count → at.now.vstart ≡ 0 }
    requires unmasked { 0 < count → regs.now.vm ≡ true }
    requires within { (k : ℕ) → k < count → k < length (destination_words (reading form (view_of at.now) regs.now words.now)) }
    requires room { count ≤ length made.old }
    ensures room { length made.new ≡ length made.old }
    ensures made { (k : ℕ) → k < count → slice_index made.new k ≡ word_at at.now.vlen (words_after (reading form (view_of at.now) regs.now words.now)) regs.now.vd k }
{
    joined_by_elements();
    elements_are_lanes();
    words_are_made();
    has_few_elements(at);
    let most = at.vlmax();
    let place = group_place(at, regs.vs2);
    let indices = group_place(at, regs.vs1);
    let old = group_place(at, regs.vd);
    let index = number(form, at, regs);
    let fixed = splat(
        sew,
        source_in(form, words, at, regs, sew, most, place, index),
    );
    for w in 0..count {
        let _old = word_in(words, old + w as usize);
        made[w as usize] = gathered_lanes(
            family, is_group, form, words, at, regs, sew, most, place, indices, fixed, w,
        );
    }
}

/// The same, with a loop of its own for each family.
#[inline(always)]
fn gathered_by_family(
    form: Form,
    words: &[u64],
    at: &Setting,
    regs: &Places,
    sew: u32,
    count: u32,
    made: &mut [u64],
)
    requires gathers { IsTrue (is_gather form.family) }
    requires sound { IsSound (reading form (view_of at.now) regs.now words.now) }
    requires group { IsIndexed (reading form (view_of at.now) regs.now words.now) }
    requires vs2 { (operands_of form.family).vs2 ≡ Single }
    requires sew { sew ≡ sew_of (reading form (view_of at.now) regs.now words.now) }
    requires width { IsTrue (is_width sew) }
    requires below { count * (64 / sew) ≤ at.now.vl }
    requires start { 0 < count → at.now.vstart ≡ 0 }
    requires unmasked { 0 < count → regs.now.vm ≡ true }
    requires within { (k : ℕ) → k < count → k < length (destination_words (reading form (view_of at.now) regs.now words.now)) }
    requires room { count ≤ length made.old }
    ensures room { length made.new ≡ length made.old }
    ensures made { (k : ℕ) → k < count → slice_index made.new k ≡ word_at at.now.vlen (words_after (reading form (view_of at.now) regs.now words.now)) regs.now.vd k }
{
    match form.family {
        Family::Vrgather => {
            if is_group(form.first) {
                gathered_words(
                    Family::Vrgather,
                    true,
                    form,
                    words,
                    at,
                    regs,
                    sew,
                    count,
                    made,
                )
            } else {
                gathered_words(
                    Family::Vrgather,
                    false,
                    form,
                    words,
                    at,
                    regs,
                    sew,
                    count,
                    made,
                )
            }
        }
        family => gathered_words(
            family,
            is_group(form.first),
            form,
            words,
            at,
            regs,
            sew,
            count,
            made,
        ),
    }
}

/// The first words of the destination of a gather, as many as have only active elements. Answers how many.
#[inline(always)]
pub(crate) fn gathered_first(
    form: Form,
    words: &[u64],
    at: &Setting,
    regs: &Places,
    most: u32,
    made: &mut [u64],
) -> u32
    requires gathers { IsTrue (is_gather form.family) }
    requires sound { IsSound (reading form (view_of at.now) regs.now words.now) }
    requires group { IsIndexed (reading form (view_of at.now) regs.now words.now) }
    requires vs2 { (operands_of form.family).vs2 ≡ Single }
    requires within { (k : ℕ) → k < most → k < length (destination_words (reading form (view_of at.now) regs.now words.now)) }
    requires room { most ≤ length made.old }
    ensures most { result ≤ most }
    ensures room { length made.new ≡ length made.old }
    ensures made { (k : ℕ) → k < result → slice_index made.new k ≡ word_at at.now.vlen (words_after (reading form (view_of at.now) regs.now words.now)) regs.now.vd k }
{
    let sew = at.sew();
    let count = full_count(at, regs, 64 / sew, most);
    match sew {
        8 => gathered_by_family(form, words, at, regs, 8, count, made),
        16 => gathered_by_family(form, words, at, regs, 16, count, made),
        32 => gathered_by_family(form, words, at, regs, 32, count, made),
        _ => gathered_by_family(form, words, at, regs, 64, count, made),
    }
    count
}
