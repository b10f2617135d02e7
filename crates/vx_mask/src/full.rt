ghost use Rattle.vx_vstate.specs.Views.{view_of};
ghost use Rattle.std.specs.Prelude.{IsTrue, true, false, ◌≡◌, ℕ, ◌+◌, ◌*◌, ◌<◌, ◌≤◌, length, slice_index};
ghost use Rattle.vx_mask.specs.Kinds.{is_logic, is_mask, is_mask_form};
ghost use Rattle.vx_operands.specs.Forms.{form_of, reading};
ghost use Rattle.vx_rows.specs.declared.row.First.TheVariants.{Vector};
ghost use Rattle.vx_vector.specs.Arithmetic.{words_after};
ghost use Rattle.vx_vector.specs.Laws.{IsSound, word_saturates};
ghost use Rattle.vx_vector.specs.Words.{destination_words};
ghost use Rattle.vx_vstate.specs.Registers.{place_of, word_at};

use crate::form::form_of;
use crate::kinds::is_logic;
use crate::logic::bits_of;
use vx_operands::{Form, full_count, group_place, word_in};
use vx_packed::{joined_by_elements, merge_bits};
use vx_rows::{Family, Op};
use vx_vector::{Places, elements_are_lanes, words_are_made};
use vx_vstate::Setting;

/// Where the groups of a row of mask logic begin among the words of all registers.
#[derive(Clone, Copy)]
struct Groups {
    vs2: usize,
    vs1: usize,
    vd: usize,
}

/// Word `w` of the destination of mask logic, all of whose elements are active. The family is named, so that no word goes
/// through a dispatch.
#[inline(always)]
fn logic_value(
    family: Family,
    form: Form,
    words: &[u64],
    at: &Setting,
    regs: &Places,
    groups: Groups,
    w: usize,
) -> u64
    requires family { family ≡ form.family }
    requires kind { IsTrue (is_logic family) }
    requires sound { IsSound (reading form (view_of at.now) regs.now words.now) }
    requires logic { IsTrue (is_logic form.family) }
    requires registers { form.first ≡ Vector }
    requires vs2 { groups.vs2 ≡ place_of at.now.vlen regs.now.vs2 0 }
    requires vs1 { groups.vs1 ≡ place_of at.now.vlen regs.now.vs1 0 }
    requires vd { groups.vd ≡ place_of at.now.vlen regs.now.vd 0 }
    requires below { (w + 1) * 64 ≤ at.now.vl }
    requires start { at.now.vstart ≡ 0 }
    requires unmasked { regs.now.vm ≡ true }
    requires within { w < length (destination_words (reading form (view_of at.now) regs.now words.now)) }
    ensures { result ≡ word_at at.now.vlen (words_after (reading form (view_of at.now) regs.now words.now)) regs.now.vd w }
{
    joined_by_elements();
    elements_are_lanes();
    words_are_made();
    let x = word_in(words, groups.vs2 + w);
    let y = word_in(words, groups.vs1 + w);
    let old = word_in(words, groups.vd + w);
    merge_bits(u64::MAX, bits_of(family, x, y), old)
}

/// So many such words from word `first` on. They are an array of their own, so that LLVM makes vectors of them without a test
/// whether the words that are read and those that are put overlap.
#[inline(always)]
fn logic_block<const N: usize>(
    family: Family,
    form: Form,
    words: &[u64],
    at: &Setting,
    regs: &Places,
    groups: Groups,
    first: usize,
) -> [u64; N]
    requires family { family ≡ form.family }
    requires kind { IsTrue (is_logic family) }
    requires sound { IsSound (reading form (view_of at.now) regs.now words.now) }
    requires logic { IsTrue (is_logic form.family) }
    requires registers { form.first ≡ Vector }
    requires vs2 { groups.vs2 ≡ place_of at.now.vlen regs.now.vs2 0 }
    requires vs1 { groups.vs1 ≡ place_of at.now.vlen regs.now.vs1 0 }
    requires vd { groups.vd ≡ place_of at.now.vlen regs.now.vd 0 }
    requires below { (first + N) * 64 ≤ at.now.vl }
    requires start { at.now.vstart ≡ 0 }
    requires unmasked { regs.now.vm ≡ true }
    requires within { (k : ℕ) → k < N → first + k < length (destination_words (reading form (view_of at.now) regs.now words.now)) }
    ensures { (k : ℕ) → k < N → slice_index result k ≡ word_at at.now.vlen (words_after (reading form (view_of at.now) regs.now words.now)) regs.now.vd (first + k) }
{
    let mut new = [0; N];
    for k in 0..N {
        new[k] = logic_value(family, form, words, at, regs, groups, first + k);
    }
    new
}

/// Puts a block of words from word `first` on.
#[inline(always)]
fn put_block<const N: usize>(new: &[u64; N], first: usize, made: &mut [u64])
    requires { first + N ≤ length made.old }
    ensures room { length made.new ≡ length made.old }
    ensures before { (k : ℕ) → k < first → slice_index made.new k ≡ slice_index made.old k }
    ensures put { (k : ℕ) → k < N → slice_index made.new (first + k) ≡ slice_index new.now k }
{
    for k in 0..N {
        made[first + k] = new[k];
    }
}

/// Goes on behind the first `done` words in blocks of `N`, up to `count` words at the most. Answers how many words there are
/// then.
#[inline(always)]
fn logic_blocks<const N: usize>(
    family: Family,
    form: Form,
    words: &[u64],
    at: &Setting,
    regs: &Places,
    groups: Groups,
    done: usize,
    count: usize,
    made: &mut [u64],
) -> usize
    requires family { family ≡ form.family }
    requires kind { IsTrue (is_logic family) }
    requires sound { IsSound (reading form (view_of at.now) regs.now words.now) }
    requires logic { IsTrue (is_logic form.family) }
    requires registers { form.first ≡ Vector }
    requires vs2 { groups.vs2 ≡ place_of at.now.vlen regs.now.vs2 0 }
    requires vs1 { groups.vs1 ≡ place_of at.now.vlen regs.now.vs1 0 }
    requires vd { groups.vd ≡ place_of at.now.vlen regs.now.vd 0 }
    requires some { 0 < N }
    requires order { done ≤ count }
    requires below { count * 64 ≤ at.now.vl }
    requires start { 0 < count → at.now.vstart ≡ 0 }
    requires unmasked { 0 < count → regs.now.vm ≡ true }
    requires within { (k : ℕ) → k < count → k < length (destination_words (reading form (view_of at.now) regs.now words.now)) }
    requires room { count ≤ length made.old }
    requires done { (k : ℕ) → k < done → slice_index made.old k ≡ word_at at.now.vlen (words_after (reading form (view_of at.now) regs.now words.now)) regs.now.vd k }
    ensures most { result ≤ count }
    ensures least { count < result + N }
    ensures room { length made.new ≡ length made.old }
    ensures made { (k : ℕ) → k < result → slice_index made.new k ≡ word_at at.now.vlen (words_after (reading form (view_of at.now) regs.now words.now)) regs.now.vd k }
{
    let blocks = (count - done) / N;
    for n in 0..blocks {
        let first = done + n * N;
        let new = logic_block::<N>(family, form, words, at, regs, groups, first);
        put_block(&new, first, made);
    }
    done + blocks * N
}

/// The first words of the destination of mask logic, where all elements of them are active.
#[inline(always)]
fn logic_words(
    family: Family,
    form: Form,
    words: &[u64],
    at: &Setting,
    regs: &Places,
    count: u32,
    made: &mut [u64],
)
    requires family { family ≡ form.family }
    requires kind { IsTrue (is_logic family) }
    requires sound { IsSound (reading form (view_of at.now) regs.now words.now) }
    requires logic { IsTrue (is_logic form.family) }
    requires registers { form.first ≡ Vector }
    requires below { count * 64 ≤ at.now.vl }
    requires start { 0 < count → at.now.vstart ≡ 0 }
    requires unmasked { 0 < count → regs.now.vm ≡ true }
    requires within { (k : ℕ) → k < count → k < length (destination_words (reading form (view_of at.now) regs.now words.now)) }
    requires room { count ≤ length made.old }
    ensures room { length made.new ≡ length made.old }
    ensures made { (k : ℕ) → k < count → slice_index made.new k ≡ word_at at.now.vlen (words_after (reading form (view_of at.now) regs.now words.now)) regs.now.vd k }
{
    let groups = Groups {
        vs2: group_place(at, regs.vs2),
        vs1: group_place(at, regs.vs1),
        vd: group_place(at, regs.vd),
    };
    let count = count as usize;
    let done = logic_blocks::<16>(family, form, words, at, regs, groups, 0, count, made);
    if done == count {
        return;
    }
    let done = logic_blocks::<4>(family, form, words, at, regs, groups, done, count, made);
    logic_blocks::<1>(family, form, words, at, regs, groups, done, count, made);
}

/// The same, with loops of its own for each family.
#[inline(always)]
fn words_by_family(
    form: Form,
    words: &[u64],
    at: &Setting,
    regs: &Places,
    count: u32,
    made: &mut [u64],
)
    requires sound { IsSound (reading form (view_of at.now) regs.now words.now) }
    requires logic { IsTrue (is_logic form.family) }
    requires registers { form.first ≡ Vector }
    requires below { count * 64 ≤ at.now.vl }
    requires start { 0 < count → at.now.vstart ≡ 0 }
    requires unmasked { 0 < count → regs.now.vm ≡ true }
    requires within { (k : ℕ) → k < count → k < length (destination_words (reading form (view_of at.now) regs.now words.now)) }
    requires room { count ≤ length made.old }
    ensures room { length made.new ≡ length made.old }
    ensures made { (k : ℕ) → k < count → slice_index made.new k ≡ word_at at.now.vlen (words_after (reading form (view_of at.now) regs.now words.now)) regs.now.vd k }
{
    match form.family {
        Family::Vmand => logic_words(Family::Vmand, form, words, at, regs, count, made),
        Family::Vmnand => logic_words(Family::Vmnand, form, words, at, regs, count, made),
        Family::Vmandn => logic_words(Family::Vmandn, form, words, at, regs, count, made),
        Family::Vmxor => logic_words(Family::Vmxor, form, words, at, regs, count, made),
        Family::Vmor => logic_words(Family::Vmor, form, words, at, regs, count, made),
        Family::Vmnor => logic_words(Family::Vmnor, form, words, at, regs, count, made),
        Family::Vmorn => logic_words(Family::Vmorn, form, words, at, regs, count, made),
        Family::Vmxnor => logic_words(Family::Vmxnor, form, words, at, regs, count, made),
        _ => unreachable!(),
    }
}

/// The first words of the destination of a row of this form, as many as have only active elements, where it is one of mask
/// logic. Answers how many.
#[inline(always)]
fn words_of_form(
    form: Form,
    words: &[u64],
    at: &Setting,
    regs: &Places,
    most: u32,
    made: &mut [u64],
) -> u32
    requires kind { IsTrue (is_mask_form form) }
    requires sound { IsSound (reading form (view_of at.now) regs.now words.now) }
    requires within { (k : ℕ) → k < most → k < length (destination_words (reading form (view_of at.now) regs.now words.now)) }
    requires room { most ≤ length made.old }
    ensures most { result ≤ most }
    ensures room { length made.new ≡ length made.old }
    ensures made { (k : ℕ) → k < result → slice_index made.new k ≡ word_at at.now.vlen (words_after (reading form (view_of at.now) regs.now words.now)) regs.now.vd k }
    ensures sat { (k : ℕ) → k < result → word_saturates (reading form (view_of at.now) regs.now words.now) k ≡ false }
{
    if !is_logic(form.family) {
        return 0;
    }
    let count = full_count(at, regs, 64, most);
    words_by_family(form, words, at, regs, count, made);
    count
}

/// Makes the first words of the destination that hold only active elements, of the words of all registers, where the row is one
/// of mask logic: as the instruction leaves them. Answers how many it made, at most so many. No element of them saturated. The
/// operation is one of this crate, and the instruction is legal under the setting.
pub fn full_words(
    op: Op,
    words: &[u64],
    at: &Setting,
    regs: &Places,
    most: u32,
    made: &mut [u64],
) -> u32
    requires row { IsTrue (is_mask op) }
    requires sound { IsSound (reading (form_of op) (view_of at.now) regs.now words.now) }
    requires within { (k : ℕ) → k < most → k < length (destination_words (reading (form_of op) (view_of at.now) regs.now words.now)) }
    requires room { most ≤ length made.old }
    ensures most { result ≤ most }
    ensures room { length made.new ≡ length made.old }
    ensures made { (k : ℕ) → k < result → slice_index made.new k ≡ word_at at.now.vlen (words_after (reading (form_of op) (view_of at.now) regs.now words.now)) regs.now.vd k }
    ensures sat { (k : ℕ) → k < result → word_saturates (reading (form_of op) (view_of at.now) regs.now words.now) k ≡ false }
{
    match op {
        Op::Mask(op) => words_of_form(form_of(op), words, at, regs, most, made),
        _ => unreachable!(),
    }
}
