ghost use Rattle.vx_vstate.specs.Views.{view_of};
ghost use Rattle.std.specs.Prelude.{IsTrue, true, false, ◌≡◌, ℕ, ◌+◌, ◌*◌, ◌/◌, ◌^◌, ◌<◌, ◌≤◌, List, length, slice_index};
ghost use Rattle.vx_bits.specs.Width.{is_width};
ghost use Rattle.vx_operands.specs.Forms.{reading};
ghost use Rattle.vx_operands.specs.Lanes.{answer, is_each, is_even, numbers_of};
ghost use Rattle.vx_packed.specs.Made.{even_packing, made};
ghost use Rattle.vx_packed.specs.declared.elements.Made.{Made};
ghost use Rattle.vx_packed.specs.declared.elements.Sources.{Sources};
ghost use Rattle.vx_rows.specs.Families.{operands_of};
ghost use Rattle.vx_rows.specs.declared.row.First.TheVariants.{Vector};
ghost use Rattle.vx_vector.specs.Arithmetic.{words_after};
ghost use Rattle.vx_vector.specs.Laws.{IsSound};
ghost use Rattle.vx_vector.specs.Reading.{number_by, sew_of};
ghost use Rattle.vx_vector.specs.Rules.{rule_of};
ghost use Rattle.vx_vector.specs.Words.{destination_words};
ghost use Rattle.vx_vstate.specs.Registers.{place_of, word_at};

use crate::form::Form;
use crate::sources::number;
use vx_packed::{Made, Sources, joined_by_elements, splat};
use vx_rows::First;
use vx_vector::{Places, words_are_made};
use vx_vstate::Setting;

/// How many words of a destination from its first on, of so many elements each, are full: all of their elements are active,
/// and no mask is read. At most so many.
#[inline(always)]
pub fn full_count(at: &Setting, regs: &Places, per_word: u32, most: u32) -> u32
    requires some { 0 < per_word }
    ensures most { result ≤ most }
    ensures below { result * per_word ≤ at.now.vl }
    ensures start { 0 < result → at.now.vstart ≡ 0 }
    ensures unmasked { 0 < result → regs.now.vm ≡ true }
{
    if regs.vm && at.vstart == 0 {
        most.min(at.vl / per_word)
    } else {
        0
    }
}

/// Where the words of a group stand that begins at a register, among those of all.
#[inline(always)]
pub fn group_place(at: &Setting, register: u8) -> usize
    ensures is { result ≡ place_of at.now.vlen register 0 }
    ensures below { result < 65536 }
{
    register as usize * (at.vlen as usize / 64)
}

/// The number that stands in the place of the second operand where that isn't a group.
#[inline(always)]
fn second_number(form: Form, at: &Setting, regs: &Places) -> u64
    ensures { (words : List ℕ) → result ≡ number_by (reading form (view_of at.now) regs.now words) form.first }
{
    match form.first {
        First::Vector => 0,
        First::Integer => at.scalar,
        First::Signed => number(regs.imm),
        First::Unsigned => number(regs.imm),
        First::Fixed => 0,
    }
}

/// Whether the second operand is a group.
#[inline(always)]
pub fn is_group(first: First) -> bool
    ensures group { result ≡ true → first ≡ Vector }
    ensures other { result ≡ false → first ≡ Vector → ⊥ }
{
    match first {
        First::Vector => true,
        _ => false,
    }
}

/// A word at a place, or one that is no word of the registers.
#[inline(always)]
fn word_or(is_group: bool, words: &[u64], place: usize, other: u64) -> u64
    requires { is_group ≡ true → place < length words.now }
    ensures group { is_group ≡ true → result ≡ slice_index words.now place }
    ensures other { is_group ≡ false → result ≡ other }
{
    if is_group { words[place] } else { other }
}

/// The word at a place, which is one of 64 bits.
#[inline(always)]
pub fn word_in(words: &[u64], place: usize) -> u64
    requires { place < length words.now }
    ensures is { result ≡ slice_index words.now place }
    ensures below { result < 2 ^ 64 }
{
    words[place]
}

/// The first words of the destination of a row whose operands all have elements of SEW, where all elements of them are active.
/// `f` gives the new elements, in lanes of SEW, of the words at the same index.
#[inline(always)]
pub fn full_words<F: Fn(Sources) -> Made>(
    form: Form,
    words: &[u64],
    at: &Setting,
    regs: &Places,
    sew: u32,
    count: u32,
    into: &mut [u64],
    f: F,
)
    requires sound { IsSound (reading form (view_of at.now) regs.now words.now) }
    requires each { IsTrue (is_each (rule_of form.family)) }
    requires even { IsTrue (is_even form.first (operands_of form.family)) }
    requires sew { sew ≡ sew_of (reading form (view_of at.now) regs.now words.now) }
    requires width { IsTrue (is_width sew) }
    requires below { count * (64 / sew) ≤ at.now.vl }
    requires start { 0 < count → at.now.vstart ≡ 0 }
    requires unmasked { 0 < count → regs.now.vm ≡ true }
    requires within { (k : ℕ) → k < count → k < length (destination_words (reading form (view_of at.now) regs.now words.now)) }
    requires room { count ≤ length into.old }
    requires callable { (from : Sources) → F.pre f from }
    requires makes { (from : Sources) (new : Made) → F.post f from new → new ≡ made (even_packing sew) from (λ l. answer form.family (numbers_of sew at.now.vxrm l)) }
    ensures room { length into.new ≡ length into.old }
    ensures made { (k : ℕ) → k < count → slice_index into.new k ≡ word_at at.now.vlen (words_after (reading form (view_of at.now) regs.now words.now)) regs.now.vd k }
{
    joined_by_elements();
    words_are_made();
    let is_group = is_group(form.first);
    let fixed = splat(sew, second_number(form, at, regs));
    let a = group_place(at, regs.vs2);
    let b = group_place(at, regs.vs1);
    let d = group_place(at, regs.vd);
    for w in 0..count {
        let from = Sources {
            a: word_in(words, a + w as usize),
            b: word_or(is_group, words, b + w as usize, fixed),
            d: word_in(words, d + w as usize),
            m: 0,
        };
        into[w as usize] = f(from).value;
    }
}
