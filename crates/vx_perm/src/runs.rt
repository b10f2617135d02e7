ghost use Rattle.vx_vstate.specs.Views.{view_of};
ghost use Rattle.std.specs.Prelude.{IsTrue, ◌≡◌, ℕ, ◌+◌, ◌-◌, ◌*◌, ◌/◌, ◌%◌, ◌^◌, ◌<◌, ◌≤◌, ◌&&◌, nat_le, if◌then◌else◌, length, List, Option, Some, None};
ghost use Rattle.vx_bits.specs.Width.{is_width};
ghost use Rattle.vx_operands.specs.Forms.{is_unmasked, reading};
ghost use Rattle.vx_packed.specs.Joined.{joined};
ghost use Rattle.vx_perm.specs.Kinds.{IsRun, is_slide};
ghost use Rattle.vx_vstate.specs.Registers.{element, element_word, place_of, words_of_all};
ghost use Rattle.vx_vstate.specs.Vtype.{vlmax};

use crate::elements::number;
use vx_operands::{Form, group_word, is_unmasked, word_in};
use vx_packed::joined_by_elements;
use vx_rows::Family;
use vx_vector::Places;
use vx_vstate::{Setting, WordFile};

/// Whether so many elements from element `first` on are all active.
#[inline(always)]
pub(crate) fn are_active(form: Form, at: &Setting, regs: &Places, first: u32, count: u32) -> bool
    requires small { first + count < 4294967296 }
    ensures { (words : List ℕ) → result ≡ (is_unmasked (reading form (view_of at.now) regs.now words) && nat_le at.now.vstart first && nat_le (first + count) at.now.vl) }
{
    is_unmasked(form, regs) && at.vstart <= first && first + count <= at.vl
}

/// The element that stands so many before another, where there is one.
#[inline(always)]
fn before(first: u32, offset: u64) -> Option<u32>
    ensures { result ≡ (if nat_le offset first then Some (first - offset) else None) }
{
    if offset <= u64::from(first) {
        Some(first - offset as u32)
    } else {
        None
    }
}

/// The element that stands so many behind another, where that isn't behind the last.
#[inline(always)]
fn behind(first: u32, offset: u64, last: u32) -> Option<u32>
    requires { first ≤ last }
    ensures { result ≡ (if nat_le offset (last - first) then Some (first + offset) else None) }
{
    if offset <= u64::from(last - first) {
        Some(first + offset as u32)
    } else {
        None
    }
}

/// From which element of vs2 on so many elements of a slide from element `first` on are taken, where all are taken from there.
/// The family is named, so that a loop over words goes through no dispatch.
#[inline(always)]
pub(crate) fn run_of(
    family: Family,
    form: Form,
    at: &Setting,
    regs: &Places,
    most: u32,
    first: u32,
    count: u32,
) -> Option<u32>
    requires family { form.family ≡ family }
    requires slides { IsTrue (is_slide family) }
    requires most { most ≡ vlmax at.now.vlen at.now.vtype }
    requires below { first + count ≤ at.now.vl }
    requires few_elements { at.now.vl ≤ most }
    ensures { (words : List ℕ) (from : ℕ) → result ≡ Some from → IsRun (reading form (view_of at.now) regs.now words) first count from }
{
    let offset = number(form, at, regs);
    match family {
        Family::Vslideup => before(first, offset),
        Family::Vslidedown => behind(first, offset, most - count),
        Family::Vslide1up => before(first, 1),
        Family::Vslide1down => behind(first, 1, at.vl - count),
        _ => unreachable!(),
    }
}

/// The 64 bits that begin in a word, so many above its lowest, and end in the next.
#[inline(always)]
fn across(low: u64, high: u64, shift: u32) -> u64
    requires some { 0 < shift }
    requires few { shift < 64 }
    ensures { result ≡ low / 2 ^ shift + high % 2 ^ shift * 2 ^ (64 - shift) }
{
    (low >> shift) | (high << (64 - shift))
}

/// As many elements of a width as fill a word, from element `first` of a group on.
#[inline(always)]
pub(crate) fn elements_from<S: WordFile>(
    file: &S,
    at: &Setting,
    register: u8,
    width: u32,
    first: u32,
) -> u64
    requires same { S.vlen file.now ≡ at.now.vlen }
    requires width { IsTrue (is_width width) }
    requires small { first ≤ 65536 }
    requires within { (k : ℕ) → k < 64 / width → place_of at.now.vlen register (element_word width (first + k)) < words_of_all at.now.vlen }
    ensures { result ≡ joined width (64 / width) (λ k. element at.now.vlen (S.words file.now) register width (first + k)) }
{
    joined_by_elements();
    let bit = first * width;
    let low = group_word(file, at, register, bit / 64);
    let shift = bit % 64;
    if shift == 0 {
        low
    } else {
        across(low, group_word(file, at, register, bit / 64 + 1), shift)
    }
}

/// The same of the words of all registers, of the group whose words begin at a place.
#[inline(always)]
pub(crate) fn elements_in(
    words: &[u64],
    at: &Setting,
    register: u8,
    place: usize,
    width: u32,
    first: u32,
) -> u64
    requires all { length words.now ≡ words_of_all at.now.vlen }
    requires place { place ≡ place_of at.now.vlen register 0 }
    requires below { place < 65536 }
    requires width { IsTrue (is_width width) }
    requires small { first ≤ 65536 }
    requires within { (k : ℕ) → k < 64 / width → place_of at.now.vlen register (element_word width (first + k)) < words_of_all at.now.vlen }
    ensures { result ≡ joined width (64 / width) (λ k. element at.now.vlen words.now register width (first + k)) }
{
    joined_by_elements();
    let bit = first * width;
    let begins = place + bit as usize / 64;
    let low = word_in(words, begins);
    let shift = bit % 64;
    if shift == 0 {
        low
    } else {
        across(low, word_in(words, begins + 1), shift)
    }
}
