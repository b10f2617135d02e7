ghost use Rattle.std.specs.Prelude.{IsTrue, ◌≡◌, ℕ, ◌+◌, ◌-◌, ◌*◌, ◌<◌, ◌≤◌, ◌^◌, ◌%◌};
ghost use Rattle.vx_bits.specs.Width.{is_width};
ghost use Rattle.vx_bits.specs.declared.saturation.Sat.{Sat};
ghost use Rattle.vx_packed.specs.Joined.{lane};
ghost use Rattle.vx_base.specs.Numbers.{truth};
ghost use Rattle.vx_packed.specs.Made.{IsPacking, IsWithin, Answers, even_packing, lane_of, made};
ghost use Rattle.vx_packed.specs.declared.elements.Lane.{Lane};

use crate::elements::{Lane, Made, Packing, Sources};
use vx_bits::Sat;

/// Ones at the low `width` bits.
#[inline(always)]
pub(crate) fn ones(width: u32) -> u64
    requires positive { 0 < width }
    requires fits { width ≤ 64 }
    ensures { result ≡ 2 ^ width - 1 }
{
    u64::MAX >> (64 - width)
}

/// Element `k` of a width, of those that stand in a word.
#[inline(always)]
fn element(width: u32, word: u64, k: u32) -> u64
    requires positive { 0 < width }
    requires fits { k * width + width ≤ 64 }
    ensures value { result ≡ lane width word k }
    ensures below { result < 2 ^ width }
{
    (word >> (k * width)) & ones(width)
}

/// A word with one more element, the k-th.
#[inline(always)]
fn with_element(width: u32, word: u64, k: u32, value: u64) -> u64
    requires positive { 0 < width }
    requires fits { k * width + width ≤ 64 }
    requires below { word < 2 ^ (k * width) }
    ensures { result ≡ word + value % 2 ^ width * 2 ^ (k * width) }
{
    word | ((value & ones(width)) << (k * width))
}

/// The numbers at place `k`.
#[inline(always)]
fn lane_at(at: Packing, from: Sources, k: u32) -> Lane
    requires packing { IsPacking at }
    requires within { k < at.count }
    ensures value { result ≡ lane_of at from k }
    ensures below { IsWithin at result }
{
    Lane {
        a: element(at.a, from.a, k),
        b: element(at.b, from.b, k),
        d: element(at.width, from.d, k),
        m: element(1, from.m, k) == 1,
    }
}

/// The words with one more element, the k-th, and with the bit that says whether it saturated.
#[inline(always)]
fn with_answer(width: u32, made: Made, k: u32, answer: Sat) -> Made
    requires positive { 0 < width }
    requires fits { k * width + width ≤ 64 }
    requires below { made.value < 2 ^ (k * width) }
    requires sats_below { made.sats < 2 ^ (k * 1) }
    ensures value { result.value ≡ made.value + answer.value % 2 ^ width * 2 ^ (k * width) }
    ensures sats { result.sats ≡ made.sats + truth answer.sat % 2 ^ 1 * 2 ^ (k * 1) }
{
    Made {
        value: with_element(width, made.value, k, answer.value),
        sats: with_element(1, made.sats, k, answer.sat as u64),
    }
}

/// The word whose elements are what `f` answers at each place of the sources, of which the low bits of the width count,
/// and where it says that they saturated.
#[inline(always)]
pub fn make<F: Fn(Lane) -> Sat>(at: Packing, from: Sources, f: F) -> Made
    requires packing { IsPacking at }
    requires callable { (l : Lane) → IsWithin at l → F.pre f l }
    ensures value { (g : Lane → Sat) → Answers (F.post f) at g → result ≡ made at from g }
    ensures below { result.value < 2 ^ (at.count * at.width) }
    ensures sats_below { result.sats < 2 ^ at.count }
{
    let mut so_far = Made { value: 0, sats: 0 };
    for k in 0..at.count {
        so_far = with_answer(at.width, so_far, k, f(lane_at(at, from, k)));
    }
    so_far
}

/// As many elements of one width as fill a word.
#[inline(always)]
pub fn even(width: u32) -> Packing
    requires { IsTrue (is_width width) }
    ensures value { result ≡ even_packing width }
    ensures packing { IsPacking result }
{
    Packing {
        count: 64 / width,
        width,
        a: width,
        b: width,
    }
}

/// `make`, where all elements have one width and fill the word.
#[inline(always)]
pub fn make_even<F: Fn(Lane) -> Sat>(width: u32, from: Sources, f: F) -> Made
    requires width { IsTrue (is_width width) }
    requires callable { (l : Lane) → IsWithin (even_packing width) l → F.pre f l }
    ensures { (g : Lane → Sat) → Answers (F.post f) (even_packing width) g → result ≡ made (even_packing width) from g }
{
    match width {
        8 => make(even(8), from, f),
        16 => make(even(16), from, f),
        32 => make(even(32), from, f),
        _ => make(even(64), from, f),
    }
}
