ghost use Rattle.std.specs.Prelude.{IsTrue, ◌≡◌, ℕ, ◌+◌, ◌-◌, ◌*◌, ◌/◌, ◌==◌, ◌&&◌, nat_lt, nat_le, if◌then◌else◌, min, ◌<◌, ◌≤◌, ◌^◌};
ghost use Rattle.vx_bits.specs.Width.{is_width};
ghost use Rattle.vx_packed.specs.Joined.{lane, joined, some_below};
ghost use Rattle.vx_base.specs.Numbers.{truth};
ghost use Rattle.vx_packed.specs.Made.{merged};

use crate::elements::Sources;
use crate::making::{make_even, ones};
use vx_bits::Sat;

/// The elements of `new` where the bits of `lanes` are 1, and those of `old` elsewhere.
#[inline(always)]
pub fn merge(width: u32, lanes: u64, new: u64, old: u64) -> u64
    requires { IsTrue (is_width width) }
    ensures value { result ≡ merged width (64 / width) lanes new old }
    ensures joined { (f : ℕ → ℕ) → new ≡ joined width (64 / width) f → result ≡ joined width (64 / width) (λ k. if lane 1 lanes k == 1 then f k else lane width old k) }
{
    let all = ones(64 / width);
    if lanes & all == all {
        return new;
    }
    let from = Sources {
        a: new,
        b: 0,
        d: old,
        m: lanes,
    };
    make_even(
        width,
        from,
        |l| Sat {
            value: if l.m { l.a } else { l.d },
            sat: false,
        },
    )
    .value
}

/// The bits of `new` where those of `lanes` are 1, and those of `old` elsewhere.
#[inline(always)]
pub fn merge_bits(lanes: u64, new: u64, old: u64) -> u64
    ensures { result ≡ merged 1 64 lanes new old }
{
    (new & lanes) | (old & !lanes)
}

/// Ones at the first `count` bits of a word, or at all.
#[inline(always)]
fn first_ones(count: u64) -> u64
    ensures { result ≡ 2 ^ min count 64 - 1 }
{
    if count < 64 {
        (1 << count) - 1
    } else {
        u64::MAX
    }
}

/// A bit for each of so many elements that begin with element `first`: whether it isn't before `from`, is before `to`, and
/// its bit of `bits` is 1. The bits above are any.
#[inline(always)]
pub fn active_lanes(count: u32, first: u32, from: u32, to: u32, bits: u64) -> u64
    requires { count ≤ 64 }
    ensures { (k : ℕ) → k < count → lane 1 result k ≡ truth (nat_le from (first + k) && nat_lt (first + k) to && lane 1 bits k == 1) }
{
    let below = to.saturating_sub(first);
    if from <= first && count <= below {
        return bits;
    }
    bits & first_ones(below as u64) & !first_ones(from.saturating_sub(first) as u64)
}

/// Some of the first `count` bits is 1 in both words.
#[inline(always)]
pub fn any_lane(count: u32, a: u64, b: u64) -> bool
    requires { count ≤ 64 }
    ensures { result ≡ some_below count (λ k. lane 1 a k == 1 && lane 1 b k == 1) }
{
    a & b & first_ones(count as u64) != 0
}

/// Elements one behind another: those of `low`, so many, and those of `high`.
#[inline(always)]
pub fn beside(width: u32, count: u32, low: u64, more: u32, high: u64) -> u64
    requires fits { count * width + more * width ≤ 64 }
    requires room { count * width < 64 }
    requires low_below { low < 2 ^ (count * width) }
    requires high_below { high < 2 ^ (more * width) }
    ensures value { (f : ℕ → ℕ) → low ≡ joined width count f → high ≡ joined width more (λ k. f (count + k)) → result ≡ joined width (count + more) f }
    ensures below { result < 2 ^ ((count + more) * width) }
{
    low | (high << (count * width))
}

/// A word of elements that are all one, twice as many.
#[inline(always)]
fn doubled(width: u32, count: u32, word: u64) -> u64
    requires fits { count * width + count * width ≤ 64 }
    requires some { 0 < width }
    requires more { 0 < count }
    requires below { word < 2 ^ (count * width) }
    ensures value { (x : ℕ) → word ≡ joined width count (λ k. x) → result ≡ joined width (count + count) (λ k. x) }
    ensures below { result < 2 ^ ((count + count) * width) }
{
    beside(width, count, word, count, word)
}

/// A word whose elements are all `x`.
#[inline(always)]
pub fn splat(width: u32, x: u64) -> u64
    requires { IsTrue (is_width width) }
    ensures { result ≡ joined width (64 / width) (λ k. x) }
{
    let one = x & ones(width);
    match width {
        8 => doubled(8, 4, doubled(8, 2, doubled(8, 1, one))),
        16 => doubled(16, 2, doubled(16, 1, one)),
        32 => doubled(32, 1, one),
        _ => one,
    }
}
