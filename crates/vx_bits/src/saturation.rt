ghost use Rattle.std.specs.Prelude.{◌≡◌, ◌<◌, ◌≤◌, ◌^◌, IsTrue, false, true};
ghost use Rattle.vx_bits.specs.Saturation.{least_at, greatest_at, fitted_at, unsigned_saturated_sum_at, signed_saturated_sum_at, unsigned_saturated_difference_at, signed_saturated_difference_at};
ghost use Rattle.vx_bits.specs.Width.{is_width};

use crate::reading::{low, mask, reduce, signed_reading};

/// The bits of a number clipped to a range, and whether clipping changed it.
#[derive(Clone, Copy, Debug, PartialEq, Eq)]
pub struct Sat {
    pub value: u64,
    pub sat: bool,
}

/// The least number of the width.
fn least(width: u32, signed: bool) -> i128
    requires positive { 0 < width }
    requires fits { width ≤ 64 }
    ensures { result ≡ least_at width signed }
{
    if signed {
        -1 - (mask(width) / 2) as i128
    } else {
        0
    }
}

/// The greatest number of the width.
fn greatest(width: u32, signed: bool) -> i128
    requires positive { 0 < width }
    requires fits { width ≤ 64 }
    ensures { result ≡ greatest_at width signed }
{
    if signed {
        (mask(width) / 2) as i128
    } else {
        mask(width) as i128
    }
}

/// `v` clipped to the signed or unsigned range of the width, with `sat` where that changed it.
pub fn fit_at(width: u32, signed: bool, v: i128) -> Sat
    requires { IsTrue (is_width width) }
    ensures fitted { result ≡ fitted_at width signed v }
    ensures below { result.value < 2 ^ width }
{
    let clipped = v.min(greatest(width, signed)).max(least(width, signed));
    Sat {
        value: reduce(width, clipped),
        sat: clipped != v,
    }
}

/// The sum of two unsigned numbers, clipped.
pub fn saddu_at(width: u32, a: u64, b: u64) -> Sat
    requires { IsTrue (is_width width) }
    ensures fitted { result ≡ unsigned_saturated_sum_at width a b }
    ensures below { result.value < 2 ^ width }
{
    fit_at(width, false, low(width, a) as i128 + low(width, b) as i128)
}

/// The sum of two signed numbers, clipped.
pub fn sadd_at(width: u32, a: u64, b: u64) -> Sat
    requires { IsTrue (is_width width) }
    ensures fitted { result ≡ signed_saturated_sum_at width a b }
    ensures below { result.value < 2 ^ width }
{
    let sum = signed_reading(width, a) as i128 + signed_reading(width, b) as i128;
    fit_at(width, true, sum)
}

/// An unsigned `a` less an unsigned `b`, clipped.
pub fn ssubu_at(width: u32, a: u64, b: u64) -> Sat
    requires { IsTrue (is_width width) }
    ensures fitted { result ≡ unsigned_saturated_difference_at width a b }
    ensures below { result.value < 2 ^ width }
{
    fit_at(width, false, low(width, a) as i128 - low(width, b) as i128)
}

/// A signed `a` less a signed `b`, clipped.
pub fn ssub_at(width: u32, a: u64, b: u64) -> Sat
    requires { IsTrue (is_width width) }
    ensures fitted { result ≡ signed_saturated_difference_at width a b }
    ensures below { result.value < 2 ^ width }
{
    let difference = signed_reading(width, a) as i128 - signed_reading(width, b) as i128;
    fit_at(width, true, difference)
}
