ghost use Rattle.std.specs.Prelude.{IsTrue, true, false, ◌≡◌, pos, ◌+◌, ◌-◌, ◌*◌, ◌<◌, ◌+ℤ◌, ◌-ℤ◌, ◌*ℤ◌};
ghost use Rattle.vx_bits.specs.Rounding.{rounded};
ghost use Rattle.vx_bits.specs.Saturation.{fitted_at};
ghost use Rattle.vx_bits.specs.Width.{is_width, signed_at};
ghost use Rattle.vx_vector.specs.Numbers.{amount_at, rounded_at};

use vx_bits::{Sat, fit_at, reduce, round, signed_reading};

/// By how many bits an operand of a width shifts.
#[inline(always)]
fn amount(width: u32, b: u64) -> u32
    requires { IsTrue (is_width width) }
    ensures value { result ≡ amount_at width b }
    ensures below { result < 64 }
{
    (b % width as u64) as u32
}

/// The sum of two signed numbers of SEW.
#[inline(always)]
fn signed_sum(sew: u32, a: u64, b: u64) -> i128
    requires { IsTrue (is_width sew) }
    ensures { result ≡ signed_at sew a +ℤ signed_at sew b }
{
    signed_reading(sew, a) as i128 + signed_reading(sew, b) as i128
}

/// A signed number of SEW less another.
#[inline(always)]
fn signed_difference(sew: u32, a: u64, b: u64) -> i128
    requires { IsTrue (is_width sew) }
    ensures { result ≡ signed_at sew a -ℤ signed_at sew b }
{
    signed_reading(sew, a) as i128 - signed_reading(sew, b) as i128
}

/// The product of two signed numbers of SEW.
#[inline(always)]
fn signed_product(sew: u32, a: u64, b: u64) -> i128
    requires { IsTrue (is_width sew) }
    ensures { result ≡ signed_at sew a *ℤ signed_at sew b }
{
    signed_reading(sew, a) as i128 * signed_reading(sew, b) as i128
}

/// Half a sum of unsigned numbers, rounded.
#[inline(always)]
pub(crate) fn average(sew: u32, a: u64, b: u64, vxrm: u8) -> u64
    requires width { IsTrue (is_width sew) }
    requires mode { vxrm < 4 }
    ensures { result ≡ rounded_at sew (pos (a + b)) 1 vxrm }
{
    reduce(sew, round(i128::from(a) + i128::from(b), 1, vxrm))
}

/// Half a sum of signed numbers, rounded.
#[inline(always)]
pub(crate) fn signed_average(sew: u32, a: u64, b: u64, vxrm: u8) -> u64
    requires width { IsTrue (is_width sew) }
    requires mode { vxrm < 4 }
    ensures { result ≡ rounded_at sew (signed_at sew a +ℤ signed_at sew b) 1 vxrm }
{
    reduce(sew, round(signed_sum(sew, a, b), 1, vxrm))
}

/// Half a difference of unsigned numbers, rounded.
#[inline(always)]
pub(crate) fn half_difference(sew: u32, a: u64, b: u64, vxrm: u8) -> u64
    requires width { IsTrue (is_width sew) }
    requires mode { vxrm < 4 }
    ensures { result ≡ rounded_at sew (pos a -ℤ pos b) 1 vxrm }
{
    reduce(sew, round(i128::from(a) - i128::from(b), 1, vxrm))
}

/// Half a difference of signed numbers, rounded.
#[inline(always)]
pub(crate) fn signed_half_difference(sew: u32, a: u64, b: u64, vxrm: u8) -> u64
    requires width { IsTrue (is_width sew) }
    requires mode { vxrm < 4 }
    ensures { result ≡ rounded_at sew (signed_at sew a -ℤ signed_at sew b) 1 vxrm }
{
    reduce(sew, round(signed_difference(sew, a, b), 1, vxrm))
}

/// A product of signed fractions, rounded, and clipped.
#[inline(always)]
pub(crate) fn fraction_product(sew: u32, a: u64, b: u64, vxrm: u8) -> Sat
    requires width { IsTrue (is_width sew) }
    requires mode { vxrm < 4 }
    ensures { result ≡ fitted_at sew true (rounded (signed_at sew a *ℤ signed_at sew b) (sew - 1) vxrm) }
{
    fit_at(sew, true, round(signed_product(sew, a, b), sew - 1, vxrm))
}

/// An unsigned number shifted right, and rounded.
#[inline(always)]
pub(crate) fn scaled(sew: u32, a: u64, b: u64, vxrm: u8) -> u64
    requires width { IsTrue (is_width sew) }
    requires mode { vxrm < 4 }
    ensures { result ≡ rounded_at sew (pos a) (amount_at sew b) vxrm }
{
    reduce(sew, round(i128::from(a), amount(sew, b), vxrm))
}

/// A signed number shifted right, and rounded.
#[inline(always)]
pub(crate) fn signed_scaled(sew: u32, a: u64, b: u64, vxrm: u8) -> u64
    requires width { IsTrue (is_width sew) }
    requires mode { vxrm < 4 }
    ensures { result ≡ rounded_at sew (signed_at sew a) (amount_at sew b) vxrm }
{
    reduce(
        sew,
        round(i128::from(signed_reading(sew, a)), amount(sew, b), vxrm),
    )
}

/// An unsigned number of twice SEW shifted right, rounded, and clipped.
#[inline(always)]
pub(crate) fn clipped(sew: u32, a: u64, b: u64, vxrm: u8) -> Sat
    requires width { IsTrue (is_width sew) }
    requires wide { IsTrue (is_width (2 * sew)) }
    requires mode { vxrm < 4 }
    ensures { result ≡ fitted_at sew false (rounded (pos a) (amount_at (2 * sew) b) vxrm) }
{
    fit_at(sew, false, round(i128::from(a), amount(2 * sew, b), vxrm))
}

/// A signed number of twice SEW shifted right, rounded, and clipped.
#[inline(always)]
pub(crate) fn signed_clipped(sew: u32, a: u64, b: u64, vxrm: u8) -> Sat
    requires width { IsTrue (is_width sew) }
    requires wide { IsTrue (is_width (2 * sew)) }
    requires mode { vxrm < 4 }
    ensures { result ≡ fitted_at sew true (rounded (signed_at (2 * sew) a) (amount_at (2 * sew) b) vxrm) }
{
    let shifted = round(
        i128::from(signed_reading(2 * sew, a)),
        amount(2 * sew, b),
        vxrm,
    );
    fit_at(sew, true, shifted)
}
