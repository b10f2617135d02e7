ghost use Rattle.std.specs.Prelude.{IsTrue, ◌≡◌, pos, ◌+◌, ◌*◌, ◌^◌, ◌%◌, ◌<◌, ◌+ℤ◌, ◌-ℤ◌, ◌*ℤ◌, nat_le, nat_lt};
ghost use Rattle.vx_base.specs.Numbers.{reduced, truth};
ghost use Rattle.vx_bits.specs.Arithmetic.{shifted_right_at, sign_shifted_right_at};
ghost use Rattle.vx_bits.specs.Width.{is_width, signed_at};
ghost use Rattle.vx_vector.specs.Numbers.{plain};

use vx_bits::{Sat, add_at, low, reduce, signed_reading, sra_at, srl_at};

/// A bit, where a condition holds.
#[inline(always)]
pub(crate) fn bit(holds: bool) -> Sat
    ensures { result ≡ plain (truth holds) }
{
    Sat {
        value: holds as u64,
        sat: false,
    }
}

/// A sum with a carry.
#[inline(always)]
pub(crate) fn sum_and_carry(width: u32, a: u64, b: u64, m: bool) -> u64
    requires { IsTrue (is_width width) }
    ensures { result ≡ reduced width (pos (a + b + truth m)) }
{
    low(width, a.wrapping_add(b).wrapping_add(m as u64))
}

/// A difference less a borrow.
#[inline(always)]
pub(crate) fn difference_and_borrow(width: u32, a: u64, b: u64, m: bool) -> u64
    requires { IsTrue (is_width width) }
    ensures { result ≡ reduced width (pos a -ℤ pos (b + truth m)) }
{
    low(width, a.wrapping_sub(b).wrapping_sub(m as u64))
}

/// Whether a sum with a carry passes the numbers of a width.
#[inline(always)]
pub(crate) fn has_carry(width: u32, a: u64, b: u64, m: bool) -> bool
    requires { IsTrue (is_width width) }
    ensures { result ≡ nat_le (2 ^ width) (a + b + truth m) }
{
    1 << width <= a as u128 + b as u128 + m as u128
}

/// Whether a difference less a borrow is below 0.
#[inline(always)]
pub(crate) fn has_borrow(a: u64, b: u64, m: bool) -> bool
    ensures { result ≡ nat_lt a (b + truth m) }
{
    if m { a <= b } else { a < b }
}

/// An element of twice SEW shifted right, of which the low half is left.
#[inline(always)]
pub(crate) fn shifted(sew: u32, a: u64, b: u64) -> u64
    requires width { IsTrue (is_width sew) }
    requires wide { IsTrue (is_width (2 * sew)) }
    ensures { result ≡ shifted_right_at (2 * sew) a b % 2 ^ sew }
{
    low(sew, srl_at(2 * sew, a, b))
}

/// The same, with copies of the sign coming in.
#[inline(always)]
pub(crate) fn sign_shifted(sew: u32, a: u64, b: u64) -> u64
    requires width { IsTrue (is_width sew) }
    requires wide { IsTrue (is_width (2 * sew)) }
    ensures { result ≡ sign_shifted_right_at (2 * sew) a b % 2 ^ sew }
{
    low(sew, sra_at(2 * sew, a, b))
}

/// The sum of two unsigned numbers, at a width.
#[inline(always)]
pub(crate) fn sum(width: u32, a: u64, b: u64) -> u64
    requires { IsTrue (is_width width) }
    ensures { result ≡ reduced width (pos a +ℤ pos b) }
{
    reduce(width, i128::from(a) + i128::from(b))
}

/// An unsigned number less another, at a width.
#[inline(always)]
pub(crate) fn difference(width: u32, a: u64, b: u64) -> u64
    requires { IsTrue (is_width width) }
    ensures { result ≡ reduced width (pos a -ℤ pos b) }
{
    reduce(width, i128::from(a) - i128::from(b))
}

/// The sum of two signed numbers of SEW, at a width.
#[inline(always)]
pub(crate) fn signed_sum(sew: u32, width: u32, a: u64, b: u64) -> u64
    requires sew { IsTrue (is_width sew) }
    requires width { IsTrue (is_width width) }
    ensures { result ≡ reduced width (signed_at sew a +ℤ signed_at sew b) }
{
    let a = i128::from(signed_reading(sew, a));
    let b = i128::from(signed_reading(sew, b));
    reduce(width, a + b)
}

/// A signed number of SEW less another, at a width.
#[inline(always)]
pub(crate) fn signed_difference(sew: u32, width: u32, a: u64, b: u64) -> u64
    requires sew { IsTrue (is_width sew) }
    requires width { IsTrue (is_width width) }
    ensures { result ≡ reduced width (signed_at sew a -ℤ signed_at sew b) }
{
    let a = i128::from(signed_reading(sew, a));
    let b = i128::from(signed_reading(sew, b));
    reduce(width, a - b)
}

/// A number, and a signed one of SEW added to it, at a width.
#[inline(always)]
pub(crate) fn sum_with_signed(sew: u32, width: u32, a: u64, b: u64) -> u64
    requires sew { IsTrue (is_width sew) }
    requires width { IsTrue (is_width width) }
    ensures { result ≡ reduced width (pos a +ℤ signed_at sew b) }
{
    reduce(width, i128::from(a) + i128::from(signed_reading(sew, b)))
}

/// A number, from which a signed one of SEW is taken, at a width.
#[inline(always)]
pub(crate) fn difference_with_signed(sew: u32, width: u32, a: u64, b: u64) -> u64
    requires sew { IsTrue (is_width sew) }
    requires width { IsTrue (is_width width) }
    ensures { result ≡ reduced width (pos a -ℤ signed_at sew b) }
{
    reduce(width, i128::from(a) - i128::from(signed_reading(sew, b)))
}

/// The product of two signed numbers of SEW, at a width.
#[inline(always)]
pub(crate) fn signed_product(sew: u32, width: u32, a: u64, b: u64) -> u64
    requires sew { IsTrue (is_width sew) }
    requires width { IsTrue (is_width width) }
    ensures { result ≡ reduced width (signed_at sew a *ℤ signed_at sew b) }
{
    let product = signed_reading(sew, a) as i128 * signed_reading(sew, b) as i128;
    reduce(width, product)
}

/// The product of a signed number of SEW and an unsigned one, at a width.
#[inline(always)]
pub(crate) fn mixed_product(sew: u32, width: u32, a: u64, b: u64) -> u64
    requires sew { IsTrue (is_width sew) }
    requires width { IsTrue (is_width width) }
    ensures { result ≡ reduced width (signed_at sew a *ℤ pos b) }
{
    let product = signed_reading(sew, a) as i128 * b as i128;
    reduce(width, product)
}

/// The product of two signed numbers of SEW, and a number added to it, at a width.
#[inline(always)]
pub(crate) fn signed_product_and(sew: u32, width: u32, x: u64, y: u64, d: u64) -> u64
    requires sew { IsTrue (is_width sew) }
    requires width { IsTrue (is_width width) }
    ensures { result ≡ reduced width (signed_at sew x *ℤ signed_at sew y +ℤ pos d) }
{
    add_at(width, signed_product(sew, width, x, y), d)
}

/// The product of a signed number of SEW and an unsigned one, and a number added to it, at a width.
#[inline(always)]
pub(crate) fn mixed_product_and(sew: u32, width: u32, x: u64, y: u64, d: u64) -> u64
    requires sew { IsTrue (is_width sew) }
    requires width { IsTrue (is_width width) }
    ensures { result ≡ reduced width (signed_at sew x *ℤ pos y +ℤ pos d) }
{
    add_at(width, mixed_product(sew, width, x, y), d)
}
