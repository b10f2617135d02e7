ghost use Rattle.std.specs.Prelude.{◌≡◌, ◌<◌, ◌^◌, IsTrue};
ghost use Rattle.vx_bits.specs.Arithmetic.{sum_at, difference_at, product_at, signed_high_at, unsigned_high_at, mixed_high_at, signed_quotient_at, unsigned_quotient_at, signed_remainder_at, unsigned_remainder_at};
ghost use Rattle.vx_bits.specs.Width.{is_width};

use crate::reading::{low, mask, reduce, signed_reading};

/// The sum.
pub fn add_at(width: u32, a: u64, b: u64) -> u64
    requires { IsTrue (is_width width) }
    ensures value { result ≡ sum_at width a b }
    ensures below { result < 2 ^ width }
{
    low(width, a.wrapping_add(b))
}

/// `a` less `b`.
pub fn sub_at(width: u32, a: u64, b: u64) -> u64
    requires { IsTrue (is_width width) }
    ensures value { result ≡ difference_at width a b }
    ensures below { result < 2 ^ width }
{
    low(width, a.wrapping_sub(b))
}

/// The low half of the product.
pub fn mul_at(width: u32, a: u64, b: u64) -> u64
    requires { IsTrue (is_width width) }
    ensures value { result ≡ product_at width a b }
    ensures below { result < 2 ^ width }
{
    low(width, a.wrapping_mul(b))
}

/// The high half of the product of two signed numbers.
pub fn mulh_at(width: u32, a: u64, b: u64) -> u64
    requires { IsTrue (is_width width) }
    ensures value { result ≡ signed_high_at width a b }
    ensures below { result < 2 ^ width }
{
    let product = signed_reading(width, a) as i128 * signed_reading(width, b) as i128;
    reduce(width, product >> width)
}

/// The high half of the product of two unsigned numbers.
pub fn mulhu_at(width: u32, a: u64, b: u64) -> u64
    requires { IsTrue (is_width width) }
    ensures value { result ≡ unsigned_high_at width a b }
    ensures below { result < 2 ^ width }
{
    let product = low(width, a) as u128 * low(width, b) as u128;
    (product >> width) as u64
}

/// The high half of the product of a signed `a` and an unsigned `b`.
pub fn mulhsu_at(width: u32, a: u64, b: u64) -> u64
    requires { IsTrue (is_width width) }
    ensures value { result ≡ mixed_high_at width a b }
    ensures below { result < 2 ^ width }
{
    let product = signed_reading(width, a) as i128 * low(width, b) as i128;
    reduce(width, product >> width)
}

/// The signed quotient, rounded toward zero. By zero it is all ones; the least number by -1 is the least number.
pub fn div_at(width: u32, a: u64, b: u64) -> u64
    requires { IsTrue (is_width width) }
    ensures value { result ≡ signed_quotient_at width a b }
    ensures below { result < 2 ^ width }
{
    let divisor = signed_reading(width, b);
    if divisor == 0 {
        return mask(width);
    }
    let quotient = signed_reading(width, a).wrapping_div(divisor);
    reduce(width, quotient as i128)
}

/// The unsigned quotient. By zero it is all ones.
pub fn divu_at(width: u32, a: u64, b: u64) -> u64
    requires { IsTrue (is_width width) }
    ensures value { result ≡ unsigned_quotient_at width a b }
    ensures below { result < 2 ^ width }
{
    let divisor = low(width, b);
    if divisor == 0 {
        return mask(width);
    }
    low(width, a) / divisor
}

/// The remainder of the signed quotient, with the sign of `a`. By zero it is `a`; of the least number by -1 it is 0.
pub fn rem_at(width: u32, a: u64, b: u64) -> u64
    requires { IsTrue (is_width width) }
    ensures value { result ≡ signed_remainder_at width a b }
    ensures below { result < 2 ^ width }
{
    let divisor = signed_reading(width, b);
    if divisor == 0 {
        return low(width, a);
    }
    let remainder = signed_reading(width, a).wrapping_rem(divisor);
    reduce(width, remainder as i128)
}

/// The remainder of the unsigned quotient. By zero it is `a`.
pub fn remu_at(width: u32, a: u64, b: u64) -> u64
    requires { IsTrue (is_width width) }
    ensures value { result ≡ unsigned_remainder_at width a b }
    ensures below { result < 2 ^ width }
{
    let dividend = low(width, a);
    let divisor = low(width, b);
    if divisor == 0 {
        return dividend;
    }
    dividend % divisor
}
