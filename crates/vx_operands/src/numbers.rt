ghost use Rattle.std.specs.Prelude.{IsTrue, ◌≡◌, pos, int_lt, ◌+◌, ◌-◌, ◌*◌, ◌%◌, ◌^◌, if◌then◌else◌};
ghost use Rattle.vx_base.specs.Numbers.{reduced, signed};
ghost use Rattle.vx_bits.specs.Width.{is_width};
ghost use Rattle.vx_vector.specs.Numbers.{is_less_at, plain};

use vx_bits::{Sat, low};

/// A value that wasn't clipped.
#[inline(always)]
pub fn plain(value: u64) -> Sat
    ensures { result ≡ plain value }
{
    Sat { value, sat: false }
}

/// The low bits of a number, so many, as the highest of a word.
#[inline(always)]
fn raised(width: u32, a: u64) -> u64
    requires { IsTrue (is_width width) }
    ensures { result ≡ a % 2 ^ width * 2 ^ (64 - width) }
{
    a << (64 - width)
}

/// Whether `a` is less than `b`, as signed numbers of 64 bits.
#[inline(always)]
fn is_less_word(a: u64, b: u64) -> bool
    ensures { result ≡ int_lt (signed 64 a) (signed 64 b) }
{
    a.cast_signed() < b.cast_signed()
}

/// Whether `a` is less than `b`, as signed numbers of a width. They are in the order of the words whose highest bits they are.
#[inline(always)]
pub fn is_less(width: u32, a: u64, b: u64) -> bool
    requires { IsTrue (is_width width) }
    ensures { result ≡ is_less_at width a b }
{
    is_less_word(raised(width, a), raised(width, b))
}

/// The lesser of two signed numbers of a width.
#[inline(always)]
pub fn lesser(width: u32, a: u64, b: u64) -> u64
    requires { IsTrue (is_width width) }
    ensures { result ≡ (if is_less_at width b a then b else a) }
{
    if is_less(width, b, a) { b } else { a }
}

/// The greater of two signed numbers of a width.
#[inline(always)]
pub fn greater(width: u32, a: u64, b: u64) -> u64
    requires { IsTrue (is_width width) }
    ensures { result ≡ (if is_less_at width a b then b else a) }
{
    if is_less(width, a, b) { b } else { a }
}

/// A product, and a number added to it.
#[inline(always)]
pub fn product_and(width: u32, x: u64, y: u64, a: u64) -> u64
    requires { IsTrue (is_width width) }
    ensures { result ≡ reduced width (pos (x * y + a)) }
{
    low(width, x.wrapping_mul(y).wrapping_add(a))
}
