ghost use Rattle.std.specs.Prelude.{◌≡◌, ◌<◌, ◌^◌, IsTrue};
ghost use Rattle.vx_bits.specs.Arithmetic.{shift_amount, shifted_left_at, shifted_right_at, sign_shifted_right_at};
ghost use Rattle.vx_bits.specs.Width.{is_width};

use crate::reading::{low, reduce, signed_reading};

/// By how many bits `b` shifts: its low `width` bits, modulo the width.
fn amount(width: u32, b: u64) -> u32
    requires { IsTrue (is_width width) }
    ensures value { result ≡ shift_amount width b }
    ensures below { result < width }
{
    (low(width, b) % width as u64) as u32
}

/// `a` shifted left by `b` modulo the width.
pub fn sll_at(width: u32, a: u64, b: u64) -> u64
    requires { IsTrue (is_width width) }
    ensures value { result ≡ shifted_left_at width a b }
    ensures below { result < 2 ^ width }
{
    low(width, a << amount(width, b))
}

/// `a` shifted right by `b` modulo the width, with zeros coming in.
pub fn srl_at(width: u32, a: u64, b: u64) -> u64
    requires { IsTrue (is_width width) }
    ensures value { result ≡ shifted_right_at width a b }
    ensures below { result < 2 ^ width }
{
    low(width, a) >> amount(width, b)
}

/// `a` shifted right by `b` modulo the width, with copies of its sign coming in.
pub fn sra_at(width: u32, a: u64, b: u64) -> u64
    requires { IsTrue (is_width width) }
    ensures value { result ≡ sign_shifted_right_at width a b }
    ensures below { result < 2 ^ width }
{
    let shifted = signed_reading(width, a) >> amount(width, b);
    reduce(width, shifted as i128)
}
