ghost use Rattle.std.specs.Prelude.{◌≡◌, ◌<◌, ◌≤◌, ◌^◌};
ghost use Rattle.vx_base.specs.Numbers.{field, signed};

/// The `count` bits of a word from bit `low` on.
pub(crate) fn bits(word: u32, low: u32, count: u32) -> u32
    requires low_in { low < 32 }
    requires count_in { count < 32 }
    ensures value { result ≡ field word low count }
    ensures below { result < 2 ^ count }
{
    (word >> low) % (1 << count)
}

/// A number of `width` bits, read as a signed one.
pub(crate) fn signed_number(width: u32, n: u32) -> i64
    requires some { 0 < width }
    requires within { width < 32 }
    requires fits { n < 2 ^ width }
    ensures { result ≡ signed width n }
{
    if n < 1 << (width - 1) {
        i64::from(n)
    } else {
        i64::from(n) - i64::from(1u32 << width)
    }
}
