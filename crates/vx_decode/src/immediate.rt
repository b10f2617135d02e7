ghost use Rattle.std.specs.Prelude.{◌≡◌};
ghost use Rattle.vx_decode.specs.Decoded.{number_of, immediate_s, immediate_b, immediate_j};
ghost use Rattle.vx_rows.specs.Layouts.{layout_of};

use crate::field::{bits, signed_number};
use vx_rows::{Number, Shape};

/// The number of a word of this shape, which is 0 where the shape has none.
pub(crate) fn number(word: u32, shape: Shape) -> i64
    ensures { result ≡ number_of (layout_of shape).number word }
{
    match shape.layout().number {
        Number::Absent => 0,
        Number::Unsigned(low, count) => i64::from(bits(word, low, count)),
        Number::Signed(low, count) => signed_number(count, bits(word, low, count)),
        Number::FormatS => number_s(word),
        Number::FormatB => number_b(word),
        Number::FormatJ => number_j(word),
    }
}

/// The signed number of a word of format S.
fn number_s(word: u32) -> i64
    ensures { result ≡ immediate_s word }
{
    signed_number(12, bits(word, 25, 7) * 32 + bits(word, 7, 5))
}

/// The signed even number of a word of format B.
fn number_b(word: u32) -> i64
    ensures { result ≡ immediate_b word }
{
    let high = bits(word, 31, 1) * 4096 + bits(word, 7, 1) * 2048;
    signed_number(13, high + bits(word, 25, 6) * 32 + bits(word, 8, 4) * 2)
}

/// The signed even number of a word of format J.
fn number_j(word: u32) -> i64
    ensures { result ≡ immediate_j word }
{
    let high = bits(word, 31, 1) * 1_048_576 + bits(word, 12, 8) * 4096;
    signed_number(21, high + bits(word, 20, 1) * 2048 + bits(word, 21, 10) * 2)
}
