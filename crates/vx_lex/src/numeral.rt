ghost use Rattle.std.specs.Prelude.{◌≡◌, ℕ, ◌^◌, ◌<◌, ◌≤◌, min, pos, Some, None, length, slice_index, IsTrue, if◌then◌else◌};
ghost use Rattle.std.specs.List.{prefix_len};
ghost use Rattle.vx_language.specs.Bytes.{is_digit, is_hex_digit};
ghost use Rattle.vx_language.specs.Numerals.{is_hexadecimal, digits_length, digit_value, from_digits, magnitude, number_value, is_number_value};

use crate::byte::{is_digit, is_hex_digit};

/// A number from which on none is in the range of numbers, with or without a sign.
const TOO_LARGE: u128 = 1 << 64;

/// Byte `n`, or 0 where there are fewer.
fn byte_at(bytes: &[u8], n: usize) -> u8
    ensures { result ≡ slice_index bytes.now n }
{
    bytes.get(n).copied().unwrap_or(0)
}

/// Whether bytes begin with `0x` and a hexadecimal digit.
#[tactic(auto, unfolding(vx_language::specs::Numerals::is_hexadecimal))]
fn is_hexadecimal(bytes: &[u8]) -> bool
    ensures value { result ≡ is_hexadecimal bytes.now }
    ensures long { IsTrue result → 2 < length bytes.now }
{
    byte_at(bytes, 0) == b'0' && byte_at(bytes, 1) == b'x' && is_hex_digit(byte_at(bytes, 2))
}

/// How many decimal digits bytes begin with.
fn decimal_length(bytes: &[u8]) -> usize
    ensures value { result ≡ prefix_len is_digit bytes.now }
    ensures within { result ≤ length bytes.now }
{
    bytes.iter().take_while(|byte| is_digit(**byte)).count()
}

/// How many hexadecimal digits bytes begin with.
fn hex_length(bytes: &[u8]) -> usize
    ensures value { result ≡ prefix_len is_hex_digit bytes.now }
    ensures within { result ≤ length bytes.now }
{
    bytes.iter().take_while(|byte| is_hex_digit(**byte)).count()
}

/// How many bytes, from the first on, are a number without sign.
#[tactic(auto, unfolding(vx_language::specs::Numerals::digits_length))]
pub fn digits_length(bytes: &[u8]) -> usize
    ensures value { result ≡ digits_length bytes.now }
    ensures within { result ≤ length bytes.now }
{
    if is_hexadecimal(bytes) {
        2 + hex_length(&bytes[2..])
    } else {
        decimal_length(bytes)
    }
}

/// The value of a digit of either letter case.
#[tactic(auto, unfolding(vx_language::specs::Numerals::digit_value))]
fn digit_value(byte: u8) -> u8
    ensures { result ≡ digit_value byte }
{
    if byte < 58 {
        byte.saturating_sub(48)
    } else if byte < 71 {
        byte - 55
    } else {
        byte.saturating_sub(87)
    }
}

/// The number of these digits, or `TOO_LARGE` where it isn't below.
fn from_digits(base: u8, digits: &[u8]) -> u128
    requires some { 1 ≤ base }
    requires within { base ≤ 16 }
    ensures { result ≡ min (from_digits base digits.now) TOO_LARGE }
{
    let mut value = 0u128;
    for digit in digits {
        value = (value * u128::from(base) + u128::from(digit_value(*digit))).min(TOO_LARGE);
    }
    value
}

/// The number of a text without sign, or `TOO_LARGE` where it isn't below.
#[tactic(auto, unfolding(vx_language::specs::Numerals::magnitude))]
fn magnitude(text: &[u8]) -> u128
    ensures { result ≡ min (magnitude text.now) TOO_LARGE }
{
    if is_hexadecimal(text) {
        from_digits(16, &text[2..])
    } else {
        from_digits(10, text)
    }
}

/// The value of a number of this text, where it is from -2^63 to 2^64 - 1.
#[tactic(auto, unfolding(vx_language::specs::Numerals::number_value, vx_language::specs::Numerals::is_number_value))]
pub fn number_of(text: &[u8]) -> Option<i128>
    ensures { result ≡ (if is_number_value (number_value text.now) then Some (number_value text.now) else None) }
{
    if byte_at(text, 0) == b'-' {
        let value = magnitude(&text[1..]);
        if value <= 1 << 63 {
            Some(-(value as i128))
        } else {
            None
        }
    } else {
        let value = magnitude(text);
        if value < TOO_LARGE {
            Some(value as i128)
        } else {
            None
        }
    }
}
