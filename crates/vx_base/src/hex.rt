ghost use Rattle.std.specs.Prelude.{◌≡◌, ◌<◌, ◌++◌, OnOk, string_bytes};
ghost use Rattle.vx_base.specs.Hex.{hex_digit, hex_digits};

use std::alloc::AllocError;

/// The hexadecimal digit, 0 to 9 and a to f, of a number below 16.
fn hex_digit(n: u8) -> u8
    requires { n < 16 }
    ensures value { result ≡ hex_digit n }
    ensures ascii { result < 128 }
{
    if n < 10 { b'0' + n } else { b'a' - 10 + n }
}

/// Appends the last `count` hexadecimal digits of a number. `Err` where memory is wanting.
pub fn push_hex(text: &mut String, count: u32, n: u64) -> Result<(), AllocError>
    ensures { OnOk result (string_bytes text.new ≡ string_bytes text.old ++ hex_digits count n) }
{
    if count > 0 {
        push_hex(text, count - 1, n / 16)?;
        text.push(char::from(hex_digit((n % 16) as u8)))?;
    }
    Ok(())
}
