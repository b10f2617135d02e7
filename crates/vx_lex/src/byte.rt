ghost use Rattle.std.specs.Prelude.{◌≡◌, Some, option_map};
ghost use Rattle.vx_language.specs.Bytes.{is_between, is_source_byte, is_digit, is_hex_digit, begins_name, is_name_byte, is_mark};
ghost use Rattle.vx_language.specs.Faults.{first_of};
ghost use Rattle.vx_language.specs.Lexemes.{beginning};
ghost use Rattle.vx_language.specs.Tokens.{bad_bytes};
ghost use Rattle.vx_lex.specs.Pieces.{bad_byte_at};

use vx_language::{Beginning, Span};

/// Whether a byte is from one to another.
fn is_between(least: u8, greatest: u8, byte: u8) -> bool
    ensures { result ≡ is_between least greatest byte }
{
    least <= byte && byte <= greatest
}

/// Whether a byte is one of a source: a newline, a tab, a space or a printable byte of ASCII.
#[tactic(auto, unfolding(vx_language::specs::Bytes::is_source_byte))]
fn is_source_byte(byte: u8) -> bool
    ensures { result ≡ is_source_byte byte }
{
    byte == b'\n' || byte == b'\t' || is_between(b' ', b'~', byte)
}

/// Whether a byte is a decimal digit.
#[tactic(auto, unfolding(vx_language::specs::Bytes::is_digit))]
pub fn is_digit(byte: u8) -> bool
    ensures { result ≡ is_digit byte }
{
    is_between(b'0', b'9', byte)
}

/// Whether a byte is a hexadecimal digit, of either letter case.
#[tactic(auto, unfolding(vx_language::specs::Bytes::is_hex_digit))]
pub fn is_hex_digit(byte: u8) -> bool
    ensures { result ≡ is_hex_digit byte }
{
    is_digit(byte) || is_between(b'A', b'F', byte) || is_between(b'a', b'f', byte)
}

/// Whether a name begins with a byte.
#[tactic(auto, unfolding(vx_language::specs::Bytes::begins_name))]
fn begins_name(byte: u8) -> bool
    ensures { result ≡ begins_name byte }
{
    is_between(b'A', b'Z', byte) || is_between(b'a', b'z', byte) || byte == b'_' || byte == b'.'
}

/// Whether a name goes on with a byte.
#[tactic(auto, unfolding(vx_language::specs::Bytes::is_name_byte))]
pub fn is_name_byte(byte: u8) -> bool
    ensures { result ≡ is_name_byte byte }
{
    begins_name(byte) || is_digit(byte)
}

/// Whether a byte is a mark.
#[tactic(auto, unfolding(vx_language::specs::Bytes::is_mark))]
fn is_mark(byte: u8) -> bool
    ensures { result ≡ is_mark byte }
{
    byte == b',' || byte == b'(' || byte == b')' || byte == b':'
}

/// What a piece can be that begins with a byte.
#[tactic(auto, unfolding(vx_language::specs::Lexemes::beginning))]
pub fn beginning(byte: u8) -> Beginning
    ensures { result ≡ beginning byte }
{
    if byte == b'\n' {
        Beginning::Line
    } else if byte == b' ' || byte == b'\t' {
        Beginning::Gap
    } else if byte == b'#' {
        Beginning::Comment
    } else if is_mark(byte) {
        Beginning::Sign
    } else if byte == b'"' {
        Beginning::Text
    } else if begins_name(byte) {
        Beginning::Word
    } else if is_digit(byte) {
        Beginning::Digits
    } else if byte == b'-' {
        Beginning::Negative
    } else {
        Beginning::Nothing
    }
}

/// The first byte of a source that isn't one of a source, where there is one. Takes no memory.
pub fn first_bad_byte(source: &[u8]) -> Option<Span>
    ensures { option_map bad_byte_at result ≡ first_of (bad_bytes 0 source.now) }
{
    for (i, byte) in source.iter().enumerate() {
        if !is_source_byte(*byte) {
            return Some(Span {
                start: i as u64,
                end: i as u64 + 1,
            });
        }
    }
    None
}
