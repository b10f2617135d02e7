ghost use Rattle.std.specs.Prelude.{◌≡◌, ◌<◌, ◌≤◌, ◌++◌, false, length, drop, OnOk};
ghost use Rattle.vx_language.specs.Texts.{closes, escapes, text_length, is_escape, breaks, is_whole_text, meant, text_bytes};

use std::alloc::AllocError;

/// Whether a byte closes a text, where `escaped` says that the byte before escapes it.
fn closes(escaped: bool, byte: u8) -> bool
    ensures { result ≡ closes escaped byte }
{
    !escaped && byte == b'"'
}

/// Whether a byte of a text escapes the byte behind it.
fn escapes(escaped: bool, byte: u8) -> bool
    ensures { result ≡ escapes escaped byte }
{
    !escaped && byte == b'\\'
}

/// Whether a byte may stand behind a backslash.
#[tactic(auto, unfolding(vx_language::specs::Texts::is_escape))]
fn is_escape(byte: u8) -> bool
    ensures { result ≡ is_escape byte }
{
    byte == b'n' || byte == b'\\' || byte == b'"'
}

/// Whether a byte breaks a text: a newline, or another escape.
fn breaks(escaped: bool, byte: u8) -> bool
    ensures { result ≡ breaks escaped byte }
{
    byte == b'\n' || (escaped && !is_escape(byte))
}

/// How many bytes behind a first quote are of its text.
pub fn text_length(bytes: &[u8]) -> usize
    ensures value { result ≡ text_length false bytes.now }
    ensures within { result ≤ length bytes.now }
{
    let mut escaped = false;
    for (i, byte) in bytes.iter().enumerate() {
        if *byte == b'\n' {
            return i;
        }
        if closes(escaped, *byte) {
            return i + 1;
        }
        escaped = escapes(escaped, *byte);
    }
    bytes.len()
}

/// Whether the bytes behind a first quote have a closing quote on their line, and no other escape before it.
pub fn is_whole_text(bytes: &[u8]) -> bool
    ensures { result ≡ is_whole_text false bytes.now }
{
    let mut escaped = false;
    for byte in bytes {
        if breaks(escaped, *byte) {
            return false;
        }
        if closes(escaped, *byte) {
            return true;
        }
        escaped = escapes(escaped, *byte);
    }
    false
}

/// Appends the bytes that a text means, from behind its first quote. What an error leaves is open.
pub fn push_text(out: &mut Vec<u8>, bytes: &[u8]) -> Result<(), AllocError>
    ensures { OnOk result (out.new.items ≡ out.old.items ++ text_bytes false bytes.now) }
{
    let mut escaped = false;
    for byte in bytes {
        if closes(escaped, *byte) {
            return Ok(());
        }
        push_meant(out, escaped, *byte)?;
        escaped = escapes(escaped, *byte);
    }
    Ok(())
}

/// Appends what one byte of a text means.
#[tactic(auto, unfolding(vx_language::specs::Texts::meant))]
fn push_meant(out: &mut Vec<u8>, escaped: bool, byte: u8) -> Result<(), AllocError>
    ensures { OnOk result (out.new.items ≡ out.old.items ++ meant escaped byte) }
{
    if escaped {
        out.push(if byte == b'n' { b'\n' } else { byte })?;
    } else if byte != b'\\' {
        out.push(byte)?;
    }
    Ok(())
}
