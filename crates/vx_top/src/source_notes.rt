ghost use Rattle.std.specs.Prelude.{◌≡◌, ◌≤◌, ◌==◌, not, length, take, reverse, count_by, IfOk, string_bytes};
ghost use Rattle.std.specs.List.{prefix_len};
ghost use Rattle.vx_language.specs.Bytes.{newline};
ghost use Rattle.vx_words.specs.Notes.{bad_source};
ghost use Rattle.vx_words.specs.Sources.{line_number, column_number, source_fault_text};

use std::alloc::{AllocError, Global};
use vx_language::{Fault, FaultKind};

/// The bytes of a source before an offset.
#[tactic(auto, using(crate::proofs::Sourced::take_past))]
fn before(source: &[u8], offset: u64) -> &[u8]
    ensures { result.now ≡ take offset source.entry.now }
{
    match source.get(..offset as usize) {
        Some(before) => before,
        None => source,
    }
}

/// How many newlines stand in bytes.
fn newlines(bytes: &[u8]) -> usize
    ensures value { result ≡ count_by (λ byte. byte == newline) bytes.now }
    ensures within { result ≤ length bytes.now }
{
    bytes.iter().filter(|byte| **byte == b'\n').count()
}

/// How many bytes stand behind the last newline.
fn last_line_length(bytes: &[u8]) -> usize
    ensures value { result ≡ prefix_len (λ byte. not (byte == newline)) (reverse bytes.now) }
    ensures within { result ≤ length bytes.now }
{
    bytes
        .iter()
        .rev()
        .take_while(|byte| **byte != b'\n')
        .count()
}

/// The line of the byte at an offset, counted from 1.
fn line_number(source: &[u8], offset: u64) -> usize
    ensures { result ≡ line_number source.now offset }
{
    1 + newlines(before(source, offset))
}

/// Its column, counted from 1 in bytes.
fn column_number(source: &[u8], offset: u64) -> usize
    ensures { result ≡ column_number source.now offset }
{
    1 + last_line_length(before(source, offset))
}

/// The text of a fault.
fn source_fault_text(kind: FaultKind) -> &'static str
    ensures { result.now ≡ source_fault_text kind }
{
    match kind {
        FaultKind::BadByte => "bad byte",
        FaultKind::BadToken => "bad token",
        FaultKind::UnknownName => "unknown name",
        FaultKind::BadOperand => "bad operand",
        FaultKind::OutOfRange => "out of range",
        FaultKind::Twice => "defined twice",
        FaultKind::Undefined => "undefined",
        FaultKind::TooLarge => "too large",
    }
}

/// The note where a source has a fault.
pub fn bad_source(
    alloc: Global,
    name: &str,
    source: &[u8],
    fault: Fault,
) -> Result<String, AllocError>
    ensures { IfOk result (λ text. string_bytes text ≡ bad_source name.now source.now fault) }
{
    let line = line_number(source, fault.span.start);
    let column = column_number(source, fault.span.start);
    let text = source_fault_text(fault.kind);
    format!(in alloc; "vexec: {name}:{line}:{column}: {text}\n")
}
