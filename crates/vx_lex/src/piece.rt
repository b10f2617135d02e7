ghost use Rattle.std.specs.Prelude.{◌≡◌, ◌<◌, ◌≤◌, ◌↔◌, ℕ, ◌==◌, not, length, IsNone, IfSome};
ghost use Rattle.std.specs.List.{prefix_len};
ghost use Rattle.vx_language.specs.Bytes.{is_name_byte};
ghost use Rattle.vx_language.specs.Lexemes.{piece_length, kind_of, number_kind};
ghost use Rattle.vx_language.specs.declared.token.Beginning.TheVariants as begins;
ghost use Rattle.vx_lex.specs.Pieces.{BeginsAt};

use crate::byte::{beginning, is_name_byte};
use crate::numeral::{digits_length, number_of};
use crate::quoted::{is_whole_text, text_length};
use vx_language::{Beginning, PieceKind, Span, TokenKind};

/// A piece of a source.
#[derive(Clone, Copy, PartialEq, Eq, Debug)]
pub struct Piece {
    /// What it is.
    pub kind: PieceKind,
    /// Where it stands.
    pub span: Span,
}

/// The piece of a source that begins at an offset where a piece begins; `None` exactly at its end. Takes no memory.
pub fn piece_at(source: &[u8], from: usize) -> Option<Piece>
    ensures end { IsNone result ↔ (length source.now ≤ from) }
    ensures piece { IfSome result (BeginsAt source.now from) }
{
    if from >= source.len() {
        return None;
    }
    let rest = &source[from..];
    let begins = beginning(rest[0]);
    let length = piece_length(begins, rest);
    let kind = kind_of(begins, &rest[..length]);
    Some(Piece {
        kind,
        span: Span {
            start: from as u64,
            end: (from + length) as u64,
        },
    })
}

/// How many of these bytes are of their first piece, which begins so.
#[tactic(auto, unfolding(vx_language::specs::Lexemes::piece_length))]
fn piece_length(begins: Beginning, bytes: &[u8]) -> usize
    requires some { 0 < length bytes.now }
    ensures value { result ≡ piece_length begins bytes.now }
    ensures within { result ≤ length bytes.now }
{
    match begins {
        Beginning::Line | Beginning::Gap | Beginning::Sign | Beginning::Nothing => 1,
        Beginning::Comment => line_length(bytes),
        Beginning::Text => 1 + text_length(&bytes[1..]),
        Beginning::Word => name_length(bytes),
        Beginning::Digits => digits_length(bytes),
        Beginning::Negative => 1 + digits_length(&bytes[1..]),
    }
}

/// How many bytes stand before the first newline.
fn line_length(bytes: &[u8]) -> usize
    ensures value { result ≡ prefix_len (λ byte. not (byte == 10)) bytes.now }
    ensures within { result ≤ length bytes.now }
{
    bytes.iter().take_while(|byte| **byte != b'\n').count()
}

/// How many bytes of a name bytes begin with.
fn name_length(bytes: &[u8]) -> usize
    ensures value { result ≡ prefix_len is_name_byte bytes.now }
    ensures within { result ≤ length bytes.now }
{
    bytes.iter().take_while(|byte| is_name_byte(**byte)).count()
}

/// What a piece of this text is, which begins so.
#[tactic(auto, unfolding(vx_language::specs::Lexemes::kind_of))]
fn kind_of(begins: Beginning, text: &[u8]) -> PieceKind
    requires { 0 < length text.now }
    ensures { result ≡ kind_of begins text.now }
{
    match begins {
        Beginning::Line => PieceKind::Good(TokenKind::Newline),
        Beginning::Gap | Beginning::Comment => PieceKind::Blank,
        Beginning::Sign => PieceKind::Good(TokenKind::Mark),
        Beginning::Text => text_kind(text),
        Beginning::Word => PieceKind::Good(TokenKind::Name),
        Beginning::Digits => number_kind(text),
        Beginning::Negative => negative_kind(text),
        Beginning::Nothing => PieceKind::Stray,
    }
}

/// What a text is, with its quotes: a good token where it is whole.
#[tactic(auto, unfolding(vx_language::specs::Lexemes::kind_of))]
fn text_kind(text: &[u8]) -> PieceKind
    requires { 0 < length text.now }
    ensures { result ≡ kind_of begins.Text text.now }
{
    if is_whole_text(&text[1..]) {
        PieceKind::Good(TokenKind::Quoted)
    } else {
        PieceKind::Bad(TokenKind::Quoted)
    }
}

/// What a number is: a good token where it is in its range.
#[tactic(auto, unfolding(vx_language::specs::Lexemes::number_kind))]
fn number_kind(text: &[u8]) -> PieceKind
    ensures { result ≡ number_kind text.now }
{
    if number_of(text).is_some() {
        PieceKind::Good(TokenKind::Number)
    } else {
        PieceKind::Bad(TokenKind::Number)
    }
}

/// What a piece is that begins with `-`: a number where digits are behind it.
#[tactic(auto, unfolding(vx_language::specs::Lexemes::kind_of))]
fn negative_kind(text: &[u8]) -> PieceKind
    ensures { result ≡ kind_of begins.Negative text.now }
{
    if text.len() == 1 {
        PieceKind::Stray
    } else {
        number_kind(text)
    }
}
