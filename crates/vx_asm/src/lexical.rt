ghost use Rattle.std.specs.Prelude.{◌≡◌, ◌≤◌, [], ◌∷◌, length};
ghost use Rattle.vx_language.specs.Faults.{first_of};
ghost use Rattle.vx_language.specs.Lexemes.{is_bad_kind, pieces};
ghost use Rattle.vx_language.specs.Tokens.{bad_bytes, bad_pieces, lexical_faults};
ghost use Rattle.vx_lex.specs.Pieces.{piece_in};

use vx_language::{Fault, FaultKind, PieceKind};
use vx_lex::{Piece, first_bad_byte, piece_at};
use vx_statement::first;

/// The first byte of a source that isn't one of a source, as a fault.
fn bad_byte_fault(source: &[u8]) -> Option<Fault>
    ensures { result ≡ first_of (bad_bytes 0 source.now) }
{
    match first_bad_byte(source) {
        Some(span) => Some(Fault {
            kind: FaultKind::BadByte,
            span,
        }),
        None => None,
    }
}

/// Whether a piece is bad.
fn is_bad(kind: PieceKind) -> bool
    ensures { result ≡ is_bad_kind kind }
{
    match kind {
        PieceKind::Good(_) | PieceKind::Blank => false,
        PieceKind::Bad(_) | PieceKind::Stray => true,
    }
}

/// The fault of a piece of a source that is bad.
fn piece_fault(source: &[u8], piece: Piece) -> Option<Fault>
    requires order { piece.span.start ≤ piece.span.end }
    requires within { piece.span.end ≤ length source.now }
    ensures { result ≡ first_of (bad_pieces (piece_in source.now piece ∷ [])) }
{
    let _ = source;
    if is_bad(piece.kind) {
        Some(Fault {
            kind: FaultKind::BadToken,
            span: piece.span,
        })
    } else {
        None
    }
}

/// The first piece of a source that is bad, as a fault. Takes no memory.
fn bad_piece_fault(source: &[u8]) -> Option<Fault>
    ensures { result ≡ first_of (bad_pieces (pieces source.now)) }
{
    let mut found = None;
    let mut at = 0usize;
    while let Some(piece) = piece_at(source, at) {
        found = first(found, piece_fault(source, piece));
        at = piece.span.end as usize;
    }
    found
}

/// The first lexical fault of a source. Takes no memory.
pub fn lexical_fault(source: &[u8]) -> Option<Fault>
    ensures { result ≡ first_of (lexical_faults source.now) }
{
    first(bad_byte_fault(source), bad_piece_fault(source))
}
