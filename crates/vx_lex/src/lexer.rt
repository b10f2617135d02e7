ghost use Rattle.std.specs.Prelude.{◌≡◌, Some, option_map};
ghost use Rattle.vx_language.specs.Faults.{earlier, earliest};
ghost use Rattle.vx_lex.specs.Pieces.{bad_byte_at};
ghost use Rattle.vx_lex.specs.Reading.{Reads, ReadsPieces, bad_token_at, fault_told};

use crate::byte::first_bad_byte;
use crate::fault::LexFault;
use crate::list::Tokens;
use crate::piece::piece_at;
use std::alloc::Global;
use vx_language::{PieceKind, Span, Token, firsts_join};

/// The tokens of a source, in their order, or its first lexical fault: the one that starts first, and of two that start at
/// one byte the bad byte. Linear in the source.
pub fn tokens(alloc: Global, source: &[u8]) -> Result<Tokens, LexFault>
    ensures { Reads source.now result }
{
    firsts_join();
    let bad_byte = first_bad_byte(source);
    match read_pieces(alloc, source) {
        Ok(list) => match bad_byte {
            None => Ok(list),
            Some(span) => Err(LexFault::BadByte(span)),
        },
        Err(LexFault::BadToken(span)) => Err(first_with(bad_byte, span)),
        Err(fault) => Err(fault),
    }
}

/// The first of a bad byte, where there is one, and of a bad token.
fn first_with(bad_byte: Option<Span>, bad_token: Span) -> LexFault
    ensures { fault_told result ≡ earliest (option_map bad_byte_at bad_byte) (Some (bad_token_at bad_token)) }
{
    match bad_byte {
        Some(span) => first_of_two(span, bad_token),
        None => LexFault::BadToken(bad_token),
    }
}

/// The first of a bad byte and a bad token; the byte where both start at it.
#[tactic(auto, unfolding(vx_language::specs::Faults::earlier, vx_language::specs::Faults::comes_before))]
fn first_of_two(bad_byte: Span, bad_token: Span) -> LexFault
    ensures { fault_told result ≡ Some (earlier (bad_byte_at bad_byte) (Some (bad_token_at bad_token))) }
{
    if bad_token.start < bad_byte.start {
        LexFault::BadToken(bad_token)
    } else {
        LexFault::BadByte(bad_byte)
    }
}

/// The tokens of a source, or the first of its pieces that is bad.
fn read_pieces(alloc: Global, source: &[u8]) -> Result<Tokens, LexFault>
    ensures { ReadsPieces source.now result }
{
    let mut items = Vec::new(alloc);
    let mut from = 0usize;
    'pieces: while let Some(piece) = piece_at(source, from) {
        match piece.kind {
            PieceKind::Good(kind) => items.push(Token {
                kind,
                span: piece.span,
            })?,
            PieceKind::Bad(_) | PieceKind::Stray => return Err(LexFault::BadToken(piece.span)),
            PieceKind::Blank => {}
        }
        from = piece.span.end as usize;
    }
    Ok(Tokens::of(items))
}
