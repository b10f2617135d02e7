ghost use Rattle.std.specs.Prelude.{◌≡◌, ◌<◌, ◌≤◌, [], ◌∷◌, ◌++◌, IfOk, IfSome, OnOk, length, filter, is_some};
ghost use Rattle.vx_language.specs.Lexemes.{token_kind, is_kind, is_token};
ghost use Rattle.vx_language.specs.declared.token.TokenKind.TheVariants as token;
ghost use Rattle.vx_lex.specs.Pieces.{piece_in};
ghost use Rattle.vx_statement.specs.Lexemes.{piece_of, pieces_of};
ghost use Rattle.vx_asm.specs.Reading.{IsLineAt};

use smallvec::SmallVec;
use std::alloc::{AllocError, Global};
use vx_language::{PieceKind, TokenKind};
use vx_lex::{Piece, piece_at};
use vx_statement::Lexeme;

/// A line of a source.
#[derive(Drop)]
pub struct Line<'a> {
    /// Its tokens, without that of its end.
    pub tokens: SmallVec<Lexeme<'a>, 16>,
    /// Where it ends: where its newline stands, or at the source's end.
    pub end: u64,
    /// Where the next one begins; `None` behind the last.
    pub next: Option<usize>,
}

/// Whether a piece is a line's end.
#[tactic(auto, unfolding(vx_language::specs::Lexemes::is_a))]
fn ends_line(kind: PieceKind) -> bool
    ensures { result ≡ is_kind token.Newline (token_kind kind) }
{
    match kind {
        PieceKind::Good(kind) => kind == TokenKind::Newline,
        PieceKind::Bad(kind) => kind == TokenKind::Newline,
        PieceKind::Stray => false,
        PieceKind::Blank => false,
    }
}

/// Whether a piece is a token, good or bad.
fn is_token(kind: PieceKind) -> bool
    ensures { result ≡ is_some (token_kind kind) }
{
    match kind {
        PieceKind::Good(_) | PieceKind::Bad(_) => true,
        PieceKind::Stray | PieceKind::Blank => false,
    }
}

/// The token that a piece of a source is.
fn lexeme_of<'a>(source: &'a [u8], piece: Piece) -> Lexeme<'a>
    requires order { piece.span.start ≤ piece.span.end }
    requires within { piece.span.end ≤ length source.now }
    ensures { piece_of result ≡ piece_in source.entry.now piece }
{
    Lexeme {
        kind: piece.kind,
        start: piece.span.start,
        end: piece.span.end,
        text: &source[piece.span.start as usize..piece.span.end as usize],
    }
}

/// Appends a piece where it is a token.
fn push_token<'a>(
    tokens: &mut SmallVec<Lexeme<'a>, 16>,
    source: &'a [u8],
    piece: Piece,
) -> Result<(), AllocError>
    requires order { piece.span.start ≤ piece.span.end }
    requires within { piece.span.end ≤ length source.now }
    ensures { OnOk result (pieces_of tokens.new.items ≡ pieces_of tokens.old.items ++ filter is_token (piece_in source.entry.now piece ∷ [])) }
{
    if is_token(piece.kind) {
        tokens.push(lexeme_of(source, piece))?;
    }
    Ok(())
}

/// The line of a source that begins at an offset where a piece begins. `Err` where memory is wanting.
pub fn read_line<'a>(alloc: Global, source: &'a [u8], from: usize) -> Result<Line<'a>, AllocError>
    ensures line { IfOk result (λ line. IsLineAt source.entry.now from line) }
    ensures ahead { IfOk result (λ line. IfSome line.next (λ next. (from < next) × (next ≤ length source.entry.now))) }
{
    let mut tokens = SmallVec::new(alloc);
    let mut at = from;
    while let Some(piece) = piece_at(source, at) {
        if ends_line(piece.kind) {
            return Ok(Line {
                tokens,
                end: piece.span.start,
                next: Some(piece.span.end as usize),
            });
        }
        push_token(&mut tokens, source, piece)?;
        at = piece.span.end as usize;
    }
    Ok(Line {
        tokens,
        end: source.len() as u64,
        next: None,
    })
}
