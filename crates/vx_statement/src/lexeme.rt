ghost use Rattle.std.specs.Prelude.{◌≡◌, ◌+◌, [], ◌∷◌, length};

use vx_language::{Fault, FaultKind, PieceKind, Span, TokenKind};

/// A token of a source, good or bad.
#[derive(Clone, Copy)]
pub struct Lexeme<'a> {
    /// What it is.
    pub kind: PieceKind,
    /// Where its first byte stands.
    pub start: u64,
    /// Where the byte behind its last one stands.
    pub end: u64,
    /// Its bytes.
    pub text: &'a [u8],
    ghost whole: { start + length text.now ≡ end },
}

impl<'a> Default for Lexeme<'a> {
    /// No bytes, at the beginning.
    fn default() -> Lexeme<'a> {
        Lexeme {
            kind: PieceKind::Blank,
            start: 0,
            end: 0,
            text: &[],
        }
    }
}

impl Lexeme<'_> {
    ghost use Rattle.vx_language.specs.Faults.{fault_at};
    ghost use Rattle.vx_language.specs.Lexemes.{is_a};
    ghost use Rattle.vx_language.specs.Lines.{is_the_mark};
    ghost use Rattle.vx_language.specs.Slots.{is_the_name};
    ghost use Rattle.vx_statement.specs.Lexemes.{piece_of};

    /// Whether it is a token of this kind, good or bad.
    #[tactic(auto, unfolding(vx_language::specs::Lexemes::is_a))]
    pub fn is_a(&self, kind: TokenKind) -> bool
        ensures { result ≡ is_a kind (piece_of self.now) }
    {
        match self.kind {
            PieceKind::Good(own) => own == kind,
            PieceKind::Bad(own) => own == kind,
            PieceKind::Stray => false,
            PieceKind::Blank => false,
        }
    }

    /// Whether it is this mark.
    #[tactic(auto, unfolding(vx_language::specs::Lines::is_the_mark))]
    pub fn is_mark(&self, mark: u8) -> bool
        ensures { result ≡ is_the_mark (mark ∷ []) (piece_of self.now) }
    {
        self.is_a(TokenKind::Mark) && self.text.len() == 1 && self.text[0] == mark
    }

    /// Whether it is this name.
    pub fn is_the_name(&self, name: &str) -> bool
        ensures { result ≡ is_the_name name.now (piece_of self.now) }
    {
        self.is_a(TokenKind::Name) && self.text == name.as_bytes()
    }

    /// A fault of this kind that names it.
    pub fn fault(&self, kind: FaultKind) -> Fault
        ensures { result ≡ fault_at kind (piece_of self.now) }
    {
        Fault {
            kind,
            span: Span {
                start: self.start,
                end: self.end,
            },
        }
    }
}
