ghost use Rattle.std.specs.Prelude.{◌≡◌, ◌≤◌, drop, length};
ghost use Rattle.vx_language.specs.Lines.{behind_labels, is_label};
ghost use Rattle.vx_statement.specs.Lexemes.{piece_of, pieces_of};
ghost use Rattle.vx_asm.specs.Labelling.{BeginWithLabel};

use vx_language::TokenKind;
use vx_statement::Lexeme;

/// Whether two tokens are a label: a name and a colon.
fn is_label(name: &Lexeme<'_>, colon: &Lexeme<'_>) -> bool
    ensures { result ≡ is_label (piece_of name.now) (piece_of colon.now) }
{
    name.is_a(TokenKind::Name) && colon.is_mark(b':')
}

/// Whether tokens begin with a label.
pub fn begin_with_label(tokens: &[Lexeme<'_>]) -> bool
    ensures { BeginWithLabel tokens.now result }
{
    if tokens.len() < 2 {
        return false;
    }
    is_label(&tokens[0], &tokens[1])
}

/// How many tokens of a line stand before its statement, those of its labels.
pub fn labels_length(tokens: &[Lexeme<'_>]) -> usize
    ensures within { result ≤ length tokens.now }
    ensures statement { pieces_of (drop result tokens.now) ≡ behind_labels (pieces_of tokens.now) }
{
    let mut at = 0usize;
    while begin_with_label(&tokens[at..]) {
        at += 2;
    }
    at
}
