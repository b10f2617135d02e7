ghost use Rattle.std.specs.Prelude.{◌≡◌, List, [], ◌∷◌, ℕ, IfOk, map};
ghost use Rattle.vx_language.specs.Faults.{first_of};
ghost use Rattle.vx_language.specs.Lexemes.{Piece, is_bad};
ghost use Rattle.vx_language.specs.Places.{Place, may_have_code_in, name_placement_faults};
ghost use Rattle.vx_language.specs.Statements.{statement_faults};
ghost use Rattle.vx_language.specs.Tokens.{bad_pieces};
ghost use Rattle.vx_statement.specs.Knowing.{Know};
ghost use Rattle.vx_statement.specs.Lexemes.{piece_of, pieces_of};
ghost use Rattle.vx_statement.specs.Owning.{own_of, AreFormsOf};
ghost use Rattle.vx_statement.specs.Statements.{AreForms};

use crate::faults::first;
use crate::form::Form;
use crate::forms::forms_of;
use crate::labels::Labels;
use crate::lexeme::Lexeme;
use crate::statement::{are_code, named_fault};
use smallvec::SmallVec;
use std::alloc::{AllocError, Global};
use vx_language::{Fault, FaultKind, PieceKind, TokenKind};

/// All forms of a statement's name. `Err` where memory is wanting.
pub fn statement_forms(
    alloc: Global,
    statement: &[Lexeme<'_>],
) -> Result<SmallVec<Form, 4>, AllocError>
    ensures { IfOk result (λ forms. AreFormsOf statement.now forms.items) }
{
    match statement.split_first() {
        Some((name, _)) => forms_of(alloc, name.text),
        None => Ok(SmallVec::new(alloc)),
    }
}

/// The first fault of a statement on a line that ends at this offset, where these are all forms of its name, and instructions
/// may stand where it stands, or not. `Err` where memory is wanting.
pub fn own_fault(
    alloc: Global,
    labels: &Labels<'_>,
    may_have_code: bool,
    end: u64,
    statement: &[Lexeme<'_>],
    forms: &[Form],
) -> Result<Option<Fault>, AllocError>
    requires { AreFormsOf statement.now forms.now }
    ensures { IfOk result (λ fault. (names : List (List ℕ)) (place : Place) → Know labels.now names → may_have_code ≡ may_have_code_in place place.section → fault ≡ first_of (own_of names place end (pieces_of statement.now))) }
{
    let Some((name, operands)) = statement.split_first() else {
        return Ok(None);
    };
    let by_itself = begun_fault(alloc, labels, end, name, operands, forms)?;
    let by_tokens = bad_fault(statement);
    let by_place = placement_fault(may_have_code, name, forms);
    Ok(first(first(by_itself, by_tokens), by_place))
}

/// The first fault of a statement by itself, which has this first token.
fn begun_fault(
    alloc: Global,
    labels: &Labels<'_>,
    end: u64,
    name: &Lexeme<'_>,
    operands: &[Lexeme<'_>],
    forms: &[Form],
) -> Result<Option<Fault>, AllocError>
    requires { AreForms name.now.text.now forms.now }
    ensures { IfOk result (λ fault. (names : List (List ℕ)) → Know labels.now names → fault ≡ first_of (statement_faults names end (piece_of name.now ∷ pieces_of operands.now))) }
{
    if name.is_a(TokenKind::Name) {
        named_fault(alloc, labels, end, name, operands, forms)
    } else {
        Ok(Some(name.fault(FaultKind::BadOperand)))
    }
}

/// Whether a token is bad.
fn is_bad(token: &Lexeme<'_>) -> bool
    ensures { result ≡ is_bad (piece_of token.now) }
{
    match token.kind {
        PieceKind::Good(_) | PieceKind::Blank => false,
        PieceKind::Bad(_) | PieceKind::Stray => true,
    }
}

/// The fault of a token that is bad.
fn token_fault(token: &Lexeme<'_>) -> Option<Fault>
    ensures { result ≡ first_of (bad_pieces (piece_of token.now ∷ [])) }
{
    if is_bad(token) {
        Some(token.fault(FaultKind::BadToken))
    } else {
        None
    }
}

/// The first of the tokens that is bad, as a fault.
fn bad_fault(tokens: &[Lexeme<'_>]) -> Option<Fault>
    ensures { result ≡ first_of (bad_pieces (pieces_of tokens.now)) }
{
    let mut found = None;
    for token in tokens {
        found = first(found, token_fault(token));
    }
    found
}

/// The fault of an instruction that may not stand where it stands.
fn placement_fault(may_have_code: bool, name: &Lexeme<'_>, forms: &[Form]) -> Option<Fault>
    requires { AreForms name.now.text.now forms.now }
    ensures { (place : Place) (operands : List Piece) → may_have_code ≡ may_have_code_in place place.section → result ≡ first_of (name_placement_faults place (piece_of name.now) operands) }
{
    if !name.is_a(TokenKind::Name) {
        return None;
    }
    if !are_code(forms) {
        return None;
    }
    if may_have_code {
        return None;
    }
    Some(name.fault(FaultKind::BadOperand))
}
