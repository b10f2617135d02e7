ghost use Rattle.std.specs.Prelude.{◌≡◌, List, ℕ, Bool, map, IfOk, option_map};
ghost use Rattle.std.specs.List.{list_any};
ghost use Rattle.vx_language.specs.Faults.{first_of};
ghost use Rattle.vx_language.specs.Statements.{named_faults, form_for, take_all};
ghost use Rattle.vx_language.specs.Places.{is_code};
ghost use Rattle.vx_statement.specs.Knowing.{Know};
ghost use Rattle.vx_statement.specs.Lexemes.{piece_of, pieces_of};
ghost use Rattle.vx_statement.specs.Statements.{AreForms};
ghost use Rattle.vx_statement.specs.Ways.{commas_in, way_slots, gives_code, form_of};
ghost use Rattle.vx_statement.specs.declared.form.Form.{Form};

use crate::form::{Action, Form};
use crate::labels::Labels;
use crate::lexeme::Lexeme;
use crate::operands::operand_fault;
use crate::way::Way;
use smallvec::SmallVec;
use std::alloc::{AllocError, Global};
use vx_language::{Fault, FaultKind};

/// What stands behind the name in each of these forms.
fn ways_of(alloc: Global, forms: &[Form]) -> Result<SmallVec<Way, 4>, AllocError>
    ensures { IfOk result (λ ways. ways.items ≡ map (λ (form : Form). form.way) forms.now) }
{
    let mut ways = SmallVec::new(alloc);
    for form in forms {
        ways.push(form.way)?;
    }
    Ok(ways)
}

/// The first fault of a statement of this name and these tokens behind it, on a line that ends at this offset, where these are
/// all forms of the name. `Err` where memory is wanting.
pub fn named_fault(
    alloc: Global,
    labels: &Labels<'_>,
    end: u64,
    name: &Lexeme<'_>,
    operands: &[Lexeme<'_>],
    forms: &[Form],
) -> Result<Option<Fault>, AllocError>
    requires { AreForms name.now.text.now forms.now }
    ensures { IfOk result (λ fault. (names : List (List ℕ)) → Know labels.now names → fault ≡ first_of (named_faults names end (piece_of name.now) (pieces_of operands.now))) }
{
    if forms.is_empty() {
        return Ok(Some(name.fault(FaultKind::UnknownName)));
    }
    let ways = ways_of(alloc, forms)?;
    operand_fault(alloc, labels, end, ways, operands)
}

/// Whether a statement of these forms gives instructions.
pub fn are_code(forms: &[Form]) -> bool
    ensures { (name : List ℕ) (commas : ℕ) → result ≡ list_any is_code (map (form_of name commas) forms.now) }
{
    forms.iter().any(|form| gives_code(form.action))
}

/// Whether an action gives instructions.
fn gives_code(action: Action) -> bool
    ensures { result ≡ gives_code action }
{
    match action {
        Action::Puts(_, _) => true,
        Action::Enters(_)
        | Action::PutsNumbers(_)
        | Action::PutsText
        | Action::PutsZeros
        | Action::Aligns
        | Action::Rests => false,
    }
}

/// Whether the tokens are what may stand behind a name, up to the line's end.
fn takes_all(way: Way, tokens: &[Lexeme<'_>]) -> bool
    ensures { result ≡ take_all (way_slots (commas_in (pieces_of tokens.now)) way) (pieces_of tokens.now) }
{
    let mut rest = way;
    for token in tokens {
        let Some((_, later)) = rest.step(token) else {
            return false;
        };
        rest = later;
    }
    rest.is_done()
}

/// The form that a statement has, among all forms of its name.
pub fn form_for(name: &Lexeme<'_>, operands: &[Lexeme<'_>], forms: &[Form]) -> Option<Form>
    requires { AreForms name.now.text.now forms.now }
    ensures { option_map (form_of name.now.text.now (commas_in (pieces_of operands.now))) result ≡ form_for (piece_of name.now) (pieces_of operands.now) }
{
    forms
        .iter()
        .find(|form| takes_all(form.way, operands))
        .copied()
}
