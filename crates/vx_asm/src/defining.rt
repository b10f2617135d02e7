ghost use Rattle.std.specs.Prelude.{◌≡◌, List, ℕ, bytes_eq, IfOk, OnOk};
ghost use Rattle.vx_language.specs.Faults.{first_of};
ghost use Rattle.vx_statement.specs.Knowing.{Know};
ghost use Rattle.vx_language.specs.Lines.{labels_before};
ghost use Rattle.vx_statement.specs.Lexemes.{piece_of, pieces_of};
ghost use Rattle.vx_asm.specs.Defining.{Defines, DefineAll, PutsAt, names_one};
ghost use Rattle.vx_statement.specs.Labels.{place_of};

use crate::label::begin_with_label;
use std::alloc::AllocError;
use vx_language::{Fault, FaultKind};
use vx_statement::{Labels, Lexeme, Place, first};

/// Adds a label at a place, and answers its fault where it is defined again. `Err` where memory is wanting.
pub fn define<'a>(
    labels: &mut Labels<'a>,
    name: &Lexeme<'a>,
    place: Place,
) -> Result<Option<Fault>, AllocError>
    ensures places { OnOk result (PutsAt labels.old labels.new (λ n. bytes_eq n (piece_of name.now).text) (place_of place)) }
    ensures fault { IfOk result (λ fault. (names : List (List ℕ)) → Know labels.old names → Defines (piece_of name.now) names labels.new fault) }
{
    if labels.add(name.text, place)? {
        Ok(None)
    } else {
        Ok(Some(name.fault(FaultKind::Twice)))
    }
}

/// Adds the labels of a line with these tokens, which stands at a place, and answers the first fault of one that is defined
/// again. `Err` where memory is wanting.
pub fn define_all<'a>(
    labels: &mut Labels<'a>,
    tokens: &[Lexeme<'a>],
    place: Place,
) -> Result<Option<Fault>, AllocError>
    ensures places { OnOk result (PutsAt labels.old labels.new (names_one (labels_before (pieces_of tokens.now))) (place_of place)) }
    ensures fault { IfOk result (λ fault. (names : List (List ℕ)) → Know labels.old names → DefineAll (labels_before (pieces_of tokens.now)) names labels.new fault) }
{
    let mut found = None;
    let mut at = 0usize;
    while begin_with_label(&tokens[at..]) {
        let fault = define(labels, &tokens[at], place)?;
        found = first(found, fault);
        at += 2;
    }
    Ok(found)
}
