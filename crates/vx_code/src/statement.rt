ghost use Rattle.std.specs.Prelude.{◌≡◌, ℕ, List, [], pos, IfOk};
ghost use Rattle.vx_language.specs.Faults.{first_of};
ghost use Rattle.vx_language.specs.Places.{offset_of, section_behind, section_behind_action, statement_offset_faults};
ghost use Rattle.vx_language.specs.Statements.{statement_form, statement_chunk, chunk_size};
ghost use Rattle.vx_statement.specs.Labels.{place_of};
ghost use Rattle.vx_statement.specs.Lexemes.{pieces_of};
ghost use Rattle.vx_statement.specs.Owning.{AreFormsOf};
ghost use Rattle.vx_statement.specs.Ways.{section_of, action_of};
ghost use Rattle.vx_code.specs.Aiming.{aim_of};
ghost use Rattle.vx_code.specs.Filling.{chunk_seen};
ghost use Rattle.vx_code.specs.Putting.{IsFaultless, IsFormOf};

use crate::aim::Aim;
use crate::chunk::{Chunk, chunk_of};
use crate::reach::offsets_fault;
use std::alloc::{AllocError, Global};
use vx_language::Fault;
use vx_statement::{Action, Form, Lexeme, Place, Section, form_for};

/// What a statement does at its place.
#[derive(Debug, Drop)]
pub struct Put {
    /// What it puts there.
    pub chunk: Chunk,
    /// The section behind it.
    pub section: Section,
}

/// The section behind a statement that does this.
fn section_behind(section: Section, action: Action) -> Section
    ensures { section_of result ≡ section_behind_action (section_of section) (action_of action) }
{
    match action {
        Action::Enters(other) => other,
        Action::PutsNumbers(_)
        | Action::PutsText
        | Action::PutsZeros
        | Action::Aligns
        | Action::Puts(_, _)
        | Action::Rests => section,
    }
}

/// The form of a statement, where it has a name and a form, and the tokens behind the name.
fn form_of_statement<'t, 's>(
    statement: &'t [Lexeme<'s>],
    forms: &[Form],
) -> Option<(Form, &'t [Lexeme<'s>])>
    requires forms { AreFormsOf statement.now forms.now }
    ensures { IsFormOf statement.now result }
{
    let Some((name, operands)) = statement.split_first() else {
        return None;
    };
    match form_for(name, operands, forms) {
        Some(form) => Some((form, operands)),
        None => None,
    }
}

/// The first of a statement's labels whose offset doesn't fit its field, where the statement has no fault by itself. Takes no
/// memory.
pub fn reach_fault(statement: &[Lexeme<'_>], forms: &[Form], aim: &Aim<'_, '_>) -> Option<Fault>
    requires forms { AreFormsOf statement.now forms.now }
    requires faultless { IsFaultless (pieces_of statement.now) }
    ensures { result ≡ first_of (statement_offset_faults (aim_of aim.now) (pieces_of statement.now)) }
{
    match form_of_statement(statement, forms) {
        Some((form, operands)) => offsets_fault(form.way, operands, aim),
        None => None,
    }
}

/// What a statement without a fault does at its place, where the aim tells how far labels are, each in reach. `Err` where
/// memory is wanting.
pub fn put_of(
    alloc: Global,
    aim: &Aim<'_, '_>,
    place: Place,
    statement: &[Lexeme<'_>],
    forms: &[Form],
) -> Result<Put, AllocError>
    requires forms { AreFormsOf statement.now forms.now }
    requires faultless { IsFaultless (pieces_of statement.now) }
    requires reach { statement_offset_faults (aim_of aim.now) (pieces_of statement.now) ≡ [] }
    ensures chunk { IfOk result (λ put. chunk_seen put.chunk ≡ statement_chunk (aim_of aim.now) (offset_of (place_of place)) (pieces_of statement.now)) }
    ensures size { IfOk result (λ put. chunk_size (chunk_seen put.chunk) ≡ chunk_size (statement_chunk (λ label. pos 0) (offset_of (place_of place)) (pieces_of statement.now))) }
    ensures section { IfOk result (λ put. section_of put.section ≡ section_behind (section_of place.section) (statement_form (pieces_of statement.now))) }
{
    let Some((form, operands)) = form_of_statement(statement, forms) else {
        return Ok(Put {
            chunk: Chunk::Plain(Vec::new(alloc)),
            section: place.section,
        });
    };
    let chunk = chunk_of(alloc, aim, place.offset(), &form, operands)?;
    Ok(Put {
        chunk,
        section: section_behind(place.section, form.action),
    })
}
