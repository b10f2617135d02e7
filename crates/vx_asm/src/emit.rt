ghost use Rattle.std.specs.Prelude.{◌≡◌, ℕ, List, [], Some, None, IfOk, OnOk};
ghost use Rattle.vx_language.specs.Assembly.{layout, plain_faults};
ghost use Rattle.vx_language.specs.Faults.{first_of};
ghost use Rattle.vx_language.specs.Lines as language;
ghost use Rattle.vx_language.specs.Places.{statement_of, own_faults, place_behind, offset_of, statement_offset_faults};
ghost use Rattle.vx_language.specs.Statements.{statement_chunk};
ghost use Rattle.vx_statement.specs.Labels.{place_of};
ghost use Rattle.vx_statement.specs.Lexemes.{pieces_of};
ghost use Rattle.vx_statement.specs.Owning.{AreFormsOf};
ghost use Rattle.vx_statement.specs.Ways.{section_of};
ghost use Rattle.vx_code.specs.Aiming.{aim_of};
ghost use Rattle.vx_code.specs.declared.aim.Aim.TheVariants.{From};
ghost use Rattle.vx_asm.specs.Emitting.{AreSized, Puts};
ghost use Rattle.vx_asm.specs.Judging.{IsGood};
ghost use Rattle.vx_asm.specs.Laying.{Stand};
ghost use Rattle.vx_asm.specs.Reading.{line_of};
ghost use Rattle.vx_asm.specs.Written.{IsEmitted, aim_from};

use crate::judge::Judged;
use crate::label::labels_length;
use crate::line::{Line, read_line};
use crate::parts::Parts;
use std::alloc::{AllocError, Global};
use vx_code::{Aim, nowhere_is_in_reach, put_of, reach_fault};
use vx_language::Fault;
use vx_statement::{Form, Labels, Lexeme, Place, first, statement_forms};

/// The bytes of a source's sections, where each label is in reach.
#[derive(Debug, Drop)]
pub struct Emitted {
    /// The first label that isn't, as a fault.
    pub fault: Option<Fault>,
    /// The bytes.
    pub parts: Parts,
}

/// Puts what a statement without a fault puts at its place, where the aim tells how far labels are, each in reach, and
/// answers the place behind it. `Err` where memory is wanting.
fn emit_statement(
    alloc: Global,
    aim: &Aim<'_, '_>,
    place: Place,
    statement: &[Lexeme<'_>],
    forms: &[Form],
    parts: &mut Parts,
) -> Result<Place, AllocError>
    requires forms { AreFormsOf statement.now forms.now }
    requires reach { statement_offset_faults (aim_of aim.now) (pieces_of statement.now) ≡ [] }
    requires good { IsGood (place_of place) (pieces_of statement.now) }
    requires sized { AreSized (place_of place) parts.old }
    ensures place { IfOk result (λ behind. (names : List (List ℕ)) (line : language.Line) → statement_of line ≡ pieces_of statement.now → own_faults names (place_of place) line ≡ [] → place_of behind ≡ place_behind names (place_of place) line) }
    ensures sized { IfOk result (λ behind. AreSized (place_of behind) parts.new) }
    ensures parts { OnOk result (Puts (section_of place.section) (statement_chunk (aim_of aim.now) (offset_of (place_of place)) (pieces_of statement.now)) parts.old parts.new) }
{
    let put = put_of(alloc, aim, place, statement, forms)?;
    parts.put(place, &put.chunk)?;
    Ok(place.behind(put.chunk.size(), put.section))
}

/// Puts what a line without a fault puts at its place, and answers the first of its labels that is out of reach, and the place
/// behind it. `Err` where memory is wanting.
fn emit_line(
    alloc: Global,
    labels: &Labels<'_>,
    code: u32,
    place: Place,
    line: &Line<'_>,
    parts: &mut Parts,
) -> Result<Judged, AllocError>
    requires good { IsGood (place_of place) (statement_of (line_of line.now)) }
    requires sized { AreSized (place_of place) parts.old }
    ensures fault { IfOk result (λ judged. judged.fault ≡ first_of (statement_offset_faults (aim_from labels.now code (place_of place)) (statement_of (line_of line.now)))) }
    ensures place { IfOk result (λ judged. (names : List (List ℕ)) → own_faults names (place_of place) (line_of line.now) ≡ [] → place_of judged.place ≡ place_behind names (place_of place) (line_of line.now)) }
    ensures sized { IfOk result (λ judged. AreSized (place_of judged.place) parts.new) }
    ensures parts { IfOk result (λ judged. judged.fault ≡ None → Puts (section_of place.section) (statement_chunk (aim_from labels.now code (place_of place)) (offset_of (place_of place)) (statement_of (line_of line.now))) parts.old parts.new) }
{
    nowhere_is_in_reach();
    let tokens = line.tokens.as_slice();
    let statement = &tokens[labels_length(tokens)..];
    let forms = statement_forms(alloc, statement)?;
    let forms = forms.as_slice();
    let aim = Aim::From(labels, code, place);
    match reach_fault(statement, forms, &aim) {
        None => {
            let place = emit_statement(alloc, &aim, place, statement, forms, parts)?;
            Ok(Judged { fault: None, place })
        }
        Some(fault) => {
            let place = emit_statement(alloc, &Aim::Nowhere, place, statement, forms, parts)?;
            Ok(Judged {
                fault: Some(fault),
                place,
            })
        }
    }
}

/// Puts what the lines of a source put, where the source has no fault but those of offsets to labels, and answers the first of
/// those. The labels are the source's, and its code has so many bytes. `Err` where memory is wanting.
pub fn emit(
    alloc: Global,
    source: &[u8],
    labels: &Labels<'_>,
    code: u32,
) -> Result<Emitted, AllocError>
    requires plain { plain_faults source.now ≡ [] }
    requires labels { Stand labels.now (layout source.now).lines }
    requires code { (layout source.now).code ≡ code }
    ensures { IfOk result (IsEmitted source.now) }
{
    let mut parts = Parts::new(alloc);
    let mut place = Place::first();
    let mut found = None;
    let mut next = Some(0usize);
    while let Some(from) = next {
        let line = read_line(alloc, source, from)?;
        let emitted = emit_line(alloc, labels, code, place, &line, &mut parts)?;
        found = first(found, emitted.fault);
        place = emitted.place;
        next = line.next;
    }
    Ok(Emitted {
        fault: found,
        parts,
    })
}
