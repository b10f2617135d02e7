ghost use Rattle.std.specs.Prelude.{◌≡◌, ◌+◌, ◌-◌, ◌^◌, ◌≤◌, ◌<◌, ℕ, List, [], IfOk};
ghost use Rattle.vx_language.specs.Faults.{first_of};
ghost use Rattle.vx_language.specs.Lines as language;
ghost use Rattle.vx_language.specs.Places.{size_faults, too_large, own_faults, place_behind, statement_of, total};
ghost use Rattle.vx_statement.specs.Knowing.{Know};
ghost use Rattle.vx_statement.specs.Labels.{place_of};
ghost use Rattle.vx_statement.specs.Lexemes.{pieces_of};
ghost use Rattle.vx_statement.specs.Owning.{AreFormsOf};
ghost use Rattle.vx_asm.specs.Reading.{line_of};
ghost use Rattle.vx_asm.specs.Judging.{Judges};

use crate::label::labels_length;
use crate::line::Line;
use std::alloc::{AllocError, Global};
use vx_code::{Aim, nowhere_is_in_reach, put_of};
use vx_language::{Fault, FaultKind};
use vx_statement::{Form, Labels, Lexeme, Place, own_fault, statement_forms};

/// How many bytes a program has at the most.
const ROOM: u128 = 8_388_608;

/// A line's first fault, and the place behind it.
#[derive(Clone, Copy)]
pub struct Judged {
    /// The fault, where there is one.
    pub fault: Option<Fault>,
    /// Where the next line stands.
    pub place: Place,
}

/// The fault of a statement of so many bytes with which a program passes its room.
#[tactic(auto, unfolding(vx_language::specs::Faults::first_of, vx_language::specs::Faults::earlier))]
fn room_fault(statement: &[Lexeme<'_>], before: u128, size: u64) -> Option<Fault>
    requires { before + 2 ^ 64 < 2 ^ 128 }
    ensures { result ≡ first_of (size_faults (pieces_of statement.now) before size) }
{
    let Some((first, _)) = statement.split_first() else {
        return None;
    };
    if before <= ROOM && ROOM < before + u128::from(size) {
        Some(first.fault(FaultKind::TooLarge))
    } else {
        None
    }
}

/// What a statement without a fault of its own is at a place.
fn judge_sound(
    alloc: Global,
    place: Place,
    statement: &[Lexeme<'_>],
    forms: &[Form],
) -> Result<Judged, AllocError>
    requires forms { AreFormsOf statement.now forms.now }
    requires faultless { (names : List (List ℕ)) × (line : language.Line) × (statement_of line ≡ pieces_of statement.now) × (own_faults names (place_of place) line ≡ []) }
    requires room { total (place_of place) + (2 ^ 64 - 1) + 2 ^ 40 < 2 ^ 127 }
    ensures judged { IfOk result (λ judged. (names : List (List ℕ)) (line : language.Line) → statement_of line ≡ pieces_of statement.now → own_faults names (place_of place) line ≡ [] → Judges names (place_of place) line judged) }
    ensures room { IfOk result (λ judged. total (place_of judged.place) ≤ total (place_of place) + (2 ^ 64 - 1)) }
{
    nowhere_is_in_reach();
    let put = put_of(alloc, &Aim::Nowhere, place, statement, forms)?;
    let size = put.chunk.size();
    Ok(Judged {
        fault: room_fault(statement, place.total(), size),
        place: place.behind(size, put.section),
    })
}

/// What a line is at a place, where these labels are known. `Err` where memory is wanting.
pub fn judge_line(
    alloc: Global,
    known: &Labels<'_>,
    place: Place,
    line: &Line<'_>,
) -> Result<Judged, AllocError>
    requires room { total (place_of place) + (2 ^ 64 - 1) + 2 ^ 40 < 2 ^ 127 }
    ensures judged { IfOk result (λ judged. (names : List (List ℕ)) → Know known.now names → Judges names (place_of place) (line_of line.now) judged) }
    ensures room { IfOk result (λ judged. total (place_of judged.place) ≤ total (place_of place) + (2 ^ 64 - 1)) }
{
    let tokens = line.tokens.as_slice();
    let statement = &tokens[labels_length(tokens)..];
    let forms = statement_forms(alloc, statement)?;
    let forms = forms.as_slice();
    match own_fault(
        alloc,
        known,
        place.may_have_code(),
        line.end,
        statement,
        forms,
    )? {
        Some(fault) => Ok(Judged {
            fault: Some(fault),
            place,
        }),
        None => judge_sound(alloc, place, statement, forms),
    }
}
