ghost use Rattle.std.specs.Prelude.{◌≡◌, List, ℕ, [], ◌∷◌, ◌++◌, map, IfOk};
ghost use Rattle.vx_language.specs.Faults.{first_of};
ghost use Rattle.vx_language.specs.Lexemes.{Piece};
ghost use Rattle.vx_language.specs.Statements.{operand_faults};
ghost use Rattle.vx_statement.specs.Advances.{Advances};
ghost use Rattle.vx_statement.specs.Knowing.{Know};
ghost use Rattle.vx_statement.specs.Lexemes.{piece_of, pieces_of};
ghost use Rattle.vx_statement.specs.Ways.{commas_in, way_slots};
ghost use Rattle.vx_statement.specs.declared.way.Way.{Way};

use crate::faults::first;
use crate::labels::Labels;
use crate::lexeme::Lexeme;
use crate::slot::Slot;
use crate::way::Way;
use smallvec::SmallVec;
use std::alloc::{AllocError, Global};
use vx_language::{Fault, FaultKind, Span};

/// The slot that takes a token, and the ways behind it.
#[derive(Drop)]
struct Behind {
    slot: Option<Slot>,
    ways: SmallVec<Way, 4>,
}

/// Adds what is behind a token in one more way, where it goes on with the token, and answers the first slot that takes it.
fn push_step(
    slot: Option<Slot>,
    ways: &mut SmallVec<Way, 4>,
    way: Way,
    token: &Lexeme<'_>,
) -> Result<Option<Slot>, AllocError>
    ensures { IfOk result (λ first. (rest : List Piece) (going : List Way) → Advances (piece_of token.now) rest going slot ways.old.items → Advances (piece_of token.now) rest (going ++ way ∷ []) first ways.new.items) }
{
    let Some((first, later)) = way.step(token) else {
        return Ok(slot);
    };
    ways.push(later)?;
    Ok(slot.or(Some(first)))
}

/// The ways that go on with a token.
fn advance(alloc: Global, going: &[Way], token: &Lexeme<'_>) -> Result<Behind, AllocError>
    ensures { IfOk result (λ behind. (rest : List Piece) → Advances (piece_of token.now) rest going.now behind.slot behind.ways.items) }
{
    let mut slot = None;
    let mut ways = SmallVec::new(alloc);
    for way in going {
        slot = push_step(slot, &mut ways, *way, token)?;
    }
    Ok(Behind { slot, ways })
}

/// The fault of a line that ends where these ways may go on, where it ends too early.
#[tactic(auto, unfolding(vx_language::specs::Statements::operand_faults, vx_language::specs::Faults::first_of, vx_language::specs::Faults::earlier))]
fn end_fault(going: &[Way], end: u64) -> Option<Fault>
    ensures { (names : List (List ℕ)) → result ≡ first_of (operand_faults names end (map (way_slots 0) going.now) []) }
{
    if going.iter().any(|way| way.is_done()) {
        None
    } else {
        Some(Fault {
            kind: FaultKind::BadOperand,
            span: Span { start: end, end },
        })
    }
}

/// The first fault of the tokens behind a statement's name, up to the line's end, where these are the ways in which the
/// statement may go on. `Err` where memory is wanting.
pub fn operand_fault(
    alloc: Global,
    labels: &Labels<'_>,
    end: u64,
    ways: SmallVec<Way, 4>,
    tokens: &[Lexeme<'_>],
) -> Result<Option<Fault>, AllocError>
    ensures { IfOk result (λ fault. (names : List (List ℕ)) → Know labels.now names → fault ≡ first_of (operand_faults names end (map (way_slots (commas_in (pieces_of tokens.now))) ways.items) (pieces_of tokens.now))) }
{
    let mut going = ways;
    let mut found = None;
    for token in tokens {
        let behind = advance(alloc, going.as_slice(), token)?;
        let Some(slot) = behind.slot else {
            return Ok(first(found, Some(token.fault(FaultKind::BadOperand))));
        };
        found = first(found, slot.fault(token, labels));
        going = behind.ways;
    }
    Ok(first(found, end_fault(going.as_slice(), end)))
}
