ghost use Rattle.std.specs.Prelude.{◌≡◌};
ghost use Rattle.vx_language.specs.Faults.{first_of};
ghost use Rattle.vx_language.specs.Places.{offset_fault, offset_faults};
ghost use Rattle.vx_statement.specs.Lexemes.{piece_of, pieces_of};
ghost use Rattle.vx_statement.specs.Slots.{slot_of};
ghost use Rattle.vx_statement.specs.Ways.{commas_in, way_slots};
ghost use Rattle.vx_code.specs.Aiming.{aim_of};
ghost use Rattle.vx_code.specs.Filling.{AreFilled};

use crate::aim::Aim;
use vx_language::{Fault, FaultKind, TokenKind};
use vx_statement::{Lexeme, Reach, Slot, Way, first};

/// The fault of a label whose offset doesn't fit its field.
#[tactic(auto, unfolding(vx_language::specs::Faults::first_of, vx_language::specs::Faults::earlier))]
fn label_fault(reach: Reach, token: &Lexeme<'_>, aim: &Aim<'_, '_>) -> Option<Fault>
    ensures { result ≡ first_of (offset_fault (aim_of aim.now) (slot_of (Slot.Offset reach)) (piece_of token.now)) }
{
    if token.is_a(TokenKind::Name) && !reach.contains(aim.distance(token)) {
        Some(token.fault(FaultKind::OutOfRange))
    } else {
        None
    }
}

/// The fault of a token in a slot, where it is a label whose offset doesn't fit.
#[tactic(auto, unfolding(vx_language::specs::Faults::first_of))]
fn slot_fault(slot: Slot, token: &Lexeme<'_>, aim: &Aim<'_, '_>) -> Option<Fault>
    ensures { result ≡ first_of (offset_fault (aim_of aim.now) (slot_of slot) (piece_of token.now)) }
{
    match slot {
        Slot::Offset(reach) => label_fault(reach, token, aim),
        Slot::Rd
        | Slot::Rs1
        | Slot::Rs2
        | Slot::Vd
        | Slot::Vs1
        | Slot::Vs2
        | Slot::Masked
        | Slot::Carry
        | Slot::VtypeWord(_)
        | Slot::Immediate(_)
        | Slot::SourceField(_)
        | Slot::Label
        | Slot::ControlRegister
        | Slot::Datum(_)
        | Slot::Text
        | Slot::Symbol
        | Slot::Mark(_) => None,
    }
}

/// The first of a statement's labels whose offset doesn't fit its field, where these are the slots that take its tokens.
/// Takes no memory.
pub fn offsets_fault(way: Way, tokens: &[Lexeme<'_>], aim: &Aim<'_, '_>) -> Option<Fault>
    requires { AreFilled (way_slots (commas_in (pieces_of tokens.now)) way) (pieces_of tokens.now) }
    ensures { result ≡ first_of (offset_faults (aim_of aim.now) (way_slots (commas_in (pieces_of tokens.now)) way) (pieces_of tokens.now)) }
{
    let mut rest = way;
    let mut found = None;
    for token in tokens {
        let Some((slot, later)) = rest.step(token) else {
            return found;
        };
        found = first(found, slot_fault(slot, token, aim));
        rest = later;
    }
    found
}
