ghost use Rattle.std.specs.Prelude.{◌≡◌, List};
ghost use Rattle.vx_language.specs.Lexemes.{Piece};
ghost use Rattle.vx_language.specs.Statements.{is_done};
ghost use Rattle.vx_statement.specs.Lexemes.{piece_of};
ghost use Rattle.vx_statement.specs.Ways.{way_slots, Steps};

use crate::lexeme::Lexeme;
use crate::range::Range;
use crate::slot::Slot;
use vx_language::TokenKind;

/// What may stand in the rest of a line.
#[derive(Clone, Copy)]
pub enum Way {
    /// These slots.
    Slots(&'static [Slot]),
    /// A number of this range, or more of them with a comma between each two.
    Numbers(Range),
    /// What stands behind such a number: nothing, or a comma and `Numbers`.
    More(Range),
}

impl Default for Way {
    /// No slots.
    fn default() -> Way {
        Way::Slots(&[])
    }
}

impl Way {
    /// Whether the line may end here.
    pub fn is_done(self) -> bool
        ensures { result ≡ is_done (way_slots 0 self) }
    {
        match self {
            Way::Slots(slots) => slots.is_empty(),
            Way::Numbers(_) => false,
            Way::More(_) => true,
        }
    }

    /// The slot that takes the token, and the way behind it, where the way goes on with the token.
    pub fn step(self, token: &Lexeme<'_>) -> Option<(Slot, Way)>
        ensures { (rest : List Piece) → Steps self (piece_of token.now) rest result }
    {
        match self {
            Way::Slots(slots) => step_slot(slots, token),
            Way::Numbers(range) => step_number(range, token),
            Way::More(range) => step_comma(range, token),
        }
    }
}

/// A step of slots.
fn step_slot(slots: &'static [Slot], token: &Lexeme<'_>) -> Option<(Slot, Way)>
    ensures { (rest : List Piece) → Steps (Way.Slots slots.entry) (piece_of token.now) rest result }
{
    let Some((slot, later)) = slots.split_first() else {
        return None;
    };
    if slot.takes(token) {
        Some((*slot, Way::Slots(later)))
    } else {
        None
    }
}

/// A step to a number.
#[tactic(auto, using(crate::proofs::Steps::number_taken, crate::proofs::Steps::number_refused))]
fn step_number(range: Range, token: &Lexeme<'_>) -> Option<(Slot, Way)>
    ensures { (rest : List Piece) → Steps (Way.Numbers range) (piece_of token.now) rest result }
{
    if token.is_a(TokenKind::Number) {
        Some((Slot::Datum(range), Way::More(range)))
    } else {
        None
    }
}

/// A step over a comma.
#[tactic(auto, using(crate::proofs::Steps::comma_taken, crate::proofs::Steps::comma_refused))]
fn step_comma(range: Range, token: &Lexeme<'_>) -> Option<(Slot, Way)>
    ensures { (rest : List Piece) → Steps (Way.More range) (piece_of token.now) rest result }
{
    if token.is_mark(b',') {
        Some((Slot::Mark(b','), Way::Numbers(range)))
    } else {
        None
    }
}
