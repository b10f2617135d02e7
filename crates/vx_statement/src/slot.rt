ghost use Rattle.std.specs.Prelude.{◌≡◌, ℕ, List};
ghost use Rattle.vx_language.specs.Faults.{first_of};
ghost use Rattle.vx_language.specs.Slots.{takes, token_faults, number_faults, label_faults};
ghost use Rattle.vx_language.specs.Slots as language;
ghost use Rattle.vx_statement.specs.Knowing.{Know};
ghost use Rattle.vx_statement.specs.Lexemes.{piece_of};
ghost use Rattle.vx_statement.specs.Slots.{slot_of};

use crate::labels::Labels;
use crate::lexeme::Lexeme;
use crate::names::{control_number, register_number, vector_number, vtype_number};
use crate::range::{Range, Reach};
use vx_language::{Fault, FaultKind, TokenKind};
use vx_source::VtypeField;

/// The place of one token behind a statement's name.
#[derive(Clone, Copy, PartialEq, Eq, Debug)]
pub enum Slot {
    /// An integer register: `rd`.
    Rd,
    /// An integer register: `rs1`.
    Rs1,
    /// An integer register: `rs2`.
    Rs2,
    /// A vector register: `vd` or `vs3`.
    Vd,
    /// A vector register: `vs1`.
    Vs1,
    /// A vector register: `vs2`.
    Vs2,
    /// `v0.t`: the instruction is masked.
    Masked,
    /// `v0`, which the instruction reads as an operand.
    Carry,
    /// The word of a field of vtype: its part of the immediate.
    VtypeWord(VtypeField),
    /// A number: the immediate.
    Immediate(Range),
    /// A number in the place of `rs1`.
    SourceField(Range),
    /// A target: a label, or how far away it is.
    Offset(Reach),
    /// A label.
    Label,
    /// A control register: its name, or its number.
    ControlRegister,
    /// A directive's number.
    Datum(Range),
    /// A directive's text.
    Text,
    /// A directive's name.
    Symbol,
    /// This mark.
    Mark(u8),
}

impl Slot {
    /// Whether the slot takes the token.
    #[tactic(auto, unfolding(vx_language::specs::Slots::takes))]
    pub fn takes(self, token: &Lexeme<'_>) -> bool
        ensures { result ≡ takes (slot_of self) (piece_of token.now) }
    {
        match self {
            Slot::Rd | Slot::Rs1 | Slot::Rs2 => {
                token.is_a(TokenKind::Name) && register_number(token.text).is_some()
            }
            Slot::Vd | Slot::Vs1 | Slot::Vs2 => {
                token.is_a(TokenKind::Name) && vector_number(token.text).is_some()
            }
            Slot::Masked => token.is_the_name("v0.t"),
            Slot::Carry => token.is_the_name("v0"),
            Slot::VtypeWord(field) => {
                token.is_a(TokenKind::Name) && vtype_number(field, token.text).is_some()
            }
            Slot::Immediate(_) | Slot::SourceField(_) | Slot::Datum(_) => {
                token.is_a(TokenKind::Number)
            }
            Slot::Offset(_) => token.is_a(TokenKind::Name) || token.is_a(TokenKind::Number),
            Slot::Label | Slot::Symbol => token.is_a(TokenKind::Name),
            Slot::ControlRegister => {
                token.is_a(TokenKind::Number)
                    || (token.is_a(TokenKind::Name) && control_number(token.text).is_some())
            }
            Slot::Text => token.is_a(TokenKind::Quoted),
            Slot::Mark(mark) => token.is_mark(mark),
        }
    }

    /// The first fault of a token that the slot takes, where labels of these names are defined.
    #[tactic(auto, unfolding(vx_language::specs::Slots::token_faults, vx_language::specs::Faults::first_of))]
    pub fn fault(self, token: &Lexeme<'_>, labels: &Labels<'_>) -> Option<Fault>
        ensures { (names : List (List ℕ)) → Know labels.now names → result ≡ first_of (token_faults names (slot_of self) (piece_of token.now)) }
    {
        match self {
            Slot::Immediate(range) | Slot::SourceField(range) | Slot::Datum(range) => {
                number_fault(range.holds(token.text), token)
            }
            Slot::Offset(reach) => offset_fault(reach, token, labels),
            Slot::Label => label_fault(token, labels),
            Slot::ControlRegister => control_fault(token),
            Slot::Rd | Slot::Rs1 | Slot::Rs2 | Slot::Vd | Slot::Vs1 | Slot::Vs2 => None,
            Slot::Masked | Slot::Carry | Slot::VtypeWord(_) => None,
            Slot::Text | Slot::Symbol | Slot::Mark(_) => None,
        }
    }
}

/// The numbers of 12 bits.
const CONTROL_NUMBERS: Range = Range {
    least: 0,
    greatest: 4095,
};

/// The fault of a number, where it isn't one that may stand there.
#[tactic(auto, unfolding(vx_language::specs::Faults::first_of, vx_language::specs::Faults::earlier))]
fn number_fault(fits: bool, token: &Lexeme<'_>) -> Option<Fault>
    ensures { result ≡ first_of (number_faults fits (piece_of token.now)) }
{
    if fits {
        None
    } else {
        Some(token.fault(FaultKind::OutOfRange))
    }
}

/// The fault of a use of a label, where none of these labels has its name.
#[tactic(auto, unfolding(vx_language::specs::Faults::first_of, vx_language::specs::Faults::earlier))]
fn label_fault(token: &Lexeme<'_>, labels: &Labels<'_>) -> Option<Fault>
    ensures { (names : List (List ℕ)) → Know labels.now names → result ≡ first_of (label_faults names (piece_of token.now)) }
{
    if labels.has(token.text) {
        None
    } else {
        Some(token.fault(FaultKind::Undefined))
    }
}

/// The fault of a target.
#[tactic(auto, unfolding(vx_language::specs::Slots::token_faults))]
fn offset_fault(reach: Reach, token: &Lexeme<'_>, labels: &Labels<'_>) -> Option<Fault>
    ensures { (names : List (List ℕ)) → Know labels.now names → result ≡ first_of (token_faults names (slot_of (Slot.Offset reach)) (piece_of token.now)) }
{
    if token.is_a(TokenKind::Name) {
        label_fault(token, labels)
    } else {
        number_fault(reach.holds(token.text), token)
    }
}

/// The fault of a control register.
#[tactic(auto, unfolding(vx_language::specs::Slots::token_faults, vx_language::specs::Faults::first_of))]
fn control_fault(token: &Lexeme<'_>) -> Option<Fault>
    ensures { (names : List (List ℕ)) → result ≡ first_of (token_faults names language.ControlRegister (piece_of token.now)) }
{
    if token.is_a(TokenKind::Name) {
        None
    } else {
        number_fault(CONTROL_NUMBERS.holds(token.text), token)
    }
}
