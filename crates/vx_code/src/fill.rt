ghost use Rattle.std.specs.Prelude.{◌≡◌, ℕ, List, [], ◌∷◌, ◌^◌, ◌≤ℤ◌, ◌<ℤ◌, ◌+ℤ◌, true, Some, None, ℤ, pos, neg_ℤ, unsigned_abs, IfSome, if◌then◌else◌};
ghost use Rattle.vx_base.specs.Numbers.{reduced};
ghost use Rattle.vx_language.specs.Code.{Code, Expansion, filled, filled_all, register_of, vector_of, vtype_part, control_of};
ghost use Rattle.vx_language.specs.Lexemes.{Piece, is_a};
ghost use Rattle.vx_language.specs.Numerals.{number_value};
ghost use Rattle.vx_language.specs.declared.token.TokenKind.TheVariants as kind;
ghost use Rattle.vx_statement.specs.Lexemes.{piece_of, pieces_of};
ghost use Rattle.vx_statement.specs.Ranges.{range_of};
ghost use Rattle.vx_statement.specs.Slots.{slot_of};
ghost use Rattle.vx_statement.specs.Ways.{commas_in, way_slots};
ghost use Rattle.vx_code.specs.Aiming.{aim_of};
ghost use Rattle.vx_code.specs.Filling.{AreFilled, seen, slot_range};

use crate::aim::Aim;
use vx_decode::Instr;
use vx_language::TokenKind;
use vx_source::VtypeField;
use vx_statement::{
    Lexeme, Range, Reach, Slot, Way, control_number, register_number, vector_number, vtype_number,
};

/// The numbers of 12 bits.
const CONTROL_NUMBERS: Range = Range {
    least: 0,
    greatest: 4095,
};

/// What the tokens of an instruction's statement fill in.
#[derive(Clone, Copy)]
pub struct Filled {
    /// The register `rd`.
    pub rd: u8,
    /// The register `rs1`, or the number in its place.
    pub rs1: u64,
    /// The register `rs2`.
    pub rs2: u8,
    /// The number, where there is one.
    pub imm: i128,
    /// The instruction isn't masked.
    pub vm: bool,
    /// How far the label is, where there is one.
    pub target: Option<i128>,
}

/// The numbers that a slot takes, where it takes some.
fn slot_range(slot: Slot) -> Range
    ensures { range_of result ≡ slot_range (slot_of slot) }
{
    match slot {
        Slot::Immediate(range) | Slot::SourceField(range) | Slot::Datum(range) => range,
        Slot::Offset(reach) => reach.range(),
        Slot::ControlRegister
        | Slot::Rd
        | Slot::Rs1
        | Slot::Rs2
        | Slot::Vd
        | Slot::Vs1
        | Slot::Vs2
        | Slot::Masked
        | Slot::Carry
        | Slot::VtypeWord(_)
        | Slot::Label
        | Slot::Text
        | Slot::Symbol
        | Slot::Mark(_) => CONTROL_NUMBERS,
    }
}

/// The number that a token is which a slot takes, and which is one.
pub fn some_number(slot: Slot, token: &Lexeme<'_>) -> i128
    requires filled { AreFilled (slot_of slot ∷ []) (piece_of token.now ∷ []) }
    requires number { is_a kind.Number (piece_of token.now) ≡ true }
    ensures value { result ≡ number_value (piece_of token.now).text }
    ensures low { neg_ℤ (pos (2 ^ 63)) ≤ℤ result }
    ensures high { result <ℤ pos (2 ^ 64) }
{
    slot_range(slot).number(token.text)
}

/// The number that a token is which a slot takes, where it is one.
pub fn slot_number(slot: Slot, token: &Lexeme<'_>) -> Option<i128>
    requires filled { AreFilled (slot_of slot ∷ []) (piece_of token.now ∷ []) }
    ensures value { result ≡ (if is_a kind.Number (piece_of token.now) then Some (number_value (piece_of token.now).text) else None) }
    ensures low { IfSome result (λ n. neg_ℤ (pos (2 ^ 63)) ≤ℤ n) }
    ensures high { IfSome result (λ n. n <ℤ pos (2 ^ 64)) }
{
    if token.is_a(TokenKind::Number) {
        Some(some_number(slot, token))
    } else {
        None
    }
}

/// A number of 64 bits, signed or unsigned, without its sign.
pub fn magnitude(value: i128) -> u64
    requires low { neg_ℤ (pos (2 ^ 63)) ≤ℤ value }
    requires high { value <ℤ pos (2 ^ 64) }
    ensures { result ≡ unsigned_abs value }
{
    if value < 0 {
        (-value) as u64
    } else {
        value as u64
    }
}

/// What is filled in before any token is.
pub fn start_of(instr: Instr) -> Filled
    ensures { (aim : Piece → ℤ) (expansion : Expansion) → result ≡ seen aim (record { expansion = expansion; instr = instr; target = None }) }
{
    Filled {
        rd: instr.rd,
        rs1: u64::from(instr.rs1),
        rs2: instr.rs2,
        imm: i128::from(instr.imm),
        vm: instr.vm,
        target: None,
    }
}

/// The number of the register of this name.
fn register(token: &Lexeme<'_>) -> u8
    ensures { result ≡ register_of (piece_of token.now) }
{
    register_number(token.text).unwrap_or(0)
}

/// The number of the vector register of this name.
fn vector(token: &Lexeme<'_>) -> u8
    ensures { result ≡ vector_of (piece_of token.now) }
{
    vector_number(token.text).unwrap_or(0)
}

/// A number reduced to 8 bits.
fn reduced_8(value: i128) -> u8
    ensures { result ≡ reduced 8 value }
{
    value.rem_euclid(1 << 8) as u8
}

/// The 8 bits of vtype with the word of a field more.
fn with_word(field: VtypeField, token: &Lexeme<'_>, vtype: i128) -> u8
    ensures { result ≡ reduced 8 (vtype +ℤ pos (vtype_part field (piece_of token.now))) }
{
    let number = vtype_number(field, token.text).unwrap_or(0);
    let part = (number << field.low()) % 256;
    reduced_8(vtype).wrapping_add(part as u8)
}

/// The number of a control register, of its name or its number.
fn control(token: &Lexeme<'_>) -> i128
    requires filled { AreFilled (slot_of Slot.ControlRegister ∷ []) (piece_of token.now ∷ []) }
    ensures { result ≡ (if is_a kind.Name (piece_of token.now) then pos (control_of (piece_of token.now)) else number_value (piece_of token.now).text) }
{
    if token.is_a(TokenKind::Name) {
        i128::from(control_number(token.text).unwrap_or(0))
    } else {
        some_number(Slot::ControlRegister, token)
    }
}

/// What is filled in with a target more.
#[tactic(auto, unfolding(vx_language::specs::Code::filled))]
fn fill_offset(reach: Reach, token: &Lexeme<'_>, aim: &Aim<'_, '_>, before: Filled) -> Filled
    requires filled { AreFilled (slot_of (Slot.Offset reach) ∷ []) (piece_of token.now ∷ []) }
    ensures { (code : Code) → before ≡ seen (aim_of aim.now) code → result ≡ seen (aim_of aim.now) (filled (slot_of (Slot.Offset reach)) (piece_of token.now) code) }
{
    if token.is_a(TokenKind::Name) {
        Filled {
            target: Some(aim.distance(token)),
            ..before
        }
    } else {
        Filled {
            imm: some_number(Slot::Offset(reach), token),
            ..before
        }
    }
}

/// What is filled in with one token more, which a slot takes, where the aim tells how far labels are.
#[tactic(auto, unfolding(vx_language::specs::Code::filled))]
fn fill(slot: Slot, token: &Lexeme<'_>, aim: &Aim<'_, '_>, before: Filled) -> Filled
    requires filled { AreFilled (slot_of slot ∷ []) (piece_of token.now ∷ []) }
    ensures { (code : Code) → before ≡ seen (aim_of aim.now) code → result ≡ seen (aim_of aim.now) (filled (slot_of slot) (piece_of token.now) code) }
{
    match slot {
        Slot::Rd => Filled {
            rd: register(token),
            ..before
        },
        Slot::Rs1 => Filled {
            rs1: u64::from(register(token)),
            ..before
        },
        Slot::Rs2 => Filled {
            rs2: register(token),
            ..before
        },
        Slot::Vd => Filled {
            rd: vector(token),
            ..before
        },
        Slot::Vs1 => Filled {
            rs1: u64::from(vector(token)),
            ..before
        },
        Slot::Vs2 => Filled {
            rs2: vector(token),
            ..before
        },
        Slot::Masked | Slot::Carry => Filled {
            vm: false,
            ..before
        },
        Slot::VtypeWord(field) => Filled {
            imm: i128::from(with_word(field, token, before.imm)),
            ..before
        },
        Slot::Immediate(_) => Filled {
            imm: some_number(slot, token),
            ..before
        },
        Slot::SourceField(_) => Filled {
            rs1: magnitude(some_number(slot, token)),
            ..before
        },
        Slot::Offset(reach) => fill_offset(reach, token, aim, before),
        Slot::Label => Filled {
            target: Some(aim.distance(token)),
            ..before
        },
        Slot::ControlRegister => Filled {
            imm: control(token),
            ..before
        },
        Slot::Datum(_) | Slot::Text | Slot::Symbol | Slot::Mark(_) => before,
    }
}

/// What the tokens of a statement fill in, where these are the slots that take them.
pub fn fill_all(way: Way, tokens: &[Lexeme<'_>], aim: &Aim<'_, '_>, start: Filled) -> Filled
    requires filled { AreFilled (way_slots (commas_in (pieces_of tokens.now)) way) (pieces_of tokens.now) }
    ensures { (code : Code) → start ≡ seen (aim_of aim.now) code → result ≡ seen (aim_of aim.now) (filled_all (way_slots (commas_in (pieces_of tokens.now)) way) (pieces_of tokens.now) code) }
{
    let mut rest = way;
    let mut now = start;
    for token in tokens {
        let Some((slot, later)) = rest.step(token) else {
            return now;
        };
        now = fill(slot, token, aim, now);
        rest = later;
    }
    now
}
