ghost use Rattle.std.specs.Prelude.{◌≡◌, ◌^◌, ◌*◌, ◌<ℤ◌, ◌≤ℤ◌, ◌++◌, ◌==◌, ◌||◌, [], ◌∷◌, true, false, pos, neg_ℤ, flat_map, drop, OnOk};
ghost use Rattle.vx_base.specs.Numbers.{reduced, little_endian};
ghost use Rattle.vx_language.specs.Lexemes.{Piece};
ghost use Rattle.vx_language.specs.Statements.{numbers_in};
ghost use Rattle.vx_language.specs.Texts.{text_bytes};
ghost use Rattle.vx_statement.specs.Lexemes.{piece_of, pieces_of};
ghost use Rattle.vx_statement.specs.Slots.{slot_of};
ghost use Rattle.vx_statement.specs.Ways.{commas_in, way_slots};
ghost use Rattle.vx_code.specs.Filling.{AreFilled};

use crate::fill::slot_number;
use std::alloc::AllocError;
use vx_lex::push_text;
use vx_statement::{Lexeme, Slot, Way};

/// Appends the first bytes of a number, so many, the least first. What an error leaves is open.
pub fn push_bytes(out: &mut Vec<u8>, count: u32, number: u64) -> Result<(), AllocError>
    ensures { OnOk result (out.new.items ≡ out.old.items ++ little_endian count number) }
{
    let mut rest = number;
    for _ in 0..count {
        out.push((rest % 256) as u8)?;
        rest /= 256;
    }
    Ok(())
}

/// A number of 64 bits, signed or unsigned, reduced to them.
fn reduced_64(value: i128) -> u64
    requires low { neg_ℤ (pos (2 ^ 64)) ≤ℤ value }
    requires high { value <ℤ pos (2 ^ 64) }
    ensures { result ≡ reduced 64 value }
{
    if value < 0 {
        (value + (1 << 64)) as u64
    } else {
        value as u64
    }
}

/// Appends a number reduced to so many bytes.
#[tactic(auto, using(crate::proofs::Bytes::narrowed))]
fn push_number(out: &mut Vec<u8>, count: u32, value: i128) -> Result<(), AllocError>
    requires count { (count == 1 || (count == 2 || (count == 4 || count == 8))) ≡ true }
    requires low { neg_ℤ (pos (2 ^ 64)) ≤ℤ value }
    requires high { value <ℤ pos (2 ^ 64) }
    ensures { OnOk result (out.new.items ≡ out.old.items ++ little_endian count (reduced (8 * count) value)) }
{
    push_bytes(out, count, reduced_64(value))
}

/// Appends a token that a slot takes, where it is a number, in so many bytes.
fn push_slot(
    out: &mut Vec<u8>,
    count: u32,
    slot: Slot,
    token: &Lexeme<'_>,
) -> Result<(), AllocError>
    requires count { (count == 1 || (count == 2 || (count == 4 || count == 8))) ≡ true }
    requires filled { AreFilled (slot_of slot ∷ []) (piece_of token.now ∷ []) }
    ensures { OnOk result (out.new.items ≡ out.old.items ++ flat_map (λ value. little_endian count (reduced (8 * count) value)) (numbers_in (piece_of token.now ∷ []))) }
{
    match slot_number(slot, token) {
        Some(value) => push_number(out, count, value),
        None => Ok(()),
    }
}

/// Appends the numbers among tokens, each in so many bytes.
pub fn push_numbers(
    out: &mut Vec<u8>,
    count: u32,
    way: Way,
    tokens: &[Lexeme<'_>],
) -> Result<(), AllocError>
    requires count { (count == 1 || (count == 2 || (count == 4 || count == 8))) ≡ true }
    requires filled { AreFilled (way_slots (commas_in (pieces_of tokens.now)) way) (pieces_of tokens.now) }
    ensures { OnOk result (out.new.items ≡ out.old.items ++ flat_map (λ value. little_endian count (reduced (8 * count) value)) (numbers_in (pieces_of tokens.now))) }
{
    let mut rest = way;
    for token in tokens {
        let Some((slot, later)) = rest.step(token) else {
            return Ok(());
        };
        push_slot(out, count, slot, token)?;
        rest = later;
    }
    Ok(())
}

/// Appends the bytes that a text means.
#[tactic(auto, unfolding(vx_language::specs::Texts::text_bytes))]
fn push_text_of(out: &mut Vec<u8>, token: &Lexeme<'_>) -> Result<(), AllocError>
    ensures { OnOk result (out.new.items ≡ out.old.items ++ text_bytes false (drop 1 (piece_of token.now).text)) }
{
    match token.text.split_first() {
        Some((_, rest)) => push_text(out, rest),
        None => Ok(()),
    }
}

/// Appends the bytes of the texts among tokens that are all texts.
pub fn push_texts(out: &mut Vec<u8>, tokens: &[Lexeme<'_>]) -> Result<(), AllocError>
    ensures { OnOk result (out.new.items ≡ out.old.items ++ flat_map (λ (piece : Piece). text_bytes false (drop 1 piece.text)) (pieces_of tokens.now)) }
{
    for token in tokens {
        push_text_of(out, token)?;
    }
    Ok(())
}
