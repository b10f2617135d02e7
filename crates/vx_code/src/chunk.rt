ghost use Rattle.std.specs.Prelude.{◌≡◌, ℕ, List, [], ◌∷◌, ◌+◌, ◌-◌, ◌*◌, ◌^◌, ◌<◌, ◌≤◌, ◌++◌, ◌==◌, ◌||◌, true, false, drop, flat_map, replicate, IfOk, None};
ghost use Rattle.std.specs.Int.{next_multiple_of};
ghost use Rattle.std.specs.List.{list_all};
ghost use Rattle.vx_base.specs.Numbers.{reduced, little_endian};
ghost use Rattle.vx_language.specs.Code.{filled_all, instr_bytes};
ghost use Rattle.vx_language.specs.Forms as language;
ghost use Rattle.vx_language.specs.Lexemes.{Piece};
ghost use Rattle.vx_language.specs.Statements.{chunk_size, chunk_of, numbers_in, count_in, code_instrs};
ghost use Rattle.vx_language.specs.Texts.{text_bytes};
ghost use Rattle.vx_statement.specs.Lexemes.{piece_of, pieces_of};
ghost use Rattle.vx_statement.specs.Slots.{slot_of};
ghost use Rattle.vx_statement.specs.Ways.{commas_in, way_slots, action_of, expansion_of};
ghost use Rattle.vx_code.specs.Aiming.{aim_of};
ghost use Rattle.vx_code.specs.Filling.{AreFilled, chunk_seen};
ghost use Rattle.vx_code.specs.Putting.{slots_for, IsSound};
ghost use Rattle.vx_code.specs.Right.{is_count};

use crate::aim::Aim;
use crate::data::{push_numbers, push_texts};
use crate::fill::{fill_all, magnitude, some_number, start_of};
use crate::instrs::push_code;
use std::alloc::{AllocError, Global};
use vx_decode::Instr;
use vx_statement::{Action, Expansion, Form, Lexeme, Slot, Way};

/// What a statement puts into its section.
#[derive(Debug, Drop)]
pub enum Chunk {
    /// These bytes.
    Plain(Vec<u8>),
    /// So many zeros, which needn't be in the file where the variables end with them.
    Zeros(u64),
}

impl Chunk {
    /// How many bytes it has.
    pub fn size(&self) -> u64
        ensures { result ≡ chunk_size (chunk_seen self.now) }
    {
        match self {
            Chunk::Plain(bytes) => bytes.len() as u64,
            Chunk::Zeros(count) => *count,
        }
    }
}

/// The bytes of the numbers among tokens.
fn numbers(
    alloc: Global,
    count: u32,
    way: Way,
    operands: &[Lexeme<'_>],
) -> Result<Vec<u8>, AllocError>
    requires count { (count == 1 || (count == 2 || (count == 4 || count == 8))) ≡ true }
    requires filled { AreFilled (way_slots (commas_in (pieces_of operands.now)) way) (pieces_of operands.now) }
    ensures { IfOk result (λ bytes. bytes.items ≡ flat_map (λ value. little_endian count (reduced (8 * count) value)) (numbers_in (pieces_of operands.now))) }
{
    let mut bytes = Vec::new(alloc);
    push_numbers(&mut bytes, count, way, operands)?;
    Ok(bytes)
}

/// The bytes of the texts among tokens that are all texts.
fn texts(alloc: Global, operands: &[Lexeme<'_>]) -> Result<Vec<u8>, AllocError>
    ensures { IfOk result (λ bytes. bytes.items ≡ flat_map (λ (piece : Piece). text_bytes false (drop 1 piece.text)) (pieces_of operands.now)) }
{
    let mut bytes = Vec::new(alloc);
    push_texts(&mut bytes, operands)?;
    Ok(bytes)
}

/// The number in a slot that takes a number from 0 on.
fn count_in(slot: Slot, token: &Lexeme<'_>) -> u64
    requires filled { AreFilled (slot_of slot ∷ []) (piece_of token.now ∷ []) }
    requires counts { (greatest : ℕ) × (is_count greatest (slot_of slot) ≡ true) }
    ensures value { result ≡ count_in (piece_of token.now ∷ []) }
    ensures within { (greatest : ℕ) → is_count greatest (slot_of slot) ≡ true → result ≤ greatest }
{
    magnitude(some_number(slot, token))
}

/// The one number of a statement that has one, from 0 on.
#[tactic(auto, unfolding(vx_language::specs::Statements::count_in))]
fn count_of(way: Way, operands: &[Lexeme<'_>]) -> u64
    requires filled { AreFilled (way_slots (commas_in (pieces_of operands.now)) way) (pieces_of operands.now) }
    requires counts { (greatest : ℕ) × (list_all (is_count greatest) (way_slots (commas_in (pieces_of operands.now)) way) ≡ true) }
    ensures value { result ≡ count_in (pieces_of operands.now) }
    ensures within { (greatest : ℕ) → list_all (is_count greatest) (way_slots (commas_in (pieces_of operands.now)) way) ≡ true → result ≤ greatest }
{
    let Some((token, _)) = operands.split_first() else {
        return 0;
    };
    match way.step(token) {
        Some((slot, _)) => count_in(slot, token),
        None => 0,
    }
}

/// How many bytes there are from an offset up to a multiple of a power of two.
#[tactic(auto, using(crate::proofs::Bytes::padding_fits))]
fn padding(offset: u128, power: u64) -> usize
    requires power { power ≤ 12 }
    requires room { offset + 4096 < 2 ^ 128 }
    ensures { result ≡ next_multiple_of offset (2 ^ power) - offset }
{
    (offset.next_multiple_of(1 << power) - offset) as usize
}

/// So many zeros.
fn zeros(alloc: Global, count: usize) -> Result<Vec<u8>, AllocError>
    ensures { IfOk result (λ bytes. bytes.items ≡ replicate count 0) }
{
    let mut bytes = Vec::new(alloc);
    bytes.resize(count, 0)?;
    Ok(bytes)
}

/// The words of the instructions of a statement.
fn code(
    alloc: Global,
    aim: &Aim<'_, '_>,
    expansion: Expansion,
    instr: Instr,
    way: Way,
    operands: &[Lexeme<'_>],
) -> Result<Vec<u8>, AllocError>
    requires { IsSound (aim_of aim.now) (way_slots (commas_in (pieces_of operands.now)) way) (pieces_of operands.now) (language.Puts (record { expansion = expansion_of expansion; instr = instr; target = None })) }
    ensures { IfOk result (λ bytes. bytes.items ≡ instr_bytes (code_instrs (aim_of aim.now) (filled_all (way_slots (commas_in (pieces_of operands.now)) way) (pieces_of operands.now) (record { expansion = expansion_of expansion; instr = instr; target = None })))) }
{
    let start = start_of(instr);
    let filled = fill_all(way, operands, aim, start);
    let mut bytes = Vec::new(alloc);
    push_code(&mut bytes, expansion, instr, filled)?;
    Ok(bytes)
}

/// What a statement of this form, without a fault, puts at an offset of its section, where the aim tells how far labels are.
/// `Err` where memory is wanting.
#[tactic(auto, unfolding(vx_language::specs::Statements::chunk_of))]
pub fn chunk_of(
    alloc: Global,
    aim: &Aim<'_, '_>,
    offset: u128,
    form: &Form,
    operands: &[Lexeme<'_>],
) -> Result<Chunk, AllocError>
    requires sound { IsSound (aim_of aim.now) (slots_for form.now operands.now) (pieces_of operands.now) (action_of form.now.action) }
    requires room { offset + 4096 < 2 ^ 128 }
    ensures { IfOk result (λ chunk. chunk_seen chunk ≡ chunk_of (aim_of aim.now) offset (slots_for form.now operands.now) (pieces_of operands.now) (action_of form.now.action)) }
{
    let bytes = match form.action {
        Action::PutsZeros => return Ok(Chunk::Zeros(count_of(form.way, operands))),
        Action::Enters(_) | Action::Rests => Vec::new(alloc),
        Action::PutsNumbers(count) => numbers(alloc, count, form.way, operands)?,
        Action::PutsText => texts(alloc, operands)?,
        Action::Aligns => zeros(alloc, padding(offset, count_of(form.way, operands)))?,
        Action::Puts(expansion, instr) => code(alloc, aim, expansion, instr, form.way, operands)?,
    };
    Ok(Chunk::Plain(bytes))
}
