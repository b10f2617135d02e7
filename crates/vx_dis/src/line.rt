ghost use Rattle.std.specs.Prelude.{◌≡◌, ◌<◌, ◌∷◌, ◌++◌, List, IfOk, OnOk, codes, decimal, string_bytes};
ghost use Rattle.std.specs.Fmt.{signed_decimal};
ghost use Rattle.vx_decode.specs.Encoded.{IsValid};
ghost use Rattle.vx_source.specs.Lines.{instr_line, line_of, listed, operand_texts, word_line};
ghost use Rattle.vx_source.specs.Names.{register_name, vector_name};
ghost use Rattle.vx_source.specs.Operands.{control_text, is_written, operand_text};
ghost use Rattle.vx_source.specs.Vtypes.{in_words, vtype_text};
ghost use Rattle.vx_source.specs.declared.operand.OperandKind.{OperandKind};

use std::alloc::{AllocError, Global};
use std::fmt::Write;
use vx_base::{Text, push_hex};
use vx_decode::{Instr, decode};
use vx_rows::name_of;
use vx_source::{
    OperandKind, VtypeField, control_name, has_words, operand_kinds, register_name, vector_name,
    vtype_word,
};

/// How many bytes of room a line begins with. It grows where that is too little.
const LINE_ROOM: usize = 32;

/// Appends a number.
fn push_number(text: &mut String, number: i64) -> Result<(), AllocError>
    ensures { OnOk result (string_bytes text.new ≡ string_bytes text.old ++ signed_decimal number) }
{
    write!(text, "{number}")?;
    Ok(())
}

/// Appends the name of a register below 32.
fn push_register(text: &mut String, number: u8) -> Result<(), AllocError>
    requires { number < 32 }
    ensures { OnOk result (string_bytes text.new ≡ string_bytes text.old ++ register_name number) }
{
    text.push_str(register_name(number))
}

/// Appends the name of a vector register below 32.
fn push_vector(text: &mut String, number: u8) -> Result<(), AllocError>
    requires { number < 32 }
    ensures { OnOk result (string_bytes text.new ≡ string_bytes text.old ++ vector_name number) }
{
    text.push_str(vector_name(number))
}

/// Appends a register in parentheses.
fn push_base(text: &mut String, register: u8) -> Result<(), AllocError>
    requires { register < 32 }
    ensures { OnOk result (string_bytes text.new ≡ string_bytes text.old ++ (codes "(" ++ register_name register ++ codes ")")) }
{
    let register = register_name(register);
    write!(text, "({register})")?;
    Ok(())
}

/// Appends an address: a number, and a register in parentheses.
fn push_address(text: &mut String, number: i64, register: u8) -> Result<(), AllocError>
    requires { register < 32 }
    ensures { OnOk result (string_bytes text.new ≡ string_bytes text.old ++ (signed_decimal number ++ codes "(" ++ register_name register ++ codes ")")) }
{
    let register = register_name(register);
    write!(text, "{number}({register})")?;
    Ok(())
}

/// Appends a control register: its name, or else its number.
fn push_control(text: &mut String, number: u64) -> Result<(), AllocError>
    ensures { OnOk result (string_bytes text.new ≡ string_bytes text.old ++ control_text number) }
{
    match control_name(number) {
        Some(name) => text.push_str(name)?,
        None => write!(text, "{number}")?,
    }
    Ok(())
}

/// Appends a vtype by its words.
fn push_words(text: &mut String, vtype: u64) -> Result<(), AllocError>
    ensures { OnOk result (string_bytes text.new ≡ string_bytes text.old ++ in_words vtype) }
{
    let sew = vtype_word(VtypeField::Sew, vtype);
    let lmul = vtype_word(VtypeField::Lmul, vtype);
    let tail = vtype_word(VtypeField::Tail, vtype);
    let mask = vtype_word(VtypeField::Mask, vtype);
    write!(text, "{sew}, {lmul}, {tail}, {mask}")?;
    Ok(())
}

/// Appends a vtype: its words, or else its number.
#[tactic(auto, unfolding(vx_source::specs::Vtypes::vtype_text))]
fn push_vtype(text: &mut String, vtype: u64) -> Result<(), AllocError>
    ensures { OnOk result (string_bytes text.new ≡ string_bytes text.old ++ vtype_text vtype) }
{
    if has_words(vtype) {
        return push_words(text, vtype);
    }
    write!(text, "{vtype}")?;
    Ok(())
}

/// Appends an instruction's operand of a kind.
fn push_operand(text: &mut String, instr: &Instr, kind: OperandKind) -> Result<(), AllocError>
    requires { IsValid instr.now }
    ensures { OnOk result (string_bytes text.new ≡ string_bytes text.old ++ operand_text instr.now kind) }
{
    match kind {
        OperandKind::Destination => push_register(text, instr.rd),
        OperandKind::FirstSource => push_register(text, instr.rs1),
        OperandKind::SecondSource => push_register(text, instr.rs2),
        OperandKind::Signed(_) | OperandKind::Unsigned(_) => push_number(text, instr.imm),
        OperandKind::Target(_) => push_number(text, instr.imm),
        OperandKind::Address => push_address(text, instr.imm, instr.rs1),
        OperandKind::Control => push_control(text, instr.imm.unsigned_abs()),
        OperandKind::SourceNumber => push_number(text, i64::from(instr.rs1)),
        OperandKind::VectorDestination => push_vector(text, instr.rd),
        OperandKind::FirstVector => push_vector(text, instr.rs1),
        OperandKind::SecondVector => push_vector(text, instr.rs2),
        OperandKind::Base => push_base(text, instr.rs1),
        OperandKind::Vtype(_) => push_vtype(text, instr.imm.unsigned_abs()),
        OperandKind::Masked => text.push_str("v0.t"),
        OperandKind::Carry => text.push_str("v0"),
    }
}

/// Whether an instruction has an operand of a kind: the mask only where it is masked.
fn is_written(instr: &Instr, kind: OperandKind) -> bool
    ensures { result ≡ is_written instr.now kind }
{
    kind != OperandKind::Masked || !instr.vm
}

/// Appends an instruction's operand of a kind behind a separator, where it has one, and answers the separator before the next.
fn push_written(
    text: &mut String,
    separator: &'static str,
    instr: &Instr,
    kind: OperandKind,
) -> Result<&'static str, AllocError>
    requires { IsValid instr.now }
    ensures { IfOk result (λ next. (rest : List OperandKind) → string_bytes text.new ++ listed next.now (operand_texts instr.now rest) ≡ string_bytes text.old ++ listed separator.now (operand_texts instr.now (kind ∷ rest))) }
{
    if !is_written(instr, kind) {
        return Ok(separator);
    }
    text.push_str(separator)?;
    push_operand(text, instr, kind)?;
    Ok(", ")
}

/// Appends an instruction's operands of these kinds, behind a space, with a comma and a space between them.
fn push_operands(text: &mut String, instr: &Instr, kinds: &[OperandKind]) -> Result<(), AllocError>
    requires { IsValid instr.now }
    ensures { OnOk result (string_bytes text.new ≡ string_bytes text.old ++ listed (codes " ") (operand_texts instr.now kinds.now)) }
{
    let mut separator = " ";
    for kind in kinds {
        separator = push_written(text, separator, instr, *kind)?;
    }
    Ok(())
}

/// Appends the line of an instruction.
fn push_instr(text: &mut String, instr: &Instr) -> Result<(), AllocError>
    requires { IsValid instr.now }
    ensures { OnOk result (string_bytes text.new ≡ string_bytes text.old ++ instr_line instr.now) }
{
    text.push_str(name_of(instr.op, instr.nf))?;
    push_operands(text, instr, operand_kinds(instr.op))
}

/// Appends the line of a word that is no instruction.
fn push_word(text: &mut String, word: u32) -> Result<(), AllocError>
    ensures { OnOk result (string_bytes text.new ≡ string_bytes text.old ++ word_line word) }
{
    text.push_str(".word 0x")?;
    push_hex(text, 8, u64::from(word))
}

/// Appends the canonical line of a word.
#[tactic(auto, unfolding(vx_source::specs::Lines::line_of))]
pub(crate) fn push_line(text: &mut String, word: u32) -> Result<(), AllocError>
    ensures { OnOk result (string_bytes text.new ≡ string_bytes text.old ++ line_of word) }
{
    match decode(word) {
        Some(instr) => push_instr(text, &instr),
        None => push_word(text, word),
    }
}

/// The canonical line of a word: the mnemonic, and behind a space the operands, with a comma and a space between them. A
/// word that is no instruction has the line `.word 0x` and its eight hexadecimal digits. `Err` where memory is wanting.
pub fn line_of(alloc: Global, word: u32) -> Result<Text, AllocError>
    ensures { IfOk result (λ text. text ≡ line_of word) }
{
    let mut text = String::with_capacity(alloc, LINE_ROOM)?;
    push_line(&mut text, word)?;
    Ok(Text::of(text.into_bytes()))
}
