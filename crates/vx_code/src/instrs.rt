ghost use Rattle.std.specs.Prelude.{◌≡◌, ◌<◌, ◌++◌, ◌&&◌, [], ◌∷◌, pos, neg_ℤ, int_le, OnOk};
ghost use Rattle.vx_base.specs.Numbers.{little_endian};
ghost use Rattle.vx_decode.specs.Encoded.{IsValid, word_of};
ghost use Rattle.vx_language.specs.Code.{LoadsNumber, LoadsAddress, expanded, upper_part, lower_part, instr_bytes};
ghost use Rattle.vx_language.specs.Names.{scalar_instr};
ghost use Rattle.vx_statement.specs.Ways.{expansion_of};
ghost use Rattle.vx_code.specs.Putting.{instr_with, MayBePut};

use crate::data::push_bytes;
use crate::fill::Filled;
use crate::load::{lower_part, upper_part};
use std::alloc::AllocError;
use vx_decode::{Instr, encode};
use vx_rows::{Op, ScalarOp};
use vx_statement::Expansion;

/// Appends the word of an instruction.
pub fn push_instr(out: &mut Vec<u8>, instr: &Instr) -> Result<(), AllocError>
    requires { IsValid instr.now }
    ensures { OnOk result (out.new.items ≡ out.old.items ++ little_endian 4 (word_of instr.now)) }
{
    push_bytes(out, 4, u64::from(encode(instr)))
}

/// Appends the word of an operation's instruction with these operands, and no others.
fn push_scalar(out: &mut Vec<u8>, op: ScalarOp, rd: u8, rs1: u8, imm: i64) -> Result<(), AllocError>
    requires { IsValid (scalar_instr (Op.Scalar op) rd rs1 0 imm) }
    ensures { OnOk result (out.new.items ≡ out.old.items ++ little_endian 4 (word_of (scalar_instr (Op.Scalar op) rd rs1 0 imm))) }
{
    push_instr(
        out,
        &Instr {
            op: Op::Scalar(op),
            rd,
            rs1,
            rs2: 0,
            imm,
            vm: true,
            nf: 0,
        },
    )
}

/// Appends the instructions that load an address this far away.
#[tactic(auto, unfolding(vx_language::specs::Code::instr_bytes, vx_language::specs::Code::expanded))]
fn push_address_load(out: &mut Vec<u8>, rd: u8, distance: i128) -> Result<(), AllocError>
    requires { rd < 32 }
    ensures { OnOk result ((i : Instr) → i.rd ≡ rd → i.imm ≡ distance → out.new.items ≡ out.old.items ++ instr_bytes (expanded LoadsAddress i)) }
{
    let upper = i64::from(upper_part(distance));
    push_scalar(out, ScalarOp::Auipc, rd, 0, upper)?;
    push_scalar(out, ScalarOp::Addi, rd, rd, lower_part(distance))
}

/// Appends the instructions that load a number of 32 bits, with two of them.
fn push_upper_load(out: &mut Vec<u8>, rd: u8, value: i128) -> Result<(), AllocError>
    requires { rd < 32 }
    ensures { OnOk result (out.new.items ≡ out.old.items ++ instr_bytes (scalar_instr (Op.Scalar ScalarOp.Lui) rd 0 0 (upper_part value) ∷ scalar_instr (Op.Scalar ScalarOp.Addiw) rd rd 0 (lower_part value) ∷ [])) }
{
    let upper = i64::from(upper_part(value));
    push_scalar(out, ScalarOp::Lui, rd, 0, upper)?;
    push_scalar(out, ScalarOp::Addiw, rd, rd, lower_part(value))
}

/// Whether one instruction loads a number.
fn is_short(value: i128) -> bool
    ensures { result ≡ (int_le (neg_ℤ (pos 2048)) value && int_le value (pos 2047)) }
{
    -2048 <= value && value <= 2047
}

/// Appends the instructions that load a number.
fn push_number_load(out: &mut Vec<u8>, rd: u8, value: i128) -> Result<(), AllocError>
    requires { rd < 32 }
    ensures { OnOk result ((i : Instr) → i.rd ≡ rd → i.imm ≡ value → out.new.items ≡ out.old.items ++ instr_bytes (expanded LoadsNumber i)) }
{
    if is_short(value) {
        push_scalar(out, ScalarOp::Addi, rd, 0, value as i64)
    } else {
        push_upper_load(out, rd, value)
    }
}

/// An instruction with what is filled in.
fn instr_with(instr: Instr, filled: Filled) -> Instr
    requires { IsValid (instr_with instr filled) }
    ensures { result ≡ instr_with instr filled }
{
    Instr {
        op: instr.op,
        rd: filled.rd,
        rs1: filled.rs1 as u8,
        rs2: filled.rs2,
        imm: filled.target.unwrap_or(filled.imm) as i64,
        vm: filled.vm,
        nf: instr.nf,
    }
}

/// Appends the words of the instructions that a statement's one stands for, with what is filled in.
pub fn push_code(
    out: &mut Vec<u8>,
    expansion: Expansion,
    instr: Instr,
    filled: Filled,
) -> Result<(), AllocError>
    requires { MayBePut (expansion_of expansion) instr filled }
    ensures { OnOk result (out.new.items ≡ out.old.items ++ instr_bytes (expanded (expansion_of expansion) (instr_with instr filled))) }
{
    let value = filled.target.unwrap_or(filled.imm);
    match expansion {
        Expansion::Alone => push_instr(out, &instr_with(instr, filled)),
        Expansion::LoadsNumber => push_number_load(out, filled.rd, value),
        Expansion::LoadsAddress => push_address_load(out, filled.rd, value),
    }
}
