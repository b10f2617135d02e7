ghost use Rattle.std.specs.Prelude.{◌≡◌, IfSome, ◌<◌, ℕ, Some};
ghost use Rattle.vx_decode.specs.Decoded.{decoded, with_operands, register_at, vm_of, nf_of};
ghost use Rattle.vx_decode.specs.Encoded.{IsValid};
ghost use Rattle.vx_rows.specs.Layouts.{layout_of};
ghost use Rattle.vx_rows.specs.Table.{shape_of};

use crate::field::bits;
use crate::immediate::number;
use crate::instr::Instr;
use crate::operation::operation;
use vx_rows::{Nf, Op, Vm};

/// The instruction that a word means; `None` exactly where no row has its fixed bits. Each of its operands lies in its
/// range, and those that its shape lacks are 0.
pub fn decode(word: u32) -> Option<Instr>
    ensures value { result ≡ decoded word }
    ensures valid { IfSome result IsValid }
{
    let op = operation(word)?;
    Some(operands(word, op))
}

/// The instruction of a word is a valid one.
pub fn decoded_is_valid()
    ensures { (word : ℕ) (i : Instr) → decoded word ≡ Some i → IsValid i }
{}

/// The operation with the operands that the word holds for it.
fn operands(word: u32, op: Op) -> Instr
    ensures { result ≡ with_operands word op (layout_of (shape_of op)) }
{
    let shape = op.shape();
    let layout = shape.layout();
    Instr {
        op,
        rd: register(word, 7, layout.rd),
        rs1: register(word, 15, layout.rs1),
        rs2: register(word, 20, layout.rs2),
        imm: number(word, shape),
        vm: mask(word, layout.vm),
        nf: fields(word, layout.nf),
    }
}

/// The number of a register whose field begins at `low`, where there is one.
fn register(word: u32, low: u32, has: bool) -> u8
    requires { low < 32 }
    ensures { result ≡ register_at low has word }
{
    if has { bits(word, low, 5) as u8 } else { 0 }
}

/// Whether the row isn't masked.
fn mask(word: u32, vm: Vm) -> bool
    ensures { result ≡ vm_of vm word }
{
    match vm {
        Vm::Any => bits(word, 25, 1) == 1,
        Vm::Zero => false,
        Vm::One => true,
    }
}

/// One less than the number of fields or registers.
fn fields(word: u32, nf: Nf) -> u8
    ensures { result ≡ nf_of nf word }
{
    match nf {
        Nf::Absent => 0,
        Nf::Any | Nf::Registers => bits(word, 29, 3) as u8,
    }
}
