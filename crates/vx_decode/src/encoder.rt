ghost use Rattle.std.specs.Prelude.{◌≡◌, ℕ, ◌+◌, ◌*◌, ◌%◌, ◌^◌, ◌<◌, Some, pos, neg_ℤ, ◌<ℤ◌, ◌≤ℤ◌};
ghost use Rattle.vx_base.specs.Numbers.{reduced};
ghost use Rattle.vx_decode.specs.Decoded.{decoded};
ghost use Rattle.vx_decode.specs.Encoded.{IsValid, IsNumber, word_of, number_bits, vm_bits, bits_s, bits_b, bits_j};
ghost use Rattle.vx_rows.specs.Layouts.{layout_of};

use crate::field::bits;
use crate::instr::Instr;
use vx_rows::{Number, Shape, Vm, fits_one_at_most, has_its_rows};

/// The word of an instruction. Each operand lies in its range; those that its shape lacks are 0, or true for `vm`.
pub fn encode(i: &Instr) -> u32
    requires { IsValid i.now }
    ensures value { result ≡ word_of i.now }
    ensures decodes { decoded result ≡ Some i.now }
    ensures only { (word : ℕ) → word < 2 ^ 32 → decoded word ≡ Some i.now → word ≡ result }
{
    fits_one_at_most();
    has_its_rows();
    let shape = i.op.shape();
    let registers = u32::from(i.rd) << 7 | u32::from(i.rs1) << 15 | u32::from(i.rs2) << 20;
    let unmasked = mask_bits(shape.layout().vm, i.vm);
    i.op.bits() | (registers | number(shape, i) | unmasked | field_bits(i.nf))
}

/// The word of the instruction that a word means is that word.
pub fn decoded_has_its_word()
    ensures { (word : ℕ) (i : Instr) → word < 2 ^ 32 → decoded word ≡ Some i → word_of i ≡ word }
{}

/// Bit 25, where it isn't fixed.
fn mask_bits(vm: Vm, is_unmasked: bool) -> u32
    ensures { result ≡ vm_bits vm is_unmasked }
{
    match vm {
        Vm::Any => u32::from(is_unmasked) << 25,
        Vm::Zero | Vm::One => 0,
    }
}

/// Bits 31 to 29.
fn field_bits(nf: u8) -> u32
    ensures { result ≡ nf * 2 ^ 29 % 2 ^ 32 }
{
    u32::from(nf) << 29
}

/// The bits of the number of an instruction of this shape.
fn number(shape: Shape, i: &Instr) -> u32
    requires { IsNumber (layout_of shape).number i.now.imm }
    ensures { result ≡ number_bits (layout_of shape).number i.now.imm }
{
    let z = i.imm;
    match shape.layout().number {
        Number::Absent => 0,
        Number::Unsigned(low, count) => reduced_number(count, z) << low,
        Number::Signed(low, count) => reduced_number(count, z) << low,
        Number::FormatS => store_bits(reduced_number(12, z)),
        Number::FormatB => branch_bits(reduced_number(13, z)),
        Number::FormatJ => jump_bits(reduced_number(21, z)),
    }
}

/// A number reduced to `width` bits.
fn reduced_number(width: u32, z: i64) -> u32
    requires within { width < 32 }
    requires low { neg_ℤ (pos (2 ^ width)) ≤ℤ z }
    requires high { z <ℤ pos (2 ^ width) }
    ensures value { result ≡ reduced width z }
    ensures below { result < 2 ^ width }
{
    if z < 0 {
        (z + i64::from(1u32 << width)) as u32
    } else {
        z as u32
    }
}

/// The bits of a number of 12 bits in format S.
fn store_bits(u: u32) -> u32
    requires { u < 2 ^ 12 }
    ensures value { result ≡ bits_s u }
    ensures room { result + 0x1fff07f < 2 ^ 32 }
{
    bits(u, 5, 7) * 33_554_432 + u % 32 * 128
}

/// The bits of an even number of 13 bits in format B.
fn branch_bits(u: u32) -> u32
    requires { u < 2 ^ 13 }
    ensures value { result ≡ bits_b u }
    ensures room { result + 0x1fff07f < 2 ^ 32 }
{
    let high = bits(u, 12, 1) * 0x8000_0000 + bits(u, 5, 6) * 33_554_432;
    high + bits(u, 1, 4) * 256 + bits(u, 11, 1) * 128
}

/// The bits of an even number of 21 bits in format J.
fn jump_bits(u: u32) -> u32
    requires { u < 2 ^ 21 }
    ensures value { result ≡ bits_j u }
    ensures room { result + 0xfff < 2 ^ 32 }
{
    let high = bits(u, 20, 1) * 0x8000_0000 + bits(u, 1, 10) * 2_097_152;
    high + bits(u, 11, 1) * 1_048_576 + bits(u, 12, 8) * 4096
}
