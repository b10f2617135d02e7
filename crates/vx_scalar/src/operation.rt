ghost use Rattle.std.specs.Prelude.{◌≡◌};
ghost use Rattle.vx_flat.specs.Scalar.{branched, effect_of, even, jump, jumped, put, scalar_work, upper};

use crate::reading::{extend, is_less, next, sum, truth};
use vx_bits::{
    add_at, div_at, divu_at, mul_at, mulh_at, mulhsu_at, mulhu_at, rem_at, remu_at, sll_at, sra_at,
    srl_at, sub_at,
};
use vx_flat::Effect;
use vx_rows::ScalarOp;

/// What an operation does at a pc, with the numbers in `rs1` and `rs2` and the immediate. A load, a store and what isn't
/// done by its effect go on at the next instruction.
#[inline(always)]
pub fn scalar_effect(op: ScalarOp, pc: u64, a: u64, b: u64, n: u64) -> Effect
    ensures { result ≡ effect_of (scalar_work op pc a b n) pc }
{
    match op {
        ScalarOp::Lui => puts(upper(n), pc),
        ScalarOp::Auipc => puts(sum(pc, upper(n)), pc),
        ScalarOp::Jal => jump_to(sum(pc, n), pc),
        ScalarOp::Jalr => jump_to(even(sum(a, n)), pc),
        ScalarOp::Beq => branch(a == b, pc, n),
        ScalarOp::Bne => branch(a != b, pc, n),
        ScalarOp::Blt => branch(is_less(a, b), pc, n),
        ScalarOp::Bge => branch(!is_less(a, b), pc, n),
        ScalarOp::Bltu => branch(a < b, pc, n),
        ScalarOp::Bgeu => branch(a >= b, pc, n),
        ScalarOp::Addi => puts(sum(a, n), pc),
        ScalarOp::Slti => puts(truth(is_less(a, n)), pc),
        ScalarOp::Sltiu => puts(truth(a < n), pc),
        ScalarOp::Xori => puts(a ^ n, pc),
        ScalarOp::Ori => puts(a | n, pc),
        ScalarOp::Andi => puts(a & n, pc),
        ScalarOp::Slli => puts(sll_at(64, a, n), pc),
        ScalarOp::Srli => puts(srl_at(64, a, n), pc),
        ScalarOp::Srai => puts(sra_at(64, a, n), pc),
        ScalarOp::Addiw => puts(extend(add_at(32, a, n)), pc),
        ScalarOp::Slliw => puts(extend(sll_at(32, a, n)), pc),
        ScalarOp::Srliw => puts(extend(srl_at(32, a, n)), pc),
        ScalarOp::Sraiw => puts(extend(sra_at(32, a, n)), pc),
        ScalarOp::Add => puts(sum(a, b), pc),
        ScalarOp::Sub => puts(sub_at(64, a, b), pc),
        ScalarOp::Sll => puts(sll_at(64, a, b), pc),
        ScalarOp::Slt => puts(truth(is_less(a, b)), pc),
        ScalarOp::Sltu => puts(truth(a < b), pc),
        ScalarOp::Xor => puts(a ^ b, pc),
        ScalarOp::Srl => puts(srl_at(64, a, b), pc),
        ScalarOp::Sra => puts(sra_at(64, a, b), pc),
        ScalarOp::Or => puts(a | b, pc),
        ScalarOp::And => puts(a & b, pc),
        ScalarOp::Mul => puts(mul_at(64, a, b), pc),
        ScalarOp::Mulh => puts(mulh_at(64, a, b), pc),
        ScalarOp::Mulhsu => puts(mulhsu_at(64, a, b), pc),
        ScalarOp::Mulhu => puts(mulhu_at(64, a, b), pc),
        ScalarOp::Div => puts(div_at(64, a, b), pc),
        ScalarOp::Divu => puts(divu_at(64, a, b), pc),
        ScalarOp::Rem => puts(rem_at(64, a, b), pc),
        ScalarOp::Remu => puts(remu_at(64, a, b), pc),
        ScalarOp::Addw => puts(extend(add_at(32, a, b)), pc),
        ScalarOp::Subw => puts(extend(sub_at(32, a, b)), pc),
        ScalarOp::Sllw => puts(extend(sll_at(32, a, b)), pc),
        ScalarOp::Srlw => puts(extend(srl_at(32, a, b)), pc),
        ScalarOp::Sraw => puts(extend(sra_at(32, a, b)), pc),
        ScalarOp::Mulw => puts(extend(mul_at(32, a, b)), pc),
        ScalarOp::Divw => puts(extend(div_at(32, a, b)), pc),
        ScalarOp::Divuw => puts(extend(divu_at(32, a, b)), pc),
        ScalarOp::Remw => puts(extend(rem_at(32, a, b)), pc),
        ScalarOp::Remuw => puts(extend(remu_at(32, a, b)), pc),
        ScalarOp::Lb
        | ScalarOp::Lh
        | ScalarOp::Lw
        | ScalarOp::Ld
        | ScalarOp::Lbu
        | ScalarOp::Lhu
        | ScalarOp::Lwu => Effect::Next(next(pc)),
        ScalarOp::Sb | ScalarOp::Sh | ScalarOp::Sw | ScalarOp::Sd => Effect::Next(next(pc)),
        ScalarOp::Fence | ScalarOp::Ecall | ScalarOp::Ebreak => Effect::Next(next(pc)),
        ScalarOp::Csrrw
        | ScalarOp::Csrrs
        | ScalarOp::Csrrc
        | ScalarOp::Csrrwi
        | ScalarOp::Csrrsi
        | ScalarOp::Csrrci => Effect::Next(next(pc)),
    }
}

/// An upper immediate: 20 bits moved left by 12, and sign-extended.
fn upper(n: u64) -> u64
    ensures { result ≡ upper n }
{
    extend((n % 0x10_0000) << 12)
}

/// The number without its bit 0.
fn even(n: u64) -> u64
    ensures { result ≡ even n }
{
    n - n % 2
}

/// Puts a value into `rd`.
fn puts(value: u64, pc: u64) -> Effect
    ensures { result ≡ put value pc }
{
    Effect::Value(value, next(pc))
}

/// What a jump to a target does, which is to be a multiple of 4.
fn jump(target: u64, done: Effect) -> Effect
    ensures { result ≡ jump target done }
{
    if target % 4 == 0 {
        done
    } else {
        Effect::Misaligned(target)
    }
}

/// Jumps to a target, and puts the pc of what follows into `rd`.
fn jump_to(target: u64, pc: u64) -> Effect
    ensures { result ≡ jumped target pc }
{
    jump(target, Effect::Value(next(pc), target))
}

/// Jumps by `n` where a comparison holds.
fn branch(holds: bool, pc: u64, n: u64) -> Effect
    ensures { result ≡ branched holds pc n }
{
    if holds {
        let target = sum(pc, n);
        jump(target, Effect::Next(target))
    } else {
        Effect::Next(next(pc))
    }
}
