ghost use Rattle.std.specs.Prelude.{◌≡◌};
ghost use Rattle.vx_flat.specs.Access.{access_address};
ghost use Rattle.vx_flat.specs.Scalar.{effect};
ghost use Rattle.vx_scalar.specs.Operands.{NamesRegisters};

use crate::operation::scalar_effect;
use crate::reading::{next, number, sum};
use crate::regs::Regs;
use vx_decode::Instr;
use vx_flat::Effect;
use vx_rows::Op;

/// What an instruction that touches no memory does at a pc. Another one goes on at the next instruction.
#[inline(always)]
pub fn scalar(i: &Instr, regs: &Regs, pc: u64) -> Effect
    requires { NamesRegisters i.now }
    ensures { result ≡ effect i.now regs.now.x pc }
{
    let a = regs.read(i.rs1);
    let b = regs.read(i.rs2);
    match i.op {
        Op::Scalar(op) => scalar_effect(op, pc, a, b, number(i.imm)),
        _ => Effect::Next(next(pc)),
    }
}

/// The address of a load or a store.
#[inline(always)]
pub fn scalar_address(i: &Instr, regs: &Regs) -> u64
    requires { NamesRegisters i.now }
    ensures { result ≡ access_address i.now regs.now.x }
{
    sum(regs.read(i.rs1), number(i.imm))
}
