ghost use Rattle.std.specs.Prelude.{◌≡◌, ◌<◌, ◌^◌};
ghost use Rattle.vx_flat.specs.Operands.{change_in, control_number, operand_of, source_in, vtype_of, vtype_source_in};
ghost use Rattle.vx_scalar.specs.Operands.{NamesRegisters};

use vx_decode::Instr;
use vx_flat::{Change, Source};
use vx_rows::{Op, ScalarOp, SetOp};
use vx_scalar::Regs;

/// How an operation changes its control register.
pub fn change_in(op: Op) -> Change
    ensures { result ≡ change_in op }
{
    match op {
        Op::Scalar(ScalarOp::Csrrs | ScalarOp::Csrrsi) => Change::SetBits,
        Op::Scalar(ScalarOp::Csrrc | ScalarOp::Csrrci) => Change::ClearBits,
        _ => Change::Replace,
    }
}

/// Where the operand in the place of `rs1` stands.
pub fn source_in(op: Op) -> Source
    ensures { result ≡ source_in op }
{
    match op {
        Op::Scalar(ScalarOp::Csrrwi | ScalarOp::Csrrsi | ScalarOp::Csrrci) => Source::Immediate,
        Op::Set(SetOp::Vsetivli) => Source::Immediate,
        _ => Source::Register,
    }
}

/// Where the wanted vtype stands.
fn vtype_source_in(op: Op) -> Source
    ensures { result ≡ vtype_source_in op }
{
    match op {
        Op::Set(SetOp::Vsetvl) => Source::Register,
        _ => Source::Immediate,
    }
}

/// The operand in the place of `rs1`.
pub fn operand_of(i: &Instr, regs: &Regs) -> u64
    requires { NamesRegisters i.now }
    ensures { result ≡ operand_of i.now regs.now.x }
{
    match source_in(i.op) {
        Source::Register => regs.read(i.rs1),
        Source::Immediate => u64::from(i.rs1),
    }
}

/// The wanted vtype.
pub fn vtype_of(i: &Instr, regs: &Regs) -> u64
    requires { NamesRegisters i.now }
    ensures { result ≡ vtype_of i.now regs.now.x }
{
    match vtype_source_in(i.op) {
        Source::Register => regs.read(i.rs2),
        Source::Immediate => i.imm.cast_unsigned(),
    }
}

/// The number of the control register.
pub fn control_number(i: &Instr) -> u32
    ensures { result ≡ control_number i.now }
{
    (i.imm.cast_unsigned() % 0x1000) as u32
}
