ghost use Rattle.std.specs.Prelude.{◌≡◌, bit_and};
ghost use Rattle.vx_decode.specs.Lookup.{operation_of, operation_among};

use crate::memory::{vector_loads, vector_stores};
use crate::vector::vector;
use vx_rows::{Op, ScalarOp, fits_one_at_most};

/// The operation of the row whose fixed bits the word has. It goes by the word's opcode first.
pub(crate) fn operation(word: u32) -> Option<Op>
    ensures { result ≡ operation_of word }
{
    match word & 0x7f {
        0x37 => Some(Op::Scalar(ScalarOp::Lui)),
        0x17 => Some(Op::Scalar(ScalarOp::Auipc)),
        0x6f => Some(Op::Scalar(ScalarOp::Jal)),
        0x67 => jump_register(word & 0x707f),
        0x63 => branch(word & 0x707f),
        0x03 => load(word & 0x707f),
        0x23 => store(word & 0x707f),
        0x13 => with_number(word),
        0x1b => with_number_word(word),
        0x33 => with_registers(word & 0xfe00_707f),
        0x3b => with_registers_word(word & 0xfe00_707f),
        0x0f => fence(word & 0x707f),
        0x73 => system(word),
        0x57 => vector(word),
        0x07 => vector_loads(word),
        0x27 => vector_stores(word),
        _ => None,
    }
}

/// The jump to a register.
#[tactic(auto, unfolding(vx_rows::specs::Table::operations))]
fn jump_register(fixed: u32) -> Option<Op>
    ensures { result ≡ operation_among 0x7f 0x67 0x707f fixed }
{
    let op = match fixed {
        0x0067 => ScalarOp::Jalr,
        _ => return None,
    };
    Some(Op::Scalar(op))
}

/// The branches.
#[tactic(auto, unfolding(vx_rows::specs::Table::operations))]
fn branch(fixed: u32) -> Option<Op>
    ensures { result ≡ operation_among 0x7f 0x63 0x707f fixed }
{
    let op = match fixed {
        0x0063 => ScalarOp::Beq,
        0x1063 => ScalarOp::Bne,
        0x4063 => ScalarOp::Blt,
        0x5063 => ScalarOp::Bge,
        0x6063 => ScalarOp::Bltu,
        0x7063 => ScalarOp::Bgeu,
        _ => return None,
    };
    Some(Op::Scalar(op))
}

/// The loads.
#[tactic(auto, unfolding(vx_rows::specs::Table::operations))]
fn load(fixed: u32) -> Option<Op>
    ensures { result ≡ operation_among 0x7f 0x03 0x707f fixed }
{
    let op = match fixed {
        0x0003 => ScalarOp::Lb,
        0x1003 => ScalarOp::Lh,
        0x2003 => ScalarOp::Lw,
        0x3003 => ScalarOp::Ld,
        0x4003 => ScalarOp::Lbu,
        0x5003 => ScalarOp::Lhu,
        0x6003 => ScalarOp::Lwu,
        _ => return None,
    };
    Some(Op::Scalar(op))
}

/// The stores.
#[tactic(auto, unfolding(vx_rows::specs::Table::operations))]
fn store(fixed: u32) -> Option<Op>
    ensures { result ≡ operation_among 0x7f 0x23 0x707f fixed }
{
    let op = match fixed {
        0x0023 => ScalarOp::Sb,
        0x1023 => ScalarOp::Sh,
        0x2023 => ScalarOp::Sw,
        0x3023 => ScalarOp::Sd,
        _ => return None,
    };
    Some(Op::Scalar(op))
}

/// The operations on a register and a number.
fn with_number(word: u32) -> Option<Op>
    requires { bit_and word 0x7f ≡ 0x13 }
    ensures { result ≡ operation_of word }
{
    fits_one_at_most();
    if let Some(op) = numbers(word & 0x0000_707f) {
        return Some(op);
    }
    shifts(word & 0xfc00_707f)
}

/// Those on a number of 12 bits.
#[tactic(auto, unfolding(vx_rows::specs::Table::operations))]
fn numbers(fixed: u32) -> Option<Op>
    ensures { result ≡ operation_among 0x7f 0x13 0x707f fixed }
{
    let op = match fixed {
        0x0013 => ScalarOp::Addi,
        0x2013 => ScalarOp::Slti,
        0x3013 => ScalarOp::Sltiu,
        0x4013 => ScalarOp::Xori,
        0x6013 => ScalarOp::Ori,
        0x7013 => ScalarOp::Andi,
        _ => return None,
    };
    Some(Op::Scalar(op))
}

/// The shifts by a number.
#[tactic(auto, unfolding(vx_rows::specs::Table::operations))]
fn shifts(fixed: u32) -> Option<Op>
    ensures { result ≡ operation_among 0x7f 0x13 0xfc00707f fixed }
{
    let op = match fixed {
        0x1013 => ScalarOp::Slli,
        0x5013 => ScalarOp::Srli,
        0x4000_5013 => ScalarOp::Srai,
        _ => return None,
    };
    Some(Op::Scalar(op))
}

/// The operations on a register and a number, at 32 bits.
fn with_number_word(word: u32) -> Option<Op>
    requires { bit_and word 0x7f ≡ 0x1b }
    ensures { result ≡ operation_of word }
{
    fits_one_at_most();
    if let Some(op) = numbers_word(word & 0x0000_707f) {
        return Some(op);
    }
    shifts_word(word & 0xfe00_707f)
}

/// That on a number of 12 bits, at 32 bits.
#[tactic(auto, unfolding(vx_rows::specs::Table::operations))]
fn numbers_word(fixed: u32) -> Option<Op>
    ensures { result ≡ operation_among 0x7f 0x1b 0x707f fixed }
{
    let op = match fixed {
        0x001b => ScalarOp::Addiw,
        _ => return None,
    };
    Some(Op::Scalar(op))
}

/// The shifts by a number, at 32 bits.
#[tactic(auto, unfolding(vx_rows::specs::Table::operations))]
fn shifts_word(fixed: u32) -> Option<Op>
    ensures { result ≡ operation_among 0x7f 0x1b 0xfe00707f fixed }
{
    let op = match fixed {
        0x101b => ScalarOp::Slliw,
        0x501b => ScalarOp::Srliw,
        0x4000_501b => ScalarOp::Sraiw,
        _ => return None,
    };
    Some(Op::Scalar(op))
}

/// The operations on two registers.
#[tactic(auto, unfolding(vx_rows::specs::Table::operations))]
fn with_registers(fixed: u32) -> Option<Op>
    ensures { result ≡ operation_among 0x7f 0x33 0xfe00707f fixed }
{
    let op = match fixed {
        0x0033 => ScalarOp::Add,
        0x4000_0033 => ScalarOp::Sub,
        0x1033 => ScalarOp::Sll,
        0x2033 => ScalarOp::Slt,
        0x3033 => ScalarOp::Sltu,
        0x4033 => ScalarOp::Xor,
        0x5033 => ScalarOp::Srl,
        0x4000_5033 => ScalarOp::Sra,
        0x6033 => ScalarOp::Or,
        0x7033 => ScalarOp::And,
        0x0200_0033 => ScalarOp::Mul,
        0x0200_1033 => ScalarOp::Mulh,
        0x0200_2033 => ScalarOp::Mulhsu,
        0x0200_3033 => ScalarOp::Mulhu,
        0x0200_4033 => ScalarOp::Div,
        0x0200_5033 => ScalarOp::Divu,
        0x0200_6033 => ScalarOp::Rem,
        0x0200_7033 => ScalarOp::Remu,
        _ => return None,
    };
    Some(Op::Scalar(op))
}

/// The operations on two registers, at 32 bits.
#[tactic(auto, unfolding(vx_rows::specs::Table::operations))]
fn with_registers_word(fixed: u32) -> Option<Op>
    ensures { result ≡ operation_among 0x7f 0x3b 0xfe00707f fixed }
{
    let op = match fixed {
        0x003b => ScalarOp::Addw,
        0x4000_003b => ScalarOp::Subw,
        0x103b => ScalarOp::Sllw,
        0x503b => ScalarOp::Srlw,
        0x4000_503b => ScalarOp::Sraw,
        0x0200_003b => ScalarOp::Mulw,
        0x0200_403b => ScalarOp::Divw,
        0x0200_503b => ScalarOp::Divuw,
        0x0200_603b => ScalarOp::Remw,
        0x0200_703b => ScalarOp::Remuw,
        _ => return None,
    };
    Some(Op::Scalar(op))
}

/// The fence.
#[tactic(auto, unfolding(vx_rows::specs::Table::operations))]
fn fence(fixed: u32) -> Option<Op>
    ensures { result ≡ operation_among 0x7f 0x0f 0x707f fixed }
{
    let op = match fixed {
        0x000f => ScalarOp::Fence,
        _ => return None,
    };
    Some(Op::Scalar(op))
}

/// The operations on control registers, and those that end an instruction by an exception.
fn system(word: u32) -> Option<Op>
    requires { bit_and word 0x7f ≡ 0x73 }
    ensures { result ≡ operation_of word }
{
    fits_one_at_most();
    if let Some(op) = controls(word & 0x0000_707f) {
        return Some(op);
    }
    environment(word & 0xffff_ffff)
}

/// The operations on control registers.
#[tactic(auto, unfolding(vx_rows::specs::Table::operations))]
fn controls(fixed: u32) -> Option<Op>
    ensures { result ≡ operation_among 0x7f 0x73 0x707f fixed }
{
    let op = match fixed {
        0x1073 => ScalarOp::Csrrw,
        0x2073 => ScalarOp::Csrrs,
        0x3073 => ScalarOp::Csrrc,
        0x5073 => ScalarOp::Csrrwi,
        0x6073 => ScalarOp::Csrrsi,
        0x7073 => ScalarOp::Csrrci,
        _ => return None,
    };
    Some(Op::Scalar(op))
}

/// The call of the environment and the breakpoint.
#[tactic(auto, unfolding(vx_rows::specs::Table::operations))]
fn environment(fixed: u32) -> Option<Op>
    ensures { result ≡ operation_among 0x7f 0x73 0xffffffff fixed }
{
    let op = match fixed {
        0x0073 => ScalarOp::Ecall,
        0x0010_0073 => ScalarOp::Ebreak,
        _ => return None,
    };
    Some(Op::Scalar(op))
}
