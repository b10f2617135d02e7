ghost use Rattle.std.specs.Prelude.{◌≡◌, bit_and};
ghost use Rattle.vx_decode.specs.Lookup.{operation_of, operation_among};

use vx_rows::{MemoryOp, Op, fits_one_at_most};

/// The vector loads (RISC-V "V" 1.0, section 7).
pub(crate) fn vector_loads(word: u32) -> Option<Op>
    requires { bit_and word 0x7f ≡ 0x7 }
    ensures { result ≡ operation_of word }
{
    fits_one_at_most();
    if let Some(op) = unit_loads(word & 0x1df0_707f) {
        return Some(op);
    }
    if let Some(op) = register_loads(word & 0x1c00_707f) {
        return Some(op);
    }
    whole_loads(word & 0xfff0_707f)
}

/// The vector stores (RISC-V "V" 1.0, section 7).
pub(crate) fn vector_stores(word: u32) -> Option<Op>
    requires { bit_and word 0x7f ≡ 0x27 }
    ensures { result ≡ operation_of word }
{
    fits_one_at_most();
    if let Some(op) = unit_stores(word & 0x1df0_707f) {
        return Some(op);
    }
    if let Some(op) = register_stores(word & 0x1c00_707f) {
        return Some(op);
    }
    whole_stores(word & 0xfff0_707f)
}

/// The loads of elements one behind another.
#[tactic(auto, unfolding(vx_rows::specs::Table::operations))]
fn unit_loads(fixed: u32) -> Option<Op>
    ensures { result ≡ operation_among 0x7f 0x7 0x1df0707f fixed }
{
    let op = match fixed {
        0x0000_0007 => Op::Memory(MemoryOp::Vle8),
        0x0000_5007 => Op::Memory(MemoryOp::Vle16),
        0x0000_6007 => Op::Memory(MemoryOp::Vle32),
        0x0000_7007 => Op::Memory(MemoryOp::Vle64),
        0x0100_0007 => Op::Memory(MemoryOp::Vle8ff),
        0x0100_5007 => Op::Memory(MemoryOp::Vle16ff),
        0x0100_6007 => Op::Memory(MemoryOp::Vle32ff),
        0x0100_7007 => Op::Memory(MemoryOp::Vle64ff),
        _ => return None,
    };
    Some(op)
}

/// The loads with a stride or with indices.
#[tactic(auto, unfolding(vx_rows::specs::Table::operations))]
fn register_loads(fixed: u32) -> Option<Op>
    ensures { result ≡ operation_among 0x7f 0x7 0x1c00707f fixed }
{
    let op = match fixed {
        0x0400_0007 => Op::Memory(MemoryOp::Vluxei8),
        0x0400_5007 => Op::Memory(MemoryOp::Vluxei16),
        0x0400_6007 => Op::Memory(MemoryOp::Vluxei32),
        0x0400_7007 => Op::Memory(MemoryOp::Vluxei64),
        0x0800_0007 => Op::Memory(MemoryOp::Vlse8),
        0x0800_5007 => Op::Memory(MemoryOp::Vlse16),
        0x0800_6007 => Op::Memory(MemoryOp::Vlse32),
        0x0800_7007 => Op::Memory(MemoryOp::Vlse64),
        0x0c00_0007 => Op::Memory(MemoryOp::Vloxei8),
        0x0c00_5007 => Op::Memory(MemoryOp::Vloxei16),
        0x0c00_6007 => Op::Memory(MemoryOp::Vloxei32),
        0x0c00_7007 => Op::Memory(MemoryOp::Vloxei64),
        _ => return None,
    };
    Some(op)
}

/// The loads of whole registers and of masks.
#[tactic(auto, unfolding(vx_rows::specs::Table::operations))]
fn whole_loads(fixed: u32) -> Option<Op>
    ensures { result ≡ operation_among 0x7f 0x7 0xfff0707f fixed }
{
    let op = match fixed {
        0x0280_0007 | 0x2280_0007 | 0x6280_0007 | 0xe280_0007 => Op::Memory(MemoryOp::Vlre8),
        0x0280_5007 | 0x2280_5007 | 0x6280_5007 | 0xe280_5007 => Op::Memory(MemoryOp::Vlre16),
        0x0280_6007 | 0x2280_6007 | 0x6280_6007 | 0xe280_6007 => Op::Memory(MemoryOp::Vlre32),
        0x0280_7007 | 0x2280_7007 | 0x6280_7007 | 0xe280_7007 => Op::Memory(MemoryOp::Vlre64),
        0x02b0_0007 => Op::Memory(MemoryOp::Vlm),
        _ => return None,
    };
    Some(op)
}

/// The stores of elements one behind another.
#[tactic(auto, unfolding(vx_rows::specs::Table::operations))]
fn unit_stores(fixed: u32) -> Option<Op>
    ensures { result ≡ operation_among 0x7f 0x27 0x1df0707f fixed }
{
    let op = match fixed {
        0x0000_0027 => Op::Memory(MemoryOp::Vse8),
        0x0000_5027 => Op::Memory(MemoryOp::Vse16),
        0x0000_6027 => Op::Memory(MemoryOp::Vse32),
        0x0000_7027 => Op::Memory(MemoryOp::Vse64),
        _ => return None,
    };
    Some(op)
}

/// The stores with a stride or with indices.
#[tactic(auto, unfolding(vx_rows::specs::Table::operations))]
fn register_stores(fixed: u32) -> Option<Op>
    ensures { result ≡ operation_among 0x7f 0x27 0x1c00707f fixed }
{
    let op = match fixed {
        0x0400_0027 => Op::Memory(MemoryOp::Vsuxei8),
        0x0400_5027 => Op::Memory(MemoryOp::Vsuxei16),
        0x0400_6027 => Op::Memory(MemoryOp::Vsuxei32),
        0x0400_7027 => Op::Memory(MemoryOp::Vsuxei64),
        0x0800_0027 => Op::Memory(MemoryOp::Vsse8),
        0x0800_5027 => Op::Memory(MemoryOp::Vsse16),
        0x0800_6027 => Op::Memory(MemoryOp::Vsse32),
        0x0800_7027 => Op::Memory(MemoryOp::Vsse64),
        0x0c00_0027 => Op::Memory(MemoryOp::Vsoxei8),
        0x0c00_5027 => Op::Memory(MemoryOp::Vsoxei16),
        0x0c00_6027 => Op::Memory(MemoryOp::Vsoxei32),
        0x0c00_7027 => Op::Memory(MemoryOp::Vsoxei64),
        _ => return None,
    };
    Some(op)
}

/// The stores of whole registers and of masks.
#[tactic(auto, unfolding(vx_rows::specs::Table::operations))]
fn whole_stores(fixed: u32) -> Option<Op>
    ensures { result ≡ operation_among 0x7f 0x27 0xfff0707f fixed }
{
    let op = match fixed {
        0x0280_0027 | 0x2280_0027 | 0x6280_0027 | 0xe280_0027 => Op::Memory(MemoryOp::Vsr),
        0x02b0_0027 => Op::Memory(MemoryOp::Vsm),
        _ => return None,
    };
    Some(op)
}
