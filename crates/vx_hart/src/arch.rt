ghost use Rattle.std.specs.Prelude.{◌≡◌, ◌%◌};

use vx_scalar::Regs;
use vx_vstate::VState;

/// What an instruction sees of the processor: its registers, the pc, which is a multiple of 4, and the vector state.
#[derive(Debug, Drop)]
pub struct Arch {
    pub regs: Regs,
    pub pc: u64,
    pub v: VState,
    ghost aligned: { pc % 4 ≡ 0 },
}
