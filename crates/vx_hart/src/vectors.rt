//! What instructions do to the vector state, and what vector arithmetic puts into an integer register.

ghost use Rattle.std.specs.Prelude.{◌≡◌, ◌<◌, ℕ, None, option_map};
ghost use Rattle.vx_flat.specs.Configure.{length_asked};
ghost use Rattle.vx_flat.specs.Control.{changed, exchange, writes};
ghost use Rattle.vx_flat.specs.Vectors.{with_told};

use vx_flat::{Change, Source};
use vx_scalar::Regs;
use vx_vstate::{Avl, VState};

/// What is written to a control register, of its old value and of the operand.
fn changed(change: Change, old: u64, operand: u64) -> u64
    ensures { result ≡ changed change old operand }
{
    match change {
        Change::Replace => operand,
        Change::SetBits => old | operand,
        Change::ClearBits => old & !operand,
    }
}

/// Whether anything is written to a control register: no bits are set or cleared where the field `rs1` is 0.
pub fn writes(change: Change, rs1: u8) -> bool
    ensures { result ≡ writes change rs1 }
{
    match change {
        Change::Replace => true,
        Change::SetBits | Change::ClearBits => rs1 != 0,
    }
}

/// Changes the control register of a number, and answers what it held (RISC-V Unprivileged ISA 20191213, section 9.1). `None`
/// exactly where there is no such register, or it would be written and can only be read; then nothing changes.
pub fn exchange(v: &mut VState, number: u32, change: Change, rs1: u8, operand: u64) -> Option<u64>
    ensures exchanged { exchange v.old number change rs1 operand ≡ option_map (λ (read : ℕ). record { read = read; state = v.new }) result }
    ensures unchanged { result ≡ None → v.new ≡ v.old }
{
    let old = v.csr_read(number)?;
    if writes(change, rs1) && !v.csr_write(number, changed(change, old, operand)) {
        return None;
    }
    Some(old)
}

/// The application's length, of the fields `rd` and `rs1` and of the operand in the place of `rs1` (RISC-V "V" 1.0, section
/// 6.2).
pub fn length_asked(source: Source, rd: u8, rs1: u8, operand: u64) -> Avl
    ensures { result ≡ length_asked source rd rs1 operand }
{
    match source {
        Source::Immediate => Avl::Value(operand),
        Source::Register => {
            if rs1 != 0 {
                Avl::Value(operand)
            } else if rd != 0 {
                Avl::Max
            } else {
                Avl::Keep
            }
        }
    }
}

/// Puts into the register `rd` what it is told, where it is told something.
pub fn put_told(regs: &mut Regs, rd: u8, told: Option<u64>)
    requires { rd < 32 }
    ensures { regs.new.x ≡ with_told regs.old.x rd told }
{
    if let Some(value) = told {
        regs.write(rd, value);
    }
}
