//! Arithmetic at a width of 8, 16, 32 or 64 bits, as registers and elements do it (RISC-V Unprivileged ISA 20191213,
//! section 2.4 and chapter 7; RISC-V "V" 1.0, chapters 11 and 12).
//!
//! It stands on `vx_base`, for what it is to reduce a whole number to a width and to read it as a signed one. To the
//! crates above it gives each operation as its definition over the whole numbers: an operand is any `u64`, of which
//! the low bits of the width count, and an answer lies below two to the power of the width.
#![tactic(auto)]

mod arithmetic;
mod reading;
mod rounding;
mod saturation;
mod shifts;

pub use arithmetic::{
    add_at, div_at, divu_at, mul_at, mulh_at, mulhsu_at, mulhu_at, rem_at, remu_at, sub_at,
};
pub use reading::{low, reduce, signed_reading};
pub use rounding::round;
pub use saturation::{Sat, fit_at, sadd_at, saddu_at, ssub_at, ssubu_at};
pub use shifts::{sll_at, sra_at, srl_at};
