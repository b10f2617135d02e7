ghost use Rattle.std.specs.Prelude.{◌≡◌, IsTrue};
ghost use Rattle.vx_flat.specs.Access.{access_width, loaded};
ghost use Rattle.vx_scalar.specs.Operands.{is_access_width};

use vx_rows::{Op, ScalarOp};

/// How many bytes a load or a store moves; 1 of any other operation.
#[inline(always)]
pub fn access_width(op: Op) -> u64
    ensures value { result ≡ access_width op }
    ensures width { IsTrue (is_access_width result) }
{
    match op {
        Op::Scalar(ScalarOp::Lh | ScalarOp::Lhu | ScalarOp::Sh) => 2,
        Op::Scalar(ScalarOp::Lw | ScalarOp::Lwu | ScalarOp::Sw) => 4,
        Op::Scalar(ScalarOp::Ld | ScalarOp::Sd) => 8,
        _ => 1,
    }
}

/// The value that a load puts into `rd`, of the number that its bytes are, least first.
#[inline(always)]
pub fn loaded(op: Op, n: u64) -> u64
    ensures { result ≡ loaded op n }
{
    match op {
        Op::Scalar(ScalarOp::Lb) => i64::from(((n % 0x100) as u8).cast_signed()).cast_unsigned(),
        Op::Scalar(ScalarOp::Lh) => i64::from(
            ((n % 0x1_0000) as u16).cast_signed(),
        ).cast_unsigned(),
        Op::Scalar(ScalarOp::Lw) => i64::from(
            ((n % 0x1_0000_0000) as u32).cast_signed(),
        ).cast_unsigned(),
        _ => n,
    }
}
