ghost use Rattle.std.specs.Prelude.{◌≡◌, ◌<◌, ◌^◌};
ghost use Rattle.vx_base.specs.Numbers.{reduced, truth};
ghost use Rattle.vx_bits.specs.Arithmetic.{sum_at};
ghost use Rattle.vx_flat.specs.Scalar.{extended, is_less, next_pc};

/// An immediate as a number of 64 bits.
pub fn number(imm: i64) -> u64
    ensures { result ≡ reduced 64 imm }
{
    imm.cast_unsigned()
}

/// A number of 32 bits, sign-extended.
pub fn extend(n: u64) -> u64
    requires { n < 2 ^ 32 }
    ensures { result ≡ extended n }
{
    i64::from((n as u32).cast_signed()).cast_unsigned()
}

/// The sum of two numbers.
pub fn sum(a: u64, b: u64) -> u64
    ensures { result ≡ sum_at 64 a b }
{
    a.wrapping_add(b)
}

/// The pc of the instruction that follows.
pub fn next(pc: u64) -> u64
    ensures { result ≡ next_pc pc }
{
    pc.wrapping_add(4)
}

/// Whether `a` is less than `b`, as signed numbers.
pub fn is_less(a: u64, b: u64) -> bool
    ensures { result ≡ is_less a b }
{
    a.cast_signed() < b.cast_signed()
}

/// 1 where a comparison holds, else 0.
pub fn truth(holds: bool) -> u64
    ensures { result ≡ truth holds }
{
    u64::from(holds)
}
