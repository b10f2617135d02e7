ghost use Rattle.std.specs.Prelude.{IsTrue, ◌≡◌, pos, ◌*◌, ◌-ℤ◌};
ghost use Rattle.vx_base.specs.Numbers.{reduced};
ghost use Rattle.vx_bits.specs.Width.{is_width};

use vx_bits::low;

/// A number from which a product is taken.
#[inline(always)]
pub(crate) fn less_product(width: u32, x: u64, y: u64, a: u64) -> u64
    requires { IsTrue (is_width width) }
    ensures { result ≡ reduced width (pos a -ℤ pos (x * y)) }
{
    low(width, a.wrapping_sub(x.wrapping_mul(y)))
}
