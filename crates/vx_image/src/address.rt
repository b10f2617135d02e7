ghost use Rattle.std.specs.Prelude.{◌≡◌, ◌==◌, ◌<◌, ◌-◌, ◌%◌, min};
ghost use Rattle.vx_image.specs.Pages.{is_canonical};

use crate::build::PAGE_BYTES;

/// Whether bits 63 to 39 of an address equal bit 38.
#[inline(always)]
pub fn is_canonical(address: u64) -> bool
    ensures { result ≡ is_canonical address }
{
    let above = address >> 38;
    above == 0 || above == (1 << 26) - 1
}

/// Whether an address is a multiple of the width of an access.
#[inline(always)]
pub fn is_aligned(address: u64, width: u64) -> bool
    requires { 0 < width }
    ensures { result ≡ (address % width == 0) }
{
    match width {
        1 => true,
        2 => address % 2 == 0,
        4 => address % 4 == 0,
        8 => address % 8 == 0,
        _ => address % width == 0,
    }
}

/// How many of so many bytes from an address on lie on its page.
#[inline(always)]
pub fn count_on_page(address: u64, count: u64) -> u64
    ensures { result ≡ min count (4096 - address % 4096) }
{
    count.min(PAGE_BYTES - address % PAGE_BYTES)
}
