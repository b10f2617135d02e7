ghost use Rattle.std.specs.Prelude.{◌≡◌, ◌<◌};
ghost use Rattle.vx_bits.specs.Rounding.{rounds_up, rounded};

use crate::reading::reduce;

/// Whether a shift of `v` right by `by` bits is rounded up.
fn is_rounded_up(v: i128, by: u32, vxrm: u8) -> bool
    requires shift { by < 64 }
    requires mode { vxrm < 4 }
    ensures { result ≡ rounds_up v by vxrm }
{
    if by == 0 {
        return false;
    }
    let lost = reduce(by, v);
    let half = 1 << (by - 1);
    let is_odd = reduce(by + 1, v) >> by == 1;
    match vxrm {
        0 => lost >= half,
        1 => lost > half || lost == half && is_odd,
        2 => false,
        _ => !is_odd && lost != 0,
    }
}

/// `v` shifted right by `by` bits and rounded in the mode `vxrm`: 0 to nearest with ties up, 1 to nearest with ties to
/// even, 2 down, 3 to odd (RISC-V "V" 1.0, section 3.8).
pub fn round(v: i128, by: u32, vxrm: u8) -> i128
    requires shift { by < 64 }
    requires mode { vxrm < 4 }
    ensures { result ≡ rounded v by vxrm }
{
    (v >> by) + is_rounded_up(v, by, vxrm) as i128
}
