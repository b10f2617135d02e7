ghost use Rattle.std.specs.Prelude.{◌≡◌};
ghost use Rattle.vx_vstate.specs.Vtype.{vlmul, vsew, sew, lmul_eighths, is_accepted, is_same_ratio};

/// The vtype of a configuration that isn't supported: bit 63, vill, alone (RISC-V "V" 1.0, section 3.4.4).
pub const VILL: u64 = 0x8000_0000_0000_0000;

/// The field vlmul, bits 2:0.
fn vlmul(vtype: u64) -> u32
    ensures { result ≡ vlmul vtype }
{
    (vtype % 8) as u32
}

/// The field vsew, bits 5:3.
pub fn vsew(vtype: u64) -> u32
    ensures { result ≡ vsew vtype }
{
    (vtype / 8 % 8) as u32
}

/// SEW, the width of an element in bits.
pub fn sew(vtype: u64) -> u32
    ensures { result ≡ sew vtype }
{
    8 << vsew(vtype)
}

/// LMUL, the registers of a group, in eighths.
pub fn lmul_eighths(vtype: u64) -> u32
    ensures { result ≡ lmul_eighths vtype }
{
    let field = vlmul(vtype);
    if field < 4 {
        8 << field
    } else {
        1 << field.saturating_sub(5)
    }
}

/// Whether a vtype is accepted: no bit but those of its four fields is set, neither field is reserved, and SEW isn't
/// above 64 * LMUL (RISC-V "V" 1.0, section 3.4, for elements of 64 bits at the most).
pub fn is_accepted(vtype: u64) -> bool
    ensures { result ≡ is_accepted vtype }
{
    vtype < 256
        && vlmul(vtype) != 4
        && vsew(vtype) <= 3
        && 8 * sew(vtype) <= 64 * lmul_eighths(vtype)
}

/// Whether two vtypes have one ratio of SEW to LMUL.
pub fn is_same_ratio(a: u64, b: u64) -> bool
    ensures { result ≡ is_same_ratio a b }
{
    sew(a) * lmul_eighths(b) == sew(b) * lmul_eighths(a)
}
