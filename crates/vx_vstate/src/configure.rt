ghost use Rattle.std.specs.Prelude.{◌≡◌, ◌≤◌, IsTrue};
ghost use Rattle.vx_base.specs.Options.{is_register_length};
ghost use Rattle.vx_vstate.specs.Vtype.{is_vtype, most_elements, vlmax};
ghost use Rattle.vx_vstate.specs.Configuration.{
  configured,
  is_lost,
  length_for,
};

use crate::avl::Avl;
use crate::vtype::{VILL, is_accepted, is_same_ratio, lmul_eighths, vsew};

/// A vl and a vtype.
#[derive(Clone, Copy)]
pub struct Configured {
    pub vl: u32,
    pub vtype: u64,
}

/// VLMAX, the elements of a group: LMUL * VLEN / SEW (RISC-V "V" 1.0, section 3.4.2).
pub fn vlmax(vlen: u32, vtype: u64) -> u32
    requires { IsTrue (is_register_length vlen) }
    ensures { result ≡ vlmax vlen vtype }
{
    (lmul_eighths(vtype) * vlen) >> (vsew(vtype) + 6)
}

/// Whether vl can't be kept under the wanted vtype.
fn is_lost(avl: Avl, old: u64, wanted: u64) -> bool
    ensures { result ≡ is_lost avl old wanted }
{
    match avl {
        Avl::Keep => old == VILL || !is_same_ratio(old, wanted),
        Avl::Value(_) | Avl::Max => false,
    }
}

/// vl under a vtype that is accepted and has this VLMAX.
fn length_for(avl: Avl, most: u32, old: u32) -> u32
    ensures { result ≡ length_for avl most old }
{
    match avl {
        Avl::Value(n) => n.min(u64::from(most)) as u32,
        Avl::Max => most,
        Avl::Keep => old,
    }
}

/// The configuration behind an old one, of an application's length and a wanted vtype (RISC-V "V" 1.0, section 6).
pub fn configure(vlen: u32, old: Configured, avl: Avl, wanted: u64) -> Configured
    requires vlen_in_range { IsTrue (is_register_length vlen) }
    requires vtype_in_range { IsTrue (is_vtype old.vtype) }
    requires vl_in_range { old.vl ≤ most_elements vlen old.vtype }
    ensures is { record { vl = result.vl; vtype = result.vtype } ≡ configured vlen (record { vl = old.vl; vtype = old.vtype }) avl wanted }
    ensures vtype_in_range { IsTrue (is_vtype result.vtype) }
    ensures vl_in_range { result.vl ≤ most_elements vlen result.vtype }
{
    if !is_accepted(wanted) || is_lost(avl, old.vtype, wanted) {
        return Configured { vl: 0, vtype: VILL };
    }
    let vl = length_for(avl, vlmax(vlen, wanted), old.vl);
    Configured { vl, vtype: wanted }
}
