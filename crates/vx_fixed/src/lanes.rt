ghost use Rattle.std.specs.Prelude.{IsTrue, ◌≡◌, ◌*◌, ◌<◌, ◌≤◌};
ghost use Rattle.vx_bits.specs.Width.{is_width};
ghost use Rattle.vx_fixed.specs.Kinds.{is_even_family};
ghost use Rattle.vx_operands.specs.Lanes.{answer, numbers_of};
ghost use Rattle.vx_operands.specs.Parts.{narrow_packing};
ghost use Rattle.vx_packed.specs.Made.{even_packing, made};
ghost use Rattle.vx_rows.specs.declared.family.Family.TheVariants.{Vnclip, Vnclipu};

use crate::numbers::{
    average, clipped, fraction_product, half_difference, scaled, signed_average, signed_clipped,
    signed_half_difference, signed_scaled,
};
use vx_bits::{sadd_at, saddu_at, ssub_at, ssubu_at};
use vx_operands::{make_narrow, plain};
use vx_packed::{Made, Sources, make_even};
use vx_rows::Family;

/// The new elements of a family whose operands all have elements of SEW.
#[inline(always)]
pub(crate) fn lanes(family: Family, sew: u32, vxrm: u8, from: Sources) -> Made
    requires kind { IsTrue (is_even_family family) }
    requires width { IsTrue (is_width sew) }
    requires mode { vxrm < 4 }
    ensures { result ≡ made (even_packing sew) from (λ l. answer family (numbers_of sew vxrm l)) }
{
    match family {
        Family::Vsaddu => make_even(sew, from, |l| saddu_at(sew, l.a, l.b)),
        Family::Vsadd => make_even(sew, from, |l| sadd_at(sew, l.a, l.b)),
        Family::Vssubu => make_even(sew, from, |l| ssubu_at(sew, l.a, l.b)),
        Family::Vssub => make_even(sew, from, |l| ssub_at(sew, l.a, l.b)),
        Family::Vaaddu => make_even(sew, from, |l| plain(average(sew, l.a, l.b, vxrm))),
        Family::Vaadd => make_even(sew, from, |l| plain(signed_average(sew, l.a, l.b, vxrm))),
        Family::Vasubu => make_even(sew, from, |l| plain(half_difference(sew, l.a, l.b, vxrm))),
        Family::Vasub => make_even(
            sew,
            from,
            |l| plain(signed_half_difference(sew, l.a, l.b, vxrm)),
        ),
        Family::Vsmul => make_even(sew, from, |l| fraction_product(sew, l.a, l.b, vxrm)),
        Family::Vssrl => make_even(sew, from, |l| plain(scaled(sew, l.a, l.b, vxrm))),
        Family::Vssra => make_even(sew, from, |l| plain(signed_scaled(sew, l.a, l.b, vxrm))),
        _ => unreachable!(),
    }
}

/// Clips of unsigned numbers.
#[inline(always)]
pub(crate) fn clipped_lanes(sew: u32, vxrm: u8, from: Sources) -> Made
    requires width { IsTrue (is_width sew) }
    requires small { sew ≤ 32 }
    requires wide { IsTrue (is_width (2 * sew)) }
    requires mode { vxrm < 4 }
    ensures { result ≡ made (narrow_packing sew) from (λ l. answer Vnclipu (numbers_of sew vxrm l)) }
{
    make_narrow(sew, from, |l| clipped(sew, l.a, l.b, vxrm))
}

/// Clips of signed numbers.
#[inline(always)]
pub(crate) fn signed_clipped_lanes(sew: u32, vxrm: u8, from: Sources) -> Made
    requires width { IsTrue (is_width sew) }
    requires small { sew ≤ 32 }
    requires wide { IsTrue (is_width (2 * sew)) }
    requires mode { vxrm < 4 }
    ensures { result ≡ made (narrow_packing sew) from (λ l. answer Vnclip (numbers_of sew vxrm l)) }
{
    make_narrow(sew, from, |l| signed_clipped(sew, l.a, l.b, vxrm))
}
