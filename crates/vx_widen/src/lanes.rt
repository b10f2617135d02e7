ghost use Rattle.std.specs.Prelude.{IsTrue, true, false, ◌≡◌, ◌*◌, ◌≤◌};
ghost use Rattle.vx_bits.specs.Width.{is_width};
ghost use Rattle.vx_operands.specs.Lanes.{answer, numbers_of};
ghost use Rattle.vx_operands.specs.Parts.{doubled_packing, narrow_packing};
ghost use Rattle.vx_packed.specs.Made.{even_packing, made};
ghost use Rattle.vx_rows.specs.declared.family.Family.TheVariants.{Vnsra, Vnsrl};
ghost use Rattle.vx_widen.specs.Kinds.{carries, doubles, extends};

use crate::numbers::{
    difference, difference_and_borrow, difference_with_signed, mixed_product, mixed_product_and,
    shifted, sign_shifted, signed_difference, signed_product, signed_product_and, signed_sum, sum,
    sum_and_carry, sum_with_signed,
};
use vx_operands::{make_doubled, make_narrow, plain, product_and};
use vx_packed::{Made, Sources, make_even};
use vx_rows::Family;

/// Sums and differences with carries and borrows.
#[inline(always)]
pub(crate) fn carried(family: Family, sew: u32, from: Sources) -> Made
    requires kind { IsTrue (carries family) }
    requires width { IsTrue (is_width sew) }
    ensures { result ≡ made (even_packing sew) from (λ l. answer family (numbers_of sew 0 l)) }
{
    match family {
        Family::Vadc => make_even(sew, from, |l| plain(sum_and_carry(sew, l.a, l.b, l.m))),
        Family::Vsbc => make_even(
            sew,
            from,
            |l| plain(difference_and_borrow(sew, l.a, l.b, l.m)),
        ),
        _ => unreachable!(),
    }
}

/// Sums, differences and products at twice SEW.
#[inline(always)]
pub(crate) fn doubled(family: Family, sew: u32, from: Sources) -> Made
    requires kind { IsTrue (doubles family) }
    requires width { IsTrue (is_width sew) }
    requires small { sew ≤ 32 }
    requires wide { IsTrue (is_width (2 * sew)) }
    ensures { result ≡ made (doubled_packing sew false) from (λ l. answer family (numbers_of sew 0 l)) }
{
    match family {
        Family::Vwaddu => make_doubled(sew, false, from, |l| plain(sum(2 * sew, l.a, l.b))),
        Family::Vwadd => make_doubled(
            sew,
            false,
            from,
            |l| plain(signed_sum(sew, 2 * sew, l.a, l.b)),
        ),
        Family::Vwsubu => make_doubled(sew, false, from, |l| plain(difference(2 * sew, l.a, l.b))),
        Family::Vwsub => make_doubled(
            sew,
            false,
            from,
            |l| plain(signed_difference(sew, 2 * sew, l.a, l.b)),
        ),
        Family::Vwmulu => make_doubled(
            sew,
            false,
            from,
            |l| plain(product_and(2 * sew, l.a, l.b, 0)),
        ),
        Family::Vwmulsu => make_doubled(
            sew,
            false,
            from,
            |l| plain(mixed_product(sew, 2 * sew, l.a, l.b)),
        ),
        Family::Vwmul => make_doubled(
            sew,
            false,
            from,
            |l| plain(signed_product(sew, 2 * sew, l.a, l.b)),
        ),
        Family::Vwmaccu => make_doubled(
            sew,
            false,
            from,
            |l| plain(product_and(2 * sew, l.b, l.a, l.d)),
        ),
        Family::Vwmacc => make_doubled(
            sew,
            false,
            from,
            |l| plain(signed_product_and(sew, 2 * sew, l.b, l.a, l.d)),
        ),
        Family::Vwmaccus => make_doubled(
            sew,
            false,
            from,
            |l| plain(mixed_product_and(sew, 2 * sew, l.a, l.b, l.d)),
        ),
        Family::Vwmaccsu => make_doubled(
            sew,
            false,
            from,
            |l| plain(mixed_product_and(sew, 2 * sew, l.b, l.a, l.d)),
        ),
        _ => unreachable!(),
    }
}

/// Sums and differences at twice SEW, where `vs2` is as wide.
#[inline(always)]
pub(crate) fn extended(family: Family, sew: u32, from: Sources) -> Made
    requires kind { IsTrue (extends family) }
    requires width { IsTrue (is_width sew) }
    requires small { sew ≤ 32 }
    requires wide { IsTrue (is_width (2 * sew)) }
    ensures { result ≡ made (doubled_packing sew true) from (λ l. answer family (numbers_of sew 0 l)) }
{
    match family {
        Family::VwadduW => make_doubled(sew, true, from, |l| plain(sum(2 * sew, l.a, l.b))),
        Family::VwaddW => make_doubled(
            sew,
            true,
            from,
            |l| plain(sum_with_signed(sew, 2 * sew, l.a, l.b)),
        ),
        Family::VwsubuW => make_doubled(sew, true, from, |l| plain(difference(2 * sew, l.a, l.b))),
        Family::VwsubW => make_doubled(
            sew,
            true,
            from,
            |l| plain(difference_with_signed(sew, 2 * sew, l.a, l.b)),
        ),
        _ => unreachable!(),
    }
}

/// Shifts right that narrow.
#[inline(always)]
pub(crate) fn shifted_right(sew: u32, from: Sources) -> Made
    requires width { IsTrue (is_width sew) }
    requires small { sew ≤ 32 }
    requires wide { IsTrue (is_width (2 * sew)) }
    ensures { result ≡ made (narrow_packing sew) from (λ l. answer Vnsrl (numbers_of sew 0 l)) }
{
    make_narrow(sew, from, |l| plain(shifted(sew, l.a, l.b)))
}

/// Shifts right that narrow, with copies of the sign coming in.
#[inline(always)]
pub(crate) fn sign_shifted_right(sew: u32, from: Sources) -> Made
    requires width { IsTrue (is_width sew) }
    requires small { sew ≤ 32 }
    requires wide { IsTrue (is_width (2 * sew)) }
    ensures { result ≡ made (narrow_packing sew) from (λ l. answer Vnsra (numbers_of sew 0 l)) }
{
    make_narrow(sew, from, |l| plain(sign_shifted(sew, l.a, l.b)))
}
