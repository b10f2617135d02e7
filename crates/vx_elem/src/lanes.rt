ghost use Rattle.std.specs.Prelude.{IsTrue, ◌≡◌};
ghost use Rattle.vx_bits.specs.Width.{is_width};
ghost use Rattle.vx_elem.specs.Kinds.{is_sum, is_bitwise, is_product, is_quotient, is_plain};
ghost use Rattle.vx_operands.specs.Lanes.{answer, numbers_of};
ghost use Rattle.vx_packed.specs.Made.{even_packing, made};

use crate::kinds::{is_bitwise, is_product, is_sum};
use crate::numbers::less_product;
use vx_bits::{
    add_at, div_at, divu_at, mul_at, mulh_at, mulhsu_at, mulhu_at, rem_at, remu_at, sll_at, sra_at,
    srl_at, sub_at,
};
use vx_operands::{greater, lesser, plain, product_and};
use vx_packed::{Made, Sources, make_even};
use vx_rows::Family;

/// Sums, differences, and the lesser or greater of two.
#[inline(always)]
fn sums(family: Family, sew: u32, from: Sources) -> Made
    requires kind { IsTrue (is_sum family) }
    requires width { IsTrue (is_width sew) }
    ensures { result ≡ made (even_packing sew) from (λ l. answer family (numbers_of sew 0 l)) }
{
    match family {
        Family::Vadd => make_even(sew, from, |l| plain(add_at(sew, l.a, l.b))),
        Family::Vsub => make_even(sew, from, |l| plain(sub_at(sew, l.a, l.b))),
        Family::Vrsub => make_even(sew, from, |l| plain(sub_at(sew, l.b, l.a))),
        Family::Vminu => make_even(sew, from, |l| plain(l.a.min(l.b))),
        Family::Vmin => make_even(sew, from, |l| plain(lesser(sew, l.a, l.b))),
        Family::Vmaxu => make_even(sew, from, |l| plain(l.a.max(l.b))),
        Family::Vmax => make_even(sew, from, |l| plain(greater(sew, l.a, l.b))),
        _ => unreachable!(),
    }
}

/// Bits, shifts and merges.
#[inline(always)]
fn bitwise(family: Family, sew: u32, from: Sources) -> Made
    requires kind { IsTrue (is_bitwise family) }
    requires width { IsTrue (is_width sew) }
    ensures { result ≡ made (even_packing sew) from (λ l. answer family (numbers_of sew 0 l)) }
{
    match family {
        Family::Vand => make_even(sew, from, |l| plain(l.a & l.b)),
        Family::Vor => make_even(sew, from, |l| plain(l.a | l.b)),
        Family::Vxor => make_even(sew, from, |l| plain(l.a ^ l.b)),
        Family::Vmerge => make_even(sew, from, |l| plain(if l.m { l.b } else { l.a })),
        Family::Vsll => make_even(sew, from, |l| plain(sll_at(sew, l.a, l.b))),
        Family::Vsrl => make_even(sew, from, |l| plain(srl_at(sew, l.a, l.b))),
        Family::Vsra => make_even(sew, from, |l| plain(sra_at(sew, l.a, l.b))),
        _ => unreachable!(),
    }
}

/// Products, and products added to or taken from another number.
#[inline(always)]
fn products(family: Family, sew: u32, from: Sources) -> Made
    requires kind { IsTrue (is_product family) }
    requires width { IsTrue (is_width sew) }
    ensures { result ≡ made (even_packing sew) from (λ l. answer family (numbers_of sew 0 l)) }
{
    match family {
        Family::Vmul => make_even(sew, from, |l| plain(mul_at(sew, l.a, l.b))),
        Family::Vmulh => make_even(sew, from, |l| plain(mulh_at(sew, l.a, l.b))),
        Family::Vmulhu => make_even(sew, from, |l| plain(mulhu_at(sew, l.a, l.b))),
        Family::Vmulhsu => make_even(sew, from, |l| plain(mulhsu_at(sew, l.a, l.b))),
        Family::Vmadd => make_even(sew, from, |l| plain(product_and(sew, l.b, l.d, l.a))),
        Family::Vnmsub => make_even(sew, from, |l| plain(less_product(sew, l.b, l.d, l.a))),
        Family::Vmacc => make_even(sew, from, |l| plain(product_and(sew, l.b, l.a, l.d))),
        Family::Vnmsac => make_even(sew, from, |l| plain(less_product(sew, l.b, l.a, l.d))),
        _ => unreachable!(),
    }
}

/// Quotients and remainders.
#[inline(always)]
fn quotients(family: Family, sew: u32, from: Sources) -> Made
    requires kind { IsTrue (is_quotient family) }
    requires width { IsTrue (is_width sew) }
    ensures { result ≡ made (even_packing sew) from (λ l. answer family (numbers_of sew 0 l)) }
{
    match family {
        Family::Vdivu => make_even(sew, from, |l| plain(divu_at(sew, l.a, l.b))),
        Family::Vdiv => make_even(sew, from, |l| plain(div_at(sew, l.a, l.b))),
        Family::Vremu => make_even(sew, from, |l| plain(remu_at(sew, l.a, l.b))),
        Family::Vrem => make_even(sew, from, |l| plain(rem_at(sew, l.a, l.b))),
        _ => unreachable!(),
    }
}

/// The new elements of a family whose operands all have elements of SEW.
#[inline(always)]
pub(crate) fn lanes(family: Family, sew: u32, from: Sources) -> Made
    requires kind { IsTrue (is_plain family) }
    requires width { IsTrue (is_width sew) }
    ensures { result ≡ made (even_packing sew) from (λ l. answer family (numbers_of sew 0 l)) }
{
    if is_sum(family) {
        sums(family, sew, from)
    } else if is_bitwise(family) {
        bitwise(family, sew, from)
    } else if is_product(family) {
        products(family, sew, from)
    } else {
        quotients(family, sew, from)
    }
}
