ghost use Rattle.std.specs.Prelude.{◌≡◌};
ghost use Rattle.vx_elem.specs.Kinds.{is_sum, is_bitwise, is_product, is_quotient, is_plain};

use vx_rows::Family;

/// Whether a family is one of sums, differences, and the lesser or greater of two.
#[inline(always)]
pub(crate) fn is_sum(family: Family) -> bool
    ensures { result ≡ is_sum family }
{
    match family {
        Family::Vadd
        | Family::Vsub
        | Family::Vrsub
        | Family::Vminu
        | Family::Vmin
        | Family::Vmaxu
        | Family::Vmax => true,
        _ => false,
    }
}

/// Whether a family is one of bits, shifts and merges.
#[inline(always)]
pub(crate) fn is_bitwise(family: Family) -> bool
    ensures { result ≡ is_bitwise family }
{
    match family {
        Family::Vand
        | Family::Vor
        | Family::Vxor
        | Family::Vmerge
        | Family::Vsll
        | Family::Vsrl
        | Family::Vsra => true,
        _ => false,
    }
}

/// Whether a family is one of products.
#[inline(always)]
pub(crate) fn is_product(family: Family) -> bool
    ensures { result ≡ is_product family }
{
    match family {
        Family::Vmul
        | Family::Vmulh
        | Family::Vmulhu
        | Family::Vmulhsu
        | Family::Vmadd
        | Family::Vnmsub
        | Family::Vmacc
        | Family::Vnmsac => true,
        _ => false,
    }
}

/// Whether a family is one of quotients and remainders.
#[inline(always)]
pub(crate) fn is_quotient(family: Family) -> bool
    ensures { result ≡ is_quotient family }
{
    match family {
        Family::Vdivu | Family::Vdiv | Family::Vremu | Family::Vrem => true,
        _ => false,
    }
}

/// Whether all operands of a family have elements of SEW.
#[inline(always)]
pub(crate) fn is_plain(family: Family) -> bool
    ensures { result ≡ is_plain family }
{
    is_sum(family) || is_bitwise(family) || is_product(family) || is_quotient(family)
}
