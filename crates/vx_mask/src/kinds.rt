ghost use Rattle.std.specs.Prelude.{◌≡◌};
ghost use Rattle.vx_mask.specs.Kinds.{is_logic, is_span, is_even_reduction, is_wide_reduction};

use vx_rows::Family;

/// Whether a family is one of mask logic.
#[inline(always)]
pub(crate) fn is_logic(family: Family) -> bool
    ensures { result ≡ is_logic family }
{
    match family {
        Family::Vmandn
        | Family::Vmand
        | Family::Vmor
        | Family::Vmxor
        | Family::Vmorn
        | Family::Vmnand
        | Family::Vmnor
        | Family::Vmxnor => true,
        _ => false,
    }
}

/// Whether a family sets bits by the first mark.
#[inline(always)]
pub(crate) fn is_span(family: Family) -> bool
    ensures { result ≡ is_span family }
{
    match family {
        Family::Vmsbf | Family::Vmsof | Family::Vmsif => true,
        _ => false,
    }
}

/// Whether a family is a reduction at SEW.
#[inline(always)]
pub(crate) fn is_even_reduction(family: Family) -> bool
    ensures { result ≡ is_even_reduction family }
{
    match family {
        Family::Vredsum
        | Family::Vredand
        | Family::Vredor
        | Family::Vredxor
        | Family::Vredminu
        | Family::Vredmin
        | Family::Vredmaxu
        | Family::Vredmax => true,
        _ => false,
    }
}

/// Whether a family is a reduction at twice SEW.
#[inline(always)]
pub(crate) fn is_wide_reduction(family: Family) -> bool
    ensures { result ≡ is_wide_reduction family }
{
    match family {
        Family::Vwredsumu | Family::Vwredsum => true,
        _ => false,
    }
}
