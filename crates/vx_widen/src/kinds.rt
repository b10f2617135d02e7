ghost use Rattle.std.specs.Prelude.{◌≡◌};
ghost use Rattle.vx_decode.specs.Legal.{compares};
ghost use Rattle.vx_widen.specs.Kinds.{doubles, extends, narrows};

use vx_rows::Family;

/// Whether the results of a family are a mask's bits.
#[inline(always)]
pub(crate) fn compares(family: Family) -> bool
    ensures { result ≡ compares family }
{
    match family {
        Family::Vmadc
        | Family::Vmsbc
        | Family::Vmseq
        | Family::Vmsne
        | Family::Vmsltu
        | Family::Vmslt
        | Family::Vmsleu
        | Family::Vmsle
        | Family::Vmsgtu
        | Family::Vmsgt => true,
        _ => false,
    }
}

/// Whether a family shifts and narrows.
#[inline(always)]
pub(crate) fn narrows(family: Family) -> bool
    ensures { result ≡ narrows family }
{
    match family {
        Family::Vnsrl | Family::Vnsra => true,
        _ => false,
    }
}

/// Whether a family makes elements of twice SEW of elements of SEW.
#[inline(always)]
pub(crate) fn doubles(family: Family) -> bool
    ensures { result ≡ doubles family }
{
    match family {
        Family::Vwaddu
        | Family::Vwadd
        | Family::Vwsubu
        | Family::Vwsub
        | Family::Vwmulu
        | Family::Vwmulsu
        | Family::Vwmul
        | Family::Vwmaccu
        | Family::Vwmacc
        | Family::Vwmaccus
        | Family::Vwmaccsu => true,
        _ => false,
    }
}

/// Whether a family makes elements of twice SEW of elements of twice SEW and of SEW.
#[inline(always)]
pub(crate) fn extends(family: Family) -> bool
    ensures { result ≡ extends family }
{
    match family {
        Family::VwadduW | Family::VwaddW | Family::VwsubuW | Family::VwsubW => true,
        _ => false,
    }
}
