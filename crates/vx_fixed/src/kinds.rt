ghost use Rattle.std.specs.Prelude.{◌≡◌};
ghost use Rattle.vx_fixed.specs.Kinds.{clips};

use vx_rows::Family;

/// Whether a family clips elements of twice SEW.
#[inline(always)]
pub(crate) fn clips(family: Family) -> bool
    ensures { result ≡ clips family }
{
    match family {
        Family::Vnclipu | Family::Vnclip => true,
        _ => false,
    }
}
