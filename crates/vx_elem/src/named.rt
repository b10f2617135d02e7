ghost use Rattle.std.specs.Prelude.{◌≡◌};
ghost use Rattle.vx_rows.specs.declared.family.Family.{Family};
ghost use Rattle.vx_rows.specs.declared.family.Family.TheVariants.{Vadd, Vsub, Vrsub, Vminu, Vmin, Vmaxu, Vmax, Vand, Vor, Vxor, Vsll, Vsrl, Vsra, Vmul, Vmadd, Vnmsub, Vmacc, Vnmsac};

use vx_rows::Family;

/// Names a family. Code that is generic over it has a copy of its own for each, in which the family is known.
pub(crate) trait Named {
    /// The family.
    ghost family: { Self → Family };

    fn family(&self) -> Family
        ensures { result ≡ family self.now };
}

/// Any family.
#[derive(Drop)]
pub(crate) struct Any {
    pub(crate) family: Family,
}

impl Named for Any {
    ghost family = { λ n. n.family };

    #[inline(always)]
    fn family(&self) -> Family {
        self.family
    }
}

/// Names `Vadd`.
#[derive(Drop)]
pub(crate) struct Add;

impl Named for Add {
    ghost family = { λ _. Vadd };

    #[inline(always)]
    fn family(&self) -> Family {
        Family::Vadd
    }
}

/// Names `Vsub`.
#[derive(Drop)]
pub(crate) struct Subtract;

impl Named for Subtract {
    ghost family = { λ _. Vsub };

    #[inline(always)]
    fn family(&self) -> Family {
        Family::Vsub
    }
}

/// Names `Vrsub`.
#[derive(Drop)]
pub(crate) struct ReverseSubtract;

impl Named for ReverseSubtract {
    ghost family = { λ _. Vrsub };

    #[inline(always)]
    fn family(&self) -> Family {
        Family::Vrsub
    }
}

/// Names `Vminu`.
#[derive(Drop)]
pub(crate) struct UnsignedMinimum;

impl Named for UnsignedMinimum {
    ghost family = { λ _. Vminu };

    #[inline(always)]
    fn family(&self) -> Family {
        Family::Vminu
    }
}

/// Names `Vmin`.
#[derive(Drop)]
pub(crate) struct Minimum;

impl Named for Minimum {
    ghost family = { λ _. Vmin };

    #[inline(always)]
    fn family(&self) -> Family {
        Family::Vmin
    }
}

/// Names `Vmaxu`.
#[derive(Drop)]
pub(crate) struct UnsignedMaximum;

impl Named for UnsignedMaximum {
    ghost family = { λ _. Vmaxu };

    #[inline(always)]
    fn family(&self) -> Family {
        Family::Vmaxu
    }
}

/// Names `Vmax`.
#[derive(Drop)]
pub(crate) struct Maximum;

impl Named for Maximum {
    ghost family = { λ _. Vmax };

    #[inline(always)]
    fn family(&self) -> Family {
        Family::Vmax
    }
}

/// Names `Vand`.
#[derive(Drop)]
pub(crate) struct And;

impl Named for And {
    ghost family = { λ _. Vand };

    #[inline(always)]
    fn family(&self) -> Family {
        Family::Vand
    }
}

/// Names `Vor`.
#[derive(Drop)]
pub(crate) struct Or;

impl Named for Or {
    ghost family = { λ _. Vor };

    #[inline(always)]
    fn family(&self) -> Family {
        Family::Vor
    }
}

/// Names `Vxor`.
#[derive(Drop)]
pub(crate) struct ExclusiveOr;

impl Named for ExclusiveOr {
    ghost family = { λ _. Vxor };

    #[inline(always)]
    fn family(&self) -> Family {
        Family::Vxor
    }
}

/// Names `Vsll`.
#[derive(Drop)]
pub(crate) struct ShiftLeft;

impl Named for ShiftLeft {
    ghost family = { λ _. Vsll };

    #[inline(always)]
    fn family(&self) -> Family {
        Family::Vsll
    }
}

/// Names `Vsrl`.
#[derive(Drop)]
pub(crate) struct ShiftRight;

impl Named for ShiftRight {
    ghost family = { λ _. Vsrl };

    #[inline(always)]
    fn family(&self) -> Family {
        Family::Vsrl
    }
}

/// Names `Vsra`.
#[derive(Drop)]
pub(crate) struct ShiftRightSigned;

impl Named for ShiftRightSigned {
    ghost family = { λ _. Vsra };

    #[inline(always)]
    fn family(&self) -> Family {
        Family::Vsra
    }
}

/// Names `Vmul`.
#[derive(Drop)]
pub(crate) struct Multiply;

impl Named for Multiply {
    ghost family = { λ _. Vmul };

    #[inline(always)]
    fn family(&self) -> Family {
        Family::Vmul
    }
}

/// Names `Vmadd`.
#[derive(Drop)]
pub(crate) struct MultiplyAdd;

impl Named for MultiplyAdd {
    ghost family = { λ _. Vmadd };

    #[inline(always)]
    fn family(&self) -> Family {
        Family::Vmadd
    }
}

/// Names `Vnmsub`.
#[derive(Drop)]
pub(crate) struct MultiplySubtract;

impl Named for MultiplySubtract {
    ghost family = { λ _. Vnmsub };

    #[inline(always)]
    fn family(&self) -> Family {
        Family::Vnmsub
    }
}

/// Names `Vmacc`.
#[derive(Drop)]
pub(crate) struct MultiplyAccumulate;

impl Named for MultiplyAccumulate {
    ghost family = { λ _. Vmacc };

    #[inline(always)]
    fn family(&self) -> Family {
        Family::Vmacc
    }
}

/// Names `Vnmsac`.
#[derive(Drop)]
pub(crate) struct MultiplyDecrease;

impl Named for MultiplyDecrease {
    ghost family = { λ _. Vnmsac };

    #[inline(always)]
    fn family(&self) -> Family {
        Family::Vnmsac
    }
}
