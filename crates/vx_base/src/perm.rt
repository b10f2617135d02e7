ghost use Rattle.std.specs.Prelude.{⊤, ◌≡◌, ◌==◌, [], ◌∷◌, codes};
ghost use Rattle.vx_base.specs.Permissions.{grants};

use crate::machine::Want;
use bitflags::{Flag, Flags};

/// The permissions of a page, a set: `R` 4, `W` 2 and `X` 1.
#[derive(Clone, Copy, PartialEq, Eq, Debug)]
pub struct Perm {
    pub bits: u8,
}

impl Perm {
    /// May be read.
    pub const R: Perm = Perm { bits: 4 };
    /// May be written.
    pub const W: Perm = Perm { bits: 2 };
    /// May be executed.
    pub const X: Perm = Perm { bits: 1 };
}

/// The three permissions by name.
static FLAGS: [Flag<Perm>; 3] = [
    Flag {
        name: "R",
        value: Perm { bits: 4 },
    },
    Flag {
        name: "W",
        value: Perm { bits: 2 },
    },
    Flag {
        name: "X",
        value: Perm { bits: 1 },
    },
];

impl Flags for Perm {
    type Bits = u8;

    ghost exact = { ⊤ };

    ghost table = { (codes "R", 4) ∷ (codes "W", 2) ∷ (codes "X", 1) ∷ [] };

    ghost set_of = { λ p. p.bits };

    fn flags<'a>() -> &'a [Flag<Perm>] {
        &FLAGS
    }

    fn bits(&self) -> u8 {
        self.bits
    }

    fn from_bits_retain(bits: u8) -> Perm {
        Perm { bits }
    }
}

impl Perm {
    /// Whether an access of this kind is let through.
    pub fn grants(self, want: Want) -> bool
        ensures { result ≡ grants self.bits want }
    {
        match want {
            Want::Fetch => self.bits & 1 == 1,
            Want::Load => self.bits & 4 == 4,
            Want::Store => self.bits & 2 == 2,
        }
    }
}

/// A mapped page: its number, which is its address divided by 4,096, and its permissions.
#[derive(Clone, Copy, PartialEq, Eq, Debug)]
pub struct PageEntry {
    pub page: u64,
    pub perm: Perm,
}
