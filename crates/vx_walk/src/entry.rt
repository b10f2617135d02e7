ghost use Rattle.std.specs.Prelude.{⊤, ◌≡◌, ◌<◌, ◌^◌, false, [], ◌∷◌, codes};
ghost use Rattle.vx_tables.specs.Entries.{away_entry, frame_in, bits_in, is_pointer, permissions_in, lets, leaf_answer, leaf_touched, leaf_written, page_bits, page_entry};
ghost use Rattle.vx_tables.specs.Residency.{is_store, place_at_boot};

use bitflags::{Flag, Flags};
use vx_base::{Perm, Want};
use vx_tables::Walked;

/// The entry of a page that is mapped and in no frame: V is 0, and bit 8, one of those left to software, is set.
pub const AWAY: u64 = 0x100;

/// The eight low bits of a page-table entry (RISC-V Privileged 1.12, section 4.4.1), with the two that are left to software.
#[derive(Clone, Copy, PartialEq, Eq, Debug)]
pub struct EntryBits {
    pub bits: u16,
}

impl EntryBits {
    /// The entry counts.
    pub const V: EntryBits = EntryBits { bits: 1 };
    /// The page may be read.
    pub const R: EntryBits = EntryBits { bits: 2 };
    /// The page may be written.
    pub const W: EntryBits = EntryBits { bits: 4 };
    /// The page may be executed.
    pub const X: EntryBits = EntryBits { bits: 8 };
    /// A page of user mode that counts: V and U.
    pub const USER_PAGE: EntryBits = EntryBits { bits: 17 };
    /// The page was stored to.
    pub const D: EntryBits = EntryBits { bits: 128 };
}

/// The bits by name.
static FLAGS: [Flag<EntryBits>; 8] = [
    Flag {
        name: "V",
        value: EntryBits { bits: 1 },
    },
    Flag {
        name: "R",
        value: EntryBits { bits: 2 },
    },
    Flag {
        name: "W",
        value: EntryBits { bits: 4 },
    },
    Flag {
        name: "X",
        value: EntryBits { bits: 8 },
    },
    Flag {
        name: "U",
        value: EntryBits { bits: 16 },
    },
    Flag {
        name: "G",
        value: EntryBits { bits: 32 },
    },
    Flag {
        name: "A",
        value: EntryBits { bits: 64 },
    },
    Flag {
        name: "D",
        value: EntryBits { bits: 128 },
    },
];

impl Flags for EntryBits {
    type Bits = u16;

    ghost exact = { ⊤ };

    ghost table = { (codes "V", 1) ∷ (codes "R", 2) ∷ (codes "W", 4) ∷ (codes "X", 8) ∷ (codes "U", 16) ∷ (codes "G", 32) ∷ (codes "A", 64) ∷ (codes "D", 128) ∷ [] };

    ghost set_of = { λ b. b.bits };

    fn flags<'a>() -> &'a [Flag<EntryBits>] {
        &FLAGS
    }

    fn bits(&self) -> u16 {
        self.bits
    }

    fn from_bits_retain(bits: u16) -> EntryBits {
        EntryBits { bits }
    }
}

/// The ten low bits of an entry.
fn bits_of(value: u64) -> EntryBits
    ensures { result.bits ≡ bits_in value }
{
    EntryBits {
        bits: (value % 1024) as u16,
    }
}

/// Whether an entry leads to a table: V is set, and none of R, W and X.
pub fn is_pointer(value: u64) -> bool
    ensures { result ≡ is_pointer value }
{
    bits_of(value).bits & 15 == EntryBits::V.bits
}

/// The frame of an entry.
pub fn frame_of(value: u64) -> u32
    requires { frame_in value < 2 ^ 32 }
    ensures { result ≡ frame_in value }
{
    (value / 1024) as u32
}

/// The permissions that R, W and X give.
fn permissions(bits: EntryBits) -> Perm
    ensures { result.bits ≡ permissions_in bits.bits }
{
    let read = if bits.contains(EntryBits::R) { 4 } else { 0 };
    let write = if bits.contains(EntryBits::W) { 2 } else { 0 };
    let execute = if bits.contains(EntryBits::X) { 1 } else { 0 };
    Perm {
        bits: read + write + execute,
    }
}

/// Whether the bits of a leaf let an access of user mode through.
fn lets(bits: EntryBits, want: Want) -> bool
    ensures { result ≡ lets bits.bits want }
{
    bits.contains(EntryBits::USER_PAGE) && permissions(bits).grants(want)
}

/// Whether a store is wanted.
pub fn is_store(want: Want) -> bool
    ensures { result ≡ is_store want }
{
    matches!(want, Want::Store)
}

/// What a leaf says of an access.
pub fn leaf_answer(want: Want, value: u64) -> Walked
    requires { frame_in value < 2 ^ 32 }
    ensures { result ≡ leaf_answer want value }
{
    if value == AWAY {
        return Walked::Away;
    }
    let bits = bits_of(value);
    if !lets(bits, want) {
        return Walked::Denied;
    }
    Walked::Leaf(
        frame_of(value),
        permissions(bits),
        bits.contains(EntryBits::D) || is_store(want),
    )
}

/// A leaf with A set, and for a store D.
fn touched(want: Want, value: u64) -> u64
    requires { frame_in value < 2 ^ 32 }
    ensures { result ≡ leaf_touched want value }
{
    let wanted = if is_store(want) { 192 } else { 64 };
    1024 * (value / 1024) + u64::from(bits_of(value).bits | wanted)
}

/// What an access writes to a leaf that lets it through: A and D where they are to be set and aren't.
pub fn leaf_written(want: Want, value: u64) -> Option<u64>
    requires { frame_in value < 2 ^ 32 }
    ensures { result ≡ leaf_written want value }
{
    if value == AWAY || !lets(bits_of(value), want) {
        return None;
    }
    let written = touched(want, value);
    if written == value {
        return None;
    }
    Some(written)
}

/// The entry of a page at boot: away, or present in a frame with A and D not set.
pub fn page_value(perm: Perm, frame: Option<u32>) -> u64
    ensures { result ≡ page_entry perm.bits (place_at_boot frame) }
{
    match frame {
        None => AWAY,
        Some(frame) => 1024 * u64::from(frame) + present_bits(perm),
    }
}

/// The bits of a present page with these permissions.
fn present_bits(perm: Perm) -> u64
    ensures value { result ≡ page_bits perm.bits false false }
    ensures small { result < 32 }
{
    let read = if perm.grants(Want::Load) { 2 } else { 0 };
    let write = if perm.grants(Want::Store) { 4 } else { 0 };
    let execute = if perm.grants(Want::Fetch) { 8 } else { 0 };
    17 + read + write + execute
}
