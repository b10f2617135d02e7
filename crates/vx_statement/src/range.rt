ghost use Rattle.std.specs.Prelude.{◌≡◌, ◌==◌, ◌^◌, ◌≤ℤ◌, ◌<ℤ◌, true, pos, neg_ℤ, int_rem, unsigned_abs};
ghost use Rattle.vx_language.specs.Numerals.{number_value};
ghost use Rattle.vx_language.specs.Slots.{is_within, is_offset, signed_range};
ghost use Rattle.vx_statement.specs.Ranges.{range_of, width_of};

use vx_lex::number_of;

/// The numbers from one to another.
#[derive(Clone, Copy, PartialEq, Eq, Debug)]
pub struct Range {
    /// The least of them.
    pub least: i64,
    /// The greatest.
    pub greatest: u64,
}

impl Range {
    /// Whether a number is one of them.
    pub fn contains(self, value: i128) -> bool
        ensures { result ≡ is_within (range_of self) value }
    {
        i128::from(self.least) <= value && value <= i128::from(self.greatest)
    }

    /// Whether a number of this text is one of them.
    #[tactic(auto, using(crate::proofs::Numbers::not_within))]
    pub fn holds(self, text: &[u8]) -> bool
        ensures { result ≡ is_within (range_of self) (number_value text.now) }
    {
        match number_of(text) {
            Some(value) => self.contains(value),
            None => false,
        }
    }

    /// The number of a text, which is one of them.
    #[tactic(auto, using(crate::proofs::Numbers::within_is_some))]
    pub fn number(self, text: &[u8]) -> i128
        requires { is_within (range_of self) (number_value text.now) ≡ true }
        ensures value { result ≡ number_value text.now }
        ensures low { neg_ℤ (pos (2 ^ 63)) ≤ℤ result }
        ensures high { result <ℤ pos (2 ^ 64) }
    {
        match number_of(text) {
            Some(value) => value,
            None => 0,
        }
    }
}

/// How far a target may be.
#[derive(Clone, Copy, PartialEq, Eq, Debug)]
pub enum Reach {
    /// A signed even number of 13 bits.
    Branch,
    /// A signed even number of 21 bits.
    Jump,
}

impl Reach {
    /// The signed numbers of the width.
    pub fn range(self) -> Range
        ensures { range_of result ≡ signed_range (width_of self) }
    {
        match self {
            Reach::Branch => Range {
                least: -4096,
                greatest: 4095,
            },
            Reach::Jump => Range {
                least: -1_048_576,
                greatest: 1_048_575,
            },
        }
    }

    /// Whether an offset is one of them, and even.
    #[tactic(auto, unfolding(vx_language::specs::Slots::is_offset))]
    pub fn contains(self, offset: i128) -> bool
        ensures { result ≡ is_offset (width_of self) offset }
    {
        self.range().contains(offset) && is_even(offset)
    }

    /// Whether a number of this text is one of them, and even.
    #[tactic(auto, using(crate::proofs::Numbers::no_offset))]
    pub fn holds(self, text: &[u8]) -> bool
        ensures { result ≡ is_offset (width_of self) (number_value text.now) }
    {
        match number_of(text) {
            Some(value) => self.contains(value),
            None => false,
        }
    }
}

/// Whether a number is even.
fn is_even(value: i128) -> bool
    ensures { result ≡ (unsigned_abs (int_rem value (pos 2)) == 0) }
{
    value % 2 == 0
}
