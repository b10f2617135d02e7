ghost use Rattle.std.specs.Prelude.{IsTrue, ◌≡◌, ℕ, ◌%◌, ◌^◌, ◌<◌, ◌==◌, ◌&&◌, nat_lt};
ghost use Rattle.vx_bits.specs.Width.{is_width};
ghost use Rattle.vx_operands.specs.Rising.{first_by, is_first_alone};
ghost use Rattle.vx_vector.specs.Laws.{made_word, word_saturates};
ghost use Rattle.vx_vector.specs.Reading.{Reading, destination_width};
ghost use Rattle.vx_vector.specs.Rules.{rule_of};
ghost use Rattle.vx_vstate.specs.Registers.{word_at};

use vx_packed::{joined_by_elements, merge};
use vx_vector::{Word, elements_are_lanes};
use vx_vstate::Setting;

/// Whether a row that writes element 0 alone writes it into word `w`.
#[inline(always)]
pub fn writes_first(at: &Setting, w: u32) -> bool
    ensures { result ≡ (w == 0 && nat_lt at.now.vstart at.now.vl) }
{
    w == 0 && at.vstart < at.vl
}

/// The first word of the destination of a row that writes element 0 alone.
#[inline(always)]
pub fn first_set(width: u32, old: u64, value: u64) -> Word
    requires width { IsTrue (is_width width) }
    ensures value { (r : Reading) → width ≡ destination_width r → IsTrue (is_first_alone (rule_of r.family)) → r.at.vstart < r.at.vl → old ≡ word_at r.at.vlen r.words r.places.vd 0 → value % 2 ^ width ≡ first_by (rule_of r.family) r % 2 ^ width → result.value ≡ made_word r 0 }
    ensures sat { (r : Reading) → IsTrue (is_first_alone (rule_of r.family)) → result.sat ≡ word_saturates r 0 }
{
    joined_by_elements();
    elements_are_lanes();
    Word {
        value: merge(width, 1, value, old),
        sat: false,
    }
}
