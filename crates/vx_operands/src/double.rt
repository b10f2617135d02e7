ghost use Rattle.vx_vstate.specs.Views.{view_of};
ghost use Rattle.std.specs.Prelude.{IsTrue, ◌≡◌, ◌<◌, ◌≤◌, length};
ghost use Rattle.vx_bits.specs.Width.{is_width};
ghost use Rattle.vx_bits.specs.declared.saturation.Sat.{Sat};
ghost use Rattle.vx_operands.specs.Forms.{reading};
ghost use Rattle.vx_operands.specs.Lanes.{answer, is_each, numbers_of};
ghost use Rattle.vx_operands.specs.Parts.{doubled_packing, is_doubling};
ghost use Rattle.vx_packed.specs.Made.{Answers, IsPacking, IsWithin, made};
ghost use Rattle.vx_packed.specs.declared.elements.Lane.{Lane};
ghost use Rattle.vx_packed.specs.declared.elements.Made.{Made};
ghost use Rattle.vx_packed.specs.declared.elements.Sources.{Sources};
ghost use Rattle.vx_rows.specs.Families.{operands_of};
ghost use Rattle.vx_vector.specs.Laws.{IsSound, made_word, word_saturates};
ghost use Rattle.vx_vector.specs.Reading.{sew_of};
ghost use Rattle.vx_vector.specs.Rules.{rule_of};
ghost use Rattle.vx_vector.specs.Words.{destination_words};

use crate::form::Form;
use crate::grouped::wide_word;
use vx_bits::Sat;
use vx_packed::{Lane, Made, Packing, Sources, make};
use vx_vector::{Places, Word};
use vx_vstate::{Setting, WordFile};

/// As many elements of twice SEW as fill a word, where those of `vs2` are as wide or have SEW.
#[inline(always)]
fn doubled(sew: u32, is_wide: bool) -> Packing
    requires width { IsTrue (is_width sew) }
    requires doubles { sew ≤ 32 }
    ensures value { result ≡ doubled_packing sew is_wide }
    ensures packing { IsPacking result }
{
    Packing {
        count: 64 / (2 * sew),
        width: 2 * sew,
        a: if is_wide { 2 * sew } else { sew },
        b: sew,
    }
}

/// `make`, of elements of twice SEW.
#[inline(always)]
pub fn make_doubled<F: Fn(Lane) -> Sat>(sew: u32, is_wide: bool, from: Sources, f: F) -> Made
    requires width { IsTrue (is_width sew) }
    requires doubles { sew ≤ 32 }
    requires callable { (l : Lane) → IsWithin (doubled_packing sew is_wide) l → F.pre f l }
    ensures { (g : Lane → Sat) → Answers (F.post f) (doubled_packing sew is_wide) g → result ≡ made (doubled_packing sew is_wide) from g }
{
    match sew {
        8 => make(doubled(8, is_wide), from, f),
        16 => make(doubled(16, is_wide), from, f),
        _ => make(doubled(32, is_wide), from, f),
    }
}

/// Word `w` of the destination of a row that makes elements of twice SEW, of elements of SEW, or of such in `vs2` as are as
/// wide. `f` gets the words at the places of the word's elements, and gives the new elements.
#[inline(always)]
pub fn doubled_word<S: WordFile, F: FnOnce(Sources) -> Made>(
    form: Form,
    file: &S,
    at: &Setting,
    regs: &Places,
    sew: u32,
    is_wide: bool,
    w: u32,
    f: F,
) -> Word
    requires same { S.vlen file.now ≡ at.now.vlen }
    requires sound { IsSound (reading form (view_of at.now) regs.now (S.words file.now)) }
    requires each { IsTrue (is_each (rule_of form.family)) }
    requires doubles { IsTrue (is_doubling is_wide form.first (operands_of form.family)) }
    requires sew { sew ≡ sew_of (reading form (view_of at.now) regs.now (S.words file.now)) }
    requires width { IsTrue (is_width sew) }
    requires small { sew ≤ 32 }
    requires within { w < length (destination_words (reading form (view_of at.now) regs.now (S.words file.now))) }
    requires callable { (from : Sources) → F.pre f from }
    requires makes { (from : Sources) (new : Made) → F.post f from new → new ≡ made (doubled_packing sew is_wide) from (λ l. answer form.family (numbers_of sew at.now.vxrm l)) }
    ensures value { result.value ≡ made_word (reading form (view_of at.now) regs.now (S.words file.now)) w }
    ensures sat { result.sat ≡ word_saturates (reading form (view_of at.now) regs.now (S.words file.now)) w }
{
    wide_word(form, file, at, regs, doubled(sew, is_wide), w, f)
}
