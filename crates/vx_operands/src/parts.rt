ghost use Rattle.vx_vstate.specs.Views.{view_of};
ghost use Rattle.std.specs.Prelude.{IsTrue, ◌≡◌, ◌+◌, ◌-◌, ◌*◌, ◌/◌, ◌<◌, ◌≤◌};
ghost use Rattle.vx_bits.specs.Width.{is_width};
ghost use Rattle.vx_bits.specs.declared.saturation.Sat.{Sat};
ghost use Rattle.vx_operands.specs.Forms.{reading};
ghost use Rattle.vx_operands.specs.Lanes.{AreLanes, is_group, is_single};
ghost use Rattle.vx_operands.specs.Parts.{
  ArePartOf,
  FillsWord,
  bit_packing,
  narrow_packing,
};
ghost use Rattle.vx_packed.specs.Made.{Answers, IsPacking, IsWithin, made};
ghost use Rattle.vx_packed.specs.declared.elements.Lane.{Lane};
ghost use Rattle.vx_rows.specs.Families.{operands_of};
ghost use Rattle.vx_rows.specs.declared.row.First.TheVariants.{Vector};
ghost use Rattle.vx_vector.specs.Laws.{IsSound};
ghost use Rattle.vx_vector.specs.Reading.{destination_width, element_of, sew_of, vs2_width};

use crate::form::Form;
use crate::sources::{group_word, mask_word, second_part};
use vx_bits::Sat;
use vx_packed::{Lane, Made, Packing, Sources, make};
use vx_vector::Places;
use vx_vstate::{Setting, WordFile, elements_lie_in_their_group};

/// As many elements of SEW as a word of `vs2` holds of twice SEW.
#[inline(always)]
pub(crate) fn narrow(sew: u32) -> Packing
    requires width { IsTrue (is_width sew) }
    requires doubles { sew ≤ 32 }
    ensures value { result ≡ narrow_packing sew }
    ensures packing { IsPacking result }
{
    Packing {
        count: 32 / sew,
        width: sew,
        a: 2 * sew,
        b: sew,
    }
}

/// As many bits as a word of `vs2` holds elements of SEW.
#[inline(always)]
pub(crate) fn bits(sew: u32) -> Packing
    requires { IsTrue (is_width sew) }
    ensures value { result ≡ bit_packing sew }
    ensures packing { IsPacking result }
{
    Packing {
        count: 64 / sew,
        width: 1,
        a: sew,
        b: sew,
    }
}

/// `make`, of elements of SEW from elements of twice SEW.
#[inline(always)]
pub fn make_narrow<F: Fn(Lane) -> Sat>(sew: u32, from: Sources, f: F) -> Made
    requires width { IsTrue (is_width sew) }
    requires doubles { sew ≤ 32 }
    requires callable { (l : Lane) → IsWithin (narrow_packing sew) l → F.pre f l }
    ensures { (g : Lane → Sat) → Answers (F.post f) (narrow_packing sew) g → result ≡ made (narrow_packing sew) from g }
{
    match sew {
        8 => make(narrow(8), from, f),
        16 => make(narrow(16), from, f),
        _ => make(narrow(32), from, f),
    }
}

/// `make`, of bits from elements of SEW.
#[inline(always)]
pub fn make_bits<F: Fn(Lane) -> Sat>(sew: u32, from: Sources, f: F) -> Made
    requires width { IsTrue (is_width sew) }
    requires callable { (l : Lane) → IsWithin (bit_packing sew) l → F.pre f l }
    ensures { (g : Lane → Sat) → Answers (F.post f) (bit_packing sew) g → result ≡ made (bit_packing sew) from g }
{
    match sew {
        8 => make(bits(8), from, f),
        16 => make(bits(16), from, f),
        32 => make(bits(32), from, f),
        _ => make(bits(64), from, f),
    }
}

/// The words with the operands of as many elements as word `v` of `vs2` holds, of which `d` has the old ones; any words where
/// all of these elements are behind the last.
#[inline(always)]
pub(crate) fn part_sources<S: WordFile>(
    form: Form,
    file: &S,
    at: &Setting,
    regs: &Places,
    widths: Packing,
    v: u32,
    d: u64,
) -> Sources
    requires same { S.vlen file.now ≡ at.now.vlen }
    requires sound { IsSound (reading form (view_of at.now) regs.now (S.words file.now)) }
    requires group { IsTrue (is_group (operands_of form.family).vs2) }
    requires single { form.first ≡ Vector → IsTrue (is_single (operands_of form.family).vs1) }
    requires fills { FillsWord widths }
    requires a { widths.a ≡ vs2_width (reading form (view_of at.now) regs.now (S.words file.now)) }
    requires b { widths.b ≡ sew_of (reading form (view_of at.now) regs.now (S.words file.now)) }
    requires old { AreLanes widths.width d widths.count (λ k. element_of (reading form (view_of at.now) regs.now (S.words file.now)) regs.now.vd (destination_width (reading form (view_of at.now) regs.now (S.words file.now))) (v * widths.count + k)) }
    requires few { widths.count ≤ 64 }
    requires small { v < 4096 }
    ensures { ArePartOf (reading form (view_of at.now) regs.now (S.words file.now)) widths v result }
{
    elements_lie_in_their_group();
    if at.vl <= v * widths.count {
        return Sources {
            a: 0,
            b: 0,
            d: 0,
            m: 0,
        };
    }
    Sources {
        a: group_word(file, at, regs.vs2, v),
        b: second_part(form, file, at, regs, widths.b, widths.count, v),
        d,
        m: mask_word(file, at, regs, widths.count, v),
    }
}
