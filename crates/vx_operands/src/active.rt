ghost use Rattle.vx_vstate.specs.Views.{view_of};
ghost use Rattle.std.specs.Prelude.{◌≡◌, ℕ, ◌+◌, ◌*◌, ◌/◌, ◌<◌, ◌≤◌, ◌==◌};
ghost use Rattle.vx_packed.specs.Joined.{lane};
ghost use Rattle.vx_operands.specs.Forms.{reading};
ghost use Rattle.vx_operands.specs.Rising.{count_below};
ghost use Rattle.vx_rows.specs.Families.{operands_of};
ghost use Rattle.vx_vector.specs.Laws.{IsSound};
ghost use Rattle.vx_vector.specs.Reading.{is_active, whole_registers};

use crate::form::Form;
use crate::merged::let_in;
use crate::sources::mask_word;
use vx_bits::low;
use vx_packed::active_lanes;
use vx_vector::Places;
use vx_vstate::{Setting, WordFile, elements_lie_in_their_group};

/// Element `k` of a width, of those that stand in a word.
#[inline(always)]
pub fn lane_at(width: u32, word: u64, k: u32) -> u64
    requires positive { 0 < width }
    requires fits { k * width + width ≤ 64 }
    ensures { result ≡ lane width word k }
{
    low(width, word >> (k * width))
}

/// Whether bit `k` of a word is set.
#[inline(always)]
pub fn is_bit_set(word: u64, k: u32) -> bool
    requires { k < 64 }
    ensures { result ≡ (lane 1 word k == 1) }
{
    (word >> k) & 1 == 1
}

/// A bit for each of the `count` elements from element `w * count` on: whether it is active. The bits above are any.
#[inline(always)]
pub fn active_word<S: WordFile>(
    form: Form,
    file: &S,
    at: &Setting,
    regs: &Places,
    count: u32,
    w: u32,
) -> u64
    requires same { S.vlen file.now ≡ at.now.vlen }
    requires sound { IsSound (reading form (view_of at.now) regs.now (S.words file.now)) }
    requires elements { whole_registers (operands_of form.family).destination ≡ 0 }
    requires some { 0 < count }
    requires few { count ≤ 64 }
    requires divides { 64 / count * count ≡ 64 }
    requires begins { w * count < at.now.vl }
    ensures { (k : ℕ) → k < count → (lane 1 result k == 1) ≡ is_active (reading form (view_of at.now) regs.now (S.words file.now)) (w * count + k) }
{
    elements_lie_in_their_group();
    let mask = mask_word(file, at, regs, count, w);
    active_lanes(count, w * count, at.vstart, at.vl, let_in(form, regs, mask))
}

/// There are few elements: vl is at most VLMAX, and that at most VLEN.
#[inline(always)]
pub fn has_few_elements(at: &Setting)
    ensures { at.now.vl ≤ 65536 }
{
    let _most = at.vlmax();
}

/// How many bits of a word are set.
#[inline(always)]
pub fn ones(word: u64) -> u32
    ensures value { result ≡ count_below (λ k. lane 1 word k == 1) 64 }
    ensures few { result ≤ 64 }
{
    word.count_ones()
}
