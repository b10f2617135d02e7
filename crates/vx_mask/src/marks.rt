ghost use Rattle.vx_vstate.specs.Views.{view_of};
ghost use Rattle.std.specs.Prelude.{◌≡◌, ℕ, ◌+◌, ◌*◌, ◌/◌, ◌<◌, ◌≤◌, true, false, ◌==◌, ◌&&◌, nat_lt};
ghost use Rattle.vx_operands.specs.Forms.{reading};
ghost use Rattle.vx_operands.specs.Rising.{IsFirstBelow, count_below, mark};
ghost use Rattle.vx_packed.specs.Joined.{lane};
ghost use Rattle.vx_rows.specs.Families.{operands_of};
ghost use Rattle.vx_rows.specs.declared.family.Operand.TheVariants.{Mask};
ghost use Rattle.vx_vector.specs.Laws.{IsSound};
ghost use Rattle.vx_vector.specs.Reading.{whole_registers};

use vx_operands::{Form, active_word, ones, part};
use vx_packed::active_lanes;
use vx_vector::Places;
use vx_vstate::{Setting, WordFile, elements_lie_in_their_group};

/// A bit for each of the `count` elements from element `w * count` on: whether it is active and its bit of the mask in `vs2` is
/// set. The bits above are any.
#[inline(always)]
pub(crate) fn marks_word<S: WordFile>(
    form: Form,
    file: &S,
    at: &Setting,
    regs: &Places,
    count: u32,
    w: u32,
) -> u64
    requires same { S.vlen file.now ≡ at.now.vlen }
    requires sound { IsSound (reading form (view_of at.now) regs.now (S.words file.now)) }
    requires elements { whole_registers (operands_of form.family).destination ≡ 0 }
    requires mask { (operands_of form.family).vs2 ≡ Mask }
    requires some { 0 < count }
    requires few { count ≤ 64 }
    requires divides { 64 / count * count ≡ 64 }
    requires begins { w * count < at.now.vl }
    ensures { (k : ℕ) → k < count → (lane 1 result k == 1) ≡ mark (reading form (view_of at.now) regs.now (S.words file.now)) (w * count + k) }
{
    elements_lie_in_their_group();
    let active = active_word(form, file, at, regs, count, w);
    part(file, at, regs.vs2, 1, count, w) & active
}

/// The lowest bit of a word that is set.
#[inline(always)]
fn lowest(word: u64) -> u32
    requires { 0 < word }
    ensures inside { result < 64 }
    ensures there { (lane 1 word result == 1) ≡ true }
    ensures before { (k : ℕ) → k < result → (lane 1 word k == 1) ≡ false }
{
    word.trailing_zeros()
}

/// How many bits of a word are set whose element is before `to`, where the first bit's is element `first`.
#[inline(always)]
pub(crate) fn ones_before(marks: u64, first: u32, to: u32) -> u32
    requires { first + 64 < 4294967296 }
    ensures value { result ≡ count_below (λ k. nat_lt (first + k) to && lane 1 marks k == 1) 64 }
    ensures few { result ≤ 64 }
{
    ones(active_lanes(64, first, 0, to, marks))
}

/// How many of the first `n` elements are active and have their bit of the mask in `vs2` set.
#[inline(always)]
pub(crate) fn count_marks<S: WordFile>(
    form: Form,
    file: &S,
    at: &Setting,
    regs: &Places,
    n: u32,
) -> u32
    requires same { S.vlen file.now ≡ at.now.vlen }
    requires sound { IsSound (reading form (view_of at.now) regs.now (S.words file.now)) }
    requires elements { whole_registers (operands_of form.family).destination ≡ 0 }
    requires mask { (operands_of form.family).vs2 ≡ Mask }
    requires most { n ≤ at.now.vl }
    requires small { n ≤ 65536 }
    ensures value { result ≡ count_below (mark (reading form (view_of at.now) regs.now (S.words file.now))) n }
    ensures few { result ≤ n }
{
    let mut total = 0;
    for v in 0..n.div_ceil(64) {
        let marks = marks_word(form, file, at, regs, 64, v);
        total += ones_before(marks, v * 64, n);
    }
    total
}

/// The first element that is active and has its bit of the mask in `vs2` set, or vl where there is none.
#[inline(always)]
pub(crate) fn first_mark<S: WordFile>(form: Form, file: &S, at: &Setting, regs: &Places) -> u32
    requires same { S.vlen file.now ≡ at.now.vlen }
    requires sound { IsSound (reading form (view_of at.now) regs.now (S.words file.now)) }
    requires elements { whole_registers (operands_of form.family).destination ≡ 0 }
    requires mask { (operands_of form.family).vs2 ≡ Mask }
    requires small { at.now.vl ≤ 65536 }
    ensures { IsFirstBelow (mark (reading form (view_of at.now) regs.now (S.words file.now))) at.now.vl result }
{
    for v in 0..at.vl.div_ceil(64) {
        let marks = marks_word(form, file, at, regs, 64, v);
        if marks != 0 {
            return v * 64 + lowest(marks);
        }
    }
    at.vl
}
