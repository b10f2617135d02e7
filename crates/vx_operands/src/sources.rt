ghost use Rattle.vx_vstate.specs.Views.{view_of};
ghost use Rattle.std.specs.Prelude.{IsTrue, true, false, ◌≡◌, ℕ, ◌+◌, ◌*◌, ◌/◌, ◌^◌, ◌<◌, ◌≤◌, ◌==◌};
ghost use Rattle.vx_base.specs.Numbers.{reduced};
ghost use Rattle.vx_bits.specs.Width.{is_width};
ghost use Rattle.vx_operands.specs.Forms.{reading};
ghost use Rattle.vx_operands.specs.Lanes.{AreLanes, FillsPart};
ghost use Rattle.vx_rows.specs.declared.row.First.TheVariants.{Vector};
ghost use Rattle.vx_vector.specs.Reading.{sew_of, vs1_width};
ghost use Rattle.vx_operands.specs.Forms.{second_operand};
ghost use Rattle.vx_vstate.specs.Registers.{words_of_register, words_of_all, place_of, word_at, element, element_word};

use crate::form::Form;
use vx_packed::{joined_by_elements, splat};
use vx_rows::First;
use vx_vector::Places;
use vx_vstate::{Setting, WordFile};

/// Word `w` of the group that begins at a register.
#[inline(always)]
pub fn group_word<S: WordFile>(file: &S, at: &Setting, register: u8, w: u32) -> u64
    requires same { S.vlen file.now ≡ at.now.vlen }
    requires within { place_of at.now.vlen register w < words_of_all at.now.vlen }
    ensures { result ≡ word_at at.now.vlen (S.words file.now) register w }
{
    file.word(register, w)
}

/// Word `w` of the group that begins at a register is a number of 64 bits.
#[inline(always)]
pub fn has_a_word<S: WordFile>(file: &S, at: &Setting, register: u8, w: u32)
    requires same { S.vlen file.now ≡ at.now.vlen }
    requires within { place_of at.now.vlen register w < words_of_all at.now.vlen }
    ensures { word_at at.now.vlen (S.words file.now) register w < 2 ^ 64 }
{
    let _word = group_word(file, at, register, w);
}

/// The elements of a width from element `w * count` on, `count` of them, in the lowest bits. They fill a half, a quarter,
/// .. of a word.
#[inline(always)]
pub fn part<S: WordFile>(
    file: &S,
    at: &Setting,
    register: u8,
    width: u32,
    count: u32,
    w: u32,
) -> u64
    requires same { S.vlen file.now ≡ at.now.vlen }
    requires some { 0 < width * count }
    requires divides { 64 / (width * count) * (width * count) ≡ 64 }
    requires within { place_of at.now.vlen register (element_word width (w * count)) < words_of_all at.now.vlen }
    ensures { AreLanes width result count (λ k. element at.now.vlen (S.words file.now) register width (w * count + k)) }
{
    let first = w * count * width;
    group_word(file, at, register, first / 64) >> (first % 64)
}

/// A number of an instruction as one of 64 bits.
#[inline(always)]
pub(crate) fn number(imm: i64) -> u64
    ensures { result ≡ reduced 64 imm }
{
    imm.cast_unsigned()
}

/// The word that stands in the place of `vs1`, for word `w` of a destination of SEW: that of a register, or as many copies of
/// a number.
#[inline(always)]
pub fn second_word<S: WordFile>(
    form: Form,
    file: &S,
    at: &Setting,
    regs: &Places,
    sew: u32,
    w: u32,
) -> u64
    requires same { S.vlen file.now ≡ at.now.vlen }
    requires sew { sew ≡ sew_of (reading form (view_of at.now) regs.now (S.words file.now)) }
    requires width { IsTrue (is_width sew) }
    requires equal { form.first ≡ Vector → vs1_width (reading form (view_of at.now) regs.now (S.words file.now)) ≡ sew }
    requires within { form.first ≡ Vector → place_of at.now.vlen regs.now.vs1 w < words_of_all at.now.vlen }
    ensures { AreLanes sew result (64 / sew) (λ k. second_operand (reading form (view_of at.now) regs.now (S.words file.now)) (w * (64 / sew) + k)) }
{
    joined_by_elements();
    match form.first {
        First::Vector => group_word(file, at, regs.vs1, w),
        First::Integer => splat(sew, at.scalar),
        First::Signed => splat(sew, number(regs.imm)),
        First::Unsigned => splat(sew, number(regs.imm)),
        First::Fixed => 0,
    }
}

/// The bits of the mask in `v0` that belong to the elements of word `w` of a destination, `count` a word; none where the
/// instruction has no mask.
#[inline(always)]
pub fn mask_word<S: WordFile>(file: &S, at: &Setting, regs: &Places, count: u32, w: u32) -> u64
    requires same { S.vlen file.now ≡ at.now.vlen }
    requires some { 0 < count }
    requires divides { 64 / count * count ≡ 64 }
    requires within { element_word 1 (w * count) < words_of_register at.now.vlen }
    ensures bits { regs.now.vm ≡ false → AreLanes 1 result count (λ k. element at.now.vlen (S.words file.now) 0 1 (w * count + k)) }
    ensures none { regs.now.vm ≡ true → result ≡ 0 }
{
    if regs.vm {
        0
    } else {
        part(file, at, 0, 1, count, w)
    }
}

/// `second_word` for a destination with fewer elements a word, `count` of them.
#[inline(always)]
pub fn second_part<S: WordFile>(
    form: Form,
    file: &S,
    at: &Setting,
    regs: &Places,
    sew: u32,
    count: u32,
    w: u32,
) -> u64
    requires same { S.vlen file.now ≡ at.now.vlen }
    requires sew { sew ≡ sew_of (reading form (view_of at.now) regs.now (S.words file.now)) }
    requires width { IsTrue (is_width sew) }
    requires some { 0 < sew * count }
    requires divides { FillsPart sew count }
    requires few { count ≤ 64 / sew }
    requires equal { form.first ≡ Vector → vs1_width (reading form (view_of at.now) regs.now (S.words file.now)) ≡ sew }
    requires within { form.first ≡ Vector → place_of at.now.vlen regs.now.vs1 (element_word sew (w * count)) < words_of_all at.now.vlen }
    ensures { AreLanes sew result count (λ k. second_operand (reading form (view_of at.now) regs.now (S.words file.now)) (w * count + k)) }
{
    joined_by_elements();
    match form.first {
        First::Vector => part(file, at, regs.vs1, sew, count, w),
        First::Integer => splat(sew, at.scalar),
        First::Signed => splat(sew, number(regs.imm)),
        First::Unsigned => splat(sew, number(regs.imm)),
        First::Fixed => 0,
    }
}
