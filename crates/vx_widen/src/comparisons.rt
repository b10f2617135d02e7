ghost use Rattle.vx_vstate.specs.Views.{view_of};
ghost use Rattle.std.specs.Prelude.{IsTrue, ◌≡◌, ◌<◌, length};
ghost use Rattle.vx_bits.specs.Width.{is_width};
ghost use Rattle.vx_decode.specs.Legal.{compares};
ghost use Rattle.vx_operands.specs.Forms.{reading};
ghost use Rattle.vx_operands.specs.Lanes.{answer, numbers_of};
ghost use Rattle.vx_operands.specs.Parts.{bit_packing};
ghost use Rattle.vx_packed.specs.Made.{made};
ghost use Rattle.vx_packed.specs.declared.elements.Made.{Made};
ghost use Rattle.vx_packed.specs.declared.elements.Sources.{Sources};
ghost use Rattle.vx_rows.specs.declared.family.Family.TheVariants.{Vmadc, Vmsbc, Vmseq, Vmsne, Vmsltu, Vmslt, Vmsleu, Vmsle, Vmsgtu, Vmsgt};
ghost use Rattle.vx_vector.specs.Laws.{IsSound, made_word, word_saturates};
ghost use Rattle.vx_vector.specs.Reading.{sew_of};
ghost use Rattle.vx_vector.specs.Words.{destination_words};

use crate::numbers::{bit, has_borrow, has_carry};
use vx_operands::{Form, compared_word, is_less, make_bits};
use vx_packed::{Made, Sources};
use vx_rows::Family;
use vx_vector::{Places, Word};
use vx_vstate::{Setting, WordFile};

/// Carries out of sums.
#[inline(always)]
fn carried(sew: u32, from: Sources) -> Made
    requires { IsTrue (is_width sew) }
    ensures { result ≡ made (bit_packing sew) from (λ l. answer Vmadc (numbers_of sew 0 l)) }
{
    make_bits(sew, from, |l| bit(has_carry(sew, l.a, l.b, l.m)))
}

/// Borrows out of differences.
#[inline(always)]
fn borrowed(sew: u32, from: Sources) -> Made
    requires { IsTrue (is_width sew) }
    ensures { result ≡ made (bit_packing sew) from (λ l. answer Vmsbc (numbers_of sew 0 l)) }
{
    make_bits(sew, from, |l| bit(has_borrow(l.a, l.b, l.m)))
}

/// Whether elements are equal.
#[inline(always)]
fn equal(sew: u32, from: Sources) -> Made
    requires { IsTrue (is_width sew) }
    ensures { result ≡ made (bit_packing sew) from (λ l. answer Vmseq (numbers_of sew 0 l)) }
{
    make_bits(sew, from, |l| bit(l.a == l.b))
}

/// Whether elements differ.
#[inline(always)]
fn unequal(sew: u32, from: Sources) -> Made
    requires { IsTrue (is_width sew) }
    ensures { result ≡ made (bit_packing sew) from (λ l. answer Vmsne (numbers_of sew 0 l)) }
{
    make_bits(sew, from, |l| bit(l.a != l.b))
}

/// Whether an element is less than the other, as unsigned numbers.
#[inline(always)]
fn less_unsigned(sew: u32, from: Sources) -> Made
    requires { IsTrue (is_width sew) }
    ensures { result ≡ made (bit_packing sew) from (λ l. answer Vmsltu (numbers_of sew 0 l)) }
{
    make_bits(sew, from, |l| bit(l.a < l.b))
}

/// Whether an element is less than the other, as signed numbers.
#[inline(always)]
fn less_signed(sew: u32, from: Sources) -> Made
    requires { IsTrue (is_width sew) }
    ensures { result ≡ made (bit_packing sew) from (λ l. answer Vmslt (numbers_of sew 0 l)) }
{
    make_bits(sew, from, |l| bit(is_less(sew, l.a, l.b)))
}

/// Whether an element is no greater than the other, as unsigned numbers.
#[inline(always)]
fn no_greater_unsigned(sew: u32, from: Sources) -> Made
    requires { IsTrue (is_width sew) }
    ensures { result ≡ made (bit_packing sew) from (λ l. answer Vmsleu (numbers_of sew 0 l)) }
{
    make_bits(sew, from, |l| bit(l.a <= l.b))
}

/// Whether an element is no greater than the other, as signed numbers.
#[inline(always)]
fn no_greater_signed(sew: u32, from: Sources) -> Made
    requires { IsTrue (is_width sew) }
    ensures { result ≡ made (bit_packing sew) from (λ l. answer Vmsle (numbers_of sew 0 l)) }
{
    make_bits(sew, from, |l| bit(!is_less(sew, l.b, l.a)))
}

/// Whether an element is greater than the other, as unsigned numbers.
#[inline(always)]
fn greater_unsigned(sew: u32, from: Sources) -> Made
    requires { IsTrue (is_width sew) }
    ensures { result ≡ made (bit_packing sew) from (λ l. answer Vmsgtu (numbers_of sew 0 l)) }
{
    make_bits(sew, from, |l| bit(l.b < l.a))
}

/// Whether an element is greater than the other, as signed numbers.
#[inline(always)]
fn greater_signed(sew: u32, from: Sources) -> Made
    requires { IsTrue (is_width sew) }
    ensures { result ≡ made (bit_packing sew) from (λ l. answer Vmsgt (numbers_of sew 0 l)) }
{
    make_bits(sew, from, |l| bit(is_less(sew, l.b, l.a)))
}

/// Word `w` of the destination of a row whose bits `f` gives.
#[inline(always)]
fn compared_by<S: WordFile, F: Fn(Sources) -> Made>(
    form: Form,
    file: &S,
    at: &Setting,
    regs: &Places,
    sew: u32,
    w: u32,
    f: F,
) -> Word
    requires same { S.vlen file.now ≡ at.now.vlen }
    requires sound { IsSound (reading form (view_of at.now) regs.now (S.words file.now)) }
    requires kind { IsTrue (compares form.family) }
    requires sew { sew ≡ sew_of (reading form (view_of at.now) regs.now (S.words file.now)) }
    requires width { IsTrue (is_width sew) }
    requires within { w < length (destination_words (reading form (view_of at.now) regs.now (S.words file.now))) }
    requires callable { (from : Sources) → F.pre f from }
    requires makes { (from : Sources) (new : Made) → F.post f from new → new ≡ made (bit_packing sew) from (λ l. answer form.family (numbers_of sew at.now.vxrm l)) }
    ensures value { result.value ≡ made_word (reading form (view_of at.now) regs.now (S.words file.now)) w }
    ensures sat { result.sat ≡ word_saturates (reading form (view_of at.now) regs.now (S.words file.now)) w }
{
    compared_word(form, file, at, regs, sew, w, f)
}

/// Word `w` of the destination of a comparison, or of a carry or borrow that is a mask.
#[inline(always)]
pub(crate) fn compared<S: WordFile>(
    form: Form,
    file: &S,
    at: &Setting,
    regs: &Places,
    sew: u32,
    w: u32,
) -> Word
    requires same { S.vlen file.now ≡ at.now.vlen }
    requires sound { IsSound (reading form (view_of at.now) regs.now (S.words file.now)) }
    requires kind { IsTrue (compares form.family) }
    requires sew { sew ≡ sew_of (reading form (view_of at.now) regs.now (S.words file.now)) }
    requires width { IsTrue (is_width sew) }
    requires within { w < length (destination_words (reading form (view_of at.now) regs.now (S.words file.now))) }
    ensures value { result.value ≡ made_word (reading form (view_of at.now) regs.now (S.words file.now)) w }
    ensures sat { result.sat ≡ word_saturates (reading form (view_of at.now) regs.now (S.words file.now)) w }
{
    match form.family {
        Family::Vmadc => compared_by(form, file, at, regs, sew, w, |from| carried(sew, from)),
        Family::Vmsbc => compared_by(form, file, at, regs, sew, w, |from| borrowed(sew, from)),
        Family::Vmseq => compared_by(form, file, at, regs, sew, w, |from| equal(sew, from)),
        Family::Vmsne => compared_by(form, file, at, regs, sew, w, |from| unequal(sew, from)),
        Family::Vmsltu => compared_by(
            form,
            file,
            at,
            regs,
            sew,
            w,
            |from| less_unsigned(sew, from),
        ),
        Family::Vmslt => compared_by(form, file, at, regs, sew, w, |from| less_signed(sew, from)),
        Family::Vmsleu => compared_by(
            form,
            file,
            at,
            regs,
            sew,
            w,
            |from| no_greater_unsigned(sew, from),
        ),
        Family::Vmsle => compared_by(
            form,
            file,
            at,
            regs,
            sew,
            w,
            |from| no_greater_signed(sew, from),
        ),
        Family::Vmsgtu => compared_by(
            form,
            file,
            at,
            regs,
            sew,
            w,
            |from| greater_unsigned(sew, from),
        ),
        Family::Vmsgt => compared_by(
            form,
            file,
            at,
            regs,
            sew,
            w,
            |from| greater_signed(sew, from),
        ),
        _ => unreachable!(),
    }
}
