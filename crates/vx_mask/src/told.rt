ghost use Rattle.vx_vstate.specs.Views.{view_of};
ghost use Rattle.std.specs.Prelude.{IsTrue, ◌≡◌, ℕ, ◌-◌, ◌*◌, ◌^◌, ◌≤◌, nat_lt, if◌then◌else◌, Some};
ghost use Rattle.vx_bits.specs.Width.{is_width};
ghost use Rattle.vx_mask.specs.Kinds.{is_mask, is_telling};
ghost use Rattle.vx_operands.specs.Forms.{form_of, reading};
ghost use Rattle.vx_rows.specs.declared.family.Family.TheVariants.{Vcpop, Vfirst, VmvXS};
ghost use Rattle.vx_vector.specs.Arithmetic.{told};
ghost use Rattle.vx_vector.specs.Laws.{IsSound};
ghost use Rattle.vx_vector.specs.Reading.{sew_of};

use crate::form::form_of;
use crate::marks::{count_marks, first_mark};
use vx_bits::signed_reading;
use vx_operands::{Form, group_word, has_few_elements, lane_at};
use vx_rows::{Family, Op};
use vx_vector::{Places, elements_are_lanes};
use vx_vstate::{Setting, WordFile};

/// The number of the active elements whose bit of the mask in `vs2` is set.
#[inline(always)]
fn count_all<S: WordFile>(form: Form, file: &S, at: &Setting, regs: &Places) -> u64
    requires same { S.vlen file.now ≡ at.now.vlen }
    requires sound { IsSound (reading form (view_of at.now) regs.now (S.words file.now)) }
    requires family { form.family ≡ Vcpop }
    requires small { at.now.vl ≤ 65536 }
    ensures { told (reading form (view_of at.now) regs.now (S.words file.now)) ≡ Some result }
{
    u64::from(count_marks(form, file, at, regs, at.vl))
}

/// An index, or −1 where it isn't below a number.
#[inline(always)]
fn index_or_past(index: u32, most: u32) -> u64
    ensures { result ≡ (if nat_lt index most then index else 2 ^ 64 - 1) }
{
    if index < most {
        u64::from(index)
    } else {
        u64::MAX
    }
}

/// The first active element whose bit of the mask in `vs2` is set, or −1.
#[inline(always)]
fn find_first<S: WordFile>(form: Form, file: &S, at: &Setting, regs: &Places) -> u64
    requires same { S.vlen file.now ≡ at.now.vlen }
    requires sound { IsSound (reading form (view_of at.now) regs.now (S.words file.now)) }
    requires family { form.family ≡ Vfirst }
    requires small { at.now.vl ≤ 65536 }
    ensures { told (reading form (view_of at.now) regs.now (S.words file.now)) ≡ Some result }
{
    let first = first_mark(form, file, at, regs);
    index_or_past(first, at.vl)
}

/// Element 0 of `vs2`, sign-extended.
#[inline(always)]
fn first_element<S: WordFile>(form: Form, file: &S, at: &Setting, regs: &Places, sew: u32) -> u64
    requires same { S.vlen file.now ≡ at.now.vlen }
    requires sound { IsSound (reading form (view_of at.now) regs.now (S.words file.now)) }
    requires family { form.family ≡ VmvXS }
    requires sew { sew ≡ sew_of (reading form (view_of at.now) regs.now (S.words file.now)) }
    requires width { IsTrue (is_width sew) }
    ensures { told (reading form (view_of at.now) regs.now (S.words file.now)) ≡ Some result }
{
    elements_are_lanes();
    let element = lane_at(sew, group_word(file, at, regs.vs2, 0), 0);
    signed_reading(sew, element).cast_unsigned()
}

/// What a row of this form puts into the integer register.
#[inline(always)]
fn told_by_form<S: WordFile>(form: Form, file: &S, at: &Setting, regs: &Places) -> u64
    requires same { S.vlen file.now ≡ at.now.vlen }
    requires sound { IsSound (reading form (view_of at.now) regs.now (S.words file.now)) }
    requires kind { IsTrue (is_telling form.family) }
    ensures { told (reading form (view_of at.now) regs.now (S.words file.now)) ≡ Some result }
{
    has_few_elements(at);
    match form.family {
        Family::Vcpop => count_all(form, file, at, regs),
        Family::Vfirst => find_first(form, file, at, regs),
        Family::VmvXS => first_element(form, file, at, regs, at.sew()),
        _ => unreachable!(),
    }
}

/// The number that an instruction puts into its integer register: the count of bits that are set, the first of them or −1, or
/// element 0, sign-extended. The operation is one of these three, and the instruction is legal under the setting.
pub fn count<S: WordFile>(op: Op, at: &Setting, file: &S, regs: &Places) -> u64
    requires row { IsTrue (is_mask op) }
    requires tells { IsTrue (is_telling (form_of op).family) }
    requires same { S.vlen file.now ≡ at.now.vlen }
    requires sound { IsSound (reading (form_of op) (view_of at.now) regs.now (S.words file.now)) }
    ensures { told (reading (form_of op) (view_of at.now) regs.now (S.words file.now)) ≡ Some result }
{
    match op {
        Op::Mask(op) => told_by_form(form_of(op), file, at, regs),
        _ => unreachable!(),
    }
}
