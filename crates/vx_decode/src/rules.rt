//! Whether a vector instruction is legal: each rule by itself, and all of them.

ghost use Rattle.std.specs.Prelude.{◌≡◌, ℕ, true, not, ◌&&◌, ◌||◌, ◌++◌, option_to_list};
ghost use Rattle.vx_decode.specs.Groups.{AreGroupsOf, mask_at, meet};
ghost use Rattle.vx_decode.specs.Legal.{
  begins_at_first,
  begins_late,
  compares,
  has_bad_group,
  has_long_segment,
  is_bad_group,
  is_bad_width,
  is_high_half,
  is_illegal,
  is_kept_apart,
  is_too_long,
  is_too_wide,
  lacks_configuration,
  may_meet,
  may_write_mask,
  meets_source,
  needs_none,
  overlaps_badly,
  overwrites_mask,
  reads_first,
  reduces,
  some_group,
};
ghost use Rattle.vx_rows.specs.Families.{operands_of};
ghost use Rattle.vx_rows.specs.Table.{class_of, shape_of};
ghost use Rattle.vx_rows.specs.declared.family.Operand.TheVariants as operand;
ghost use Rattle.vx_rows.specs.declared.row.Class.TheVariants as class;
ghost use Rattle.vx_vstate.specs.Views.{view_of};

use crate::group::{Group, Groups, arithmetic_groups, load_groups, mask_at, store_groups};
use crate::instr::Instr;
use vx_rows::{Addressing, Class, Eew, Family, First, Operand, Operands, Second, Shape};
use vx_vstate::Setting;

/// Whether a vector instruction may be executed under a setting; false exactly where it raises illegal instruction by one
/// of the rules of RISC-V "V" 1.0, sections 3.4.4, 5.2, 5.3, 7.4, 7.8, 7.9, 11, 14, 15, 16 and 18.2: vill is set and it needs a
/// configuration; an operand has no such width or number of registers, or begins at a register that isn't a multiple of it;
/// a segment is too long; it overwrites its mask; or a source in registers that it needs still; or any source, where it
/// reads elements of other places; it can't begin behind the first element; or 64 bits have no high half of a product.
pub fn legal(i: &Instr, at: &Setting) -> bool
    ensures { result ≡ not (is_illegal i.now (view_of at.now)) }
{
    match i.op.class() {
        Class::VectorArithmetic(family) => {
            let operands = family.operands();
            if are_single(operands) {
                single_arithmetic(family, i.op.shape(), i, at)
            } else {
                arithmetic(family, operands, i.op.shape(), i, at)
            }
        }
        Class::VectorLoad(addressing, width) => load(addressing, width, i, at),
        Class::VectorStore(addressing, width) => store(addressing, width, i, at),
        class => !(at.is_ill() && !needs_none(class)),
    }
}

/// The operands of most rows, for which the rules come to little once they are told apart.
const SINGLE: Operands = Operands {
    destination: Operand::Single,
    vs2: Operand::Single,
    vs1: Operand::Single,
};

/// Whether operands are those.
#[inline(always)]
fn are_single(operands: Operands) -> bool
    ensures destination { result ≡ true → operands.destination ≡ operand.Single }
    ensures vs2 { result ≡ true → operands.vs2 ≡ operand.Single }
    ensures vs1 { result ≡ true → operands.vs1 ≡ operand.Single }
{
    is_single(operands.destination) && is_single(operands.vs2) && is_single(operands.vs1)
}

#[inline(always)]
fn is_single(o: Operand) -> bool
    ensures { result ≡ true → o ≡ operand.Single }
{
    match o {
        Operand::Single => true,
        _ => false,
    }
}

/// Whether a row of vector arithmetic with those operands is legal: the common case, in code of its own.
#[inline(always)]
fn single_arithmetic(family: Family, shape: Shape, i: &Instr, at: &Setting) -> bool
    requires class { class_of i.now.op ≡ class.VectorArithmetic family }
    requires shape { shape_of i.now.op ≡ shape }
    requires destination { (operands_of family).destination ≡ operand.Single }
    requires vs2 { (operands_of family).vs2 ≡ operand.Single }
    requires vs1 { (operands_of family).vs1 ≡ operand.Single }
    ensures { result ≡ not (is_illegal i.now (view_of at.now)) }
{
    match shape {
        Shape::Vector(First::Vector, Second::Vector, vm) => {
            singles(
                family,
                Shape::Vector(First::Vector, Second::Vector, vm),
                i,
                at,
            )
        }
        Shape::Vector(First::Integer, Second::Vector, vm) => {
            singles(
                family,
                Shape::Vector(First::Integer, Second::Vector, vm),
                i,
                at,
            )
        }
        _ => singles(family, shape, i, at),
    }
}

/// The same of one shape: where the shape is known, little of the rules is left.
#[inline(always)]
fn singles(family: Family, shape: Shape, i: &Instr, at: &Setting) -> bool
    requires class { class_of i.now.op ≡ class.VectorArithmetic family }
    requires shape { shape_of i.now.op ≡ shape }
    requires destination { (operands_of family).destination ≡ operand.Single }
    requires vs2 { (operands_of family).vs2 ≡ operand.Single }
    requires vs1 { (operands_of family).vs1 ≡ operand.Single }
    ensures { result ≡ not (is_illegal i.now (view_of at.now)) }
{
    let groups = arithmetic_groups(family, SINGLE, shape, i, at);
    obeys_all(i, at, &groups)
}

/// Whether a row of vector arithmetic with these operands is legal.
#[inline(never)]
fn arithmetic(family: Family, operands: Operands, shape: Shape, i: &Instr, at: &Setting) -> bool
    requires class { class_of i.now.op ≡ class.VectorArithmetic family }
    requires shape { shape_of i.now.op ≡ shape }
    requires operands { operands ≡ operands_of family }
    ensures { result ≡ not (is_illegal i.now (view_of at.now)) }
{
    let groups = arithmetic_groups(family, operands, shape, i, at);
    obeys_all(i, at, &groups)
}

/// Whether a vector load is legal.
#[inline(never)]
fn load(addressing: Addressing, width: Eew, i: &Instr, at: &Setting) -> bool
    requires { class_of i.now.op ≡ class.VectorLoad addressing width }
    ensures { result ≡ not (is_illegal i.now (view_of at.now)) }
{
    let groups = load_groups(addressing, width, i, at);
    obeys_all(i, at, &groups)
}

/// Whether a vector store is legal.
#[inline(never)]
fn store(addressing: Addressing, width: Eew, i: &Instr, at: &Setting) -> bool
    requires { class_of i.now.op ≡ class.VectorStore addressing width }
    ensures { result ≡ not (is_illegal i.now (view_of at.now)) }
{
    let groups = store_groups(addressing, width, i, at);
    obeys_all(i, at, &groups)
}

/// Whether an instruction obeys all rules.
#[inline(always)]
fn obeys_all(i: &Instr, at: &Setting, groups: &Groups) -> bool
    requires { AreGroupsOf groups.now i.now (view_of at.now) }
    ensures { result ≡ not (is_illegal i.now (view_of at.now)) }
{
    !(lacks_configuration(i, at, groups)
        || has_bad_group(i, at, groups)
        || has_long_segment(i, at, groups)
        || overwrites_mask(i, at, groups)
        || overlaps_badly(i, at, groups)
        || meets_source(i, at, groups)
        || begins_late(i, at, groups)
        || is_too_wide(i, at, groups))
}

/// vill is set, and the instruction needs a configuration.
#[inline(always)]
fn lacks_configuration(i: &Instr, at: &Setting, groups: &Groups) -> bool
    requires { AreGroupsOf groups.now i.now (view_of at.now) }
    ensures { result ≡ lacks_configuration i.now (view_of at.now) }
{
    at.is_ill() && !needs_none(groups.class)
}

/// An operand has no such width or number of registers, or begins at no multiple of that number.
#[inline(always)]
fn has_bad_group(i: &Instr, at: &Setting, groups: &Groups) -> bool
    requires { AreGroupsOf groups.now i.now (view_of at.now) }
    ensures { result ≡ has_bad_group i.now (view_of at.now) }
{
    is_some_bad(groups.destination) || is_some_bad(groups.second) || is_some_bad(groups.first)
}

/// The fields of a segment take more than eight registers, or pass the last.
#[inline(always)]
fn has_long_segment(i: &Instr, at: &Setting, groups: &Groups) -> bool
    requires { AreGroupsOf groups.now i.now (view_of at.now) }
    ensures { result ≡ has_long_segment i.now (view_of at.now) }
{
    is_some_too_long(groups.destination)
        || is_some_too_long(groups.second)
        || is_some_too_long(groups.first)
}

/// The destination of a masked instruction meets the mask.
#[inline(always)]
fn overwrites_mask(i: &Instr, at: &Setting, groups: &Groups) -> bool
    requires { AreGroupsOf groups.now i.now (view_of at.now) }
    ensures { result ≡ overwrites_mask i.now (view_of at.now) }
{
    !i.vm && !may_write_mask(groups.class) && meets_mask(groups.destination)
}

/// The destination meets a source of another width in registers that are needed still.
#[inline(always)]
fn overlaps_badly(i: &Instr, at: &Setting, groups: &Groups) -> bool
    requires { AreGroupsOf groups.now i.now (view_of at.now) }
    ensures { result ≡ overlaps_badly i.now (view_of at.now) }
{
    match groups.destination {
        Some(d) => {
            !reads_first(groups.class) && (clashes(d, groups.second) || clashes(d, groups.first))
        }
        None => false,
    }
}

/// The destination meets a source of an instruction whose elements come from other places.
#[inline(always)]
fn meets_source(i: &Instr, at: &Setting, groups: &Groups) -> bool
    requires { AreGroupsOf groups.now i.now (view_of at.now) }
    ensures { result ≡ meets_source i.now (view_of at.now) }
{
    match groups.destination {
        Some(d) => is_kept_apart(groups.class, i.nf) && meets_any(d, groups, i.vm),
        None => false,
    }
}

/// The instruction is to begin behind the first element, and can't.
#[inline(always)]
fn begins_late(i: &Instr, at: &Setting, groups: &Groups) -> bool
    requires { AreGroupsOf groups.now i.now (view_of at.now) }
    ensures { result ≡ begins_late i.now (view_of at.now) }
{
    at.vstart != 0 && begins_at_first(groups.class)
}

/// The high half of a product at 64 bits.
#[inline(always)]
fn is_too_wide(i: &Instr, at: &Setting, groups: &Groups) -> bool
    requires { AreGroupsOf groups.now i.now (view_of at.now) }
    ensures { result ≡ is_too_wide i.now (view_of at.now) }
{
    at.sew() == 64 && is_high_half(groups.class)
}

/// The width of a group's elements isn't one that an element may have.
#[inline(always)]
fn is_bad_width(g: Group) -> bool
    ensures { result ≡ is_bad_width g }
{
    !g.is_mask && !(8 <= g.eew && g.eew <= 64)
}

/// A group has no such width or number of registers, or begins at no multiple of that number.
#[inline(always)]
fn is_bad_group(g: Group) -> bool
    ensures { result ≡ is_bad_group g }
{
    is_bad_width(g)
        || !(1 <= g.emul_eighths && g.emul_eighths <= 64)
        || !(g.register % g.registers() == 0)
}

/// The same of an operand, where there is one.
#[inline(always)]
fn is_some_bad(g: Option<Group>) -> bool
    ensures { result ≡ some_group (option_to_list g) is_bad_group }
{
    match g {
        Some(g) => is_bad_group(g),
        None => false,
    }
}

/// The fields of a group take more than eight registers, or pass the last.
#[inline(always)]
fn is_too_long(g: Group) -> bool
    ensures { result ≡ is_too_long g }
{
    !(g.fields == 1)
        && (64 < u64::from(g.fields) * u64::from(g.emul_eighths)
            || 32 < u64::from(g.register) + g.extent())
}

/// The same of an operand, where there is one.
#[inline(always)]
fn is_some_too_long(g: Option<Group>) -> bool
    ensures { result ≡ some_group (option_to_list g) is_too_long }
{
    match g {
        Some(g) => is_too_long(g),
        None => false,
    }
}

/// A destination, where there is one, meets the mask.
#[inline(always)]
fn meets_mask(d: Option<Group>) -> bool
    ensures { result ≡ some_group (option_to_list d) (meet (mask_at 0)) }
{
    match d {
        Some(d) => mask_at(0).meets(d),
        None => false,
    }
}

/// Whether a destination and a source may have registers in common: they have one width; or the destination is narrower, at
/// the source's lowest part; or wider, with the source at its highest part.
#[inline(always)]
fn may_meet(d: Group, s: Group) -> bool
    ensures { result ≡ may_meet d s }
{
    d.eew == s.eew
        || (d.eew < s.eew && d.register == s.register)
        || (s.eew < d.eew
            && 8 <= s.emul_eighths
            && u64::from(s.register) + s.extent() == u64::from(d.register) + d.extent())
}

/// A destination meets a source, where there is one, and may not.
#[inline(always)]
fn clashes(d: Group, s: Option<Group>) -> bool
    ensures { result ≡ some_group (option_to_list s) (λ s. meet d s && not (may_meet d s)) }
{
    match s {
        Some(s) => d.meets(s) && !may_meet(d, s),
        None => false,
    }
}

/// A destination meets a source, where there is one.
#[inline(always)]
fn meets_some(d: Group, s: Option<Group>) -> bool
    ensures { result ≡ some_group (option_to_list s) (meet d) }
{
    match s {
        Some(s) => d.meets(s),
        None => false,
    }
}

/// A destination meets a source, or the mask of a masked instruction.
#[inline(always)]
fn meets_any(d: Group, groups: &Groups, vm: bool) -> bool
    ensures { result ≡ (some_group (option_to_list groups.now.second ++ option_to_list groups.now.first) (meet d) || (not vm && meet d (mask_at 0))) }
{
    meets_some(d, groups.second) || meets_some(d, groups.first) || (!vm && d.meets(mask_at(0)))
}

/// Instructions that need no configuration.
#[inline(always)]
fn needs_none(class: Class) -> bool
    ensures { result ≡ needs_none class }
{
    match class {
        Class::Set => true,
        Class::VectorLoad(Addressing::Whole, _) => true,
        Class::VectorStore(Addressing::Whole, _) => true,
        Class::VectorArithmetic(f) => is_whole_move(f),
        _ => false,
    }
}

/// The moves of whole registers.
#[inline(always)]
fn is_whole_move(f: Family) -> bool
    ensures { result ≡ needs_none (class.VectorArithmetic f) }
{
    match f {
        Family::Vmv1r | Family::Vmv2r | Family::Vmv4r | Family::Vmv8r => true,
        _ => false,
    }
}

/// The comparisons, and the carries and borrows that are masks.
#[inline(always)]
fn compares(f: Family) -> bool
    ensures { result ≡ compares f }
{
    match f {
        Family::Vmadc
        | Family::Vmsbc
        | Family::Vmseq
        | Family::Vmsne
        | Family::Vmsltu
        | Family::Vmslt
        | Family::Vmsleu
        | Family::Vmsle
        | Family::Vmsgtu
        | Family::Vmsgt => true,
        _ => false,
    }
}

/// The reductions.
#[inline(always)]
fn reduces(f: Family) -> bool
    ensures { result ≡ reduces f }
{
    match f {
        Family::Vredsum
        | Family::Vredand
        | Family::Vredor
        | Family::Vredxor
        | Family::Vredminu
        | Family::Vredmin
        | Family::Vredmaxu
        | Family::Vredmax
        | Family::Vwredsumu
        | Family::Vwredsum => true,
        _ => false,
    }
}

/// Instructions that may write their mask.
#[inline(always)]
fn may_write_mask(class: Class) -> bool
    ensures { result ≡ may_write_mask class }
{
    match class {
        Class::VectorArithmetic(f) => compares(f) || reduces(f),
        _ => false,
    }
}

/// Instructions that read what they need before they write.
#[inline(always)]
fn reads_first(class: Class) -> bool
    ensures { result ≡ reads_first class }
{
    match class {
        Class::VectorArithmetic(f) => family_reads_first(f),
        _ => false,
    }
}

#[inline(always)]
fn family_reads_first(f: Family) -> bool
    ensures { result ≡ reads_first (class.VectorArithmetic f) }
{
    match f {
        Family::VmvXS
        | Family::VmvSX
        | Family::Vmv1r
        | Family::Vmv2r
        | Family::Vmv4r
        | Family::Vmv8r => true,
        _ => reduces(f),
    }
}

/// Instructions whose elements come from other places.
#[inline(always)]
fn is_kept_apart(class: Class, nf: u8) -> bool
    ensures { result ≡ is_kept_apart class nf }
{
    match class {
        Class::VectorArithmetic(f) => family_is_kept_apart(f),
        Class::VectorLoad(Addressing::Unordered, _) => 0 < nf,
        Class::VectorLoad(Addressing::Ordered, _) => 0 < nf,
        _ => false,
    }
}

#[inline(always)]
fn family_is_kept_apart(f: Family) -> bool
    ensures { (nf : ℕ) → result ≡ is_kept_apart (class.VectorArithmetic f) nf }
{
    match f {
        Family::Vslideup
        | Family::Vslide1up
        | Family::Vrgather
        | Family::Vrgatherei16
        | Family::Vcompress
        | Family::Viota
        | Family::Vmsbf
        | Family::Vmsif
        | Family::Vmsof => true,
        _ => false,
    }
}

/// Instructions that begin at the first element alone.
#[inline(always)]
fn begins_at_first(class: Class) -> bool
    ensures { result ≡ begins_at_first class }
{
    match class {
        Class::VectorArithmetic(f) => family_begins_at_first(f),
        _ => false,
    }
}

#[inline(always)]
fn family_begins_at_first(f: Family) -> bool
    ensures { result ≡ begins_at_first (class.VectorArithmetic f) }
{
    match f {
        Family::Vcompress
        | Family::Vcpop
        | Family::Vfirst
        | Family::Viota
        | Family::Vmsbf
        | Family::Vmsif
        | Family::Vmsof => true,
        _ => reduces(f),
    }
}

/// Products whose high half is kept.
#[inline(always)]
fn is_high_half(class: Class) -> bool
    ensures { result ≡ is_high_half class }
{
    match class {
        Class::VectorArithmetic(f) => family_is_high_half(f),
        _ => false,
    }
}

#[inline(always)]
fn family_is_high_half(f: Family) -> bool
    ensures { result ≡ is_high_half (class.VectorArithmetic f) }
{
    match f {
        Family::Vmulh | Family::Vmulhu | Family::Vmulhsu | Family::Vsmul => true,
        _ => false,
    }
}
