//! What an instruction's addressing says of its accesses.

ghost use Rattle.std.specs.Prelude.{◌≡◌, ◌≤◌};
ghost use Rattle.vx_decode.specs.Groups.{bits_of_eew, moved};
ghost use Rattle.vx_decode.specs.declared.instr.Instr.{Instr};
ghost use Rattle.vx_vaddr.specs.Patterns.{index_width_by, step_by};
ghost use Rattle.vx_vector.specs.Accesses.{count_by, moved_width};
ghost use Rattle.vx_vstate.specs.Groups.{emul_eighths, registers_of_group};
ghost use Rattle.vx_vstate.specs.Views.{view_of};

use vx_decode::{Instr, bits_of_eew};
use vx_rows::{Addressing, Eew};
use vx_vstate::Setting;

/// The width of an access, in bits: of elements, or of a mask's bytes.
#[inline(always)]
pub(crate) fn width(addressing: Addressing, encoded: Eew, at: &Setting) -> u32
    ensures is { (i : Instr) → result ≡ moved_width addressing (moved addressing encoded i (view_of at.now)).eew }
    ensures least { 8 ≤ result }
    ensures most { result ≤ 64 }
{
    match addressing {
        Addressing::Unit => bits_of_eew(encoded),
        Addressing::FaultOnlyFirst => bits_of_eew(encoded),
        Addressing::Whole => bits_of_eew(encoded),
        Addressing::MaskBits => 8,
        Addressing::Strided => bits_of_eew(encoded),
        Addressing::Unordered => at.sew(),
        Addressing::Ordered => at.sew(),
    }
}

/// The fields of an element.
#[inline(always)]
pub(crate) fn fields(addressing: Addressing, encoded: Eew, i: &Instr, at: &Setting) -> u32
    ensures is { result ≡ (moved addressing encoded i.now (view_of at.now)).fields }
    ensures most { result ≤ 256 }
{
    match addressing {
        Addressing::Unit => u32::from(i.nf) + 1,
        Addressing::FaultOnlyFirst => u32::from(i.nf) + 1,
        Addressing::Whole => 1,
        Addressing::MaskBits => 1,
        Addressing::Strided => u32::from(i.nf) + 1,
        Addressing::Unordered => u32::from(i.nf) + 1,
        Addressing::Ordered => u32::from(i.nf) + 1,
    }
}

/// The registers of a group of elements of a width.
#[inline(always)]
fn registers_of_group(at: &Setting, width: u32) -> u32
    requires { width ≤ 64 }
    ensures is { result ≡ registers_of_group (emul_eighths at.now.vtype width) }
    ensures most { result ≤ 512 }
{
    (width * at.lmul_eighths() / at.sew() / 8).max(1)
}

/// The registers from one field's to the next one's.
#[inline(always)]
pub(crate) fn registers(addressing: Addressing, encoded: Eew, i: &Instr, at: &Setting) -> u32
    ensures is { result ≡ registers_of_group (moved addressing encoded i.now (view_of at.now)).emul_eighths }
    ensures most { result ≤ 512 }
{
    match addressing {
        Addressing::Unit => registers_of_group(at, bits_of_eew(encoded)),
        Addressing::FaultOnlyFirst => registers_of_group(at, bits_of_eew(encoded)),
        Addressing::Whole => u32::from(i.nf) + 1,
        Addressing::MaskBits => 1,
        Addressing::Strided => registers_of_group(at, bits_of_eew(encoded)),
        Addressing::Unordered => registers_of_group(at, at.sew()),
        Addressing::Ordered => registers_of_group(at, at.sew()),
    }
}

/// How many elements there are, of a width.
#[inline(always)]
pub(crate) fn count(addressing: Addressing, at: &Setting, registers: u32, width: u32) -> u32
    requires few { registers ≤ 512 }
    requires some { 8 ≤ width }
    ensures { result ≡ count_by addressing at.now.vl at.now.vlen registers width }
{
    let _most = at.vlmax();
    match addressing {
        Addressing::Unit => at.vl,
        Addressing::FaultOnlyFirst => at.vl,
        Addressing::Whole => registers * at.vlen / width,
        Addressing::MaskBits => (at.vl + 7) / 8,
        Addressing::Strided => at.vl,
        Addressing::Unordered => at.vl,
        Addressing::Ordered => at.vl,
    }
}

/// From one element's address to the next one's, where there are no indices.
#[inline(always)]
pub(crate) fn step(addressing: Addressing, bytes: u64, stride: u64) -> u64
    ensures { result ≡ step_by addressing bytes stride }
{
    match addressing {
        Addressing::Unit => bytes,
        Addressing::FaultOnlyFirst => bytes,
        Addressing::Whole => bytes,
        Addressing::MaskBits => bytes,
        Addressing::Strided => stride,
        Addressing::Unordered => 0,
        Addressing::Ordered => 0,
    }
}

/// The width of the indices in bits, 0 where there are none.
#[inline(always)]
pub(crate) fn index_width(addressing: Addressing, encoded: Eew) -> u32
    ensures { result ≡ index_width_by addressing (bits_of_eew encoded) }
{
    match addressing {
        Addressing::Unit => 0,
        Addressing::FaultOnlyFirst => 0,
        Addressing::Whole => 0,
        Addressing::MaskBits => 0,
        Addressing::Strided => 0,
        Addressing::Unordered => bits_of_eew(encoded),
        Addressing::Ordered => bits_of_eew(encoded),
    }
}
