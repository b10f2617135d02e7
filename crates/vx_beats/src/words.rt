//! Which words an instruction handles.

ghost use Rattle.std.specs.List.{range_with_len};
ghost use Rattle.std.specs.Prelude.{◌≡◌, ◌≤◌, ◌<◌, ◌-◌, ◌/◌, ◌%◌};
ghost use Rattle.vx_beats.specs.Words.{handled_operand, words_from, words_of};
ghost use Rattle.vx_vstate.specs.Vtype.{sew};
ghost use Rattle.vx_vstate.specs.Views.{view_of};

use vx_decode::width_of;
use vx_rows::{Operand, Operands};
use vx_vstate::Setting;

/// Words of a group, counted from its first: those from one on, up to another.
#[derive(Clone, Copy, PartialEq, Eq, Debug)]
pub(crate) struct Span {
    pub(crate) first: u32,
    pub(crate) after: u32,
}

/// No word.
const NONE: Span = Span { first: 0, after: 0 };

/// The first word.
const ONE: Span = Span { first: 0, after: 1 };

/// The operand whose words are handled.
#[inline(always)]
pub(crate) fn handled_operand(operands: Operands) -> Operand
    ensures { result ≡ handled_operand operands }
{
    match operands.destination {
        Operand::Absent | Operand::Element | Operand::WideElement => operands.vs2,
        other => other,
    }
}

/// The bits of a register: a number of whole words.
#[inline(always)]
fn register_bits(at: &Setting) -> u32
    ensures is { result ≡ at.now.vlen }
    ensures whole { result % 64 ≡ 0 }
    ensures some { 0 < result }
    ensures few { result ≤ 2048 }
{
    at.vlen
}

/// How many elements a configuration has: not many.
#[inline(always)]
fn elements(at: &Setting) -> u32
    ensures is { result ≡ at.now.vl }
    ensures few { result ≤ 2048 }
{
    at.vl
}

/// The words of whole registers, of so many bits, that hold the elements from vstart on.
#[inline(always)]
fn whole_words(bits: u32, at: &Setting) -> Span
    requires whole { bits % 64 ≡ 0 }
    requires few { bits ≤ 16384 }
    ensures few { result.after ≤ 4096 }
    ensures words { words_from (sew at.now.vtype) at.now.vstart (bits / sew at.now.vtype) ≡ range_with_len result.first (result.after - result.first) }
{
    let _register = register_bits(at);
    let from = at.vstart * at.sew();
    if from < bits {
        Span {
            first: from / 64,
            after: bits / 64,
        }
    } else {
        NONE
    }
}

/// The words that hold the elements of a width from vstart on, below vl.
#[inline(always)]
fn element_words(width: u32, at: &Setting) -> Span
    requires { width ≤ 128 }
    ensures few { result.after ≤ 4096 }
    ensures words { words_from width at.now.vstart at.now.vl ≡ range_with_len result.first (result.after - result.first) }
{
    let count = elements(at);
    let _register = register_bits(at);
    if at.vstart < count {
        Span {
            first: at.vstart * width / 64,
            after: (count - 1) * width / 64 + 1,
        }
    } else {
        NONE
    }
}

/// The words of an operand that are handled.
#[inline(always)]
pub(crate) fn words_of(operand: Operand, at: &Setting) -> Span
    ensures few { result.after ≤ 4096 }
    ensures words { words_of operand (view_of at.now) ≡ range_with_len result.first (result.after - result.first) }
{
    let bits = register_bits(at);
    match operand {
        Operand::Element => ONE,
        Operand::Absent => { if at.vstart < at.vl { ONE } else { NONE } }
        Operand::Whole1 => whole_words(bits, at),
        Operand::Whole2 => whole_words(2 * bits, at),
        Operand::Whole4 => whole_words(4 * bits, at),
        Operand::Whole8 => whole_words(8 * bits, at),
        Operand::Single
        | Operand::Double
        | Operand::Half
        | Operand::Quarter
        | Operand::Eighth
        | Operand::Sixteen
        | Operand::Mask
        | Operand::WideElement => element_words(width_of(operand, at.sew()), at),
    }
}
