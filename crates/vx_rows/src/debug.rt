//! How operations are printed for debugging: each by its variant's name, from a table, as a derive would print it.

use crate::line::{variants, variants_of_both, with_whole};
use crate::lines::{
    elem_lines, fixed_lines, mask_lines, memory_lines, scalar_lines, whole_lines, widen_lines,
};
use crate::op::{ElemOp, FixedOp, MaskOp, MemoryOp, ScalarOp, WidenOp};
use std::fmt;

static SCALAR: [&'static str; 71] = scalar_lines!(variants);

static ELEM: [&'static str; 73] = elem_lines!(variants);

static WIDEN: [&'static str; 70] = widen_lines!(variants);

static FIXED: [&'static str; 32] = fixed_lines!(variants);

static MASK: [&'static str; 26] = mask_lines!(variants);

static MEMORY: [&'static str; 43] = memory_lines!(with_whole, variants_of_both);

impl fmt::Debug for ScalarOp {
    fn fmt<W: fmt::Write>(&self, f: &mut fmt::Formatter<W>) -> fmt::Result {
        f.write_str(SCALAR[*self as usize])
    }
}

impl fmt::Debug for ElemOp {
    fn fmt<W: fmt::Write>(&self, f: &mut fmt::Formatter<W>) -> fmt::Result {
        f.write_str(ELEM[*self as usize])
    }
}

impl fmt::Debug for WidenOp {
    fn fmt<W: fmt::Write>(&self, f: &mut fmt::Formatter<W>) -> fmt::Result {
        f.write_str(WIDEN[*self as usize])
    }
}

impl fmt::Debug for FixedOp {
    fn fmt<W: fmt::Write>(&self, f: &mut fmt::Formatter<W>) -> fmt::Result {
        f.write_str(FIXED[*self as usize])
    }
}

impl fmt::Debug for MaskOp {
    fn fmt<W: fmt::Write>(&self, f: &mut fmt::Formatter<W>) -> fmt::Result {
        f.write_str(MASK[*self as usize])
    }
}

impl fmt::Debug for MemoryOp {
    fn fmt<W: fmt::Write>(&self, f: &mut fmt::Formatter<W>) -> fmt::Result {
        f.write_str(MEMORY[*self as usize])
    }
}
