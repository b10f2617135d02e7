ghost use Rattle.std.specs.Prelude.{◌≡◌, ◌≤◌, ◌<◌, IsTrue, ◌==◌};
ghost use Rattle.vx_base.specs.Options.{is_register_length};
ghost use Rattle.vx_vstate.specs.Registers.{is_byte_width};
ghost use Rattle.vx_vstate.specs.Vtype.{
  vill,
  is_vtype,
  most_elements,
  sew,
  lmul_eighths,
  vlmax,
};

use crate::avl::Avl;
use crate::configure::{Configured, configure, vlmax};
use crate::vtype::{VILL, lmul_eighths, sew};

/// One instruction's view of the vector state, and its scalar operand.
#[derive(Clone, Copy, PartialEq, Eq, Debug)]
pub struct Setting {
    /// Bits of a vector register: 128, 256, 512, 1,024 or 2,048.
    pub vlen: u32,
    /// Elements: at most VLMAX, and 0 while vill is set.
    pub vl: u32,
    /// vill alone, or a vtype that is accepted.
    pub vtype: u64,
    /// The element to start at, below `vlen`.
    pub vstart: u32,
    /// The rounding mode, 0 to 3.
    pub vxrm: u8,
    /// The value of the scalar register that the instruction reads.
    pub scalar: u64,
    ghost vlen_in_range: { IsTrue (is_register_length vlen) },
    ghost vtype_in_range: { IsTrue (is_vtype vtype) },
    ghost vl_in_range: { vl ≤ most_elements vlen vtype },
    ghost vstart_in_range: { vstart < vlen },
    ghost vxrm_in_range: { vxrm < 4 },
}

impl Setting {
    ghost use Rattle.vx_vstate.specs.State.{reconfigured};
    ghost use Rattle.vx_vstate.specs.Views.{view_of};

    /// Configures by an application's length and a wanted vtype (RISC-V "V" 1.0, section 6): sets vl and vtype, and
    /// vstart to 0. Answers the new vl.
    pub fn set_vl(&mut self, avl: Avl, vtype: u64) -> u64
        ensures becomes { view_of self.new ≡ reconfigured (view_of self.old) avl vtype }
        ensures answers { result ≡ self.new.vl }
    {
        let old = Configured {
            vl: self.vl,
            vtype: self.vtype,
        };
        let new = configure(self.vlen, old, avl, vtype);
        self.vl = new.vl;
        self.vtype = new.vtype;
        self.vstart = 0;
        u64::from(new.vl)
    }

    /// SEW, the width of an element in bits: 8, 16, 32 or 64.
    pub fn sew(&self) -> u32
        ensures is { result ≡ sew self.now.vtype }
        ensures in_range { IsTrue (is_byte_width result) }
    {
        sew(self.vtype)
    }

    /// LMUL, the registers of a group, in eighths: 1 to 64.
    pub fn lmul_eighths(&self) -> u32
        ensures is { result ≡ lmul_eighths self.now.vtype }
        ensures positive { 1 ≤ result }
        ensures in_range { result ≤ 64 }
    {
        lmul_eighths(self.vtype)
    }

    /// VLMAX, the elements of a group: LMUL * VLEN / SEW. It is at most VLEN, and vl is at most VLMAX.
    /// While vill is set it means nothing (SEW then reads as 8, LMUL as 1), and vl is 0.
    pub fn vlmax(&self) -> u32
        ensures is { result ≡ vlmax self.now.vlen self.now.vtype }
        ensures in_range { result ≤ self.now.vlen }
        ensures holds_vl { self.now.vl ≤ result }
    {
        vlmax(self.vlen, self.vtype)
    }

    /// Whether vill is set.
    pub fn is_ill(&self) -> bool
        ensures { result ≡ (self.now.vtype == vill) }
    {
        self.vtype == VILL
    }
}
