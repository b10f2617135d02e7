ghost use Rattle.std.specs.Prelude.{◌≡◌, ◌+◌, ◌≤◌, ◌<◌, length, IsTrue, IsFalse, IfOk, Some, None};
ghost use Rattle.vx_base.specs.Options.{is_register_length};
ghost use Rattle.vx_vstate.specs.Control.{control_read, control_written};
ghost use Rattle.vx_vstate.specs.Registers.{place_of, words_of_all};
ghost use Rattle.vx_vstate.specs.State.{first_state, with_setting, with_register_word, with_register_words, finished};

use crate::avl::Avl;
use crate::configure::{Configured, configure};
use crate::file::{WordFile, place};
use crate::setting::Setting;
use crate::vtype::VILL;
use std::alloc::{AllocError, Global};
use std::marker::Model;

/// The vector state (RISC-V "V" 1.0, section 3): the 32 registers as words of 64 bits, the configuration and the control
/// registers.
#[derive(Debug, Drop)]
pub struct VState {
    vlen: u32,
    words: Vec<u64>,
    vl: u32,
    vtype: u64,
    vstart: u32,
    vxsat: bool,
    vxrm: u8,
}

impl Model for VState {
    ghost use Rattle.vx_vstate.specs.State.{VectorState, IsVectorState};

    ghost Value = { VectorState };

    ghost view = { λ s. record {
      vlen = s.vlen;
      words = s.words.items;
      vl = s.vl;
      vtype = s.vtype;
      vstart = s.vstart;
      vxsat = s.vxsat;
      vxrm = s.vxrm;
    } };

    ghost invariant = { λ s. IsVectorState (record {
      vlen = s.vlen;
      words = s.words.items;
      vl = s.vl;
      vtype = s.vtype;
      vstart = s.vstart;
      vxsat = s.vxsat;
      vxrm = s.vxrm;
    }) };
}

impl VState {
    ghost use Rattle.vx_vstate.specs.State.{setting_of, IsVectorState};
    ghost use Rattle.vx_vstate.specs.Views.{view_of};

    /// The first state of a machine whose registers have `vlen` bits: all is 0, and vtype is vill. Takes all the memory
    /// that the state will need. `Err` where memory is wanting.
    pub fn new(alloc: Global, vlen: u32) -> Result<VState, AllocError>
        requires { IsTrue (is_register_length vlen) }
        ensures { IfOk result (λ state. state ≡ first_state vlen) }
    {
        let words = vec![in alloc; 0; 32 * (vlen as usize / 64)]?;
        Ok(VState {
            vlen,
            words,
            vl: 0,
            vtype: VILL,
            vstart: 0,
            vxsat: false,
            vxrm: 0,
        })
    }

    /// Configures by an application's length and a wanted vtype (RISC-V "V" 1.0, section 6): sets vl and vtype, and
    /// vstart to 0. Answers the new vl.
    pub fn set_vl(&mut self, avl: Avl, vtype: u64) -> u64
        ensures becomes { self.new ≡ with_setting self.old avl vtype }
        ensures answers { result ≡ self.new.vl }
    {
        let old = Configured {
            vl: self.vl,
            vtype: self.vtype,
        };
        let new = configure(self.vlen, old, avl, vtype);
        self.vl = new.vl;
        self.vtype = new.vtype;
        self.vstart = 0;
        u64::from(new.vl)
    }

    /// What the control register of a number reads: vstart, vxsat, vxrm, vcsr, vl, vtype or vlenb. `None` exactly where
    /// the number is none of the seven.
    pub fn csr_read(&self, csr: u32) -> Option<u64>
        ensures { result ≡ control_read self.now csr }
    {
        match csr {
            0x008 => Some(u64::from(self.vstart)),
            0x009 => Some(u64::from(self.vxsat)),
            0x00a => Some(u64::from(self.vxrm)),
            0x00f => Some(2 * u64::from(self.vxrm) + u64::from(self.vxsat)),
            0xc20 => Some(u64::from(self.vl)),
            0xc21 => Some(self.vtype),
            0xc22 => Some(u64::from(self.vlen / 8)),
            _ => None,
        }
    }

    /// Writes the control register of a number: vstart, vxsat, vxrm or vcsr, each of which keeps its low bits. Answers
    /// whether it did; false exactly where the number is none of the four, and then nothing changes.
    pub fn csr_write(&mut self, csr: u32, value: u64) -> bool
        ensures written { IsTrue result → control_written self.old csr value ≡ Some self.new }
        ensures refused { IsFalse result → control_written self.old csr value ≡ None }
        ensures unchanged { IsFalse result → self.new ≡ self.old }
    {
        match csr {
            0x008 => self.vstart = (value % u64::from(self.vlen)) as u32,
            0x009 => self.vxsat = value % 2 == 1,
            0x00a => self.vxrm = (value % 4) as u8,
            0x00f => {
                self.vxsat = value % 2 == 1;
                self.vxrm = (value / 2 % 4) as u8;
            }
            _ => return false,
        }
        true
    }

    /// The present state as an instruction sees it, with the value of its scalar register.
    pub fn setting(&self, scalar: u64) -> Setting
        ensures { view_of result ≡ setting_of self.now scalar }
    {
        Setting {
            vlen: self.vlen,
            vl: self.vl,
            vtype: self.vtype,
            vstart: self.vstart,
            vxrm: self.vxrm,
            scalar,
        }
    }

    /// Sets word `w` of the group that begins at register `r`.
    pub fn put_word(&mut self, r: u8, w: u32, value: u64)
        requires within { place_of self.old.vlen r w < words_of_all self.old.vlen }
        ensures { self.new ≡ with_register_word self.old r w value }
    {
        let place = place(self.vlen, r, w);
        self.words[place] = value;
    }

    /// Sets words one behind another, from word `w` of the group that begins at register `r` on.
    pub fn put_words(&mut self, r: u8, w: u32, values: &[u64])
        requires within { place_of self.old.vlen r w + length values.now ≤ words_of_all self.old.vlen }
        ensures { self.new ≡ with_register_words self.old r w values.now }
    {
        let start = place(self.vlen, r, w);
        self.words[start..start + values.len()].copy_from_slice(values);
    }

    /// Ends an instruction: sets vstart, and joins vxsat with what it saturated.
    pub fn finish(&mut self, vstart: u32, sat: bool)
        requires { vstart < self.old.vlen }
        ensures { self.new ≡ finished self.old vstart sat }
    {
        self.vstart = vstart;
        self.vxsat = self.vxsat || sat;
    }

    /// Sets vl to a length that isn't above the present one.
    pub fn trim(&mut self, vl: u32)
        requires { vl ≤ self.old.vl }
        ensures { self.new ≡ record self.old { vl = vl } }
    {
        self.vl = vl;
    }

    /// Bits of a vector register. Whatever is true of every state is so of this one.
    pub fn vlen(&self) -> u32
        ensures is { result ≡ self.now.vlen }
        ensures in_range { IsVectorState self.now }
    {
        self.vlen
    }

    /// Elements.
    pub fn vl(&self) -> u32
        ensures { result ≡ self.now.vl }
    {
        self.vl
    }

    /// The element to start at.
    pub fn vstart(&self) -> u32
        ensures { result ≡ self.now.vstart }
    {
        self.vstart
    }

    /// The words of all registers, those of a register one behind another.
    pub fn words(&self) -> &[u64]
        ensures { result.now ≡ self.now.words }
    {
        self.words.as_slice()
    }
}

impl WordFile for VState {
    ghost vlen = { λ s. s.vlen };

    ghost words = { λ s. s.words };

    fn word(&self, r: u8, w: u32) -> u64 {
        self.words[place(self.vlen, r, w)]
    }
}
