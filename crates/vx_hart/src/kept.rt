//! The vector registers as they were when an instruction began, of which it reads while it writes the registers themselves.

ghost use Rattle.std.specs.Prelude.{◌≡◌, ℕ, IfOk, length};
ghost use Rattle.vx_vaddr.specs.Views.{movement_with};
ghost use Rattle.vx_vector.specs.Accesses.{accesses_of_element};
ghost use Rattle.vx_vstate.specs.Registers.{words_of_all};

use std::alloc::{AllocError, Global};
use std::marker::Model;
use vx_vaddr::AccessPattern;
use vx_vstate::{VState, WordFile};

/// The words of vector registers, for reading. It takes all its memory when it is made.
#[derive(Debug, Drop)]
pub struct Kept {
    vlen: u32,
    words: Vec<u64>,
}

impl Model for Kept {
    ghost use Rattle.std.specs.Prelude.{◌≡◌, ◌≤◌, length, vec_capacity};
    ghost use Rattle.vx_hart.specs.Registers.{Registers};
    ghost use Rattle.vx_vstate.specs.Registers.{words_of_all};

    ghost Value = { Registers };

    ghost view = { λ k. record { vlen = k.vlen; words = k.words.items } };

    ghost invariant = { λ k. (1024 ≤ vec_capacity k.words) × (length k.words.items ≡ words_of_all k.vlen) };
}

impl Kept {
    /// No registers yet.
    pub fn new(alloc: Global) -> Result<Kept, AllocError> {
        Ok(Kept {
            vlen: 0,
            words: Vec::with_capacity(alloc, 1024)?,
        })
    }

    /// Keeps the registers as they are, where accesses depend on them.
    #[inline(always)]
    pub fn keep_for(&mut self, pattern: &AccessPattern, v: &VState)
        ensures length { self.new.vlen ≡ v.now.vlen }
        ensures count { length self.new.words ≡ words_of_all v.now.vlen }
        ensures accesses { (i : ℕ) → accesses_of_element (movement_with pattern.now self.new.words) i ≡ accesses_of_element (movement_with pattern.now v.now.words) i }
    {
        let vlen = v.vlen();
        if pattern.needs_words() || self.vlen != vlen {
            self.keep(v);
        }
    }

    /// Keeps the registers as they are.
    fn keep(&mut self, v: &VState)
        ensures { self.new ≡ record { vlen = v.now.vlen; words = v.now.words } }
    {
        self.vlen = v.vlen();
        self.words.clear();
        let _ = self.words.extend_from_slice(v.words());
    }
}

impl WordFile for Kept {
    ghost vlen = { λ k. k.vlen };

    ghost words = { λ k. k.words };

    fn word(&self, r: u8, w: u32) -> u64 {
        self.words[r as usize * (self.vlen as usize / 64) + w as usize]
    }
}
