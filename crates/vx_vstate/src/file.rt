ghost use Rattle.std.specs.Prelude.{◌≡◌, ℕ, ◌<◌, List, length};
ghost use Rattle.vx_vstate.specs.Registers.{words_of_all, place_of, word_at};

/// The words of the 32 vector registers, for reading.
pub trait WordFile {
    /// The bits of a register.
    ghost vlen: { Self → ℕ };

    /// The words of all registers, those of a register one behind another. A word that the file doesn't know is 0.
    ghost words: { Self → List ℕ };

    /// Word `w` of the group that begins at register `r`, 64 bits, from 0.
    fn word(&self, r: u8, w: u32) -> u64
        requires within { place_of (vlen self.now) r w < words_of_all (vlen self.now) }
        ensures is { result ≡ word_at (vlen self.now) (words self.now) r w }
        ensures all { length (words self.now) ≡ words_of_all (vlen self.now) };
}

/// Where word `w`, counted from the first of register `r` on, stands among the words of all.
pub fn place(vlen: u32, r: u8, w: u32) -> usize
    ensures { result ≡ place_of vlen r w }
{
    r as usize * (vlen as usize / 64) + w as usize
}
