ghost use Rattle.std.specs.Prelude.{◌≡◌, ◌<◌, ◌*◌, ◌/◌, ◌%◌};
ghost use Rattle.vx_base.specs.Page.{byte_of_words};

/// A page of 4,096 bytes (RISC-V Privileged 1.12, section 4.4), as 512 words of 8 bytes. Byte `j` is byte
/// `j % 8`, least first, of word `j / 8`.
#[derive(Clone, Copy, Debug)]
pub struct Page {
    pub words: [u64; 512],
}

impl Page {
    /// Byte `j` of the page.
    pub fn byte(&self, j: usize) -> u8
        requires { j < 4096 }
        ensures { result ≡ byte_of_words self.now.words j }
    {
        (self.words[j / 8] >> (8 * (j % 8)) as u32 & 0xff) as u8
    }
}
