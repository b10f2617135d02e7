ghost use Rattle.std.specs.Prelude.{◌≡◌, ◌+◌, ◌^◌, ◌<◌, ◌++◌, [], ◌∷◌, List, length, replicate, OnOk};
ghost use Rattle.vx_language.specs.Statements as language;
ghost use Rattle.vx_language.specs.Statements.{chunk_size};
ghost use Rattle.vx_code.specs.Filling.{chunk_seen};
ghost use Rattle.vx_asm.specs.Parts.{IsPart};

use std::alloc::{AllocError, Global};
use vx_code::Chunk;

/// The bytes of a section so far.
#[derive(Debug, Drop)]
pub struct Part {
    /// The bytes up to the last that isn't one of `zeros`.
    pub bytes: Vec<u8>,
    /// How many zeros stand behind them that needn't be in the file.
    pub zeros: u64,
}

impl Part {
    /// No bytes.
    pub fn new(alloc: Global) -> Part
        ensures part { IsPart [] result }
        ensures none { length result.bytes.items + result.zeros ≡ 0 }
    {
        Part {
            bytes: Vec::new(alloc),
            zeros: 0,
        }
    }

    /// Puts the zeros among the bytes. What an error leaves is open.
    pub fn flush(&mut self) -> Result<(), AllocError>
        requires { self.old.zeros < 2 ^ 32 }
        ensures bytes { OnOk result (self.new.bytes.items ≡ self.old.bytes.items ++ replicate self.old.zeros 0) }
        ensures zeros { OnOk result (self.new.zeros ≡ 0) }
    {
        let size = self.bytes.len() + self.zeros as usize;
        self.bytes.resize(size, 0)?;
        self.zeros = 0;
        Ok(())
    }

    /// Puts bytes behind these. What an error leaves is open.
    fn put_bytes(&mut self, bytes: &[u8]) -> Result<(), AllocError>
        requires { self.old.zeros < 2 ^ 32 }
        ensures part { OnOk result ((chunks : List language.Chunk) → IsPart chunks self.old → IsPart (chunks ++ language.Plain bytes.now ∷ []) self.new) }
        ensures size { OnOk result (length self.new.bytes.items + self.new.zeros ≡ length self.old.bytes.items + self.old.zeros + length bytes.now) }
    {
        if bytes.is_empty() {
            return Ok(());
        }
        self.flush()?;
        self.bytes.extend_from_slice(bytes)?;
        Ok(())
    }

    /// Puts what a statement puts. What an error leaves is open.
    pub fn put(&mut self, chunk: &Chunk) -> Result<(), AllocError>
        requires { self.old.zeros + chunk_size (chunk_seen chunk.now) < 2 ^ 32 }
        ensures part { OnOk result ((chunks : List language.Chunk) → IsPart chunks self.old → IsPart (chunks ++ chunk_seen chunk.now ∷ []) self.new) }
        ensures size { OnOk result (length self.new.bytes.items + self.new.zeros ≡ length self.old.bytes.items + self.old.zeros + chunk_size (chunk_seen chunk.now)) }
    {
        match chunk {
            Chunk::Plain(bytes) => self.put_bytes(bytes.as_slice()),
            Chunk::Zeros(count) => {
                self.zeros += *count;
                Ok(())
            }
        }
    }
}
