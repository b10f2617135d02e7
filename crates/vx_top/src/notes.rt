ghost use Rattle.std.specs.Prelude.{◌≡◌, IfOk, string_bytes};
ghost use Rattle.vx_words.specs.Notes.{bad_words, read_failed, write_failed, too_few_frames, no_memory};

use std::alloc::{AllocError, Global};

/// How many bytes a file may have: 32 MiB.
pub const FILE_LIMIT: u64 = 33_554_432;

/// The note where memory was wanting. It takes none.
pub fn no_memory() -> &'static str
    ensures { result.now ≡ no_memory }
{
    "vexec: no memory\n"
}

/// The note where the output could not be written. It takes no memory.
pub fn write_failed() -> &'static str
    ensures { result.now ≡ write_failed }
{
    "vexec: write failed\n"
}

/// The note where the words ask for nothing.
pub fn bad_words(alloc: Global, index: usize) -> Result<String, AllocError>
    ensures { IfOk result (λ text. string_bytes text ≡ bad_words index) }
{
    format!(in alloc; "vexec: bad words at {index}\n")
}

/// The note where a file could not be read.
pub fn read_failed(alloc: Global, name: &str) -> Result<String, AllocError>
    ensures { IfOk result (λ text. string_bytes text ≡ read_failed name.now) }
{
    format!(in alloc; "vexec: {name}: read failed\n")
}

/// The note where fewer frames are there than are needed.
pub fn too_few_frames(alloc: Global, need: u64, have: u32) -> Result<String, AllocError>
    ensures { IfOk result (λ text. string_bytes text ≡ too_few_frames need have) }
{
    format!(in alloc; "vexec: frames: {need} needed, {have} given\n")
}
