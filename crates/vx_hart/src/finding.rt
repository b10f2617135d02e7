ghost use Rattle.std.specs.Prelude.{◌≡◌, ℕ, List};
ghost use Rattle.vx_flat.specs.Step.{upcoming};
ghost use Rattle.vx_hart.specs.Found.{IsValidFound, next_of};
ghost use Rattle.vx_hart.specs.Outcomes.{flat_of};

use crate::arch::Arch;
use crate::memory::Memory;
use vx_decode::{Known, KnownWords, decoded_is_valid};

/// What stands at the pc.
#[derive(Clone, Copy, Debug)]
pub enum Found<'w> {
    /// It can't be fetched.
    Denied,
    /// A word that means no instruction.
    Unknown(u32),
    /// A word, and the instruction that it means.
    Known(u32, &'w Known),
}

/// What stands at the pc, by the words that were decoded. Whether it is legal isn't looked at.
#[inline(always)]
pub fn find<'w, P, M: Memory<P>>(
    words: &'w mut KnownWords,
    arch: &Arch,
    memory: &mut M,
    physical: &mut P,
) -> Found<'w>
    requires fits { M.fits memory.old physical.old }
    ensures fits { M.fits memory.new physical.new }
    ensures rest { M.rest memory.new physical.new ≡ M.rest memory.old physical.old }
    ensures memory { M.state memory.new physical.new ≡ M.state memory.old physical.old }
    ensures valid { IsValidFound result }
    ensures found { (output : List ℕ) → let s = flat_of arch.now (M.state memory.old physical.old) output in upcoming s ≡ next_of s result }
{
    decoded_is_valid();
    let Some(word) = memory.word(physical, arch.pc) else {
        return Found::Denied;
    };
    let Some(known) = words.lookup(word) else {
        return Found::Unknown(word);
    };
    Found::Known(word, known)
}
