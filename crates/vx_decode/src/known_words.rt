ghost use Rattle.std.specs.Prelude.{◌≡◌, ◌<◌, option_map, vec_len};
ghost use Rattle.vx_decode.specs.Decoded.{decoded};
ghost use Rattle.vx_decode.specs.Known.{Means};

use crate::decoder::decode;
use crate::known::Known;
use std::alloc::{AllocError, Global};
use std::marker::Model;

/// How many words the table keeps at once.
const PLACES: usize = 4096;

/// A word and the instruction that it means.
#[derive(Clone, Copy, Debug)]
struct Entry {
    word: u32,
    known: Option<Known>,
    ghost meaning: { Means word known },
}

impl Entry {
    /// The entry of a word.
    fn of(word: u32) -> Entry
        ensures { result.word ≡ word }
    {
        Entry {
            word,
            known: to_known(word),
        }
    }

    /// Makes it the entry of a word, which is decoded where it is another one's.
    fn turn_to(&mut self, word: u32)
        ensures { self.new.word ≡ word }
    {
        if self.word != word {
            *self = Entry::of(word);
        }
    }
}

/// Words that were decoded, each at the one place that its bits name, where the last word stands that was looked up there.
/// What a word means never changes, so a caller sees nothing of it but the time that it saves.
#[derive(Debug, Drop)]
pub struct KnownWords {
    entries: Vec<Entry>,
}

impl Model for KnownWords {
    ghost Value = { Unit {0} };

    ghost view = { λ k. tt };

    ghost invariant = { λ k. vec_len k.entries ≡ 4096 };
}

impl KnownWords {
    /// A table that takes its memory here, and none later.
    pub fn new(alloc: Global) -> Result<KnownWords, AllocError> {
        let entries = vec![in alloc; Entry::of(0); PLACES]?;
        Ok(KnownWords { entries })
    }

    /// The instruction that a word means, as `decode` gives it, with its class. Decodes the word only where its place holds
    /// another.
    pub fn lookup(&mut self, word: u32) -> Option<&Known>
        ensures { option_map (λ k. k.now.instr) result ≡ decoded word }
    {
        let entry = &mut self.entries[place_of(word)];
        entry.turn_to(word);
        entry.known.as_ref()
    }
}

/// The instruction that a word means, with its class.
fn to_known(word: u32) -> Option<Known>
    ensures { Means word result }
{
    match decode(word) {
        Some(instr) => Some(Known::of(instr)),
        None => None,
    }
}

/// The place of a word in the table: the high bits of its product with an odd number near 2^32 divided by the golden ratio.
fn place_of(word: u32) -> usize
    ensures { result < 4096 }
{
    (word.wrapping_mul(0x9e37_79b1) >> 20) as usize
}
