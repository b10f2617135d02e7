ghost use Rattle.std.specs.Prelude.{ℕ, ◌<◌, ◌^◌, [], ◌∷◌, ◌++◌};
ghost use Rattle.vx_language.specs.Assembly.{IsSourceOf, LinesAreSources};
ghost use Rattle.vx_language.specs.Bytes.{newline};
ghost use Rattle.vx_source.specs.Lines.{line_of};

use vx_decode::{decoded_has_its_word, decoded_is_valid};

/// The canonical line of each word of 32 bits is a source without a fault whose code is that word, with a newline behind it
/// or without.
pub fn lines_are_sources()
    ensures bare { LinesAreSources }
    ensures ended { (word : ℕ) → word < 2 ^ 32 → IsSourceOf (line_of word ++ newline ∷ []) word }
{
    decoded_is_valid();
    decoded_has_its_word();
}
