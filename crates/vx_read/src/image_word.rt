ghost use Rattle.std.specs.Prelude.{ℕ, List, MatchOption};
ghost use Rattle.vx_words.specs.Words.{ImageFile, IsRawImage, IsImage};
ghost use Rattle.vx_read.specs.Images.{image_of};

use crate::files::is_file;

/// What file an image is in.
#[derive(Clone, Copy, PartialEq, Eq, Debug)]
pub enum ImageWord<'a> {
    /// Raw bytes, in the file of this name, which isn't empty.
    Raw(&'a str),
    /// An ELF file of this name, which isn't empty and doesn't begin with `-`.
    Elf(&'a str),
}

/// The image that the word is.
pub fn image_in(word: &str) -> Option<ImageWord<'_>>
    ensures { MatchOption result ((image : ImageFile) → IsImage word.now image → ⊥) (λ image. IsImage word.now (image_of image)) }
{
    if !is_file(word) {
        return None;
    }
    match raw_name(word) {
        Some(name) => Some(ImageWord::Raw(name)),
        None => Some(ImageWord::Elf(word)),
    }
}

/// The name of the raw image that the word is.
fn raw_name(word: &str) -> Option<&str>
    ensures { MatchOption result ((name : List ℕ) → IsRawImage word.now name → ⊥) (λ name. IsRawImage word.now name.now) }
{
    match word.strip_prefix("raw:") {
        Some("") => None,
        Some(name) => Some(name),
        None => None,
    }
}
