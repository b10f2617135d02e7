ghost use Rattle.std.specs.Prelude.{◌↔◌, map, string_bytes, IsTrue, IfOk, IfErr};
ghost use Rattle.vx_words.specs.Words.{IsFile};
ghost use Rattle.vx_read.specs.Files.{IsOneFile, AreOneFile, AreBad};

use crate::fronts::first_word;

/// Whether the word is a file: it isn't empty, and doesn't begin with `-`.
pub fn is_file(word: &str) -> bool
    ensures { IsTrue result ↔ IsFile word.now }
{
    match word.as_bytes().first() {
        Some(byte) => *byte != b'-',
        None => false,
    }
}

/// Reads one file, which ends the words; or else the index of the first bad word.
pub fn one_file<'a>(words: &'a [String]) -> Result<&'a str, usize>
    ensures file { IfOk result (λ name. IsOneFile (map string_bytes words.now) name.now) }
    ensures bad { IfErr result (λ index. AreBad AreOneFile (map string_bytes words.now) index) }
{
    let Some((word, rest)) = first_word(words) else {
        return Err(0);
    };
    if !is_file(word) {
        return Err(0);
    }
    if rest.is_empty() { Ok(word) } else { Err(1) }
}
