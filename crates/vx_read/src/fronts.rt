ghost use Rattle.std.specs.Prelude.{◌≡◌, ℕ, List, [], ◌∷◌, map, MatchOption, string_bytes};
ghost use Rattle.vx_words.specs.Words.{row_of, IsImage};
ghost use Rattle.vx_read.specs.Settings.{option_of};
ghost use Rattle.vx_read.specs.Images.{image_of};
ghost use Rattle.vx_read.specs.Forms.{IsBoth};
ghost use Rattle.vx_read.specs.Fronts.{IsFront};

use crate::digits::number_for;
use crate::forms::{Form, form_of};
use crate::image_word::ImageWord;
use crate::numbers::Numbers;
use crate::settings::Setting;
use vx_words::ImageJob;

/// What stands first in the words behind those that are read.
#[derive(Clone, Copy)]
pub enum Front<'a> {
    /// An option, its number, and the words behind them.
    Given(Setting, u64, &'a [String]),
    /// This image, which ends the words.
    Image(ImageWord<'a>),
    /// Nothing that may stand there: the index of the first bad word.
    Bad(usize),
}

/// The first word, and those behind it.
pub fn first_word<'a>(words: &'a [String]) -> Option<(&'a str, &'a [String])>
    ensures { MatchOption result (map string_bytes words.now ≡ []) (λ parts. map string_bytes words.now ≡ parts.0.now ∷ map string_bytes parts.1.now) }
{
    let Some((word, rest)) = words.split_first() else {
        return None;
    };
    Some((word.as_str(), rest))
}

/// What stands first in the words of the job, behind those that gave these numbers.
pub fn front_of<'a>(job: ImageJob, words: &'a [String], numbers: &Numbers) -> Front<'a>
    ensures { IsFront job numbers.now (map string_bytes words.now) result }
{
    let Some((word, rest)) = first_word(words) else {
        return Front::Bad(0);
    };
    match form_of(word) {
        Form::Image(image) => image_front(job, image, rest, numbers),
        Form::Name(setting) => name_front(job, setting, rest, numbers),
        Form::Both(setting, text) => both_front(job, setting, text, rest, numbers),
        Form::Other => Front::Bad(0),
    }
}

/// What stands first where that is this image, and these words are behind it.
fn image_front<'a>(
    job: ImageJob,
    image: ImageWord<'a>,
    rest: &'a [String],
    numbers: &Numbers,
) -> Front<'a>
    ensures { (word : List ℕ) → IsImage word (image_of image.entry) → IsFront job numbers.now (word ∷ map string_bytes rest.now) result }
{
    if rest.is_empty() {
        Front::Image(image)
    } else {
        Front::Bad(1)
    }
}

/// What stands first where that is the option's word, and these words are behind it.
fn name_front<'a>(
    job: ImageJob,
    setting: Setting,
    rest: &'a [String],
    numbers: &Numbers,
) -> Front<'a>
    ensures { (word : List ℕ) → word ≡ (row_of (option_of setting)).word → IsFront job numbers.now (word ∷ map string_bytes rest.now) result }
{
    if !setting.is_for(job) {
        return Front::Bad(0);
    }
    if numbers.has(setting) {
        return Front::Bad(0);
    }
    let Some((text, behind)) = first_word(rest) else {
        return Front::Bad(1);
    };
    match number_for(setting, text) {
        Some(number) => Front::Given(setting, number, behind),
        None => Front::Bad(1),
    }
}

/// What stands first where that is the option's word with this text, and these words are behind it.
fn both_front<'a>(
    job: ImageJob,
    setting: Setting,
    text: &str,
    rest: &'a [String],
    numbers: &Numbers,
) -> Front<'a>
    ensures { (word : List ℕ) → IsBoth word (option_of setting) text.now → IsFront job numbers.now (word ∷ map string_bytes rest.now) result }
{
    if !setting.is_for(job) {
        return Front::Bad(0);
    }
    if numbers.has(setting) {
        return Front::Bad(0);
    }
    match number_for(setting, text) {
        Some(number) => Front::Given(setting, number, rest),
        None => Front::Bad(0),
    }
}
