ghost use Rattle.std.specs.Prelude.{◌≡◌, ◌≢◌, ℕ, ◌<◌, length, slice_index};
ghost use Rattle.vx_words.specs.Words.{ImageFile, IsImage};
ghost use Rattle.vx_read.specs.Forms.{IsOfForm};

use crate::image_word::{ImageWord, image_in};
use crate::settings::Setting;

/// What a word is, taken alone.
#[derive(Clone, Copy)]
pub enum Form<'a> {
    /// This image.
    Image(ImageWord<'a>),
    /// An option's word.
    Name(Setting),
    /// An option's word, `=`, and this text.
    Both(Setting, &'a str),
    /// None of these.
    Other,
}

/// What the word is.
pub fn form_of(word: &str) -> Form<'_>
    ensures { IsOfForm word.now result }
{
    match image_in(word) {
        Some(image) => Form::Image(image),
        None => option_form(word),
    }
}

/// What the word, which is no image, is.
fn option_form(word: &str) -> Form<'_>
    requires { (image : ImageFile) → IsImage word.now image → ⊥ }
    ensures { IsOfForm word.now result }
{
    let Some((name, number)) = word.split_once('=') else {
        return name_form(word);
    };
    match Setting::named(name) {
        Some(setting) => Form::Both(setting, number),
        None => Form::Other,
    }
}

/// What the word, which is no image and has no `=`, is.
fn name_form(word: &str) -> Form<'_>
    requires no_image { (image : ImageFile) → IsImage word.now image → ⊥ }
    requires no_equals { (k : ℕ) → k < length word.now → slice_index word.now k ≢ 61 }
    ensures { IsOfForm word.now result }
{
    match Setting::named(word) {
        Some(setting) => Form::Name(setting),
        None => Form::Other,
    }
}
