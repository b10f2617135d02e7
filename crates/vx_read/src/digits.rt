ghost use Rattle.std.specs.Prelude.{◌≡◌, ◌≢◌, ℕ, ◌<◌, ◌^◌, length, slice_index, MatchOption, decimal};
ghost use Rattle.std.specs.Bool.{OnTrue, OnFalse};
ghost use Rattle.vx_words.specs.Words.{IsInRange};
ghost use Rattle.vx_read.specs.Settings.{given_to};

use crate::settings::Setting;

/// Whether the text may be a number's decimal digits, by its first byte: there is one, no `+`, and no zero before more.
#[tactic(auto, using(crate::proofs::Decimals::not_empty, crate::proofs::Decimals::begins_with_digit, crate::proofs::Decimals::begins_with_zero))]
fn begins_as_number(text: &[u8]) -> bool
    ensures sign { OnTrue result (slice_index text.now 0 ≢ 43) }
    ensures zero { OnTrue result (slice_index text.now 0 ≡ 48 → length text.now ≡ 1) }
    ensures other { OnFalse result ((number : ℕ) → number < 2 ^ 64 → text.now ≡ decimal number → ⊥) }
{
    if text.is_empty() {
        return false;
    }
    if text[0] == b'+' {
        return false;
    }
    if text[0] == b'0' && text.len() != 1 {
        return false;
    }
    true
}

/// The number below 2^64 whose decimal digits, without a leading zero, the text is.
pub fn number(text: &str) -> Option<u64>
    ensures { MatchOption result ((number : ℕ) → number < 2 ^ 64 → text.now ≡ decimal number → ⊥) (λ number. text.now ≡ decimal number) }
{
    if !begins_as_number(text.as_bytes()) {
        return None;
    }
    match text.parse::<u64>() {
        Ok(number) => Some(number),
        Err(_) => None,
    }
}

/// The number in the option's range whose decimal digits, without a leading zero, the text is.
pub fn number_for(setting: Setting, text: &str) -> Option<u64>
    ensures { MatchOption result ((number : ℕ) → IsInRange (given_to setting number) → text.now ≡ decimal number → ⊥) (λ number. IsInRange (given_to setting number) × (text.now ≡ decimal number)) }
{
    let Some(number) = number(text) else {
        return None;
    };
    let row = setting.row();
    if number < row.least {
        return None;
    }
    if row.greatest < number {
        return None;
    }
    if !setting.takes(number) {
        return None;
    }
    Some(number)
}
