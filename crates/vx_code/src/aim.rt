ghost use Rattle.std.specs.Prelude.{◌≡◌, ◌+◌, ◌<◌, ◌≤◌, ◌^◌, option_map, unwrap_or};
ghost use Rattle.vx_language.specs.Places.{address_of, section_address, total};
ghost use Rattle.vx_statement.specs.Labels.{place_of, place_in};
ghost use Rattle.vx_statement.specs.Lexemes.{piece_of};
ghost use Rattle.vx_statement.specs.Ways.{section_of};
ghost use Rattle.vx_code.specs.Aiming.{aim_of};

use vx_statement::{Labels, Lexeme, Place, Section};

/// The address of the code.
const CODE_ADDRESS: u128 = 0x10000;

/// How many bytes a page has.
const PAGE_LEN: u128 = 4096;

/// How far labels are from a line.
#[derive(Clone, Copy)]
pub enum Aim<'l, 's> {
    /// It isn't asked: each is 0 bytes away.
    Nowhere,
    /// So many bytes as these labels are from a line at this place, where the code has so many bytes.
    From(&'l Labels<'s>, u32, Place),
}

/// Where a section begins in memory, where the code has so many bytes.
#[tactic(auto, unfolding(vx_language::specs::Places::section_address))]
fn section_address(code: u32, section: Section) -> u128
    ensures value { result ≡ section_address code (section_of section) }
    ensures room { result < 2 ^ 34 }
{
    match section {
        Section::Code => CODE_ADDRESS,
        Section::Variables => CODE_ADDRESS + PAGE_LEN * u128::from(code).div_ceil(PAGE_LEN),
    }
}

/// The address of a place, where the code has so many bytes.
pub fn address_of(code: u32, place: Place) -> u128
    ensures value { result ≡ address_of code (place_of place) }
    ensures room { result < 2 ^ 127 }
    ensures near { result ≤ 2 ^ 34 + total (place_of place) }
{
    section_address(code, place.section) + place.offset()
}

/// The address of a label; 0 where there is none of its name.
fn label_address(labels: &Labels<'_>, code: u32, label: &Lexeme<'_>) -> u128
    ensures value { result ≡ unwrap_or (option_map (address_of code) (place_in (piece_of label.now).text labels.now)) 0 }
    ensures room { result < 2 ^ 127 }
{
    match labels.place(label.text) {
        Some(place) => address_of(code, place),
        None => 0,
    }
}

impl Aim<'_, '_> {
    /// How far a label is, in bytes.
    pub fn distance(&self, label: &Lexeme<'_>) -> i128
        ensures { result ≡ aim_of self.now (piece_of label.now) }
    {
        match self {
            Aim::Nowhere => 0,
            Aim::From(labels, code, place) => {
                let to = label_address(labels, *code, label);
                to as i128 - address_of(*code, *place) as i128
            }
        }
    }
}
