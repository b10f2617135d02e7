ghost use Rattle.std.specs.Prelude.{◌+◌, ◌<◌, ◌^◌};

use crate::form::Section;

/// Where a line of a source stands: the section, and how many bytes of each section stand before it. So many
/// bytes are below 2^127 - 2^40, whatever numbers of zeros a source has.
#[derive(Clone, Copy)]
pub struct Place {
    /// The section.
    pub section: Section,
    /// How many bytes of code stand before it.
    pub code: u128,
    /// How many bytes of variables stand before it.
    pub variables: u128,
    ghost room: { code + variables + 2 ^ 40 < 2 ^ 127 },
}
