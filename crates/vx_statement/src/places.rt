ghost use Rattle.std.specs.Prelude.{◌≡◌, ◌+◌, ◌<◌, ◌^◌};
ghost use Rattle.vx_language.specs.Places.{first_place, offset_of, may_have_code_in, total};
ghost use Rattle.vx_statement.specs.Labels.{place_of, moved};
ghost use Rattle.vx_statement.specs.Ways.{section_of};

use crate::form::Section;
use crate::place::Place;

impl Place {
    /// Where a source begins: with the code.
    pub fn first() -> Place
        ensures { place_of result ≡ first_place }
    {
        Place {
            section: Section::Code,
            code: 0,
            variables: 0,
        }
    }

    /// The offset in its section.
    pub fn offset(self) -> u128
        ensures { result ≡ offset_of (place_of self) }
    {
        match self.section {
            Section::Code => self.code,
            Section::Variables => self.variables,
        }
    }

    /// Whether an instruction may stand there.
    pub fn may_have_code(self) -> bool
        ensures { result ≡ may_have_code_in (place_of self) (place_of self).section }
    {
        match self.section {
            Section::Code => self.code % 4 == 0,
            Section::Variables => false,
        }
    }

    /// How many bytes stand before it, of both sections.
    pub fn total(self) -> u128
        ensures { result ≡ total (place_of self) }
    {
        self.code + self.variables
    }

    /// The place behind so many bytes, in this section.
    pub fn behind(self, size: u64, section: Section) -> Place
        requires { total (place_of self) + size + 2 ^ 40 < 2 ^ 127 }
        ensures { place_of result ≡ moved (place_of self) size (section_of section) }
    {
        match self.section {
            Section::Code => Place {
                section,
                code: self.code + u128::from(size),
                variables: self.variables,
            },
            Section::Variables => Place {
                section,
                code: self.code,
                variables: self.variables + u128::from(size),
            },
        }
    }
}
