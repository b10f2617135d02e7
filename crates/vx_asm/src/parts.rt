ghost use Rattle.std.specs.Prelude.{◌≡◌, ◌+◌, ◌≤◌, [], OnOk};
ghost use Rattle.vx_language.specs.Places.{first_place, advanced, total};
ghost use Rattle.vx_language.specs.Statements.{chunk_size};
ghost use Rattle.vx_statement.specs.Labels.{place_of};
ghost use Rattle.vx_statement.specs.Ways.{section_of};
ghost use Rattle.vx_code.specs.Filling.{chunk_seen};
ghost use Rattle.vx_asm.specs.Emitting.{AreSized, AreParts, Puts};

use crate::part::Part;
use std::alloc::{AllocError, Global};
use vx_code::Chunk;
use vx_statement::{Place, Section};

/// The bytes of both sections so far.
#[derive(Debug, Drop)]
pub struct Parts {
    /// The code.
    pub code: Part,
    /// The variables.
    pub variables: Part,
}

impl Parts {
    /// No bytes.
    pub fn new(alloc: Global) -> Parts
        ensures parts { AreParts [] [] result }
        ensures sized { AreSized first_place result }
    {
        Parts {
            code: Part::new(alloc),
            variables: Part::new(alloc),
        }
    }

    /// Puts what a statement puts at a place. What an error leaves is open.
    pub fn put(&mut self, place: Place, chunk: &Chunk) -> Result<(), AllocError>
        requires sized { AreSized (place_of place) self.old }
        requires room { total (place_of place) + chunk_size (chunk_seen chunk.now) ≤ 8388608 }
        ensures sized { OnOk result (AreSized (advanced (place_of place) (chunk_size (chunk_seen chunk.now))) self.new) }
        ensures parts { OnOk result (Puts (section_of place.section) (chunk_seen chunk.now) self.old self.new) }
    {
        match place.section {
            Section::Code => self.code.put(chunk),
            Section::Variables => self.variables.put(chunk),
        }
    }
}
