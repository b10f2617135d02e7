ghost use Rattle.std.specs.Prelude.{List, ℕ, IfOk};
ghost use Rattle.vx_language.specs.Lines.{lines};
ghost use Rattle.vx_statement.specs.Knowing.{Know};
ghost use Rattle.vx_asm.specs.Laying.{AreLaid};

use crate::defining::define_all;
use crate::judge::judge_line;
use crate::line::read_line;
use std::alloc::{AllocError, Global};
use vx_language::Fault;
use vx_statement::{Labels, Place, first};

/// Where the lines of a source stand.
#[derive(Drop)]
pub struct Laid<'a> {
    /// The first fault of its statements, where there is one.
    pub fault: Option<Fault>,
    /// The place behind the last line.
    pub end: Place,
    /// Its labels, each at the place of its first line.
    pub labels: Labels<'a>,
}

/// Judges and places the lines of a source whose labels these are. `Err` where memory is wanting.
pub fn place_lines<'a>(
    alloc: Global,
    source: &'a [u8],
    known: &Labels<'_>,
) -> Result<Laid<'a>, AllocError>
    ensures { IfOk result (λ laid. (names : List (List ℕ)) → Know known.now names → AreLaid names (lines source.entry.now) laid) }
{
    let mut labels = Labels::new(alloc);
    let mut place = Place::first();
    let mut found = None;
    let mut next = Some(0usize);
    while let Some(from) = next {
        let line = read_line(alloc, source, from)?;
        define_all(&mut labels, line.tokens.as_slice(), place)?;
        let judged = judge_line(alloc, known, place, &line)?;
        found = first(found, judged.fault);
        place = judged.place;
        next = line.next;
    }
    Ok(Laid {
        fault: found,
        end: place,
        labels,
    })
}
