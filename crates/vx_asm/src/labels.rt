ghost use Rattle.std.specs.Prelude.{◌≡◌, [], IfOk};
ghost use Rattle.vx_language.specs.Assembly.{twice_faults};
ghost use Rattle.vx_language.specs.Faults.{first_of};
ghost use Rattle.vx_language.specs.Lines.{lines, labels_in, label_names};
ghost use Rattle.vx_statement.specs.Knowing.{Know};

use crate::defining::define_all;
use crate::line::read_line;
use std::alloc::{AllocError, Global};
use vx_language::Fault;
use vx_statement::{Labels, Place, first};

/// The labels of a source, and the first fault of one that is defined again.
#[derive(Drop)]
pub struct Defined<'a> {
    /// The labels, each once.
    pub labels: Labels<'a>,
    /// The fault, where there is one.
    pub fault: Option<Fault>,
}

/// The labels of a source, in the order of their definitions, each at the first place, and the first fault of one that is
/// defined again. `Err` where memory is wanting.
pub fn defined_labels<'a>(alloc: Global, source: &'a [u8]) -> Result<Defined<'a>, AllocError>
    ensures fault { IfOk result (λ defined. defined.fault ≡ first_of (twice_faults [] (labels_in (lines source.entry.now)))) }
    ensures labels { IfOk result (λ defined. Know defined.labels (label_names (lines source.entry.now))) }
{
    let mut labels = Labels::new(alloc);
    let mut found = None;
    let mut next = Some(0usize);
    while let Some(from) = next {
        let line = read_line(alloc, source, from)?;
        let fault = define_all(&mut labels, line.tokens.as_slice(), Place::first())?;
        found = first(found, fault);
        next = line.next;
    }
    Ok(Defined {
        labels,
        fault: found,
    })
}
