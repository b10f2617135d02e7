ghost use Rattle.std.specs.Prelude.{◌≡◌, [], ◌∷◌, ◌++◌, not, option_map, IfOk, if◌then◌else◌};
ghost use Rattle.vx_statement.specs.Labels.{has_name, place_in, place_of};

use crate::place::Place;
use indexmap::IndexMap;
use std::alloc::{AllocError, Global};
use std::marker::Model;

/// Labels in the order of their definitions, each once, with its place.
#[derive(Drop)]
pub struct Labels<'a> {
    places: IndexMap<&'a [u8], Place>,
}

impl<'a> Model for Labels<'a> {
    ghost use Rattle.std.specs.Prelude.{List, map};
    ghost use Rattle.vx_statement.specs.Labels.{Label, label_of};

    ghost Value = { List Label };

    ghost view = { λ l. map label_of l.places.entries };
}

impl<'a> Labels<'a> {
    /// No labels.
    pub fn new(alloc: Global) -> Self
        ensures { result ≡ [] }
    {
        Labels {
            places: IndexMap::new(alloc),
        }
    }

    /// Whether a label of this name is among them.
    pub fn has(&self, name: &[u8]) -> bool
        ensures { result ≡ has_name name.now self.now }
    {
        self.places.contains_key(name)
    }

    /// The place of the label of this name.
    pub fn place(&self, name: &[u8]) -> Option<Place>
        ensures { option_map place_of result ≡ place_in name.now self.now }
    {
        self.places.get(name).copied()
    }

    /// Adds a label behind the others, where none of its name is among them, and answers whether it did. `Err` where memory is
    /// wanting; the labels are then as before.
    pub fn add(&mut self, name: &'a [u8], place: Place) -> Result<bool, AllocError>
        ensures added { IfOk result (λ new. new ≡ not (has_name name.now self.old)) }
        ensures labels { IfOk result (λ new. self.new ≡ (if new then self.old ++ record { name = name.now; place = place_of place } ∷ [] else self.old)) }
    {
        if self.places.contains_key(name) {
            return Ok(false);
        }
        self.places.insert(name, place)?;
        Ok(true)
    }
}
