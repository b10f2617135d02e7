ghost use Rattle.std.specs.Prelude.{◌≡◌, ◌<◌, ◌%◌, [], ◌∷◌, List, length, IfOk};
ghost use Rattle.vx_tables.specs.Caches.{Fill, look_at, look_up, filled_by};
ghost use Rattle.vx_tlb.specs.Kept.{StandsFor, fill_of};

use std::alloc::{AllocError, Global};
use std::marker::Model;
use vx_base::{Perm, Want};
use vx_tables::{Look, Walked};

/// A page that is kept: its frame, its permissions, and whether D was set.
#[derive(Clone, Copy, PartialEq, Eq, Debug)]
pub struct Kept {
    pub page: u64,
    pub frame: u32,
    pub perm: Perm,
    pub dirty: bool,
}

/// A cache of translations. A page has one place, its number modulo the entries.
#[derive(Debug, Drop)]
pub struct Tlb {
    places: Vec<Option<Kept>>,
}

impl Model for Tlb {
    ghost use Rattle.std.specs.Prelude.{List, Option, ◌<◌, length};
    ghost use Rattle.vx_tlb.specs.declared.tlb.Kept.{Kept};

    ghost Value = { List (Option Kept) };

    ghost view = { λ t. t.places.items };

    ghost invariant = { λ t. 0 < length t.places.items };
}

/// What a look says of a kept page.
fn look_at(want: Want, kept: Kept) -> Look
    ensures { result ≡ look_at want (fill_of kept) }
{
    if !kept.perm.grants(want) {
        return Look::Denied;
    }
    if matches!(want, Want::Store) && !kept.dirty {
        return Look::Miss;
    }
    Look::Hit(kept.frame)
}

impl Tlb {
    /// A cache of so many entries, at least one, with nothing in it. It takes all its memory here.
    pub fn new(alloc: Global, entries: u32) -> Result<Tlb, AllocError>
        requires { 0 < entries }
        ensures size { IfOk result (λ tlb. length tlb ≡ entries) }
        ensures emptied { IfOk result (λ tlb. StandsFor tlb []) }
    {
        let places = vec![in alloc; None; entries as usize]?;
        Ok(Tlb { places })
    }

    /// The place of a page.
    fn place(&self, page: u64) -> usize
        ensures value { result ≡ page % length self.now }
        ensures within { result < length self.now }
    {
        (page % self.places.len() as u64) as usize
    }

    /// Looks for a page: `Hit` with its frame where it is kept and grants the access, for a store with D set; `Denied` where
    /// it is kept and doesn't grant it; `Miss` where no entry of the page is kept, or a store is wanted, W is granted and D
    /// isn't set. What is kept is the last fill at the page's place since the cache was emptied.
    pub fn look(&self, page: u64, want: Want) -> Look
        ensures { (fills : List Fill) → StandsFor self.now fills → result ≡ look_up (length self.now) fills page want }
    {
        match self.places[self.place(page)] {
            Some(kept) if kept.page == page => look_at(want, kept),
            _ => Look::Miss,
        }
    }

    /// Keeps a page at its place, in place of what was there.
    pub fn fill(&mut self, page: u64, frame: u32, perm: Perm, dirty: bool)
        ensures size { length self.new ≡ length self.old }
        ensures filled { (fills : List Fill) → StandsFor self.old fills
            → StandsFor self.new (record { page = page; frame = frame; perm = perm; dirty = dirty } ∷ fills) }
    {
        let place = self.place(page);
        self.places[place] = Some(Kept {
            page,
            frame,
            perm,
            dirty,
        });
    }

    /// Keeps a page where a walk found it, and nothing where it is away or denied.
    pub fn learn(&mut self, page: u64, walked: Walked)
        ensures size { length self.new ≡ length self.old }
        ensures learned { (fills : List Fill) → StandsFor self.old fills → StandsFor self.new (filled_by page walked fills) }
    {
        match walked {
            Walked::Leaf(frame, perm, dirty) => self.fill(page, frame, perm, dirty),
            Walked::Away | Walked::Denied => {}
        }
    }

    /// Forgets all pages.
    pub fn empty(&mut self)
        ensures size { length self.new ≡ length self.old }
        ensures emptied { StandsFor self.new [] }
    {
        for place in self.places.iter_mut() {
            *place = None;
        }
    }
}
