ghost use Rattle.std.specs.Prelude.{◌≡◌, ◌+◌, ◌≤◌, ◌<◌, length, IfOk};
ghost use Rattle.vx_base.specs.declared.perm.PageEntry.{PageEntry};
ghost use Rattle.vx_paged.specs.Framed.{IsPlacement, in_turn};

use std::alloc::{AllocError, Global};
use std::marker::Model;
use vx_base::{PageEntry, PageList};
use vx_walk::entry_at;

/// A mapped page, and the frame that it is in.
#[derive(Clone, Copy, PartialEq, Eq, Debug)]
pub struct FramedPage {
    pub entry: PageEntry,
    pub frame: u32,
}

/// The mapped pages of a process in rising order, each in a frame of its own.
#[derive(Debug, Drop)]
pub struct Placement {
    pages: Vec<FramedPage>,
}

impl Model for Placement {
    ghost use Rattle.std.specs.Prelude.{List};
    ghost use Rattle.vx_paged.specs.declared.placement.FramedPage.{FramedPage};
    ghost use Rattle.vx_paged.specs.Framed.{IsPlacement};

    ghost Value = { List FramedPage };

    ghost view = { λ p. p.pages.items };

    ghost invariant = { λ p. IsPlacement p.pages.items };
}

impl Placement {
    /// These pages in successive frames from one on. Takes all the memory that it ever needs.
    pub fn of(alloc: Global, pages: &PageList, first: u32) -> Result<Placement, AllocError>
        requires { first + length pages.now ≤ 16384 }
        ensures { IfOk result (λ placement. placement ≡ in_turn first pages.now) }
    {
        let mut placed = Vec::with_capacity(alloc, pages.len())?;
        let mut frame = first;
        for i in 0..pages.len() {
            placed.push(FramedPage {
                entry: entry_at(pages, i),
                frame,
            })?;
            frame += 1;
        }
        Ok(Placement { pages: placed })
    }

    /// The pages with their frames.
    pub fn pages(&self) -> &[FramedPage]
        ensures pages { result.now ≡ self.now }
        ensures kept { IsPlacement self.now }
    {
        &self.pages
    }

    /// The pages with their frames, as they are kept. Takes no memory.
    pub fn into_pages(self) -> Vec<FramedPage>
        ensures pages { result.items ≡ self }
        ensures kept { IsPlacement result.items }
    {
        let Placement { pages } = self;
        pages
    }
}
