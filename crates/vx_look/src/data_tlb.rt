ghost use Rattle.std.specs.Prelude.{◌≡◌, ◌-◌, ◌<◌, ◌^◌, true, [], List, IfOk, IfSome};
ghost use Rattle.vx_episode.specs.Organisation.{data_entries};
ghost use Rattle.vx_image.specs.Pages.{is_canonical, page_of};
ghost use Rattle.vx_look.specs.Fates.{IsHitBelow};
ghost use Rattle.vx_look.specs.Filled.{IsFilled, IsFoundBelow, IsHitAt, IsLastHit};
ghost use Rattle.vx_tables.specs.Caches.{Fill, filled_by, look_up};
ghost use Rattle.vx_tables.specs.Residency.{Residency};
ghost use Rattle.vx_tables.specs.Tables.{AreHeld};
ghost use Rattle.vx_tables.specs.Walking.{HaveTables, Walks};
ghost use Rattle.vx_tlb.specs.Kept.{StandsFor};

use crate::pages::{PAGE_BYTES, walk_and_keep};
use std::alloc::{AllocError, Global};
use std::marker::Model;
use vx_base::Want;
use vx_cells::Cells;
use vx_tables::{Look, Walked};
use vx_tlb::Tlb;

/// How many pages are kept.
const ENTRIES: u32 = 32;

/// The page that the last look of a kind found, by its number, and its frame.
#[derive(Clone, Copy, Debug)]
struct LastPage {
    number: u64,
    frame: u32,
}

impl LastPage {
    /// That of no address.
    fn none() -> LastPage
        ensures { result.number ≡ 2 ^ 64 - 1 }
    {
        LastPage {
            number: u64::MAX,
            frame: 0,
        }
    }
}

/// The pages that the data's cache keeps. For loads and for stores it has the page that was found last since the last walk, so that
/// the next look for it costs one comparison.
#[derive(Debug, Drop)]
pub struct DataTlb {
    tlb: Tlb,
    loaded: LastPage,
    stored: LastPage,
}

impl Model for DataTlb {
    ghost use Rattle.std.specs.Prelude.{List, Option};
    ghost use Rattle.vx_base.specs.declared.machine.Want.TheVariants as want;
    ghost use Rattle.vx_look.specs.Filled.{IsFilled, IsLastHit};
    ghost use Rattle.vx_tlb.specs.declared.tlb.Kept.{Kept};

    ghost Value = { List (Option Kept) };

    ghost view = { λ d. d.tlb };

    ghost invariant = { λ d. record {
      filled : IsFilled 32 d.tlb;
      loaded : IsLastHit d.tlb want.Load d.loaded.number d.loaded.frame;
      stored : IsLastHit d.tlb want.Store d.stored.number d.stored.frame;
    } };
}

/// A look for a page.
fn look(tlb: &Tlb, page: u64, want: Want) -> Look
    requires { IsFilled 32 tlb.now }
    ensures value { (fills : List Fill) → StandsFor tlb.now fills → result ≡ look_up data_entries fills page want }
    ensures below { IsHitBelow 16384 result }
{
    tlb.look(page, want)
}

/// A look for an address's page, which is the last one then where it is found.
fn look_and_keep(tlb: &Tlb, last: &mut LastPage, address: u64, want: Want) -> Look
    requires filled { IsFilled 32 tlb.now }
    requires canonical { is_canonical address ≡ true }
    requires last { IsLastHit tlb.now want last.old.number last.old.frame }
    ensures last { IsLastHit tlb.now want last.new.number last.new.frame }
    ensures value { (fills : List Fill) → StandsFor tlb.now fills → result ≡ look_up data_entries fills (page_of address) want }
    ensures below { IsHitBelow 16384 result }
{
    let number = address / PAGE_BYTES;
    let seen = look(tlb, number, want);
    let Look::Hit(frame) = seen else {
        return seen;
    };
    *last = LastPage { number, frame };
    seen
}

impl DataTlb {
    /// An empty cache. It takes all its memory here.
    pub fn new(alloc: Global) -> Result<DataTlb, AllocError>
        ensures { IfOk result (λ d. StandsFor d []) }
    {
        Ok(DataTlb {
            tlb: Tlb::new(alloc, ENTRIES)?,
            loaded: LastPage::none(),
            stored: LastPage::none(),
        })
    }

    /// Forgets all pages.
    pub fn empty(&mut self)
        ensures { StandsFor self.new [] }
    {
        self.tlb.empty();
        self.loaded = LastPage::none();
        self.stored = LastPage::none();
    }

    /// The last page of a kind.
    #[inline(always)]
    fn last(&self, want: Want) -> LastPage
        ensures { IsLastHit self.now want result.number result.frame }
    {
        match want {
            Want::Load => self.loaded,
            Want::Store => self.stored,
            Want::Fetch => LastPage::none(),
        }
    }

    /// The frame of an address's page, where it is the last one.
    #[inline(always)]
    pub fn last_frame(&self, address: u64, want: Want) -> Option<u32>
        ensures { IfSome result (λ frame. IsHitAt self.now want address frame) }
    {
        let last = self.last(want);
        if address / PAGE_BYTES == last.number {
            Some(last.frame)
        } else {
            None
        }
    }

    /// A look for an address's page.
    pub fn look(&mut self, address: u64, want: Want) -> Look
        requires canonical { is_canonical address ≡ true }
        ensures same { self.new ≡ self.old }
        ensures value { (fills : List Fill) → StandsFor self.old fills → result ≡ look_up data_entries fills (page_of address) want }
        ensures below { IsHitBelow 16384 result }
    {
        match want {
            Want::Load => look_and_keep(&self.tlb, &mut self.loaded, address, want),
            Want::Store => look_and_keep(&self.tlb, &mut self.stored, address, want),
            Want::Fetch => look(&self.tlb, address / PAGE_BYTES, want),
        }
    }

    /// Walks an address, and keeps its page where it is found. No page is the last one then.
    pub fn walk<C: Cells>(&mut self, cells: &mut C, root: u32, address: u64, want: Want) -> Walked
        requires { HaveTables (C.state cells.old) root }
        ensures walks { (residency : Residency) → AreHeld (C.state cells.old) root residency
            → Walks (C.state cells.old) (C.state cells.new) residency root address want result }
        ensures kept { (fills : List Fill) → StandsFor self.old fills → StandsFor self.new (filled_by (page_of address) result fills) }
        ensures below { IsFoundBelow 16384 result }
        ensures tables { HaveTables (C.state cells.new) root }
        ensures frames { (C.state cells.new).frames ≡ (C.state cells.old).frames }
        ensures cycle { (C.state cells.new).cycle ≡ (C.state cells.old).cycle }
    {
        self.loaded = LastPage::none();
        self.stored = LastPage::none();
        walk_and_keep(&mut self.tlb, cells, root, address, want)
    }
}
