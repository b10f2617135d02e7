ghost use Rattle.std.specs.Prelude.{◌≡◌, ℕ, true, ◌&&◌, ◌+◌, ◌*◌, ◌^◌, ◌<◌, ◌≤◌, [], List, IfOk};
ghost use Rattle.vx_base.specs.declared.machine.Want.TheVariants.{Fetch};
ghost use Rattle.vx_episode.specs.History.{History, fetch_walks, fills_of};
ghost use Rattle.vx_episode.specs.Instructions.{residency_now, walk_time};
ghost use Rattle.vx_episode.specs.Organisation.{Start};
ghost use Rattle.vx_image.specs.Pages.{is_canonical, page_of};
ghost use Rattle.vx_look.specs.Fates.{is_miss};
ghost use Rattle.vx_look.specs.Fetches.{IsFetched};
ghost use Rattle.vx_look.specs.Filled.{IsFilled, IsLetThrough};
ghost use Rattle.vx_tables.specs.Caches.{Fill, look_up};
ghost use Rattle.vx_tables.specs.Tables.{AreHeld};
ghost use Rattle.vx_tables.specs.Walking.{HaveTables};
ghost use Rattle.vx_tlb.specs.Kept.{StandsFor};

use crate::pages::{PAGE_BYTES, is_away, walk_and_keep};
use std::alloc::{AllocError, Global};
use std::marker::Model;
use vx_base::Want;
use vx_cells::Cells;
use vx_image::is_canonical;
use vx_tables::Look;
use vx_tlb::Tlb;

/// How many pages are kept.
const ENTRIES: u32 = 8;

/// The number of no page.
const NO_PAGE: u64 = u64::MAX;

/// A fetch: the cycle at which it ended, and whether its page was walked and is away.
#[derive(Clone, Copy, PartialEq, Eq, Debug)]
pub struct Fetched {
    pub ended: u64,
    pub is_away: bool,
}

/// The cache of the fetches' translations. It keeps the last page that needed no walk, so that the next fetch from it costs one
/// comparison.
#[derive(Debug, Drop)]
pub struct FetchLookUps {
    tlb: Tlb,
    last: u64,
}

impl Model for FetchLookUps {
    ghost use Rattle.std.specs.Prelude.{List, Option};
    ghost use Rattle.vx_look.specs.Filled.{IsFilled, IsLetThrough};
    ghost use Rattle.vx_tlb.specs.declared.tlb.Kept.{Kept};

    ghost Value = { List (Option Kept) };

    ghost view = { λ f. f.tlb };

    ghost invariant = { λ f. record {
      filled : IsFilled 8 f.tlb;
      last : IsLetThrough f.tlb f.last;
    } };
}

/// Whether a look leads to a walk.
fn is_miss(look: Look) -> bool
    ensures { result ≡ is_miss look }
{
    match look {
        Look::Miss => true,
        Look::Hit(_) | Look::Denied => false,
    }
}

/// Whether a fetch is walked, where its page isn't the last one; a page that isn't walked is the last one then.
fn looks_up(tlb: &Tlb, last: &mut u64, pc: u64) -> bool
    requires filled { IsFilled 8 tlb.now }
    requires last { IsLetThrough tlb.now last.old }
    ensures last { IsLetThrough tlb.now last.new }
    ensures value { (fills : List Fill) → StandsFor tlb.now fills
        → result ≡ (is_canonical pc && is_miss (look_up 8 fills (page_of pc) Fetch)) }
{
    if !is_canonical(pc) {
        return false;
    }
    let number = pc / PAGE_BYTES;
    if is_miss(tlb.look(number, Want::Fetch)) {
        return true;
    }
    *last = number;
    false
}

impl FetchLookUps {
    /// An empty cache. It takes all its memory here.
    pub fn new(alloc: Global) -> Result<FetchLookUps, AllocError>
        ensures { IfOk result (λ f. StandsFor f []) }
    {
        Ok(FetchLookUps {
            tlb: Tlb::new(alloc, ENTRIES)?,
            last: NO_PAGE,
        })
    }

    /// Forgets all pages, as at an episode's start.
    pub fn empty(&mut self)
        ensures { StandsFor self.new [] }
    {
        self.tlb.empty();
        self.last = NO_PAGE;
    }

    /// Whether a fetch is walked.
    #[inline(always)]
    fn is_walked(&mut self, pc: u64) -> bool
        ensures same { self.new ≡ self.old }
        ensures value { (fills : List Fill) → StandsFor self.old fills
            → result ≡ (is_canonical pc && is_miss (look_up 8 fills (page_of pc) Fetch)) }
    {
        if pc / PAGE_BYTES == self.last {
            return false;
        }
        looks_up(&self.tlb, &mut self.last, pc)
    }

    /// The walk of a fetch, which ends at a cycle.
    fn walked<C: Cells>(&mut self, cells: &mut C, root: u32, pc: u64, ended: u64) -> Fetched
        requires { HaveTables (C.state cells.old) root }
        ensures ended { result.ended ≡ ended }
        ensures tables { HaveTables (C.state cells.new) root }
        ensures frames { (C.state cells.new).frames ≡ (C.state cells.old).frames }
        ensures cycle { (C.state cells.new).cycle ≡ (C.state cells.old).cycle }
        ensures fetched { (start : Start) (history : History) (begun : ℕ) → ended ≡ begun + walk_time start.machine
            → (is_canonical pc && is_miss (look_up 8 (fills_of (fetch_walks history)) (page_of pc) Fetch)) ≡ true
            → StandsFor self.old (fills_of (fetch_walks history)) → AreHeld (C.state cells.old) root (residency_now start history)
            → IsFetched start history pc begun root self.new (C.state cells.old) (C.state cells.new) result }
    {
        let answer = walk_and_keep(&mut self.tlb, cells, root, pc, Want::Fetch);
        self.last = NO_PAGE;
        Fetched {
            ended,
            is_away: is_away(answer),
        }
    }

    /// A fetch that begins at a cycle: the cycle at which it ends, with its walk, where its page isn't kept; the walk's accesses
    /// are made at the cells' current cycle, and its page is kept where it is found. The cells hold the process's tables.
    #[inline(always)]
    pub fn fetch<C: Cells>(
        &mut self,
        cells: &mut C,
        root: u32,
        bank_time: u64,
        pc: u64,
        begun: u64,
    ) -> Fetched
        requires tables { HaveTables (C.state cells.old) root }
        requires cycles { begun + 4 * bank_time < 2 ^ 64 }
        ensures tables { HaveTables (C.state cells.new) root }
        ensures frames { (C.state cells.new).frames ≡ (C.state cells.old).frames }
        ensures cycle { (C.state cells.new).cycle ≡ (C.state cells.old).cycle }
        ensures begun { begun ≤ result.ended }
        ensures ended { result.ended ≤ begun + 4 * bank_time }
        ensures fetched { (start : Start) (history : History) → start.machine.bank_time ≡ bank_time → StandsFor self.old (fills_of (fetch_walks history))
            → AreHeld (C.state cells.old) root (residency_now start history)
            → IsFetched start history pc begun root self.new (C.state cells.old) (C.state cells.new) result }
    {
        if !self.is_walked(pc) {
            return Fetched {
                ended: begun,
                is_away: false,
            };
        }
        self.walked(cells, root, pc, begun + 4 * bank_time)
    }
}
