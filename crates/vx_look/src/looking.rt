ghost use Rattle.std.specs.Prelude.{◌≡◌, ℕ, false, ◌+◌, ◌*◌, ◌^◌, ◌<◌, ◌≤◌, [], ◌∷◌, List, IfOk, length, slice_index_or};
ghost use Rattle.vx_episode.specs.Batches.{word_in, fate_walked, fate_of, is_unknown};
ghost use Rattle.vx_episode.specs.Footprint.{Access};
ghost use Rattle.vx_episode.specs.History.{History, BatchTimes, walks_of_batches, fills_of};
ghost use Rattle.vx_episode.specs.Organisation.{Start};
ghost use Rattle.vx_look.specs.Aheads.{AreLookedAhead};
ghost use Rattle.vx_serve.specs.Fates.{told, IsKnownBy, AreKnownBy};
ghost use Rattle.vx_look.specs.Filled.{IsFoundBelow};
ghost use Rattle.vx_look.specs.LookUps.{AreLookedUp, AreOf, AreReady};
ghost use Rattle.vx_tables.specs.Walking.{HaveTables};
ghost use Rattle.vx_tlb.specs.Kept.{StandsFor};
ghost use Rattle.vx_vaddr.specs.declared.item.Item.{Item};

use crate::ahead::walk_ahead;
use crate::batches::{look_each, walk_each};
use crate::data_tlb::DataTlb;
use crate::fate::Looked;
use crate::pages::PAGE_BYTES;
use std::alloc::{AllocError, Global};
use std::marker::Model;
use vx_base::Want;
use vx_cells::Cells;
use vx_image::{is_aligned, is_canonical};
use vx_serve::Fate;
use vx_tables::{Look, Walked};
use vx_vaddr::Item;

/// The cache of the data's translations.
#[derive(Debug, Drop)]
pub struct DataLookUps {
    tlb: DataTlb,
}

impl Model for DataLookUps {
    ghost use Rattle.std.specs.Prelude.{List, Option};
    ghost use Rattle.vx_tlb.specs.declared.tlb.Kept.{Kept};

    ghost Value = { List (Option Kept) };

    ghost view = { λ d. d.tlb };
}

/// The word of physical memory at an address whose page is in a frame.
#[inline(always)]
fn word_in(frame: u32, address: u64) -> u32
    requires { frame < 16384 }
    ensures { result ≡ word_in frame address }
{
    512 * frame + (address % PAGE_BYTES / 8) as u32
}

/// What is known of an access at its batch's start where it is aligned and on the last page of its kind.
#[inline(always)]
fn fate_at_last(tlb: &DataTlb, want: Want, started: u64, address: u64, width: u64) -> Fate
    requires width { 0 < width }
    ensures known { IsKnownBy started result }
    ensures looked { is_unknown (told result) ≡ false → (start : Start) (history : History) (earlier : List BatchTimes) (a : Access) → a.address ≡ address → a.width ≡ width
        → StandsFor tlb.now (fills_of (walks_of_batches earlier)) → told result ≡ fate_of start history earlier want started [] a }
{
    if !is_aligned(address, width) {
        return Fate::Unknown;
    }
    match tlb.last_frame(address, want) {
        Some(frame) => Fate::Good(started, word_in(frame, address)),
        None => Fate::Unknown,
    }
}

/// What is known of an access by a look into the cache at its batch's start.
fn fate_searched(tlb: &mut DataTlb, want: Want, started: u64, address: u64, width: u64) -> Fate
    requires width { 0 < width }
    ensures same { tlb.new ≡ tlb.old }
    ensures known { IsKnownBy started result }
    ensures looked { (start : Start) (history : History) (earlier : List BatchTimes) (a : Access) → a.address ≡ address → a.width ≡ width
        → StandsFor tlb.old (fills_of (walks_of_batches earlier)) → told result ≡ fate_of start history earlier want started [] a }
{
    if !is_aligned(address, width) {
        return Fate::Fails(started, false);
    }
    if !is_canonical(address) {
        return Fate::Fails(started, false);
    }
    match tlb.look(address, want) {
        Look::Hit(frame) => Fate::Good(started, word_in(frame, address)),
        Look::Denied => Fate::Fails(started, false),
        Look::Miss => Fate::Unknown,
    }
}

/// What is known of an access by the look-up at its batch's start.
pub fn fate_looked(tlb: &mut DataTlb, want: Want, started: u64, address: u64, width: u64) -> Fate
    requires width { 0 < width }
    ensures same { tlb.new ≡ tlb.old }
    ensures known { IsKnownBy started result }
    ensures looked { (start : Start) (history : History) (earlier : List BatchTimes) (a : Access) → a.address ≡ address → a.width ≡ width
        → StandsFor tlb.old (fills_of (walks_of_batches earlier)) → told result ≡ fate_of start history earlier want started [] a }
{
    let fate = fate_at_last(tlb, want, started, address, width);
    if !is_unknown(fate) {
        return fate;
    }
    fate_searched(tlb, want, started, address, width)
}

/// What is known of an access by the walk of its page.
pub fn fate_walked(walked: Walked, ended: u64, address: u64) -> Fate
    requires { IsFoundBelow 16384 walked }
    ensures known { IsKnownBy ended result }
    ensures walked { (a : Access) → a.address ≡ address → told result ≡ fate_walked a ended walked }
{
    match walked {
        Walked::Leaf(frame, _, _) => Fate::Good(ended, word_in(frame, address)),
        Walked::Away => Fate::Fails(ended, true),
        Walked::Denied => Fate::Fails(ended, false),
    }
}

/// Whether nothing is known of an access.
#[inline(always)]
pub fn is_unknown(fate: Fate) -> bool
    ensures { result ≡ is_unknown (told fate) }
{
    match fate {
        Fate::Unknown => true,
        Fate::Good(_, _) | Fate::Fails(_, _) => false,
    }
}

/// An access of so many bytes at an address.
fn item_of(address: u64, width: u8) -> Item
    ensures address { result.address ≡ address }
    ensures width { result.width ≡ width }
{
    Item {
        element: 0,
        field: 0,
        address,
        width,
        register: 0,
        byte: 0,
    }
}

impl DataLookUps {
    /// An empty cache. It takes all its memory here.
    pub fn new(alloc: Global) -> Result<DataLookUps, AllocError>
        ensures { IfOk result (λ d. StandsFor d []) }
    {
        Ok(DataLookUps {
            tlb: DataTlb::new(alloc)?,
        })
    }

    /// Forgets all pages, as at an episode's start.
    pub fn empty(&mut self)
        ensures { StandsFor self.new [] }
    {
        self.tlb.empty();
    }

    /// A batch of one access that starts at a cycle: what is known of it, and the cycle at which its look-up and its walk end. The
    /// walk's accesses are made at the cells' current cycle. The cells hold the process's tables.
    #[inline(always)]
    pub fn look_one<C: Cells>(
        &mut self,
        cells: &mut C,
        root: u32,
        bank_time: u64,
        want: Want,
        started: u64,
        address: u64,
        width: u64,
    ) -> Looked
        requires tables { HaveTables (C.state cells.old) root }
        requires width { 0 < width }
        requires cycles { started + 4 * bank_time < 2 ^ 64 }
        ensures tables { HaveTables (C.state cells.new) root }
        ensures frames { (C.state cells.new).frames ≡ (C.state cells.old).frames }
        ensures cycle { (C.state cells.new).cycle ≡ (C.state cells.old).cycle }
        ensures started { started ≤ result.ended }
        ensures ended { result.ended ≤ started + 4 * bank_time }
        ensures known { IsKnownBy result.ended result.fate }
        ensures looked { (start : Start) (history : History) (earlier : List BatchTimes) (a : Access) → start.machine.bank_time ≡ bank_time → a.address ≡ address → a.width ≡ width
            → AreReady start history earlier root self.old (C.state cells.old)
            → AreLookedUp start history earlier want started (a ∷ []) root self.new (C.state cells.old) (C.state cells.new) (result.fate ∷ []) result.ended }
    {
        let fate = fate_at_last(&self.tlb, want, started, address, width);
        if !is_unknown(fate) {
            return Looked {
                fate,
                ended: started,
            };
        }
        self.search_one(cells, root, bank_time, want, started, address, width)
    }

    /// The same by a look into the cache.
    #[inline(never)]
    fn search_one<C: Cells>(
        &mut self,
        cells: &mut C,
        root: u32,
        bank_time: u64,
        want: Want,
        started: u64,
        address: u64,
        width: u64,
    ) -> Looked
        requires tables { HaveTables (C.state cells.old) root }
        requires width { 0 < width }
        requires cycles { started + 4 * bank_time < 2 ^ 64 }
        ensures tables { HaveTables (C.state cells.new) root }
        ensures frames { (C.state cells.new).frames ≡ (C.state cells.old).frames }
        ensures cycle { (C.state cells.new).cycle ≡ (C.state cells.old).cycle }
        ensures started { started ≤ result.ended }
        ensures ended { result.ended ≤ started + 4 * bank_time }
        ensures known { IsKnownBy result.ended result.fate }
        ensures looked { (start : Start) (history : History) (earlier : List BatchTimes) (a : Access) → start.machine.bank_time ≡ bank_time → a.address ≡ address → a.width ≡ width
            → AreReady start history earlier root self.old (C.state cells.old)
            → AreLookedUp start history earlier want started (a ∷ []) root self.new (C.state cells.old) (C.state cells.new) (result.fate ∷ []) result.ended }
    {
        let fate = fate_searched(&mut self.tlb, want, started, address, width);
        if !is_unknown(fate) {
            return Looked {
                fate,
                ended: started,
            };
        }
        let answer = self.tlb.walk(cells, root, address, want);
        let ended = started + 4 * bank_time;
        Looked {
            fate: fate_walked(answer, ended, address),
            ended,
        }
    }

    /// A batch of up to 8 accesses that starts at a cycle: what is known of each, and the cycle at which its look-ups and walks end.
    /// All are looked up before the first walk; then the page of each that missed is walked unless it was for a lower one, and no walk
    /// begins behind an access that is known to fail. The walks' accesses are made at the cells' current cycle. The cells hold the
    /// process's tables.
    pub fn look_all<C: Cells>(
        &mut self,
        cells: &mut C,
        root: u32,
        bank_time: u64,
        want: Want,
        started: u64,
        items: &[Item],
        fates: &mut [Fate],
    ) -> u64
        requires tables { HaveTables (C.state cells.old) root }
        requires few { length items.now ≤ 8 }
        requires widths { (k : ℕ) (e : Item) → k < length items.now → 0 < (slice_index_or items.now k e).width }
        requires count { length fates.old ≡ length items.now }
        requires cycles { started + 32 * bank_time < 2 ^ 64 }
        ensures count { length fates.new ≡ length fates.old }
        ensures tables { HaveTables (C.state cells.new) root }
        ensures frames { (C.state cells.new).frames ≡ (C.state cells.old).frames }
        ensures cycle { (C.state cells.new).cycle ≡ (C.state cells.old).cycle }
        ensures started { started ≤ result }
        ensures ended { result ≤ started + 32 * bank_time }
        ensures known { AreKnownBy result fates.new }
        ensures looked { (start : Start) (history : History) (earlier : List BatchTimes) (accesses : List Access) → start.machine.bank_time ≡ bank_time → AreOf items.now accesses
            → AreReady start history earlier root self.old (C.state cells.old)
            → AreLookedUp start history earlier want started accesses root self.new (C.state cells.old) (C.state cells.new) fates.new result }
    {
        look_each(&mut self.tlb, want, started, items, fates);
        walk_each(
            &mut self.tlb,
            cells,
            root,
            bank_time,
            want,
            started,
            items,
            fates,
        )
    }

    /// The same of a batch behind whose `last` cycle nothing counts: only those walks are made that end by it, and what is known by
    /// then is what all of them would tell. Answers when the last of these has ended.
    pub fn look_ahead_all<C: Cells>(
        &mut self,
        cells: &mut C,
        root: u32,
        bank_time: u64,
        want: Want,
        started: u64,
        items: &[Item],
        fates: &mut [Fate],
        last: u64,
    ) -> u64
        requires tables { HaveTables (C.state cells.old) root }
        requires few { length items.now ≤ 8 }
        requires widths { (k : ℕ) (e : Item) → k < length items.now → 0 < (slice_index_or items.now k e).width }
        requires count { length fates.old ≡ length items.now }
        requires cycles { started + 32 * bank_time < 2 ^ 64 }
        ensures count { length fates.new ≡ length fates.old }
        ensures tables { HaveTables (C.state cells.new) root }
        ensures frames { (C.state cells.new).frames ≡ (C.state cells.old).frames }
        ensures cycle { (C.state cells.new).cycle ≡ (C.state cells.old).cycle }
        ensures started { started ≤ result }
        ensures ended { result ≤ started + 32 * bank_time }
        ensures known { AreKnownBy result fates.new }
        ensures looked { (start : Start) (history : History) (earlier : List BatchTimes) (accesses : List Access) → start.machine.bank_time ≡ bank_time → AreOf items.now accesses
            → AreReady start history earlier root self.old (C.state cells.old)
            → AreLookedAhead start history earlier want started accesses last root self.new (C.state cells.old) (C.state cells.new) fates.new result }
    {
        look_each(&mut self.tlb, want, started, items, fates);
        walk_ahead(
            &mut self.tlb,
            cells,
            root,
            bank_time,
            want,
            started,
            items,
            fates,
            last,
        )
    }
}
