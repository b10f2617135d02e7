ghost use Rattle.std.specs.Prelude.{◌≡◌, ℕ, ◌+◌, ◌*◌, ◌^◌, ◌<◌, ◌≤◌, [], ◌∷◌, List, All, map, length, slice_index_or};
ghost use Rattle.vx_cells.specs.Cells.{CellsState};
ghost use Rattle.vx_episode.specs.Batches.{fate_of, is_failing, walks_with};
ghost use Rattle.vx_episode.specs.Footprint.{Access};
ghost use Rattle.vx_episode.specs.History.{History, BatchTimes, Walk, walks_of_batches, fills_of};
ghost use Rattle.vx_episode.specs.Instructions.{walk_time};
ghost use Rattle.vx_episode.specs.Organisation.{Start};
ghost use Rattle.vx_serve.specs.Fates.{told, IsKnownBy, AreKnownBy};
ghost use Rattle.vx_look.specs.Filled.{IsFoundBelow};
ghost use Rattle.vx_look.specs.LookUps.{AreGoing, AreLookedUp, AreOf, AreReady, no_access, updated};
ghost use Rattle.vx_serve.specs.declared.fate.Fate.{Fate};
ghost use Rattle.vx_tables.specs.Walking.{HaveTables};
ghost use Rattle.vx_tlb.specs.Kept.{StandsFor};
ghost use Rattle.vx_vaddr.specs.declared.item.Item.{Item};

use crate::data_tlb::DataTlb;
use crate::looking::{fate_looked, fate_walked, is_unknown};
use crate::pages::PAGE_BYTES;
use vx_base::Want;
use vx_cells::Cells;
use vx_serve::Fate;
use vx_tables::Walked;
use vx_vaddr::Item;

/// Whether an access is known to fail.
pub fn is_failing(fate: Fate) -> bool
    ensures { result ≡ is_failing (told fate) }
{
    match fate {
        Fate::Fails(_, _) => true,
        Fate::Good(_, _) | Fate::Unknown => false,
    }
}

/// What is known of an access once a page was walked.
fn fate_settled(fate: Fate, address: u64, page: u64, ended: u64, walked: Walked) -> Fate
    requires { IsFoundBelow 16384 walked }
    ensures known { (before : ℕ) → before ≤ ended → IsKnownBy before fate → IsKnownBy ended result }
    ensures settled { (a : Access) → a.address ≡ address → told result ≡ updated page ended walked a (told fate) }
{
    if !is_unknown(fate) {
        return fate;
    }
    if address / PAGE_BYTES != page {
        return fate;
    }
    fate_walked(walked, ended, address)
}

/// The same of each access of a batch.
fn settle(items: &[Item], fates: &mut [Fate], page: u64, ended: u64, walked: Walked)
    requires below { IsFoundBelow 16384 walked }
    requires count { length fates.old ≡ length items.now }
    ensures count { length fates.new ≡ length fates.old }
    ensures known { (before : ℕ) → before ≤ ended → AreKnownBy before fates.old → AreKnownBy ended fates.new }
    ensures settled { (k : ℕ) (d : Fate) (e : Item) (a : Access) → k < length items.now → a.address ≡ (slice_index_or items.now k e).address
        → told (slice_index_or fates.new k d) ≡ updated page ended walked a (told (slice_index_or fates.old k d)) }
{
    for k in 0..items.len() {
        fates[k] = fate_settled(fates[k], items[k].address, page, ended, walked);
    }
}

/// What is known of each access of a batch by the look-ups at its start.
pub fn look_each(tlb: &mut DataTlb, want: Want, started: u64, items: &[Item], fates: &mut [Fate])
    requires widths { (k : ℕ) (e : Item) → k < length items.now → 0 < (slice_index_or items.now k e).width }
    requires count { length fates.old ≡ length items.now }
    ensures same { tlb.new ≡ tlb.old }
    ensures count { length fates.new ≡ length fates.old }
    ensures known { AreKnownBy started fates.new }
    ensures looked { (start : Start) (history : History) (earlier : List BatchTimes) (accesses : List Access) → AreOf items.now accesses
        → StandsFor tlb.old (fills_of (walks_of_batches earlier)) → map told fates.new ≡ map (fate_of start history earlier want started []) accesses }
{
    for k in 0..items.len() {
        let width = u64::from(items[k].width);
        fates[k] = fate_looked(tlb, want, started, items[k].address, width);
    }
}

/// The walk of an access's page, which takes so long, where nothing is known of the access behind the walks of the batch so far.
/// Answers when the last walk has ended.
pub fn walk_missing<C: Cells>(
    tlb: &mut DataTlb,
    cells: &mut C,
    root: u32,
    want: Want,
    items: &[Item],
    fates: &mut [Fate],
    i: usize,
    ended: u64,
    time: u64,
) -> u64
    requires tables { HaveTables (C.state cells.old) root }
    requires index { i < length items.now }
    requires count { length fates.old ≡ length items.now }
    requires cycles { ended + time < 2 ^ 64 }
    ensures tables { HaveTables (C.state cells.new) root }
    ensures count { length fates.new ≡ length fates.old }
    ensures frames { (C.state cells.new).frames ≡ (C.state cells.old).frames }
    ensures cycle { (C.state cells.new).cycle ≡ (C.state cells.old).cycle }
    ensures ended { ended ≤ result }
    ensures cycles { result ≤ ended + time }
    ensures known { AreKnownBy ended fates.old → AreKnownBy result fates.new }
    ensures going { (start : Start) (history : History) (earlier : List BatchTimes) (started : ℕ) (accesses : List Access) (walks : List Walk) (before : CellsState) → time ≡ walk_time start.machine → AreOf items.now accesses
        → AreGoing start history earlier want started accesses root walks tlb.old before (C.state cells.old) fates.old ended
        → AreGoing start history earlier want started accesses root (walks_with start history earlier want started walks (slice_index_or accesses i no_access)) tlb.new before (C.state cells.new) fates.new result }
{
    if !is_unknown(fates[i]) {
        return ended;
    }
    let address = items[i].address;
    let walked = tlb.walk(cells, root, address, want);
    let after = ended + time;
    settle(items, fates, address / PAGE_BYTES, after, walked);
    after
}

/// The walks of a batch, of whose accesses this is known by the look-ups at its start: each page that missed is walked in the order
/// of its first accesses, none behind an access that is known to fail. Answers when the last walk has ended.
pub fn walk_each<C: Cells>(
    tlb: &mut DataTlb,
    cells: &mut C,
    root: u32,
    bank_time: u64,
    want: Want,
    started: u64,
    items: &[Item],
    fates: &mut [Fate],
) -> u64
    requires tables { HaveTables (C.state cells.old) root }
    requires few { length items.now ≤ 8 }
    requires count { length fates.old ≡ length items.now }
    requires cycles { started + 32 * bank_time < 2 ^ 64 }
    requires known { AreKnownBy started fates.old }
    ensures tables { HaveTables (C.state cells.new) root }
    ensures frames { (C.state cells.new).frames ≡ (C.state cells.old).frames }
    ensures cycle { (C.state cells.new).cycle ≡ (C.state cells.old).cycle }
    ensures started { started ≤ result }
    ensures ended { result ≤ started + 32 * bank_time }
    ensures known { AreKnownBy result fates.new }
    ensures count { length fates.new ≡ length fates.old }
    ensures walked { (start : Start) (history : History) (earlier : List BatchTimes) (accesses : List Access) → start.machine.bank_time ≡ bank_time → AreOf items.now accesses
        → AreReady start history earlier root tlb.old (C.state cells.old) → map told fates.old ≡ map (fate_of start history earlier want started []) accesses
        → AreLookedUp start history earlier want started accesses root tlb.new (C.state cells.old) (C.state cells.new) fates.new result }
{
    let time = 4 * bank_time;
    let mut ended = started;
    for i in 0..items.len() {
        ended = walk_missing(tlb, cells, root, want, items, fates, i, ended, time);
        if is_failing(fates[i]) {
            return ended;
        }
    }
    ended
}
