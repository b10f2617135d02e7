//! A vector load or store in time.

ghost use Rattle.std.specs.Prelude.{◌≡◌, ℕ, ◌+◌, ◌*◌, ◌^◌, ◌<◌, ◌≤◌, [], ◌∷◌, List, length, slice_index_or};
ghost use Rattle.vx_cells.specs.Cells.{CellsState};
ghost use Rattle.vx_episode.specs.Batches.{batch_started};
ghost use Rattle.vx_episode.specs.Cycles.Cycle.{At};
ghost use Rattle.vx_episode.specs.Footprint.{Batch, Footprint};
ghost use Rattle.vx_episode.specs.History.{Entry, History, BatchTimes, accesses_of};
ghost use Rattle.vx_episode.specs.Organisation.{Start};
ghost use Rattle.vx_look.specs.LookUps.{AreOf, AreReady};
ghost use Rattle.vx_flat.specs.Transfers.{Transfer};
ghost use Rattle.vx_pipe.specs.Transfers.{HasGone, IsFetchWalk, element_batch};
ghost use Rattle.vx_serve.specs.Stamps.{AreBy, AreOfSame, StandsFor};
ghost use Rattle.vx_tables.specs.Walking.{HaveTables};
ghost use Rattle.vx_vaddr.specs.Views.{movement_with};
ghost use Rattle.vx_vaddr.specs.declared.item.Item.{Item};
ghost use Rattle.vx_vector.specs.Accesses.{movement_count};
ghost use Rattle.vx_vector.specs.Movements.{IsSoundMovement};

use vx_base::Want;
use vx_cells::Cells;
use vx_look::{DataLookUps, accesses_are_of_their_items, walks_commute};
use vx_serve::{BankTimes, Failing, Fate, known_accesses_are_queued};
use vx_vaddr::{AccessList, AccessPattern, Item};
use vx_vstate::WordFile;

/// How many accesses a batch has at the most.
const MOST: usize = 8;

/// What a batch of accesses comes to.
#[derive(Clone, Copy, PartialEq, Eq, Debug)]
pub struct Gone {
    /// The cycle at which its look-ups and walks end.
    pub looked: u64,
    /// The cycle by which its accesses that are queued are done, 0 where none is.
    pub done: u64,
    /// The lowest access that fails.
    pub failing: Option<Failing>,
}

/// Goes through a batch of accesses that starts at a cycle: looks them up, with their walks, and serves them.
pub fn go_through<C: Cells>(
    loads: &mut DataLookUps,
    banks: &mut BankTimes,
    cells: &mut C,
    root: u32,
    bank_time: u64,
    want: Want,
    started: u64,
    items: &[Item],
) -> Gone
    requires tables { HaveTables (C.state cells.old) root }
    requires few { length items.now ≤ 8 }
    requires widths { (k : ℕ) (e : Item) → k < length items.now → 0 < (slice_index_or items.now k e).width }
    requires cycles { started ≤ 2 ^ 60 }
    requires time { bank_time ≤ 2 ^ 32 }
    requires stamps { AreBy (2 ^ 62) banks.old.stamps }
    ensures tables { HaveTables (C.state cells.new) root }
    ensures from { started ≤ result.looked }
    ensures soon { result.looked ≤ started + 32 * bank_time }
    ensures served { (last : ℕ) → AreBy last banks.old.stamps → result.looked ≤ last → result.done ≤ last + 1 + 8 * banks.old.bank_time }
    ensures by { (last : ℕ) → AreBy last banks.old.stamps → result.done ≤ last → AreBy last banks.new.stamps }
    ensures kept { AreOfSame banks.old banks.new }
    ensures gone { (start : Start) (history : History) (e : Entry) (earlier : List BatchTimes) (f : Footprint) (b : Batch) → start.machine.bank_time ≡ bank_time → f.want ≡ want → AreOf items.now b.accesses
        → IsFetchWalk e.fetch.walk → AreReady start (e ∷ history) earlier root loads.old (C.state cells.old) → StandsFor banks.old start.machine (accesses_of earlier)
        → HasGone start history e earlier f started b (batch_started start history earlier f b (At started)) root loads.new banks.new (C.state cells.old) (C.state cells.new) result }
{
    walks_commute();
    known_accesses_are_queued();
    let mut room = [Fate::Unknown; MOST];
    let fates = &mut room[..items.len()];
    let looked = loads.look_all(cells, root, bank_time, want, started, items, fates);
    let served = banks.serve_all(fates);
    Gone {
        looked,
        done: served.done,
        failing: served.failing,
    }
}

/// The same of a batch of one access.
#[inline(always)]
fn go_through_one<C: Cells>(
    loads: &mut DataLookUps,
    banks: &mut BankTimes,
    cells: &mut C,
    root: u32,
    bank_time: u64,
    want: Want,
    started: u64,
    item: Item,
) -> Gone
    requires tables { HaveTables (C.state cells.old) root }
    requires width { 0 < item.width }
    requires cycles { started ≤ 2 ^ 60 }
    requires time { bank_time ≤ 2 ^ 32 }
    requires stamps { AreBy (2 ^ 62) banks.old.stamps }
    ensures tables { HaveTables (C.state cells.new) root }
    ensures from { started ≤ result.looked }
    ensures soon { result.looked ≤ started + 32 * bank_time }
    ensures served { (last : ℕ) → AreBy last banks.old.stamps → result.looked ≤ last → result.done ≤ last + 1 + 8 * banks.old.bank_time }
    ensures by { (last : ℕ) → AreBy last banks.old.stamps → result.done ≤ last → AreBy last banks.new.stamps }
    ensures kept { AreOfSame banks.old banks.new }
    ensures gone { (start : Start) (history : History) (e : Entry) (earlier : List BatchTimes) (f : Footprint) (b : Batch) → start.machine.bank_time ≡ bank_time → f.want ≡ want → AreOf (item ∷ []) b.accesses
        → IsFetchWalk e.fetch.walk → AreReady start (e ∷ history) earlier root loads.old (C.state cells.old) → StandsFor banks.old start.machine (accesses_of earlier)
        → HasGone start history e earlier f started b (batch_started start history earlier f b (At started)) root loads.new banks.new (C.state cells.old) (C.state cells.new) result }
{
    walks_commute();
    known_accesses_are_queued();
    let width = u64::from(item.width);
    let looked = loads.look_one(cells, root, bank_time, want, started, item.address, width);
    let served = banks.serve_one(looked.fate);
    Gone {
        looked: looked.ended,
        done: served.done,
        failing: served.failing,
    }
}

/// Goes through the batch of an element of a vector load or store. The list is room for its accesses.
pub fn go_through_element<C: Cells, S: WordFile>(
    loads: &mut DataLookUps,
    banks: &mut BankTimes,
    cells: &mut C,
    root: u32,
    bank_time: u64,
    want: Want,
    started: u64,
    pattern: &AccessPattern,
    file: &S,
    i: u32,
    list: &mut AccessList,
) -> Gone
    requires tables { HaveTables (C.state cells.old) root }
    requires same { S.vlen file.now ≡ pattern.now.at.vlen }
    requires sound { IsSoundMovement (movement_with pattern.now (S.words file.now)) }
    requires from { pattern.now.at.vstart ≤ i }
    requires among { i < movement_count (movement_with pattern.now (S.words file.now)) }
    requires cycles { started ≤ 2 ^ 60 }
    requires time { bank_time ≤ 2 ^ 32 }
    requires stamps { AreBy (2 ^ 62) banks.old.stamps }
    ensures tables { HaveTables (C.state cells.new) root }
    ensures from { started ≤ result.looked }
    ensures soon { result.looked ≤ started + 32 * bank_time }
    ensures served { (last : ℕ) → AreBy last banks.old.stamps → result.looked ≤ last → result.done ≤ last + 1 + 8 * banks.old.bank_time }
    ensures by { (last : ℕ) → AreBy last banks.old.stamps → result.done ≤ last → AreBy last banks.new.stamps }
    ensures kept { AreOfSame banks.old banks.new }
    ensures gone { (start : Start) (history : History) (e : Entry) (earlier : List BatchTimes) (f : Footprint) (t : Transfer) → start.machine.bank_time ≡ bank_time → f.want ≡ want → t.movement ≡ movement_with pattern.now (S.words file.now)
        → IsFetchWalk e.fetch.walk → AreReady start (e ∷ history) earlier root loads.old (C.state cells.old) → StandsFor banks.old start.machine (accesses_of earlier)
        → HasGone start history e earlier f started (element_batch t i) (batch_started start history earlier f (element_batch t i) (At started)) root loads.new banks.new (C.state cells.old) (C.state cells.new) result }
{
    accesses_are_of_their_items();
    if pattern.has_one_field() {
        if let Some(item) = pattern.only(file, i) {
            return go_through_one(loads, banks, cells, root, bank_time, want, started, item);
        }
    }
    pattern.fill(file, i, list);
    let _few = list.len();
    go_through(
        loads,
        banks,
        cells,
        root,
        bank_time,
        want,
        started,
        list.slice(),
    )
}
