//! A vector load or store in time, from element to element.

ghost use Rattle.std.specs.Prelude.{◌≡◌, ℕ, ◌+◌, ◌-◌, ◌*◌, ◌^◌, ◌<◌, ◌≤◌, ◌∷◌, ◌&&◌, nat_le, nat_lt, List, max};
ghost use Rattle.vx_cells.specs.Cells.{CellsState};
ghost use Rattle.vx_episode.specs.Footprint.{Batch, Footprint};
ghost use Rattle.vx_episode.specs.History.{Entry, History};
ghost use Rattle.vx_episode.specs.Organisation.{Start};
ghost use Rattle.vx_flat.specs.Transfers.{Transfer, is_fault_only_first};
ghost use Rattle.vx_pipe.specs.Passing.{HasGoneTo, HasPassed, IsPassing, IsSet, IsSoon};
ghost use Rattle.vx_pipe.specs.Transfers.{element_batch, element_batches};
ghost use Rattle.vx_pipe.specs.declared.passing.Passed.TheVariants as passed;
ghost use Rattle.vx_pipe.specs.declared.passing.Way.TheVariants as way;
ghost use Rattle.vx_serve.specs.Stamps.{AreBy, AreOfSame};
ghost use Rattle.vx_tables.specs.Walking.{HaveTables};
ghost use Rattle.vx_vaddr.specs.Views.{movement_with};
ghost use Rattle.vx_vector.specs.Accesses.{movement_count};
ghost use Rattle.vx_vector.specs.Movements.{IsSoundMovement};

use crate::transfers::{Gone, go_through_element};
use vx_base::Want;
use vx_batching::{a_batch_passes, a_batch_starts, batches_commit};
use vx_cells::Cells;
use vx_ending::happenings_are_counted;
use vx_look::{DataLookUps, walks_commute};
use vx_rows::Addressing;
use vx_serve::{BankTimes, accesses_go_in_turn};
use vx_vaddr::{AccessList, AccessPattern};
use vx_vstate::WordFile;

/// The cycles of a vector load or store that goes from element to element.
#[derive(Clone, Copy, PartialEq, Eq, Debug)]
pub struct Passing {
    /// The end of the last look-up.
    pub looked: u64,
    /// The commit of the last element, if it isn't the last of all, and that of the one before it.
    pub committed: u64,
    pub before: u64,
    /// The cycle by which all accesses are done.
    pub done: u64,
}

/// What an element comes to.
#[derive(Clone, Copy, PartialEq, Eq, Debug)]
pub enum Passed {
    /// The instruction goes on behind it.
    Goes,
    /// The instruction completes with it, since it is cut off there.
    Completes,
    /// It fails.
    Stops,
}

/// What all elements come to.
#[derive(Clone, Copy, PartialEq, Eq, Debug)]
pub enum Way {
    Completes,
    /// The slice ends in front of an element.
    Reaches,
    /// An element fails.
    Stops,
}

/// Whether a load with this addressing is cut off at an element that fails.
#[inline(always)]
fn is_cut_at(addressing: Addressing, i: u32) -> bool
    ensures { result ≡ (is_fault_only_first addressing && nat_lt 0 i) }
{
    match addressing {
        Addressing::FaultOnlyFirst => 0 < i,
        _ => false,
    }
}

impl Passing {
    /// The cycles behind an element that was gone through.
    #[inline(always)]
    fn behind(self, gone: &Gone) -> Passing
        ensures { result ≡ record { looked = gone.now.looked; committed = max self.committed (max gone.now.looked gone.now.done); before = self.committed; done = max self.done gone.now.done } }
    {
        Passing {
            looked: gone.looked,
            committed: self.committed.max(gone.looked.max(gone.done)),
            before: self.committed,
            done: self.done.max(gone.done),
        }
    }

    /// The cycles at an element that fails.
    #[inline(always)]
    fn at_stop(self, gone: &Gone) -> Passing
        ensures { result ≡ record { looked = gone.now.looked; committed = self.committed; before = self.before; done = max self.done gone.now.done } }
    {
        Passing {
            looked: gone.looked,
            committed: self.committed,
            before: self.before,
            done: self.done.max(gone.done),
        }
    }
}

/// Goes through an element.
pub fn pass_element<C: Cells, S: WordFile>(
    loads: &mut DataLookUps,
    banks: &mut BankTimes,
    cells: &mut C,
    root: u32,
    bank_time: u64,
    want: Want,
    addressing: Addressing,
    pattern: &AccessPattern,
    file: &S,
    i: u32,
    list: &mut AccessList,
    numbers: &mut Passing,
) -> Passed
    requires tables { HaveTables (C.state cells.old) root }
    requires same { S.vlen file.now ≡ pattern.now.at.vlen }
    requires sound { IsSoundMovement (movement_with pattern.now (S.words file.now)) }
    requires from { pattern.now.at.vstart ≤ i }
    requires among { i < movement_count (movement_with pattern.now (S.words file.now)) }
    requires addressing { (movement_with pattern.now (S.words file.now)).addressing ≡ addressing }
    requires time { bank_time ≤ 16 }
    requires bank { banks.old.bank_time ≡ bank_time }
    requires looked { numbers.old.looked ≤ 2 ^ 44 }
    requires committed { numbers.old.committed ≤ 2 ^ 44 }
    requires before { numbers.old.before ≤ numbers.old.committed }
    requires done { numbers.old.done ≤ numbers.old.committed }
    requires stamps { AreBy (2 ^ 44) banks.old.stamps }
    ensures tables { HaveTables (C.state cells.new) root }
    ensures kept { AreOfSame banks.old banks.new }
    ensures soon { (b : ℕ) → numbers.old.looked ≤ b → numbers.old.committed ≤ b → AreBy b banks.old.stamps → IsSoon (b + 700) numbers.new }
    ensures later { numbers.old.looked < numbers.new.looked }
    ensures more { numbers.old.done ≤ numbers.new.done }
    ensures before { numbers.new.before ≤ numbers.new.committed }
    ensures before_is { result ≡ passed.Goes → numbers.new.before ≡ numbers.old.committed }
    ensures before_cut { result ≡ passed.Completes → numbers.new.before ≡ numbers.old.committed }
    ensures committed { result ≡ passed.Stops → numbers.new.committed ≡ numbers.old.committed }
    ensures done { result ≡ passed.Goes → numbers.new.done ≤ numbers.new.committed }
    ensures by { (last : ℕ) → AreBy last banks.old.stamps → numbers.new.done ≤ last → AreBy last banks.new.stamps }
    ensures passed { (start : Start) (history : History) (e : Entry) (retired issued : ℕ) (f : Footprint) (t : Transfer) (rest : List Batch) (first : CellsState)
        → IsSet start history e f t bank_time want (movement_with pattern.now (S.words file.now))
        → IsPassing start history e retired issued f t i (element_batch t i ∷ rest) numbers.old root loads.old banks.old first (C.state cells.old)
        → HasPassed result start history e retired issued f t i rest numbers.new root loads.new banks.new first (C.state cells.new) }
{
    a_batch_starts();
    a_batch_passes();
    batches_commit();
    happenings_are_counted();
    walks_commute();
    accesses_go_in_turn();
    let old = *numbers;
    let started = old.looked.max(old.before) + 1;
    let gone = go_through_element(
        loads, banks, cells, root, bank_time, want, started, pattern, file, i, list,
    );
    if gone.failing.is_none() {
        *numbers = old.behind(&gone);
        return Passed::Goes;
    }
    if is_cut_at(addressing, i) {
        *numbers = old.behind(&gone);
        return Passed::Completes;
    }
    *numbers = old.at_stop(&gone);
    Passed::Stops
}

/// Whether there is an element that isn't done yet, and the slice ends in front of it.
#[inline(always)]
fn is_late(i: u32, count: u32, until: u64, committed: u64) -> bool
    ensures { result ≡ (nat_lt i count && nat_le until committed) }
{
    i < count && until <= committed
}

/// Goes from element to element, from the first that isn't done yet on. Tells the element at which that ends: the last one, or the one that
/// is reached, or that fails.
pub fn pass_elements<C: Cells, S: WordFile>(
    loads: &mut DataLookUps,
    banks: &mut BankTimes,
    cells: &mut C,
    root: u32,
    bank_time: u64,
    until: u64,
    want: Want,
    addressing: Addressing,
    pattern: &AccessPattern,
    file: &S,
    count: u32,
    list: &mut AccessList,
    numbers: &mut Passing,
    i: &mut u32,
) -> Way
    requires tables { HaveTables (C.state cells.old) root }
    requires same { S.vlen file.now ≡ pattern.now.at.vlen }
    requires sound { IsSoundMovement (movement_with pattern.now (S.words file.now)) }
    requires from { pattern.now.at.vstart ≡ i.old }
    requires count { count ≡ movement_count (movement_with pattern.now (S.words file.now)) }
    requires few { count ≤ 8192 }
    requires among { i.old < count }
    requires addressing { (movement_with pattern.now (S.words file.now)).addressing ≡ addressing }
    requires time { bank_time ≤ 16 }
    requires bank { banks.old.bank_time ≡ bank_time }
    requires looked { numbers.old.looked ≤ 2 ^ 43 }
    requires committed { numbers.old.committed ≤ 2 ^ 43 }
    requires before { numbers.old.before ≤ numbers.old.committed }
    requires done { numbers.old.done ≤ numbers.old.committed }
    requires stamps { AreBy numbers.old.committed banks.old.stamps }
    ensures tables { HaveTables (C.state cells.new) root }
    ensures kept { AreOfSame banks.old banks.new }
    ensures from { i.old ≤ i.new }
    ensures among { i.new < count }
    ensures soon { IsSoon (max numbers.old.looked numbers.old.committed + 700 * (i.new - i.old + 1)) numbers.new }
    ensures before { numbers.new.before ≤ numbers.new.committed }
    ensures later { numbers.old.looked < numbers.new.looked }
    ensures by { AreBy (max numbers.old.committed numbers.new.done) banks.new.stamps }
    ensures early { result ≡ way.Completes → i.old < i.new → numbers.new.before < until }
    ensures early_stop { result ≡ way.Stops → i.old < i.new → numbers.new.committed < until }
    ensures early_before { result ≡ way.Reaches → i.old + 1 < i.new → numbers.new.before < until }
    ensures late { result ≡ way.Reaches → until ≤ numbers.new.committed }
    ensures reached { result ≡ way.Reaches → i.old < i.new }
    ensures passed { (start : Start) (history : History) (e : Entry) (retired issued : ℕ) (f : Footprint) (t : Transfer) (first : CellsState)
        → IsSet start history e f t bank_time want (movement_with pattern.now (S.words file.now))
        → IsPassing start history e retired issued f t i.old (element_batches t (count - i.old) i.old) numbers.old root loads.old banks.old first (C.state cells.old)
        → HasGoneTo result start history e retired issued f t i.new numbers.new root loads.new banks.new first (C.state cells.new) }
{
    batches_commit();
    happenings_are_counted();
    let mut at = *i;
    while at < count {
        let passed = pass_element(
            loads, banks, cells, root, bank_time, want, addressing, pattern, file, at, list,
            numbers,
        );
        *i = at;
        match passed {
            Passed::Goes => {}
            Passed::Completes => return Way::Completes,
            Passed::Stops => return Way::Stops,
        }
        at += 1;
        if is_late(at, count, until, numbers.committed) {
            *i = at;
            return Way::Reaches;
        }
    }
    Way::Completes
}
