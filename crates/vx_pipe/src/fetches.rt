//! The fetch of the next instruction, and that of the one behind an instruction that ends the episode.

ghost use Rattle.std.specs.Prelude.{◌≡◌, ℕ, ◌+◌, ◌*◌, ◌≤◌, ◌<◌, ◌^◌, List, Option};
ghost use Rattle.vx_cells.specs.Cells.{CellsState};
ghost use Rattle.vx_course.specs.Course.{Course};
ghost use Rattle.vx_episode.specs.History.{History, fetch_walks, fills_of};
ghost use Rattle.vx_episode.specs.Instructions.{residency_now};
ghost use Rattle.vx_episode.specs.Organisation.{Start};
ghost use Rattle.vx_flat.specs.Process.{Process};
ghost use Rattle.vx_flat.specs.State.{Flat};
ghost use Rattle.vx_pipe.specs.Ending.{KeptBehind, OthersBehind};
ghost use Rattle.vx_pipe.specs.Going.{IsGoing, IsIssuing};
ghost use Rattle.vx_serve.specs.Stamps.{BankStamps};
ghost use Rattle.vx_tables.specs.Residency.{pages_of};
ghost use Rattle.vx_tables.specs.Tables.{AreHeld, SameBut, table_count};
ghost use Rattle.vx_tables.specs.Walking.{HaveTables};
ghost use Rattle.vx_tlb.specs.Kept.{StandsFor};
ghost use Rattle.vx_tlb.specs.declared.tlb.Kept.{Kept};

use vx_cells::Cells;
use vx_look::FetchLookUps;

/// Fetches the next instruction, and tells the cycle at which that ends.
#[inline(always)]
pub(crate) fn fetch_next<C: Cells>(
    fetches: &mut FetchLookUps,
    cells: &mut C,
    root: u32,
    bank_time: u64,
    pc: u64,
    begun: u64,
) -> u64
    requires tables { HaveTables (C.state cells.old) root }
    requires bank_time { bank_time ≤ 16 }
    requires begun { begun ≤ 2 ^ 62 }
    ensures issuing { (start : Start) (until : ℕ) (from : Process) (first : CellsState) (course : Course) (loads : List (Option Kept)) (stamps : BankStamps) (u : Flat) → start.root ≡ root → start.machine.bank_time ≡ bank_time → course.begun ≡ begun → u.pc ≡ pc
        → IsGoing start until from first course (record { loads = loads; fetches = fetches.old; stamps = stamps }) (C.state cells.old) u
        → IsIssuing start until from first course result (record { loads = loads; fetches = fetches.new; stamps = stamps }) (C.state cells.new) u }
    ensures others { (start : Start) (history : History) → start.machine.bank_time ≡ bank_time → StandsFor fetches.old (fills_of (fetch_walks history)) → AreHeld (C.state cells.old) root (residency_now start history)
        → SameBut root (table_count (pages_of start.residency)) (C.state cells.old).contents (C.state cells.new).contents }
    ensures tables { HaveTables (C.state cells.new) root }
    ensures from { begun ≤ result }
    ensures soon { result ≤ begun + 4 * bank_time }
{
    fetches.fetch(cells, root, bank_time, pc, begun).ended
}

/// Fetches the instruction behind one that ends the episode at a cycle, as far as the walk, where there is one, ends by then.
pub(crate) fn fetch_behind<C: Cells>(
    fetches: &mut FetchLookUps,
    cells: &mut C,
    root: u32,
    bank_time: u64,
    pc: u64,
    begun: u64,
    last: u64,
)
    requires tables { HaveTables (C.state cells.old) root }
    requires bank_time { bank_time ≤ 16 }
    requires begun { begun ≤ 2 ^ 62 }
    ensures kept { KeptBehind root bank_time pc begun last fetches.old (C.state cells.old) (C.state cells.new) }
    ensures tables { HaveTables (C.state cells.new) root }
    ensures frames { (C.state cells.new).frames ≡ (C.state cells.old).frames }
    ensures others { OthersBehind root bank_time fetches.old (C.state cells.old) (C.state cells.new) }
{
    if begun + 4 * bank_time > last {
        return;
    }
    let _fetched = fetches.fetch(cells, root, bank_time, pc, begun);
}
