//! The element of a vector load or store in front of which a slice ends.

ghost use Rattle.std.specs.Prelude.{◌≡◌, ℕ, ◌+◌, ◌*◌, ◌^◌, ◌<◌, ◌≤◌, ◌∷◌, List, length, slice_index_or};
ghost use Rattle.vx_episode.specs.Footprint.{Footprint};
ghost use Rattle.vx_episode.specs.History.{BatchTimes, Entry, History, accesses_of};
ghost use Rattle.vx_episode.specs.Organisation.{Start};
ghost use Rattle.vx_flat.specs.Transfers.{Transfer};
ghost use Rattle.vx_look.specs.LookUps.{AreReady};
ghost use Rattle.vx_pipe.specs.Passing.{IsAhead};
ghost use Rattle.vx_pipe.specs.Transfers.{IsFetchWalk, element_batch};
ghost use Rattle.vx_serve.specs.Stamps.{AreBy, AreOfSame, StandsFor};
ghost use Rattle.vx_tables.specs.Walking.{HaveTables};
ghost use Rattle.vx_vaddr.specs.Views.{movement_with};
ghost use Rattle.vx_vector.specs.Accesses.{movement_count};
ghost use Rattle.vx_vector.specs.Movements.{IsSoundMovement};

use vx_base::Want;
use vx_cells::Cells;
use vx_look::{DataLookUps, accesses_are_of_their_items, walks_commute};
use vx_serve::{BankTimes, Fate, what_is_known_is_enough};
use vx_vaddr::{AccessList, AccessPattern};
use vx_vstate::WordFile;

/// How many accesses an element has at the most.
const MOST: usize = 8;

/// Goes through an element that starts at a cycle as far as that comes by the last cycle of an episode, and tells by when the accesses are
/// done that are queued by then, 0 where none is.
pub fn look_ahead<C: Cells, S: WordFile>(
    loads: &mut DataLookUps,
    banks: &mut BankTimes,
    cells: &mut C,
    root: u32,
    bank_time: u64,
    want: Want,
    started: u64,
    pattern: &AccessPattern,
    file: &S,
    i: u32,
    list: &mut AccessList,
    last: u64,
) -> u64
    requires tables { HaveTables (C.state cells.old) root }
    requires same { S.vlen file.now ≡ pattern.now.at.vlen }
    requires sound { IsSoundMovement (movement_with pattern.now (S.words file.now)) }
    requires from { pattern.now.at.vstart ≤ i }
    requires among { i < movement_count (movement_with pattern.now (S.words file.now)) }
    requires cycles { started ≤ 2 ^ 60 }
    requires time { bank_time ≤ 16 }
    requires bank { banks.old.bank_time ≡ bank_time }
    requires stamps { AreBy (2 ^ 60) banks.old.stamps }
    ensures tables { HaveTables (C.state cells.new) root }
    ensures frames { (C.state cells.new).frames ≡ (C.state cells.old).frames }
    ensures kept { AreOfSame banks.old banks.new }
    ensures soon { (b : ℕ) → AreBy b banks.old.stamps → started + 512 ≤ b → result ≤ b + 129 }
    ensures ahead { (start : Start) (history : History) (e : Entry) (earlier : List BatchTimes) (f : Footprint) (t : Transfer) → start.machine.bank_time ≡ bank_time → f.want ≡ want → t.movement ≡ movement_with pattern.now (S.words file.now)
        → IsFetchWalk e.fetch.walk → AreReady start (e ∷ history) earlier root loads.old (C.state cells.old) → StandsFor banks.old start.machine (accesses_of earlier)
        → IsAhead start history e earlier f started (element_batch t i) last root (C.state cells.old) (C.state cells.new) result }
{
    walks_commute();
    what_is_known_is_enough();
    accesses_are_of_their_items();
    pattern.fill(file, i, list);
    let _few = list.len();
    let items = list.slice();
    let mut room = [Fate::Unknown; MOST];
    let fates = &mut room[..items.len()];
    let ended = loads.look_ahead_all(cells, root, bank_time, want, started, items, fates, last);
    let _ended = ended;
    banks.serve_all_by(fates, last)
}
