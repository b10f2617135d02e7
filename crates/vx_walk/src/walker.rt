ghost use Rattle.std.specs.Prelude.{◌≡◌, ◌<◌, ◌≤◌, ◌+◌, ◌*◌, ◌^◌, [], List, ℕ, map};
ghost use Rattle.std.specs.Option.{option_to_list};
ghost use Rattle.vx_base.specs.Pages.{IsPageList};
ghost use Rattle.vx_cells.specs.Cells.{Makes};
ghost use Rattle.vx_tables.specs.Entries.{frame_in};
ghost use Rattle.vx_tables.specs.Residency.{Residency, pages_of};
ghost use Rattle.vx_tables.specs.Tables.{AreHeld};
ghost use Rattle.vx_tables.specs.Walking.{first_stage, stage_behind, stage_after, Agree, CanTick, CanWrite, IsOfLevels, IsWalk, Ticks, WalkTicks};
ghost use Rattle.vx_tables.specs.Walks.{entry_word, written_entry};
ghost use Rattle.vx_tables.specs.declared.stage.TableEntry.{TableEntry};

use crate::entry::{frame_of, is_pointer, leaf_answer, leaf_written};
use std::marker::Model;
use vx_base::Want;
use vx_cells::{Cells, Port, words_are_merged_by_bytes};
use vx_image::is_canonical;
use vx_tables::{Stage, TableEntry, Walked, steps_follow_the_tables};

/// A walk of the page tables on its way, one access after another.
#[derive(Debug, Drop)]
pub struct Walker {
    address: u64,
    want: Want,
    port: Port,
    stage: Stage,
}

impl Model for Walker {
    ghost use Rattle.vx_tables.specs.Walking.{Walking, IsOfLevels};

    ghost Value = { Walking };

    ghost view = { λ w. record { address = w.address; want = w.want; port = w.port; stage = w.stage } };

    ghost invariant = { λ w. IsOfLevels w.stage };
}

/// The word of the entry for an address in the table in a frame.
fn entry_word(frame: u32, address: u64, level: u32) -> u32
    requires frame { frame < 16384 }
    requires level { level < 3 }
    ensures { result ≡ entry_word frame address level }
{
    512 * frame + (address >> (12 + 9 * level) & 511) as u32
}

/// What comes after the entry of that value was read in a table. A frame beyond 32 bits is none of the memory's, and its access
/// is denied.
fn stage_after(want: Want, address: u64, level: u32, frame: u32, value: u64) -> Stage
    requires frame { frame < 16384 }
    requires level { level < 3 }
    ensures value { result ≡ stage_after want address level frame value }
    ensures levels { IsOfLevels result }
{
    if value / 1024 < 1 << 32 {
        stage_behind(want, address, level, frame, value)
    } else {
        Stage::Ends(Walked::Denied, None)
    }
}

/// The same of an entry whose frame has 32 bits.
fn stage_behind(want: Want, address: u64, level: u32, frame: u32, value: u64) -> Stage
    requires frame { frame < 16384 }
    requires level { level < 3 }
    requires value { frame_in value < 2 ^ 32 }
    ensures value { result ≡ stage_behind want address level frame value }
    ensures levels { IsOfLevels result }
{
    if level == 0 {
        let word = entry_word(frame, address, 0);
        let write = match leaf_written(want, value) {
            None => None,
            Some(value) => Some(TableEntry { word, value }),
        };
        return Stage::Ends(leaf_answer(want, value), write);
    }
    if is_pointer(value) {
        return Stage::Reads(level - 1, frame_of(value));
    }
    Stage::Ends(Walked::Denied, None)
}

/// The stage in which a walk begins.
fn first_stage(root: u32, address: u64) -> Stage
    ensures value { result ≡ first_stage root address }
    ensures levels { IsOfLevels result }
{
    if is_canonical(address) {
        Stage::Reads(2, root)
    } else {
        Stage::Ends(Walked::Denied, None)
    }
}

/// Writes the entry at the end of a walk, where there is one.
fn write_entry<C: Cells>(cells: &mut C, port: Port, write: Option<TableEntry>)
    requires { CanWrite (C.state cells.old) write }
    ensures { Makes (C.state cells.old) (C.state cells.new) (map (written_entry (C.state cells.old).cycle port) (option_to_list write)) }
{
    words_are_merged_by_bytes();
    if let Some(entry) = write {
        cells.write(port, entry.word, entry.value, u8::MAX);
    }
}

impl Walker {
    /// A walk for an address from the root of a process's tables, in frame `root`, with its accesses on that port. A walk for
    /// an address that isn't canonical makes no access, and ends with Denied.
    pub fn begin(root: u32, address: u64, want: Want, port: Port) -> Walker
        ensures starts { result ≡ record { address = address; want = want; port = port; stage = first_stage root address } }
        ensures walk { (residency : Residency) → IsPageList (pages_of residency) → IsWalk residency root result [] }
    {
        steps_follow_the_tables();
        Walker {
            address,
            want,
            port,
            stage: first_stage(root, address),
        }
    }

    /// Goes on with the walk at the current cycle: reads the next entry and answers `None`, or, once the entries lead no
    /// further, ends it with its answer, and writes the leaf where A, or D for a store, was to be set when it was read. No tick
    /// of the walk has answered `Some` before, and the cells have the frame in which it reads, or the word that it writes.
    ///
    /// Over tables it answers the page map, and sets A and D, also where walks on the other port have set some since.
    pub fn tick<C: Cells>(&mut self, cells: &mut C) -> Option<Walked>
        requires { CanTick (C.state cells.old) self.old.stage }
        ensures ticks { Ticks (C.state cells.old) (C.state cells.new) self.old self.new self.old.stage result }
        ensures walk { (seen residency : Residency) (root : ℕ) (done : List TableEntry) → AreHeld (C.state cells.old) root residency
            → Agree self.old.address self.old.want seen residency → IsWalk seen root self.old done
            → WalkTicks (C.state cells.old) (C.state cells.new) seen residency root self.old self.new done result }
    {
        let _frames = cells.frames();
        steps_follow_the_tables();
        match self.stage {
            Stage::Reads(level, frame) => {
                let value = cells.read(self.port, entry_word(frame, self.address, level));
                self.stage = stage_after(self.want, self.address, level, frame, value);
                None
            }
            Stage::Ends(answer, write) => {
                write_entry(cells, self.port, write);
                self.stage = Stage::Over;
                Some(answer)
            }
            Stage::Over => unreachable!(),
        }
    }
}
