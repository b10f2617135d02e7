//! The end of an episode behind an instruction.

ghost use Rattle.std.specs.Prelude.{◌≡◌, ◌+◌, ◌≤◌, ◌^◌};
ghost use Rattle.vx_episode.specs.Episode.{trap_cycles};
ghost use Rattle.vx_pipe.specs.Ending.{KeptBehind, OthersBehind};
ghost use Rattle.vx_pipe.specs.Turning.{machine_of};
ghost use Rattle.vx_tables.specs.Walking.{HaveTables};

use crate::engine::Engine;
use crate::fetches::fetch_behind;
use vx_cells::Cells;

/// The cycles from the end of an episode to the system.
pub(crate) const TRAP_CYCLES: u64 = 20;

/// Fetches what is behind an instruction that ends the episode at a cycle, as far as that comes by then, and tells the cycle at which
/// the system takes over.
#[inline(never)]
pub(crate) fn end_behind<C: Cells>(
    engine: &mut Engine,
    cells: &mut C,
    root: u32,
    pc: u64,
    begun: u64,
    last: u64,
) -> u64
    requires tables { HaveTables (C.state cells.old) root }
    requires begun { begun ≤ 2 ^ 62 }
    requires last { last ≤ 2 ^ 62 }
    ensures clock { result ≡ last + trap_cycles }
    ensures kept { KeptBehind root engine.old.bank_time pc begun last engine.old.fetches (C.state cells.old) (C.state cells.new) }
    ensures others { OthersBehind root engine.old.bank_time engine.old.fetches (C.state cells.old) (C.state cells.new) }
    ensures course { engine.new.course ≡ engine.old.course }
    ensures fault { engine.new.fault ≡ engine.old.fault }
    ensures machine { machine_of engine.new ≡ machine_of engine.old }
{
    let bank_time = u64::from(engine.bank_time);
    fetch_behind(&mut engine.fetches, cells, root, bank_time, pc, begun, last);
    last + TRAP_CYCLES
}
