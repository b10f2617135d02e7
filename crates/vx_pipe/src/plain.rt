//! Instructions without accesses, of any class: those that access control registers, configure vectors or trap.

ghost use Rattle.std.specs.Prelude.{◌≡◌, ℕ, ◌≤◌, ◌^◌, true, List};
ghost use Rattle.vx_cells.specs.Cells.{CellsState};
ghost use Rattle.vx_decode.specs.Encoded.{IsValid};
ghost use Rattle.vx_episode.specs.Organisation.{Start};
ghost use Rattle.vx_flat.specs.Process.{Process};
ghost use Rattle.vx_pipe.specs.Classes.{is_plain};
ghost use Rattle.vx_pipe.specs.Going.{IsEpisodeOn, IsIssuing};
ghost use Rattle.vx_pipe.specs.Left.{registers_of};
ghost use Rattle.vx_pipe.specs.Playing.{shown_state};
ghost use Rattle.vx_pipe.specs.Turning.{HasTurned, IsIssued, IsTimely, caches_of, course_of, machine_of};

use crate::classes::{changes_as, jumps_as, span_of};
use crate::ending::TRAP_CYCLES;
use crate::engine::Engine;
use crate::laws::plain_instructions_are_done;
use crate::retire::{issue, retire};
use crate::turn::Turn;
use vx_cells::Cells;
use vx_decode::Known;
use vx_hart::{Arch, Progress};
use vx_paged::{Paged, walks_leave_pages};

/// Does an instruction without accesses.
#[inline(never)]
pub(crate) fn do_plain<C: Cells>(
    engine: &mut Engine,
    cells: &mut C,
    arch: &mut Arch,
    memory: &mut Paged,
    root: u32,
    until: u64,
    fetched: u64,
    word: u32,
    known: &Known,
) -> Turn
    requires valid { IsValid known.now.instr }
    requires class { is_plain known.now.class ≡ true }
    requires until { until ≤ 2 ^ 42 }
    requires issued { IsIssued (machine_of engine.old) root until memory.old (course_of engine.old.course) fetched (caches_of engine.old) (C.state cells.old) (registers_of arch.old) word known.now.instr }
    ensures turned { (start : Start) (from : Process) (first : CellsState) (output : List ℕ) → IsEpisodeOn (machine_of engine.old) root memory.old start
        → IsIssuing start until from first (course_of engine.old.course) fetched (caches_of engine.old) (C.state cells.old) (shown_state (registers_of arch.old) memory.old (C.state cells.old) output)
        → HasTurned result engine.new.fault start until from first (course_of engine.new.course) (caches_of engine.new) (C.state cells.new) (shown_state (registers_of arch.new) memory.new (C.state cells.new) output) }
    ensures timely { IsTimely result (course_of engine.old.course) (course_of engine.new.course) }
    ensures machine { machine_of engine.new ≡ machine_of engine.old }
    ensures memory { memory.new ≡ memory.old }
{
    plain_instructions_are_done();
    walks_leave_pages();
    let class = known.class;
    let changes = changes_as(class, &known.instr);
    let issued = issue(fetched, engine.course.retired);
    match engine.executor.execute(arch, memory, cells, word, known) {
        Progress::Completed => {
            let completed = issued + span_of(class);
            let jumps = jumps_as(class);
            retire(
                engine, cells, root, until, arch.pc, issued, completed, 0, jumps, changes,
            )
        }
        Progress::Asks => Turn::Service(issued + TRAP_CYCLES),
        Progress::Faulted => {
            engine.fault = engine.executor.fault();
            Turn::Faulted(issued + TRAP_CYCLES)
        }
    }
}
