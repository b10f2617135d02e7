//! Instructions that only have an effect on the registers and the pc.

ghost use Rattle.std.specs.Prelude.{◌≡◌, ℕ, ◌≤◌, ◌^◌, true, List};
ghost use Rattle.vx_cells.specs.Cells.{CellsState};
ghost use Rattle.vx_decode.specs.Encoded.{IsValid};
ghost use Rattle.vx_episode.specs.Organisation.{Start};
ghost use Rattle.vx_flat.specs.Process.{Process};
ghost use Rattle.vx_hart.specs.Effects.{is_effect_class};
ghost use Rattle.vx_pipe.specs.Going.{IsEpisodeOn, IsIssuing};
ghost use Rattle.vx_pipe.specs.Left.{registers_of};
ghost use Rattle.vx_pipe.specs.Playing.{shown_state};
ghost use Rattle.vx_pipe.specs.Turning.{HasTurned, IsIssued, IsTimely, caches_of, course_of, machine_of};
ghost use Rattle.vx_rows.specs.Table.{class_of};

use crate::classes::{changes_as, jumps_as, span_of};
use crate::ending::TRAP_CYCLES;
use crate::engine::Engine;
use crate::laws::plain_instructions_are_done;
use crate::retire::{issue, retire};
use crate::turn::Turn;
use vx_cells::Cells;
use vx_decode::Instr;
use vx_hart::{Arch, Progress};
use vx_paged::Paged;
use vx_rows::Class;

/// Does an instruction of a class whose instructions only have an effect. The class stands as a literal where it is called, so that
/// how it is timed is known.
#[inline(always)]
pub(crate) fn do_effect<C: Cells>(
    engine: &mut Engine,
    cells: &mut C,
    arch: &mut Arch,
    memory: &Paged,
    root: u32,
    until: u64,
    fetched: u64,
    word: u32,
    class: Class,
    i: &Instr,
) -> Turn
    requires valid { IsValid i.now }
    requires class { class ≡ class_of i.now.op }
    requires effect { is_effect_class class ≡ true }
    requires until { until ≤ 2 ^ 42 }
    requires issued { IsIssued (machine_of engine.old) root until memory.now (course_of engine.old.course) fetched (caches_of engine.old) (C.state cells.old) (registers_of arch.old) word i.now }
    ensures turned { (start : Start) (from : Process) (first : CellsState) (output : List ℕ) → IsEpisodeOn (machine_of engine.old) root memory.now start
        → IsIssuing start until from first (course_of engine.old.course) fetched (caches_of engine.old) (C.state cells.old) (shown_state (registers_of arch.old) memory.now (C.state cells.old) output)
        → HasTurned result engine.new.fault start until from first (course_of engine.new.course) (caches_of engine.new) (C.state cells.new) (shown_state (registers_of arch.new) memory.now (C.state cells.new) output) }
    ensures timely { IsTimely result (course_of engine.old.course) (course_of engine.new.course) }
    ensures machine { machine_of engine.new ≡ machine_of engine.old }
{
    plain_instructions_are_done();
    let _ = word;
    let issued = issue(fetched, engine.course.retired);
    match engine.executor.affect(arch, i) {
        Progress::Completed => {
            let completed = issued + span_of(class);
            let jumps = jumps_as(class);
            let changes = changes_as(class, i);
            retire(
                engine, cells, root, until, arch.pc, issued, completed, 0, jumps, changes,
            )
        }
        Progress::Asks => unreachable!(),
        Progress::Faulted => {
            engine.fault = engine.executor.fault();
            Turn::Faulted(issued + TRAP_CYCLES)
        }
    }
}
