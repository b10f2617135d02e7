//! What can't be fetched, or means nothing.

ghost use Rattle.std.specs.Prelude.{◌≡◌, ℕ, ◌+◌, ◌≤◌, ◌^◌, true, List};
ghost use Rattle.vx_cells.specs.Cells.{CellsState};
ghost use Rattle.vx_episode.specs.Organisation.{Start};
ghost use Rattle.vx_flat.specs.Process.{Process};
ghost use Rattle.vx_flat.specs.Step.{upcoming};
ghost use Rattle.vx_paged.specs.Left.{Fits};
ghost use Rattle.vx_pipe.specs.Going.{IsEpisodeOn, IsIssuing};
ghost use Rattle.vx_pipe.specs.Left.{registers_of};
ghost use Rattle.vx_pipe.specs.Playing.{shown_state};
ghost use Rattle.vx_pipe.specs.Turning.{HasTurned, IsTimely, caches_of, course_of, is_refused, machine_of};

use crate::ending::TRAP_CYCLES;
use crate::engine::Engine;
use crate::laws::refused_instructions_fault;
use crate::retire::issue;
use crate::turn::Turn;
use vx_cells::Cells;
use vx_decode::KnownWords;
use vx_hart::{Arch, Progress};
use vx_paged::{Paged, walks_leave_pages};

/// Ends the episode at what can't be fetched, or means nothing.
#[inline(never)]
pub(crate) fn refuse<C: Cells>(
    engine: &mut Engine,
    words: &mut KnownWords,
    cells: &mut C,
    arch: &mut Arch,
    memory: &mut Paged,
    root: u32,
    until: u64,
    fetched: u64,
) -> Turn
    requires fits { Fits memory.old (C.state cells.old) }
    requires retired { engine.old.course.retired ≤ 2 ^ 42 }
    requires fetched { fetched ≤ engine.old.course.retired + 65 }
    requires refused { (output : List ℕ) → is_refused (upcoming (shown_state (registers_of arch.old) memory.old (C.state cells.old) output)) ≡ true }
    ensures turned { (start : Start) (from : Process) (first : CellsState) (output : List ℕ) → IsEpisodeOn (machine_of engine.old) root memory.old start
        → IsIssuing start until from first (course_of engine.old.course) fetched (caches_of engine.old) (C.state cells.old) (shown_state (registers_of arch.old) memory.old (C.state cells.old) output)
        → HasTurned result engine.new.fault start until from first (course_of engine.new.course) (caches_of engine.new) (C.state cells.new) (shown_state (registers_of arch.new) memory.new (C.state cells.new) output) }
    ensures timely { IsTimely result (course_of engine.old.course) (course_of engine.new.course) }
    ensures machine { machine_of engine.new ≡ machine_of engine.old }
    ensures memory { memory.new ≡ memory.old }
{
    let _ = (root, until);
    refused_instructions_fault();
    walks_leave_pages();
    let _pages = memory.pages();
    let issued = issue(fetched, engine.course.retired);
    let advance = engine.executor.advance(words, arch, memory, cells);
    let Progress::Faulted = advance.progress else {
        unreachable!()
    };
    engine.fault = engine.executor.fault();
    Turn::Faulted(issued + TRAP_CYCLES)
}
