//! The retire of an instruction that completes.

ghost use Rattle.std.specs.Prelude.{◌≡◌, ℕ, ◌+◌, ◌<◌, ◌≤◌, ◌^◌, ◌||◌, max, List, if◌then◌else◌};
ghost use Rattle.vx_cells.specs.Cells.{CellsState};
ghost use Rattle.vx_episode.specs.Organisation.{Start};
ghost use Rattle.vx_episode.specs.Show.{Registers};
ghost use Rattle.vx_flat.specs.Process.{Process};
ghost use Rattle.vx_flat.specs.State.{Flat};
ghost use Rattle.vx_paged.specs.Framed.{IsPlacement, shown};
ghost use Rattle.vx_paged.specs.Placed.{AreAlone, IsPlacedAs};
ghost use Rattle.vx_paged.specs.declared.placement.FramedPage.{FramedPage};
ghost use Rattle.vx_pipe.specs.Going.{IsEpisodeOn};
ghost use Rattle.vx_pipe.specs.Playing.{shown_state};
ghost use Rattle.vx_pipe.specs.Retiring.{IsRetiring, retired_course};
ghost use Rattle.vx_pipe.specs.Turning.{HasTurned, IsTimely, caches_of, course_of, machine_of};
ghost use Rattle.vx_tables.specs.Walking.{HaveTables};

use crate::course::Course;
use crate::ending::end_behind;
use crate::engine::Engine;
use crate::laws::retiring_instructions_go_on;
use crate::turn::Turn;
use vx_cells::Cells;
use vx_paged::walks_leave_pages;

/// The cycle at which an instruction is issued, of those at which its fetch ended and the one before it retired.
#[inline(always)]
pub(crate) fn issue(fetched: u64, retired: u64) -> u64
    requires { retired < 2 ^ 63 }
    ensures { result ≡ max fetched (retired + 1) }
{
    u64::max(fetched, retired + 1)
}

/// Counts an instruction that retires.
#[inline(always)]
fn count(course: &mut Course, issued: u64, completed: u64, commits: u64, jumps: bool, changes: bool)
    requires issued { issued ≤ 2 ^ 60 }
    requires completed { completed ≤ 2 ^ 60 }
    requires commits { course.old.completed + course.old.reached + commits + 1 < 2 ^ 63 }
    ensures { course_of course.new ≡ retired_course (course_of course.old) issued completed commits jumps changes }
{
    course.retired = completed + 1;
    course.begun = issued + if jumps { 2 } else { 1 };
    course.completed += 1;
    course.reached += commits;
    if changes {
        course.changed = true;
    }
}

/// An instruction retires that was issued and completes at these cycles, and committed so often before: the episode goes on, or its
/// slice ends. The pc is that behind the instruction.
#[inline(always)]
pub(crate) fn retire<C: Cells>(
    engine: &mut Engine,
    cells: &mut C,
    root: u32,
    until: u64,
    pc: u64,
    issued: u64,
    completed: u64,
    commits: u64,
    jumps: bool,
    changes: bool,
) -> Turn
    requires tables { HaveTables (C.state cells.old) root }
    requires order { issued ≤ completed }
    requires completed { completed ≤ 2 ^ 60 }
    requires commits { engine.old.course.completed + engine.old.course.reached + commits + 1 < 2 ^ 63 }
    ensures turned { (start : Start) (from : Process) (first : CellsState) (u : Flat) → start.machine.window ≡ 1 → start.root ≡ root → start.machine.bank_time ≡ engine.old.bank_time
        → IsRetiring start until from first (course_of engine.old.course) issued completed commits jumps changes (caches_of engine.old) (C.state cells.old) u → u.pc ≡ pc
        → HasTurned result engine.new.fault start until from first (course_of engine.new.course) (caches_of engine.new) (C.state cells.new) u }
    ensures shown { (placement : List FramedPage) (start : Start) (from : Process) (first : CellsState) (u : Flat) → start.root ≡ root → start.machine.bank_time ≡ engine.old.bank_time
        → IsPlacement placement → IsPlacedAs placement start.residency → AreAlone root start.residency
        → IsRetiring start until from first (course_of engine.old.course) issued completed commits jumps changes (caches_of engine.old) (C.state cells.old) u
        → shown placement (C.state cells.new).contents ≡ shown placement (C.state cells.old).contents }
    ensures retired { (placement : List FramedPage) (start : Start) (from : Process) (first : CellsState) (registers : Registers) (output : List ℕ) → IsEpisodeOn (machine_of engine.old) root placement start → IsPlacement placement
        → IsRetiring start until from first (course_of engine.old.course) issued completed commits jumps changes (caches_of engine.old) (C.state cells.old) (shown_state registers placement (C.state cells.old) output) → registers.pc ≡ pc
        → HasTurned result engine.new.fault start until from first (course_of engine.new.course) (caches_of engine.new) (C.state cells.new) (shown_state registers placement (C.state cells.new) output) }
    ensures timely { engine.old.course.retired < issued → completed ≤ engine.old.course.retired + 2 ^ 23 → IsTimely result (course_of engine.old.course) (course_of engine.new.course) }
    ensures machine { machine_of engine.new ≡ machine_of engine.old }
{
    retiring_instructions_go_on();
    walks_leave_pages();
    count(
        &mut engine.course,
        issued,
        completed,
        commits,
        jumps,
        changes,
    );
    if completed + 1 < until {
        return Turn::Goes;
    }
    let begun = engine.course.begun;
    Turn::Slice(end_behind(engine, cells, root, pc, begun, completed + 1))
}
