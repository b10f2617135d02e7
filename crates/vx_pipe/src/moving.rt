//! Vector loads and stores of an episode.

ghost use Rattle.std.specs.Prelude.{◌≡◌, ◌⊎◌, ℕ, ◌+◌, ◌≤◌, ◌^◌, List};
ghost use Rattle.vx_cells.specs.Cells.{CellsState};
ghost use Rattle.vx_decode.specs.Encoded.{IsValid};
ghost use Rattle.vx_episode.specs.Organisation.{Start};
ghost use Rattle.vx_flat.specs.Process.{Process};
ghost use Rattle.vx_flat.specs.Transfers.{want_of};
ghost use Rattle.vx_hart.specs.Directions.{direction_of};
ghost use Rattle.vx_pipe.specs.Going.{IsEpisodeOn, IsIssuing};
ghost use Rattle.vx_pipe.specs.Left.{registers_of};
ghost use Rattle.vx_pipe.specs.Moving.{class_by};
ghost use Rattle.vx_pipe.specs.Playing.{shown_state};
ghost use Rattle.vx_pipe.specs.Turning.{HasTurned, IsIssued, IsTimely, caches_of, course_of, machine_of};
ghost use Rattle.vx_rows.specs.Table.{class_of};
ghost use Rattle.vx_rows.specs.declared.row.Class.TheVariants as class;

use crate::ahead::look_ahead;
use crate::ending::TRAP_CYCLES;
use crate::engine::Engine;
use crate::fetches::fetch_behind;
use crate::passing::{Passing, Way, pass_elements};
use crate::retire::{issue, retire};
use crate::turn::Turn;
use vx_base::Want;
use vx_batching::{
    a_batch_starts, batches_are_in_flight, batches_begin, batches_commit,
    instructions_complete_behind_their_batches, instructions_stop_in_a_batch,
};
use vx_cells::Cells;
use vx_course::courses_end;
use vx_decode::Known;
use vx_ending::happenings_are_counted;
use vx_flat::{prefixes_join, runs_are_well_formed};
use vx_hart::{Arch, Direction};
use vx_look::walks_commute;
use vx_paged::{Paged, tables_stay, walks_leave_pages};
use vx_pending::{
    footprints_are_the_same, nothing_else_differs, pending_bytes_are_not_read, prefixes_are_alike,
    steps_are_alike,
};
use vx_quiet::{instructions_issue_behind_a_quiet_history, instructions_without_accesses_complete};
use vx_rows::{Addressing, Class, Eew};
use vx_vector::batches_are_longest_runs;

/// What the accesses of a direction want.
#[inline(always)]
fn want_of(direction: Direction) -> Want
    ensures { result ≡ want_of (direction_of direction) }
{
    match direction {
        Direction::Loading => Want::Load,
        Direction::Storing => Want::Store,
    }
}

/// Does a vector load or store that was issued: it completes once its accesses are done, or the episode ends within it, or with its fault.
pub(crate) fn move_by<C: Cells>(
    engine: &mut Engine,
    cells: &mut C,
    arch: &mut Arch,
    memory: &mut Paged,
    root: u32,
    until: u64,
    fetched: u64,
    word: u32,
    known: &Known,
    direction: Direction,
    addressing: Addressing,
    encoded: Eew,
) -> Turn
    requires valid { IsValid known.now.instr }
    requires row { (class_of known.now.instr.op ≡ class.VectorLoad addressing encoded) ⊎ (class_of known.now.instr.op ≡ class.VectorStore addressing encoded) }
    requires class { class_of known.now.instr.op ≡ class_by (direction_of direction) addressing encoded }
    requires until { until ≤ 2 ^ 42 }
    requires issued { IsIssued (machine_of engine.old) root until memory.old (course_of engine.old.course) fetched (caches_of engine.old) (C.state cells.old) (registers_of arch.old) word known.now.instr }
    ensures turned { (start : Start) (from : Process) (first : CellsState) (output : List ℕ) → IsEpisodeOn (machine_of engine.old) root memory.old start
        → IsIssuing start until from first (course_of engine.old.course) fetched (caches_of engine.old) (C.state cells.old) (shown_state (registers_of arch.old) memory.old (C.state cells.old) output)
        → HasTurned result engine.new.fault start until from first (course_of engine.new.course) (caches_of engine.new) (C.state cells.new) (shown_state (registers_of arch.new) memory.new (C.state cells.new) output) }
    ensures timely { IsTimely result (course_of engine.old.course) (course_of engine.new.course) }
    ensures machine { machine_of engine.new ≡ machine_of engine.old }
    ensures memory { memory.new ≡ memory.old }
{
    a_batch_starts();
    batches_are_in_flight();
    batches_are_longest_runs();
    batches_begin();
    batches_commit();
    courses_end();
    footprints_are_the_same();
    happenings_are_counted();
    instructions_complete_behind_their_batches();
    instructions_issue_behind_a_quiet_history();
    instructions_stop_in_a_batch();
    instructions_without_accesses_complete();
    nothing_else_differs();
    pending_bytes_are_not_read();
    prefixes_are_alike();
    prefixes_join();
    runs_are_well_formed();
    steps_are_alike();
    tables_stay();
    walks_commute();
    walks_leave_pages();
    let issued = issue(fetched, engine.course.retired);
    let Some((pattern, at)) = engine
        .executor
        .movement(arch, addressing, encoded, &known.instr)
    else {
        let _progress = engine.executor.execute(arch, memory, cells, word, known);
        engine.fault = engine.executor.fault();
        return Turn::Faulted(issued + TRAP_CYCLES);
    };
    let count = pattern.count();
    if count <= at.vstart {
        let _progress = engine
            .executor
            .transfer(arch, memory, cells, direction, addressing, &pattern, &at);
        return retire(
            engine,
            cells,
            root,
            until,
            arch.pc,
            issued,
            issued + 1,
            0,
            false,
            true,
        );
    }
    let bank_time = u64::from(engine.bank_time);
    let want = want_of(direction);
    let mut numbers = Passing {
        looked: issued,
        committed: engine.course.retired + 1,
        before: 0,
        done: 0,
    };
    let mut element = at.vstart;
    let way = pass_elements(
        &mut engine.loads,
        &mut engine.banks,
        cells,
        root,
        bank_time,
        until,
        want,
        addressing,
        &pattern,
        &arch.v,
        count,
        &mut engine.list,
        &mut numbers,
        &mut element,
    );
    let commits = u64::from(element - at.vstart);
    let pc = arch.pc.wrapping_add(4);
    match way {
        Way::Completes => {
            let _progress = engine
                .executor
                .transfer(arch, memory, cells, direction, addressing, &pattern, &at);
            let completed = numbers.looked.max(numbers.done);
            retire(
                engine, cells, root, until, arch.pc, issued, completed, commits, false, true,
            )
        }
        Way::Stops => {
            let last = numbers.looked.max(numbers.committed);
            fetch_behind(
                &mut engine.fetches,
                cells,
                root,
                bank_time,
                pc,
                issued + 1,
                last,
            );
            let _progress = engine
                .executor
                .transfer(arch, memory, cells, direction, addressing, &pattern, &at);
            engine.fault = engine.executor.fault();
            engine.course.reached += commits;
            engine.course.changed |= at.vstart < element;
            Turn::Faulted(last.max(numbers.done) + TRAP_CYCLES)
        }
        Way::Reaches => {
            let started = numbers.looked.max(numbers.before) + 1;
            let done = look_ahead(
                &mut engine.loads,
                &mut engine.banks,
                cells,
                root,
                bank_time,
                want,
                started,
                &pattern,
                &arch.v,
                element,
                &mut engine.list,
                numbers.committed,
            );
            let last = numbers.committed;
            fetch_behind(
                &mut engine.fetches,
                cells,
                root,
                bank_time,
                pc,
                issued + 1,
                last,
            );
            engine
                .executor
                .reach(arch, memory, cells, direction, &pattern, &at, element);
            let vlen = arch.v.vlen();
            let _vlen = vlen;
            engine.course.reached += commits;
            engine.course.changed = true;
            Turn::Slice(last.max(done) + TRAP_CYCLES)
        }
    }
}
