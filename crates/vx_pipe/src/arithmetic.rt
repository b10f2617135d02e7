//! Vector arithmetic in time: it is refused at its issue, or completes once its beats are over.

ghost use Rattle.std.specs.Prelude.{◌≡◌, ℕ, ◌+◌, ◌≤◌, ◌^◌, max, true, false, List, length, Some};
ghost use Rattle.vx_cells.specs.Cells.{CellsState};
ghost use Rattle.vx_course.specs.Course.{Course};
ghost use Rattle.vx_decode.specs.Encoded.{IsValid};
ghost use Rattle.vx_decode.specs.Legal.{is_illegal};
ghost use Rattle.vx_decode.specs.declared.instr.Instr.{Instr};
ghost use Rattle.vx_episode.specs.Episode.{trap_cycles};
ghost use Rattle.vx_episode.specs.Footprint.{groups_made, groups_of};
ghost use Rattle.vx_episode.specs.Organisation.{Organisation, Start};
ghost use Rattle.vx_episode.specs.declared.ended.Ended.TheVariants as ended;
ghost use Rattle.vx_flat.specs.Process.{Process};
ghost use Rattle.vx_flat.specs.State.{Flat};
ghost use Rattle.vx_flat.specs.Step.{calculate_by, meaning, upcoming};
ghost use Rattle.vx_flat.specs.Vectors.{reading_at, setting_at};
ghost use Rattle.vx_hart.specs.Outcomes.{outcome_of};
ghost use Rattle.vx_hart.specs.declared.progress.Progress.{Progress};
ghost use Rattle.vx_paged.specs.Framed.{IsPlacement};
ghost use Rattle.vx_paged.specs.declared.placement.FramedPage.{FramedPage};
ghost use Rattle.vx_pipe.specs.Beating.{beats_span};
ghost use Rattle.vx_pipe.specs.Going.{Caches, IsEpisodeOn, IsIssuing, IsOver};
ghost use Rattle.vx_pipe.specs.Left.{registers_of};
ghost use Rattle.vx_pipe.specs.Playing.{shown_state};
ghost use Rattle.vx_pipe.specs.Retiring.{IsRetiring};
ghost use Rattle.vx_pipe.specs.Turning.{HasTurned, IsIssued, IsTimely, caches_of, course_of, machine_of};
ghost use Rattle.vx_rows.specs.Families.{unit_of};
ghost use Rattle.vx_rows.specs.Table.{class_of};
ghost use Rattle.vx_rows.specs.declared.family.Family.{Family};
ghost use Rattle.vx_rows.specs.declared.row.Class.TheVariants.{VectorArithmetic};
ghost use Rattle.vx_vector.specs.Reading.{Reading};
ghost use Rattle.vx_vector.specs.Words.{handled_words};

use crate::ending::TRAP_CYCLES;
use crate::engine::Engine;
use crate::retire::{issue, retire};
use crate::turn::Turn;
use vx_base::Fault;
use vx_beats::{beat_count, latency_of, step_of};
use vx_cells::Cells;
use vx_course::courses_end;
use vx_decode::Known;
use vx_flat::runs_are_well_formed;
use vx_hart::Arch;
use vx_paged::{Paged, tables_stay, walks_leave_pages};
use vx_pending::{footprints_are_the_same, nothing_else_differs, steps_are_alike};
use vx_quiet::{instructions_issue_behind_a_quiet_history, instructions_without_accesses_complete};
use vx_rows::{Family, Unit};

/// The cycles from the issue until an instruction completes that has so many beats on a unit.
#[inline(always)]
fn beats_span(unit: Unit, beats: u32) -> u64
    requires { beats ≤ 4096 }
    ensures is { result ≡ beats_span unit beats }
    ensures few { result ≤ 2 ^ 16 }
{
    match beats.checked_sub(1) {
        None => 1,
        Some(later) => 1 + u64::from(later) * step_of(unit) + latency_of(unit),
    }
}

/// What an illegal instruction leads to, whose word this is.
#[inline(always)]
fn refusal(arch: &Arch, word: u32) -> Fault
    ensures { result ≡ record { cause = 2; tval = word; vstart = arch.now.v.vstart } }
{
    Fault {
        cause: 2,
        tval: u64::from(word),
        vstart: arch.v.vstart(),
    }
}

/// Vector arithmetic that was issued: it retires once its beats are over, and where it is illegal, the episode is over.
pub(crate) fn calculations_are_done()
    ensures completes { (machine : Organisation) (root until : ℕ) (placement : List FramedPage) (start : Start) (from : Process) (first : CellsState) (course : Course) (fetched : ℕ) (caches : Caches) (cells : CellsState) (u v : Flat) (word : ℕ) (i : Instr) (family : Family) (beats : ℕ) (progress : Progress) (fault : Fault) (issued : ℕ)
        → IsEpisodeOn machine root placement start → IsPlacement placement → IsIssuing start until from first course fetched caches cells u
        → class_of i.op ≡ VectorArithmetic family → upcoming u ≡ meaning u word (Some i) → is_illegal i (setting_at u i) ≡ false
        → ((r : Reading) → reading_at u i ≡ Some r → length (groups_made r (groups_of machine.lanes (handled_words r))) ≡ beats)
        → issued ≡ max fetched (course.retired + 1) → outcome_of progress fault v ≡ Some (calculate_by (reading_at u i) u i)
        → IsRetiring start until from first course issued (issued + beats_span (unit_of family) beats) 0 false true caches cells v }
    ensures refused { (machine : Organisation) (root until : ℕ) (placement : List FramedPage) (start : Start) (from : Process) (first : CellsState) (course : Course) (fetched : ℕ) (caches : Caches) (cells : CellsState) (u : Flat) (word : ℕ) (i : Instr) (family : Family) (issued : ℕ)
        → IsEpisodeOn machine root placement start → IsPlacement placement → IsIssuing start until from first course fetched caches cells u
        → class_of i.op ≡ VectorArithmetic family → upcoming u ≡ meaning u word (Some i) → is_illegal i (setting_at u i) ≡ true
        → issued ≡ max fetched (course.retired + 1)
        → IsOver start until from first (ended.Faulted (record { cause = 2; tval = word; vstart = u.v.vstart })) (issued + trap_cycles) course cells u }
{
    tables_stay();
    walks_leave_pages();
    steps_are_alike();
    nothing_else_differs();
    runs_are_well_formed();
    footprints_are_the_same();
    instructions_issue_behind_a_quiet_history();
    instructions_without_accesses_complete();
    courses_end();
}

/// Does vector arithmetic that was issued.
pub(crate) fn calculate<C: Cells>(
    engine: &mut Engine,
    cells: &mut C,
    arch: &mut Arch,
    memory: &Paged,
    root: u32,
    until: u64,
    fetched: u64,
    word: u32,
    known: &Known,
    family: Family,
) -> Turn
    requires valid { IsValid known.now.instr }
    requires class { class_of known.now.instr.op ≡ VectorArithmetic family }
    requires until { until ≤ 2 ^ 42 }
    requires issued { IsIssued (machine_of engine.old) root until memory.now (course_of engine.old.course) fetched (caches_of engine.old) (C.state cells.old) (registers_of arch.old) word known.now.instr }
    ensures turned { (start : Start) (from : Process) (first : CellsState) (output : List ℕ) → IsEpisodeOn (machine_of engine.old) root memory.now start
        → IsIssuing start until from first (course_of engine.old.course) fetched (caches_of engine.old) (C.state cells.old) (shown_state (registers_of arch.old) memory.now (C.state cells.old) output)
        → HasTurned result engine.new.fault start until from first (course_of engine.new.course) (caches_of engine.new) (C.state cells.new) (shown_state (registers_of arch.new) memory.now (C.state cells.new) output) }
    ensures timely { IsTimely result (course_of engine.old.course) (course_of engine.new.course) }
    ensures machine { machine_of engine.new ≡ machine_of engine.old }
{
    calculations_are_done();
    let issued = issue(fetched, engine.course.retired);
    let Some(at) = engine.executor.calculation(arch, &known.instr) else {
        engine.fault = refusal(arch, word);
        return Turn::Faulted(issued + TRAP_CYCLES);
    };
    let beats = beat_count(family, &at, engine.lanes);
    let completed = issued + beats_span(family.unit(), beats);
    let _progress = engine.executor.calculate(arch, &known.instr, family, &at);
    retire(
        engine, cells, root, until, arch.pc, issued, completed, 0, false, true,
    )
}
