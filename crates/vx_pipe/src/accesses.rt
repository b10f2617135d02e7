//! Scalar loads and stores in time.

ghost use Rattle.std.specs.Prelude.{◌≡◌, ◌⊎◌, ℕ, ◌+◌, ◌≤◌, ◌^◌, List, Some};
ghost use Rattle.vx_cells.specs.Cells.{CellsState};
ghost use Rattle.vx_decode.specs.Encoded.{IsValid};
ghost use Rattle.vx_episode.specs.Organisation.{Start};
ghost use Rattle.vx_flat.specs.Process.{Process};
ghost use Rattle.vx_flat.specs.Step.{meaning};
ghost use Rattle.vx_hart.specs.Outcomes.{outcome_next, outcome_of};
ghost use Rattle.vx_paged.specs.Left.{Fits, rest_of};
ghost use Rattle.vx_pipe.specs.Accessing.{IsAccessClass, wanted_as};
ghost use Rattle.vx_pipe.specs.Going.{IsEpisodeOn, IsIssuing};
ghost use Rattle.vx_pipe.specs.Left.{registers_of};
ghost use Rattle.vx_pipe.specs.Playing.{shown_state};
ghost use Rattle.vx_pipe.specs.Turning.{HasTurned, IsIssued, IsTimely, caches_of, course_of, machine_of};
ghost use Rattle.vx_rows.specs.Table.{class_of};
ghost use Rattle.vx_rows.specs.declared.row.Class.{Class};
ghost use Rattle.vx_rows.specs.declared.row.Class.TheVariants as class;
ghost use Rattle.vx_serve.specs.Fates.{told};
ghost use Rattle.vx_serve.specs.InTurn.{is_good};

use crate::ending::end_behind;
use crate::engine::Engine;
use crate::retire::{issue, retire};
use crate::turn::Turn;
use vx_base::Want;
use vx_batching::{
    a_batch_passes, a_batch_starts, batches_are_in_flight, batches_begin,
    instructions_complete_behind_their_batches, instructions_stop_in_a_batch,
};
use vx_cells::Cells;
use vx_course::courses_end;
use vx_decode::Instr;
use vx_flat::runs_are_well_formed;
use vx_hart::{Arch, Executor, Progress};
use vx_look::walks_commute;
use vx_paged::{Paged, tables_stay, walks_leave_pages};
use vx_pending::{
    footprints_are_the_same, nothing_else_differs, pending_bytes_are_not_read, steps_are_alike,
};
use vx_quiet::{instructions_issue_behind_a_quiet_history, instructions_without_accesses_complete};
use vx_scalar::{access_width, scalar_address};
use vx_serve::Fate;

/// A kind of scalar accesses. Code that is generic over it has a copy of its own for each, in which the kind is known.
pub(crate) trait AccessKind {
    /// The class of its instructions.
    ghost kind: { Class };

    /// What its accesses want.
    fn want() -> Want
        ensures { result ≡ wanted_as kind };

    /// Does one of its instructions.
    fn perform<C: Cells>(
        executor: &mut Executor,
        arch: &mut Arch,
        memory: &mut Paged,
        physical: &mut C,
        i: &Instr,
    ) -> Progress
        requires valid { IsValid i.now }
        requires class { class_of i.now.op ≡ kind }
        requires fits { Fits memory.old (C.state physical.old) }
        ensures rest { rest_of memory.new (C.state physical.new) ≡ rest_of memory.old (C.state physical.old) }
        ensures performed { (word : ℕ) (output : List ℕ) → let s = shown_state (registers_of arch.old) memory.old (C.state physical.old) output in
            outcome_of result executor.new (shown_state (registers_of arch.new) memory.new (C.state physical.new) output) ≡ outcome_next s (meaning s word (Some i.now)) };
}

/// Scalar loads.
pub(crate) struct Loads;

impl AccessKind for Loads {
    ghost kind = { class.Load };

    #[inline(always)]
    fn want() -> Want {
        Want::Load
    }

    #[inline(always)]
    fn perform<C: Cells>(
        executor: &mut Executor,
        arch: &mut Arch,
        memory: &mut Paged,
        physical: &mut C,
        i: &Instr,
    ) -> Progress {
        executor.load(arch, memory, physical, i)
    }
}

/// Scalar stores.
pub(crate) struct Stores;

impl AccessKind for Stores {
    ghost kind = { class.Store };

    #[inline(always)]
    fn want() -> Want {
        Want::Store
    }

    #[inline(always)]
    fn perform<C: Cells>(
        executor: &mut Executor,
        arch: &mut Arch,
        memory: &mut Paged,
        physical: &mut C,
        i: &Instr,
    ) -> Progress {
        executor.store(arch, memory, physical, i)
    }
}

/// Whether an access is let through.
#[inline(always)]
fn is_good(fate: Fate) -> bool
    ensures { result ≡ is_good (told fate) }
{
    match fate {
        Fate::Good(_, _) => true,
        Fate::Fails(_, _) | Fate::Unknown => false,
    }
}

/// Does a scalar load or store that was issued: it completes once its access is done, or the episode ends with its fault.
#[inline(always)]
pub(crate) fn access<K: AccessKind, C: Cells>(
    engine: &mut Engine,
    cells: &mut C,
    arch: &mut Arch,
    memory: &mut Paged,
    root: u32,
    until: u64,
    fetched: u64,
    word: u32,
    i: &Instr,
) -> Turn
    requires valid { IsValid i.now }
    requires class { class_of i.now.op ≡ K.kind }
    requires access { IsAccessClass K.kind }
    requires until { until ≤ 2 ^ 42 }
    requires issued { IsIssued (machine_of engine.old) root until memory.old (course_of engine.old.course) fetched (caches_of engine.old) (C.state cells.old) (registers_of arch.old) word i.now }
    ensures turned { (start : Start) (from : Process) (first : CellsState) (output : List ℕ) → IsEpisodeOn (machine_of engine.old) root memory.old start
        → IsIssuing start until from first (course_of engine.old.course) fetched (caches_of engine.old) (C.state cells.old) (shown_state (registers_of arch.old) memory.old (C.state cells.old) output)
        → HasTurned result engine.new.fault start until from first (course_of engine.new.course) (caches_of engine.new) (C.state cells.new) (shown_state (registers_of arch.new) memory.new (C.state cells.new) output) }
    ensures timely { IsTimely result (course_of engine.old.course) (course_of engine.new.course) }
    ensures machine { machine_of engine.new ≡ machine_of engine.old }
    ensures memory { memory.new ≡ memory.old }
{
    a_batch_passes();
    a_batch_starts();
    batches_are_in_flight();
    batches_begin();
    courses_end();
    footprints_are_the_same();
    instructions_complete_behind_their_batches();
    instructions_issue_behind_a_quiet_history();
    instructions_stop_in_a_batch();
    instructions_without_accesses_complete();
    nothing_else_differs();
    pending_bytes_are_not_read();
    runs_are_well_formed();
    steps_are_alike();
    tables_stay();
    walks_commute();
    walks_leave_pages();
    let _ = word;
    let bank_time = u64::from(engine.bank_time);
    let want = K::want();
    let address = scalar_address(i, &arch.regs);
    let width = access_width(i.op);
    let behind = arch.pc.wrapping_add(4);
    let issued = issue(fetched, engine.course.retired);
    let looked = engine
        .loads
        .look_one(cells, root, bank_time, want, issued + 1, address, width);
    K::perform(&mut engine.executor, arch, memory, cells, i);
    if is_good(looked.fate) {
        let served = engine.banks.serve_one(looked.fate);
        let completed = u64::max(looked.ended, served.done);
        return retire(
            engine, cells, root, until, arch.pc, issued, completed, 0, false, false,
        );
    }
    engine.fault = engine.executor.fault();
    Turn::Faulted(end_behind(engine, cells, root, behind, issued + 1, looked.ended))
}
