ghost use Rattle.std.specs.Prelude.{◌≡◌, ℕ, ◌+◌, ◌≤◌, ◌<◌, max, Bool, true, Some, None, List, [], ◌++◌, ◌∷◌, option_to_list, if◌then◌else◌};
ghost use Rattle.vx_base.specs.declared.machine.Fault.{Fault};
ghost use Rattle.vx_cells.specs.Cells.{CellsState};
ghost use Rattle.vx_decode.specs.declared.instr.Instr.{Instr};
ghost use Rattle.vx_flat.specs.Process.{Process};
ghost use Rattle.vx_flat.specs.Splits.{IsWellFormed};
ghost use Rattle.vx_flat.specs.State.{Flat};
ghost use Rattle.vx_flat.specs.Step.{meaning, upcoming};
ghost use Rattle.vx_hart.specs.Asking.{is_service};
ghost use Rattle.vx_hart.specs.Outcomes.{outcome_next, outcome_of};
ghost use Rattle.vx_hart.specs.declared.progress.Progress.TheVariants as progress;
ghost use Rattle.vx_rows.specs.Table.{class_of};
ghost use Rattle.vx_rows.specs.declared.row.Class.{Class};
ghost use Rattle.vx_episode.specs.Cycles.Cycle.{At};
ghost use Rattle.vx_episode.specs.Episode.{trap_cycles};
ghost use Rattle.vx_episode.specs.History.{after_walks, data_walks, fetch_walks};
ghost use Rattle.vx_episode.specs.Instructions.{fetch_times};
ghost use Rattle.vx_episode.specs.Commits.{entry_of};
ghost use Rattle.vx_episode.specs.Organisation.{Organisation, Start};
ghost use Rattle.vx_episode.specs.Played.{Plays};
ghost use Rattle.vx_episode.specs.Show.{Registers, Shows};
ghost use Rattle.vx_episode.specs.declared.ended.Ended.{Ended};
ghost use Rattle.vx_episode.specs.declared.ended.Ended.TheVariants as ended;
ghost use Rattle.vx_quiet.specs.Quiet.{ended_by};
ghost use Rattle.vx_course.specs.Course.{Course, begun_course};
ghost use Rattle.vx_paged.specs.Framed.{IsPlacement};
ghost use Rattle.vx_paged.specs.Left.{rest_of};
ghost use Rattle.vx_paged.specs.Placed.{IsWhole};
ghost use Rattle.vx_paged.specs.declared.placement.FramedPage.{FramedPage};
ghost use Rattle.vx_pipe.specs.Classes.{changes_as, is_plain, jumps_as, span_of};
ghost use Rattle.vx_pipe.specs.Going.{AreKept, Caches, IsEpisodeOn, IsGoing, IsIssuing, IsOver};
ghost use Rattle.vx_pipe.specs.Playing.{shown_state};
ghost use Rattle.vx_pipe.specs.Retiring.{IsRetiring, retired_course};
ghost use Rattle.vx_pipe.specs.Turning.{is_refused};
ghost use Rattle.vx_serve.specs.Stamps as banks;
ghost use Rattle.vx_serve.specs.Stamps.{AreBy};
ghost use Rattle.vx_tlb.specs.Kept as tlb;

use vx_course::{courses_end, courses_go_on};
use vx_ending::{episodes_go_on, happenings_are_counted};
use vx_flat::{continued_is_the_step, operations_do_as_their_class, runs_are_well_formed};
use vx_paged::{shown_memory_is_alike, tables_stay, walks_leave_pages};
use vx_pending::{
    footprints_are_the_same, nothing_else_differs, pending_bytes_are_not_read, steps_are_alike,
};
use vx_quiet::{instructions_issue_behind_a_quiet_history, instructions_without_accesses_complete};

/// An instruction that retires in front of the end of the slice goes on to the next one.
pub(crate) fn retiring_instructions_go_on()
    ensures goes { (start : Start) (until : ℕ) (from : Process) (first : CellsState) (course : Course) (issued completed commits : ℕ) (jumps changes : Bool) (caches : Caches) (cells : CellsState) (u : Flat) → start.machine.window ≡ 1
        → IsRetiring start until from first course issued completed commits jumps changes caches cells u → completed + 1 < until
        → IsGoing start until from first (retired_course course issued completed commits jumps changes) caches cells u }
    ensures ends { (start : Start) (until : ℕ) (from : Process) (first : CellsState) (course : Course) (issued completed commits : ℕ) (jumps changes : Bool) (caches : Caches) (cells after : CellsState) (u : Flat) (pc : ℕ) → start.machine.window ≡ 1
        → (r : IsRetiring start until from first course issued completed commits jumps changes caches cells u) → until ≤ completed + 1 → u.pc ≡ pc
        → AreKept start (after_walks start.residency ((ended_by (completed + 1) (option_to_list (fetch_times start (entry_of start r.history r.now.state ∷ r.history) pc (At (issued + (if jumps then 2 else 1)))).walk)
        ++ fetch_walks (entry_of start r.history r.now.state ∷ r.history)) ++ data_walks (entry_of start r.history r.now.state ∷ r.history))) first after
        → IsOver start until from first ended.Slice (completed + 1 + trap_cycles) (retired_course course issued completed commits jumps changes) after u }
{
    courses_go_on();
    courses_end();
    episodes_go_on();
    happenings_are_counted();
    continued_is_the_step();
}

/// An instruction without accesses that was issued: it retires, or the episode is over.
pub(crate) fn plain_instructions_are_done()
    ensures completes { (machine : Organisation) (root until : ℕ) (placement : List FramedPage) (start : Start) (from : Process) (first : CellsState) (course : Course) (fetched : ℕ) (caches : Caches) (before after : CellsState) (u v : Flat) (word : ℕ) (i : Instr) (c : Class) (issued : ℕ) (fault : Fault)
        → IsEpisodeOn machine root placement start → IsPlacement placement → IsIssuing start until from first course fetched caches before u
        → c ≡ class_of i.op → is_plain c ≡ true → upcoming u ≡ meaning u word (Some i) → issued ≡ max fetched (course.retired + 1) → rest_of placement after ≡ rest_of placement before
        → outcome_of progress.Completed fault v ≡ outcome_next u (meaning u word (Some i))
        → IsRetiring start until from first course issued (issued + span_of c) 0 (jumps_as c) (changes_as c i) caches after v }
    ensures asks { (machine : Organisation) (root until : ℕ) (placement : List FramedPage) (start : Start) (from : Process) (first : CellsState) (course : Course) (fetched : ℕ) (caches : Caches) (before after : CellsState) (u v : Flat) (word : ℕ) (i : Instr) (c : Class) (issued : ℕ) (fault : Fault)
        → IsEpisodeOn machine root placement start → IsPlacement placement → IsIssuing start until from first course fetched caches before u
        → c ≡ class_of i.op → is_plain c ≡ true → upcoming u ≡ meaning u word (Some i) → issued ≡ max fetched (course.retired + 1) → rest_of placement after ≡ rest_of placement before
        → outcome_of progress.Asks fault v ≡ outcome_next u (meaning u word (Some i)) → (is_service (meaning u word (Some i)) ≡ true → v ≡ u)
        → IsOver start until from first ended.Service (issued + trap_cycles) course after v }
    ensures faults { (machine : Organisation) (root until : ℕ) (placement : List FramedPage) (start : Start) (from : Process) (first : CellsState) (course : Course) (fetched : ℕ) (caches : Caches) (before after : CellsState) (u v : Flat) (word : ℕ) (i : Instr) (c : Class) (issued : ℕ) (fault : Fault)
        → IsEpisodeOn machine root placement start → IsPlacement placement → IsIssuing start until from first course fetched caches before u
        → c ≡ class_of i.op → is_plain c ≡ true → upcoming u ≡ meaning u word (Some i) → issued ≡ max fetched (course.retired + 1) → rest_of placement after ≡ rest_of placement before
        → outcome_of progress.Faulted fault v ≡ outcome_next u (meaning u word (Some i))
        → IsOver start until from first (ended.Faulted fault) (issued + trap_cycles) course after v }
{
    tables_stay();
    walks_leave_pages();
    steps_are_alike();
    nothing_else_differs();
    pending_bytes_are_not_read();
    runs_are_well_formed();
    footprints_are_the_same();
    instructions_issue_behind_a_quiet_history();
    instructions_without_accesses_complete();
    operations_do_as_their_class();
    courses_end();
}

/// What can't be fetched, or means nothing, ends the episode.
pub(crate) fn refused_instructions_fault()
    ensures { (machine : Organisation) (root until : ℕ) (placement : List FramedPage) (start : Start) (from : Process) (first : CellsState) (course : Course) (fetched : ℕ) (caches : Caches) (before after : CellsState) (u v : Flat) (issued : ℕ) (fault : Fault)
        → IsEpisodeOn machine root placement start → IsPlacement placement → IsIssuing start until from first course fetched caches before u
        → is_refused (upcoming u) ≡ true → issued ≡ max fetched (course.retired + 1) → rest_of placement after ≡ rest_of placement before
        → outcome_of progress.Faulted fault v ≡ outcome_next u (upcoming u)
        → IsOver start until from first (ended.Faulted fault) (issued + trap_cycles) course after v }
{
    tables_stay();
    walks_leave_pages();
    steps_are_alike();
    nothing_else_differs();
    runs_are_well_formed();
    footprints_are_the_same();
    instructions_issue_behind_a_quiet_history();
    instructions_without_accesses_complete();
    courses_end();
}

/// An episode begins where registers and physical memory show a process, and where it is over, they show the one that it came to.
pub(crate) fn episodes_are_played()
    ensures begins { (machine : Organisation) (root until : ℕ) (placement : List FramedPage) (start : Start) (from : Process) (cells : CellsState) (registers : Registers) (caches : Caches) → IsEpisodeOn machine root placement start → start.cycle ≡ cells.cycle → from.over ≡ None
        → IsWhole from.state.memory → IsWellFormed from.state → Shows registers cells root start.residency from.state
        → tlb.StandsFor caches.loads [] → tlb.StandsFor caches.fetches [] → banks.StandsFor caches.stamps start.machine [] → AreBy 0 caches.stamps.stamps
        → IsGoing start until from cells (begun_course start) caches cells (shown_state registers placement cells from.state.output) }
    ensures plays { (machine : Organisation) (root until : ℕ) (placement : List FramedPage) (start : Start) (from : Process) (first cells : CellsState) (registers : Registers) (why : Ended) (clock : ℕ) (course : Course) (output : List ℕ)
        → IsEpisodeOn machine root placement start → IsPlacement placement → IsOver start until from first why clock course cells (shown_state registers placement cells output)
        → Plays start until from first (record cells { cycle = clock }) registers why course.commits course.completed course.changed }
{
    courses_go_on();
    shown_memory_is_alike();
    walks_leave_pages();
}
