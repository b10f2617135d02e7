ghost use Rattle.std.specs.Prelude.{◌≡◌, ℕ, ◌+◌, ◌<◌, ◌≤◌, max, ◌&&◌, ◌||◌, nat_le, nat_lt, true, false, Some, None, List, [], ◌∷◌, ◌++◌, option_to_list, if◌then◌else◌};
ghost use Rattle.std.specs.List.{list_any};
ghost use Rattle.vx_flat.specs.Continued.{continued};
ghost use Rattle.vx_flat.specs.Outcome.Outcome.{Next};
ghost use Rattle.vx_flat.specs.Process.{Process, stepped};
ghost use Rattle.vx_flat.specs.State.{Flat};
ghost use Rattle.vx_flat.specs.Step.{step};
ghost use Rattle.vx_episode.specs.Commits.{Happening, happening, timed, entry_of, ends, happenings_of};
ghost use Rattle.vx_episode.specs.Commits.What.{Completes, Reaches, Stops};
ghost use Rattle.vx_episode.specs.Cycles.{Cycle, is_by};
ghost use Rattle.vx_episode.specs.Cycles.Cycle.{At};
ghost use Rattle.vx_episode.specs.Episode.{fetched_by, within, stopped_at, trap_cycles};
ghost use Rattle.vx_episode.specs.Footprint.{Footprint, footprint};
ghost use Rattle.vx_episode.specs.History.{Entry, History, last_retire, accesses_of, queued_by, walks_of_batches, fetch_walks, data_walks, after_walks};
ghost use Rattle.vx_episode.specs.Instructions.{fetch_times};
ghost use Rattle.vx_episode.specs.Organisation.{Start};
ghost use Rattle.vx_episode.specs.declared.ended.Ended.{Ended};
ghost use Rattle.vx_episode.specs.declared.ended.Ended.TheVariants.{Slice};
ghost use Rattle.vx_quiet.specs.Quiet.{IsQuiet, completed_at, ended_by};
ghost use Rattle.vx_ending.specs.Counts.{changes_in, commits_in};
ghost use Rattle.vx_course.specs.Course.{Course, IsOnCourse, begun_course, course_behind, fetch_behind, EndsAs, ending_of, walk_behind};

use vx_ending::{
    ends_have_parts, episodes_end, episodes_go_on, happenings_are_counted, instructions_in_flight,
    retiring_instructions_commit,
};
use vx_quiet::{
    a_quiet_history_goes_on, a_quiet_history_is_over, instructions_issue_behind_a_quiet_history,
    instructions_without_accesses_complete, instructions_without_accesses_stop,
};

/// An instruction that isn't issued by a cycle has done nothing by then: none of its walks for data has ended, none of its accesses
/// is queued, and nothing of it is committed. Nor has a fetch walked that begins later.
#[inline(always)]
pub fn instructions_wait_for_their_issue()
    ensures walks { (start : Start) (history : History) (s : Flat) (f : Footprint) (last : ℕ) → is_by last (timed start history s f).issued ≡ false
        → ended_by last (walks_of_batches (timed start history s f).batches) ≡ [] }
    ensures accesses { (start : Start) (history : History) (s : Flat) (f : Footprint) (last : ℕ) → is_by last (timed start history s f).issued ≡ false
        → queued_by last (accesses_of (timed start history s f).batches) ≡ [] }
    ensures happens { (start : Start) (history : History) (s : Flat) (f : Footprint) (last : ℕ) (before : Cycle) → is_by last (timed start history s f).issued ≡ false
        → list_any (λ (h : Happening). nat_le h.cycle last) (happenings_of before (timed start history s f)) ≡ false }
    ensures fetch { (start : Start) (history : History) (pc begun last : ℕ) → last < begun
        → ended_by last (option_to_list (fetch_times start history pc (At begun)).walk) ≡ [] }
{}

/// What happens of an instruction comes no earlier than its issue. Where one instruction is in flight at a time, the instruction behind
/// it isn't issued by then.
#[inline(always)]
pub fn instructions_follow_one_another()
    ensures issued { (start : Start) (history : History) (s : Flat) (f : Footprint) (retired : Cycle) (before after : List Happening) (h : Happening) → happenings_of retired (timed start history s f) ≡ before ++ h ∷ after
        → is_by h.cycle (timed start history s f).issued ≡ true }
    ensures waits { (start : Start) (history : History) (s t : Flat) (f g : Footprint) (retired : ℕ) (before after : List Happening) (h : Happening) → IsQuiet start history retired → start.machine.window ≡ 1
        → happenings_of (last_retire start.cycle history) (timed start history s f) ≡ before ++ h ∷ after
        → is_by h.cycle (timed start (timed start history s f ∷ history) t g).issued ≡ false }
{
    a_quiet_history_goes_on();
    instructions_without_accesses_stop();
}

/// Where one instruction is in flight at a time, the course of an episode in numbers: where it begins, and how it goes on with an
/// instruction that completes and of which nothing ends the episode; in short, with one without accesses.
#[inline(always)]
pub fn courses_go_on()
    ensures begins { (start : Start) (until : ℕ) (from : Process) → from.over ≡ None → IsOnCourse start until from (begun_course start) [] from }
    ensures next { (start : Start) (until : ℕ) (from : Process) (course : Course) (history : History) (now : Process) (e : Entry) (f : Footprint) (t : Flat) (issued completed : ℕ)
        → IsOnCourse start until from course history now → start.machine.window ≡ 1
        → e ≡ entry_of start history now.state → f ≡ footprint start.machine start.has_vectors start.residency now.state
        → step now.state ≡ Next t → e.issued ≡ At issued → e.completed ≡ At completed
        → list_any (ends until) (happenings_of (last_retire start.cycle history) e) ≡ false
        → IsOnCourse start until from (course_behind course f issued completed (commits_in (happenings_of (last_retire start.cycle history) e))) (e ∷ history) (stepped now) }
    ensures without_accesses { (start : Start) (until : ℕ) (from : Process) (course : Course) (history : History) (now : Process) (e : Entry) (f : Footprint) (t : Flat) (fetched issued : ℕ)
        → IsOnCourse start until from course history now → start.machine.window ≡ 1
        → e ≡ entry_of start history now.state → f ≡ footprint start.machine start.has_vectors start.residency now.state
        → step now.state ≡ Next t → f.stop ≡ None → f.batches ≡ [] → e.fetch.ended ≡ At fetched → issued ≡ max fetched (course.retired + 1)
        → completed_at issued f + 1 < until
        → IsOnCourse start until from (course_behind course f issued (completed_at issued f) 1) (e ∷ history) (stepped now) }
{
    a_quiet_history_goes_on();
    instructions_issue_behind_a_quiet_history();
    instructions_without_accesses_complete();
    instructions_without_accesses_stop();
    episodes_go_on();
    happenings_are_counted();
    retiring_instructions_commit();
}

/// What an episode comes to that ends with the next instruction, where one instruction is in flight at a time: by the first thing of
/// it that ends the episode, which is that it completes, reaches an element or stops at one.
#[inline(always)]
pub fn courses_end()
    ensures completes { (start : Start) (until : ℕ) (from : Process) (course : Course) (history : History) (now : Process) (e : Entry) (f : Footprint) (before after : List Happening) (issued cycle : ℕ)
        → IsOnCourse start until from course history now → start.machine.window ≡ 1
        → e ≡ entry_of start history now.state → f ≡ footprint start.machine start.has_vectors start.residency now.state → e.issued ≡ At issued
        → happenings_of (last_retire start.cycle history) e ≡ before ++ happening e Completes cycle ∷ after → list_any (ends until) before ≡ false → until ≤ cycle
        → EndsAs start until from (ending_of start history e (walk_behind start history e (continued now.state).pc (fetch_behind f issued)) cycle Slice (stepped now)
        (course.commits + commits_in before + 1) (course.completed + 1) (course.changed || f.changes_vectors)) }
    ensures reaches { (start : Start) (until : ℕ) (from : Process) (course : Course) (history : History) (now : Process) (e : Entry) (f : Footprint) (before after : List Happening) (element issued cycle : ℕ)
        → IsOnCourse start until from course history now → start.machine.window ≡ 1
        → e ≡ entry_of start history now.state → f ≡ footprint start.machine start.has_vectors start.residency now.state → e.issued ≡ At issued
        → happenings_of (last_retire start.cycle history) e ≡ before ++ happening e (Reaches element) cycle ∷ after → list_any (ends until) before ≡ false → until ≤ cycle
        → EndsAs start until from (ending_of start history e (walk_behind start history e (continued now.state).pc (fetch_behind f issued)) cycle Slice (within element now)
        (course.commits + commits_in before + 1) course.completed (course.changed || f.changes_vectors)) }
    ensures stops { (start : Start) (until : ℕ) (from : Process) (course : Course) (history : History) (now : Process) (e : Entry) (f : Footprint) (before after : List Happening) (why : Ended) (first element issued cycle : ℕ)
        → IsOnCourse start until from course history now → start.machine.window ≡ 1
        → e ≡ entry_of start history now.state → f ≡ footprint start.machine start.has_vectors start.residency now.state → e.issued ≡ At issued
        → happenings_of (last_retire start.cycle history) e ≡ before ++ happening e (Stops why first element) cycle ∷ after → list_any (ends until) before ≡ false
        → EndsAs start until from (ending_of start history e (walk_behind start history e (continued now.state).pc (fetch_behind f issued)) cycle why (stopped_at why element now)
        (course.commits + commits_in before + (if nat_lt first element then 1 else 0)) course.completed
        (course.changed || changes_in before || (nat_lt first element && f.changes_vectors))) }
    ensures at_issue { (start : Start) (until : ℕ) (from : Process) (course : Course) (history : History) (now : Process) (e : Entry) (f : Footprint) (why : Ended) (fetched issued : ℕ)
        → IsOnCourse start until from course history now → start.machine.window ≡ 1
        → e ≡ entry_of start history now.state → f ≡ footprint start.machine start.has_vectors start.residency now.state
        → f.stop ≡ Some why → f.batches ≡ [] → e.fetch.ended ≡ At fetched → issued ≡ max fetched (course.retired + 1)
        → EndsAs start until from (record {
          ended = why;
          last = issued;
          clock = issued + trap_cycles;
          process = stopped_at why now.state.v.vstart now;
          residency = after_walks start.residency (option_to_list e.fetch.walk ++ fetch_walks history ++ data_walks history);
          commits = course.commits;
          completed = course.completed;
          changed_vectors = course.changed;
        }) }
{
    a_quiet_history_goes_on();
    a_quiet_history_is_over();
    instructions_issue_behind_a_quiet_history();
    instructions_without_accesses_stop();
    ends_have_parts();
    episodes_end();
    instructions_in_flight();
    happenings_are_counted();
}

/// The instructions fetched by the end of an episode, where one instruction is in flight at a time: up to the one at the end, and the one
/// behind it where its fetch began by then; behind a stop at the issue none did.
#[inline(always)]
pub fn courses_fetch()
    ensures any { (start : Start) (until : ℕ) (from : Process) (course : Course) (history : History) (now : Process) (e : Entry) (f : Footprint) (before after : List Happening) (h : Happening) (issued : ℕ)
        → IsOnCourse start until from course history now → start.machine.window ≡ 1
        → e ≡ entry_of start history now.state → f ≡ footprint start.machine start.has_vectors start.residency now.state → e.issued ≡ At issued
        → happenings_of (last_retire start.cycle history) e ≡ before ++ h ∷ after
        → fetched_by start h.cycle from.state ≡ (if nat_le (fetch_behind f issued) h.cycle then entry_of start (e ∷ history) (continued now.state) ∷ e ∷ history else e ∷ history) }
    ensures at_issue { (start : Start) (until : ℕ) (from : Process) (course : Course) (history : History) (now : Process) (e : Entry) (f : Footprint) (why : Ended) (fetched issued : ℕ)
        → IsOnCourse start until from course history now → start.machine.window ≡ 1
        → e ≡ entry_of start history now.state → f ≡ footprint start.machine start.has_vectors start.residency now.state
        → f.stop ≡ Some why → f.batches ≡ [] → e.fetch.ended ≡ At fetched → issued ≡ max fetched (course.retired + 1)
        → fetched_by start issued from.state ≡ e ∷ history }
{
    a_quiet_history_goes_on();
    instructions_issue_behind_a_quiet_history();
    instructions_without_accesses_stop();
    instructions_in_flight();
}
