ghost use Rattle.std.specs.Prelude.{◌≡◌, ℕ, ◌+◌, ◌<◌, ◌≤◌, max, Some, None, List, [], ◌∷◌, ◌++◌, map, if◌then◌else◌};
ghost use Rattle.vx_flat.specs.State.{Flat};
ghost use Rattle.vx_episode.specs.Commits.{timed, happening, happenings_of};
ghost use Rattle.vx_episode.specs.Commits.What.{Completes, Stops};
ghost use Rattle.vx_episode.specs.Cycles.Cycle.{At, Never};
ghost use Rattle.vx_episode.specs.Episode.{greatest, clock_behind, residency_by, trap_cycles};
ghost use Rattle.vx_episode.specs.Footprint.{Footprint};
ghost use Rattle.vx_episode.specs.History.{History, Entry, AccessTimes, last_retire, accesses_of, batches_of, queued_by, fetch_walks, data_walks, after_walks};
ghost use Rattle.vx_episode.specs.Instructions.{fetch_begin, residency_now, issue_cycle};
ghost use Rattle.vx_episode.specs.Organisation.{Start};
ghost use Rattle.vx_episode.specs.declared.ended.Ended.{Ended};
ghost use Rattle.vx_quiet.specs.Quiet.{IsQuiet, completed_at, ended_by};

/// Where one instruction is in flight at a time, the next one issues once it is fetched, and behind the last retire. A fetch begins
/// behind the issue before it, and a cycle more behind that of a branch or a jump.
pub fn instructions_issue_behind_a_quiet_history()
    ensures at { (start : Start) (history : History) (retired fetched : ℕ) (f : Footprint) → IsQuiet start history retired → start.machine.window ≡ 1
        → issue_cycle start history (At fetched) f ≡ At (max fetched (retired + 1)) }
    ensures never { (start : Start) (history : History) (f : Footprint) → issue_cycle start history Never f ≡ Never }
    ensures issued { (start : Start) (history : History) (s : Flat) (f : Footprint) (retired fetched : ℕ) → IsQuiet start history retired → start.machine.window ≡ 1
        → (timed start history s f).fetch.ended ≡ At fetched → (timed start history s f).issued ≡ At (max fetched (retired + 1)) }
    ensures first_fetch { (start : Start) → fetch_begin start [] ≡ At (start.cycle + 1) }
    ensures fetch { (start : Start) (history : History) (e : Entry) (issued : ℕ) → e.issued ≡ At issued
        → fetch_begin start (e ∷ history) ≡ At (issued + (if e.footprint.jumps then 2 else 1)) }
{}

/// A history is quiet at the start. Where one instruction is in flight at a time, it is quiet again behind each instruction that
/// completes, at its retire, which is the cycle behind.
pub fn a_quiet_history_goes_on()
    ensures begins { (start : Start) → IsQuiet start [] start.cycle }
    ensures retires { (start : Start) (history : History) (s : Flat) (f : Footprint) (retired completed : ℕ) → IsQuiet start history retired → start.machine.window ≡ 1
        → (timed start history s f).completed ≡ At completed → (timed start history s f).retired ≡ At (completed + 1) }
    ensures behind { (start : Start) (history : History) (s : Flat) (f : Footprint) (retired completed : ℕ) → IsQuiet start history retired → start.machine.window ≡ 1
        → (timed start history s f).completed ≡ At completed → retired < completed }
    ensures goes_on { (start : Start) (history : History) (s : Flat) (f : Footprint) (retired completed : ℕ) → IsQuiet start history retired → start.machine.window ≡ 1
        → (timed start history s f).completed ≡ At completed → IsQuiet start (timed start history s f ∷ history) (completed + 1) }
{}

/// Where one instruction is in flight at a time, one without accesses that doesn't stop completes its latency behind its issue, and once
/// what its beats make can be read: each beat is one step behind the one before. All that happens is that it completes.
pub fn instructions_without_accesses_complete()
    ensures completed { (start : Start) (history : History) (s : Flat) (f : Footprint) (retired fetched : ℕ) → IsQuiet start history retired → start.machine.window ≡ 1
        → f.stop ≡ None → f.batches ≡ [] → (timed start history s f).fetch.ended ≡ At fetched
        → (timed start history s f).completed ≡ At (completed_at (max fetched (retired + 1)) f) }
    ensures happens { (start : Start) (history : History) (s : Flat) (f : Footprint) (retired completed : ℕ) → IsQuiet start history retired → start.machine.window ≡ 1
        → f.stop ≡ None → f.batches ≡ [] → (timed start history s f).completed ≡ At completed
        → happenings_of (last_retire start.cycle history) (timed start history s f) ≡ happening (timed start history s f) Completes (completed + 1) ∷ [] }
{}

/// An instruction that stops without an access never completes. Where one instruction is in flight at a time, all that happens is
/// that it stops, at its issue, which is once it is fetched and behind the last retire.
pub fn instructions_without_accesses_stop()
    ensures completed { (start : Start) (history : History) (s : Flat) (f : Footprint) (why : Ended) → f.stop ≡ Some why
        → (timed start history s f).completed ≡ Never }
    ensures retired { (start : Start) (history : History) (s : Flat) (f : Footprint) (why : Ended) → f.stop ≡ Some why
        → (timed start history s f).retired ≡ Never }
    ensures happens { (start : Start) (history : History) (s : Flat) (f : Footprint) (why : Ended) (retired fetched : ℕ) → IsQuiet start history retired → start.machine.window ≡ 1
        → f.stop ≡ Some why → f.batches ≡ [] → (timed start history s f).fetch.ended ≡ At fetched
        → happenings_of (last_retire start.cycle history) (timed start history s f)
        ≡ happening (timed start history s f) (Stops why s.v.vstart s.v.vstart) (max fetched (retired + 1)) ∷ [] }
{}

/// What a quiet history did is over by any later cycle: its walks have all ended by then, its accesses were queued, and the clock waits
/// for those of newer instructions alone.
pub fn a_quiet_history_is_over()
    ensures walks { (start : Start) (history : History) (retired last : ℕ) → IsQuiet start history retired → retired ≤ last
        → ended_by last (fetch_walks history ++ data_walks history) ≡ fetch_walks history ++ data_walks history }
    ensures residency { (start : Start) (newer history : History) (retired last : ℕ) → IsQuiet start history retired → retired ≤ last
        → residency_by start last (newer ++ history)
        ≡ after_walks start.residency ((ended_by last (fetch_walks newer) ++ fetch_walks history) ++ (ended_by last (data_walks newer) ++ data_walks history)) }
    ensures residency_now { (start : Start) (history : History) (retired last : ℕ) → IsQuiet start history retired → retired ≤ last
        → residency_by start last history ≡ residency_now start history }
    ensures queued { (start : Start) (history : History) (retired last : ℕ) → IsQuiet start history retired → retired ≤ last
        → queued_by last (accesses_of (batches_of history)) ≡ accesses_of (batches_of history) }
    ensures done { (start : Start) (history : History) (retired last : ℕ) → IsQuiet start history retired → retired ≤ last
        → greatest (map (λ (a : AccessTimes). a.done) (accesses_of (batches_of history))) ≤ last }
    ensures clock { (start : Start) (newer history : History) (retired last : ℕ) → IsQuiet start history retired → retired ≤ last
        → clock_behind last (newer ++ history) ≡ clock_behind last newer }
    ensures clock_now { (start : Start) (history : History) (retired last : ℕ) → IsQuiet start history retired → retired ≤ last
        → clock_behind last history ≡ last + trap_cycles }
{}
