ghost use Rattle.std.specs.Prelude.{◌≡◌, ℕ, ◌+◌, ◌<◌, ◌≤◌, max, true, false, not, ◌||◌, nat_le, nat_lt, Some, None, List, [], ◌∷◌, ◌++◌, find};
ghost use Rattle.std.specs.List.{list_all, list_any};
ghost use Rattle.vx_flat.specs.State.{Flat};
ghost use Rattle.vx_episode.specs.Batches.{start_cycle, batch_started, with_commit};
ghost use Rattle.vx_episode.specs.Commits.{Happening, timed, happening, happenings_of, why_stopped, not_last, ends};
ghost use Rattle.vx_episode.specs.Commits.What.{Completes, Reaches, Stops};
ghost use Rattle.vx_episode.specs.Cycles.Cycle.{At, Never};
ghost use Rattle.vx_episode.specs.Episode.{up_to_end};
ghost use Rattle.vx_episode.specs.Footprint.{Batch, Footprint};
ghost use Rattle.vx_episode.specs.History.{History, Entry, Walk, BatchTimes, AccessTimes, Failure, last_retire, batches_of, accesses_of, queued_by, walks_of_batches};
ghost use Rattle.vx_episode.specs.Organisation.{Start};
ghost use Rattle.vx_quiet.specs.Quiet.{IsQuiet, ended_by};
ghost use Rattle.vx_batching.specs.Batching.{IsReached, next_times, all_done, reached, completed_behind, stopped_behind};

/// At the issue none of the batches was gone through.
pub fn batches_begin()
    ensures { (start : Start) (history : History) (retired issued : ℕ) (f : Footprint) → IsQuiet start history retired → retired < issued
        → IsReached start history retired issued f [] f.batches issued (retired + 1) 0 0 }
{}

/// The next batch starts behind the look-ups of the last one, and behind the commit of the one before that.
pub fn a_batch_starts()
    ensures starts { (start : Start) (history : History) (retired issued : ℕ) (f : Footprint) (own : List BatchTimes) (b : Batch) (rest : List Batch) (looked committed before done : ℕ)
        → IsReached start history retired issued f own (b ∷ rest) looked committed before done
        → start_cycle start history (own ++ batches_of history) (At issued) f.want b ≡ At (max looked before + 1) }
    ensures times { (start : Start) (history : History) (retired issued : ℕ) (f : Footprint) (own : List BatchTimes) (b : Batch) (rest : List Batch) (looked committed before done : ℕ)
        → IsReached start history retired issued f own (b ∷ rest) looked committed before done
        → next_times start history issued f own b ≡ batch_started start history (own ++ batches_of history) f b (At (max looked before + 1)) }
    ensures looks_up { (start : Start) (history : History) (retired issued : ℕ) (f : Footprint) (own : List BatchTimes) (b : Batch) (rest : List Batch) (looked committed before done : ℕ)
        → IsReached start history retired issued f own (b ∷ rest) looked committed before done
        → (next : ℕ) × (((next_times start history issued f own b).looked_up ≡ At next) × (max looked before + 1 ≤ next)) }
{}

/// A batch without a failure is gone through; so is one that is cut off, and none is behind it.
pub fn a_batch_passes()
    ensures passes { (start : Start) (history : History) (retired issued : ℕ) (f : Footprint) (own : List BatchTimes) (b : Batch) (rest : List Batch) (looked committed before done next : ℕ)
        → IsReached start history retired issued f own (b ∷ rest) looked committed before done
        → (next_times start history issued f own b).failure ≡ None → (next_times start history issued f own b).missing ≡ []
        → (next_times start history issued f own b).looked_up ≡ At next
        → IsReached start history retired issued f (with_commit start history own (next_times start history issued f own b)) rest next
        (max committed (max next (all_done (next_times start history issued f own b).accesses))) committed
        (max done (all_done (next_times start history issued f own b).accesses)) }
    ensures trimmed { (start : Start) (history : History) (retired issued : ℕ) (f : Footprint) (own : List BatchTimes) (b : Batch) (rest : List Batch) (looked committed before done next : ℕ)
        → IsReached start history retired issued f own (b ∷ rest) looked committed before done
        → (next_times start history issued f own b).is_trimmed ≡ true
        → (next_times start history issued f own b).looked_up ≡ At next
        → IsReached start history retired issued f (with_commit start history own (next_times start history issued f own b)) [] next
        (max committed (max next (all_done (next_times start history issued f own b).accesses))) committed
        (max done (all_done (next_times start history issued f own b).accesses)) }
{}

/// An instruction whose batches were all gone through completes once the look-ups of the last have ended and its accesses are done. What
/// happens is that each of its batches but the last commits, and that it completes. A batch that is cut off is the last.
pub fn instructions_complete_behind_their_batches()
    ensures completed { (start : Start) (history : History) (s : Flat) (retired issued : ℕ) (f : Footprint) (last : BatchTimes) (own : List BatchTimes) (looked committed before done : ℕ)
        → (timed start history s f).issued ≡ At issued → IsReached start history retired issued f (last ∷ own) [] looked committed before done → f.stop ≡ None → f.groups ≡ []
        → (timed start history s f).completed ≡ At (completed_behind issued f looked done) }
    ensures happens { (start : Start) (history : History) (s : Flat) (retired issued : ℕ) (f : Footprint) (last : BatchTimes) (own : List BatchTimes) (looked committed before done : ℕ)
        → (timed start history s f).issued ≡ At issued → IsReached start history retired issued f (last ∷ own) [] looked committed before done → f.stop ≡ None → f.groups ≡ []
        → happenings_of (last_retire start.cycle history) (timed start history s f)
        ≡ reached (timed start history s f) own ++ happening (timed start history s f) Completes (completed_behind issued f looked done + 1) ∷ [] }
    ensures trimmed_completed { (start : Start) (history : History) (s : Flat) (retired issued : ℕ) (f : Footprint) (own : List BatchTimes) (b : Batch) (rest : List Batch) (looked committed before done next : ℕ)
        → (timed start history s f).issued ≡ At issued → IsReached start history retired issued f own (b ∷ rest) looked committed before done → f.stop ≡ None → f.groups ≡ []
        → (next_times start history issued f own b).is_trimmed ≡ true → (next_times start history issued f own b).looked_up ≡ At next
        → (timed start history s f).completed ≡ At (completed_behind issued f next (max done (all_done (next_times start history issued f own b).accesses))) }
    ensures trimmed_happens { (start : Start) (history : History) (s : Flat) (retired issued : ℕ) (f : Footprint) (own : List BatchTimes) (b : Batch) (rest : List Batch) (looked committed before done next : ℕ)
        → (timed start history s f).issued ≡ At issued → IsReached start history retired issued f own (b ∷ rest) looked committed before done → f.stop ≡ None → f.groups ≡ []
        → (next_times start history issued f own b).is_trimmed ≡ true → (next_times start history issued f own b).looked_up ≡ At next
        → happenings_of (last_retire start.cycle history) (timed start history s f)
        ≡ reached (timed start history s f) own
        ++ happening (timed start history s f) Completes (completed_behind issued f next (max done (all_done (next_times start history issued f own b).accesses)) + 1) ∷ [] }
{}

/// An instruction stops in a batch that has a failure and isn't cut off: it never completes. What happens is that all batches before
/// commit, and that it stops, at the element that fails. Where each batch is of one element, it does so once the batches before could
/// have committed and the look-ups of this one have ended.
pub fn instructions_stop_in_a_batch()
    ensures completed { (start : Start) (history : History) (s : Flat) (retired issued : ℕ) (f : Footprint) (own : List BatchTimes) (b : Batch) (rest : List Batch) (looked committed before done next : ℕ) (failing : Failure)
        → (timed start history s f).issued ≡ At issued → IsReached start history retired issued f own (b ∷ rest) looked committed before done
        → (next_times start history issued f own b).failure ≡ Some failing → (next_times start history issued f own b).is_trimmed ≡ false
        → (next_times start history issued f own b).looked_up ≡ At next
        → (timed start history s f).completed ≡ Never }
    ensures retired { (start : Start) (history : History) (s : Flat) (retired issued : ℕ) (f : Footprint) (own : List BatchTimes) (b : Batch) (rest : List Batch) (looked committed before done next : ℕ) (failing : Failure)
        → (timed start history s f).issued ≡ At issued → IsReached start history retired issued f own (b ∷ rest) looked committed before done
        → (next_times start history issued f own b).failure ≡ Some failing → (next_times start history issued f own b).is_trimmed ≡ false
        → (next_times start history issued f own b).looked_up ≡ At next
        → (timed start history s f).retired ≡ Never }
    ensures happens { (start : Start) (history : History) (s : Flat) (retired issued : ℕ) (f : Footprint) (own : List BatchTimes) (b : Batch) (rest : List Batch) (looked committed before done next : ℕ) (failing : Failure)
        → (timed start history s f).issued ≡ At issued → IsReached start history retired issued f own (b ∷ rest) looked committed before done
        → (next_times start history issued f own b).failure ≡ Some failing → (next_times start history issued f own b).is_trimmed ≡ false
        → (next_times start history issued f own b).looked_up ≡ At next → f.stop ≡ None
        → happenings_of (last_retire start.cycle history) (timed start history s f)
        ≡ reached (timed start history s f) own
        ++ happening (timed start history s f) (Stops (why_stopped (timed start history s f) failing) b.from failing.element)
        (stopped_behind retired next failing.element ((next_times start history issued f own b).accesses ++ accesses_of own)) ∷ [] }
    ensures of_one_element { (start : Start) (history : History) (retired issued : ℕ) (f : Footprint) (own : List BatchTimes) (b : Batch) (rest : List Batch) (looked committed before done next : ℕ) (element : ℕ)
        → IsReached start history retired issued f own (b ∷ rest) looked committed before done
        → (next_times start history issued f own b).looked_up ≡ At next
        → list_all (λ (a : AccessTimes). nat_lt a.access.element element) (accesses_of own) ≡ true
        → list_all (λ (a : AccessTimes). not (nat_lt a.access.element element)) (next_times start history issued f own b).accesses ≡ true
        → stopped_behind retired next element ((next_times start history issued f own b).accesses ++ accesses_of own) ≡ max next (max committed done) }
{}

/// Where there are more batches, the last that was gone through commits at its cycle, behind the commits of those before it. None of
/// these ends an episode whose slice ends behind the last; and behind happenings that don't end it, it goes on.
pub fn batches_commit()
    ensures reaches { (start : Start) (history : History) (s : Flat) (retired issued : ℕ) (f : Footprint) (last : BatchTimes) (own : List BatchTimes) (b : Batch) (rest : List Batch) (looked committed before done : ℕ)
        → (timed start history s f).issued ≡ At issued → IsReached start history retired issued f (last ∷ own) (b ∷ rest) looked committed before done
        → (follows : List Happening) × (happenings_of (last_retire start.cycle history) (timed start history s f)
        ≡ reached (timed start history s f) own ++ happening (timed start history s f) (Reaches last.after) committed ∷ follows) }
    ensures more { (start : Start) (history : History) (retired issued : ℕ) (f : Footprint) (last : BatchTimes) (own : List BatchTimes) (rest : List Batch) (looked committed before done : ℕ) (e : Entry)
        → IsReached start history retired issued f (last ∷ own) rest looked committed before done
        → reached e (last ∷ own) ≡ reached e own ++ happening e (Reaches last.after) committed ∷ [] }
    ensures ends_more { (start : Start) (history : History) (retired issued : ℕ) (f : Footprint) (last : BatchTimes) (own : List BatchTimes) (rest : List Batch) (looked committed before done until : ℕ) (e : Entry)
        → IsReached start history retired issued f (last ∷ own) rest looked committed before done
        → list_any (ends until) (reached e (last ∷ own)) ≡ (list_any (ends until) (reached e own) || nat_le until committed) }
    ensures none_ends { (start : Start) (history : History) (retired issued : ℕ) (f : Footprint) (own : List BatchTimes) (rest : List Batch) (looked committed before done until : ℕ) (e : Entry)
        → IsReached start history retired issued f own rest looked committed before done → committed < until
        → list_any (ends until) (reached e own) ≡ false }
    ensures none_before_ends { (start : Start) (history : History) (retired issued : ℕ) (f : Footprint) (own : List BatchTimes) (rest : List Batch) (looked committed before done until : ℕ) (e : Entry)
        → IsReached start history retired issued f own rest looked committed before done → before < until
        → list_any (ends until) (reached e (not_last own)) ≡ false }
    ensures any_ends { (until : ℕ) (happened follows : List Happening) → list_any (ends until) happened ≡ false → list_any (ends until) (happened ++ follows) ≡ list_any (ends until) follows }
    ensures finds { (until : ℕ) (happened follows : List Happening) → list_any (ends until) happened ≡ false → find (ends until) (happened ++ follows) ≡ find (ends until) follows }
    ensures goes_on { (until : ℕ) (happened follows : List Happening) → list_any (ends until) happened ≡ false → up_to_end until (happened ++ follows) ≡ happened ++ up_to_end until follows }
    ensures finds_end { (until : ℕ) (happened follows : List Happening) (h : Happening) → list_any (ends until) happened ≡ false → ends until h ≡ true
        → find (ends until) (happened ++ h ∷ follows) ≡ Some h }
    ensures ends_there { (until : ℕ) (happened follows : List Happening) (h : Happening) → list_any (ends until) happened ≡ false → ends until h ≡ true
        → up_to_end until (happened ++ h ∷ follows) ≡ happened ++ h ∷ [] }
{}

/// What of an instruction was queued by the cycle at which its episode ends, and which of its walks had ended. At the commit of a batch:
/// all of the batches that were gone through, and of the next one what came by then. At a stop, all of these and of the batch that stopped.
/// At the completion, all.
pub fn batches_are_in_flight()
    ensures reached_accesses { (start : Start) (history : History) (s : Flat) (retired issued : ℕ) (f : Footprint) (last : BatchTimes) (own : List BatchTimes) (b : Batch) (rest : List Batch) (looked committed before done : ℕ)
        → (timed start history s f).issued ≡ At issued → IsReached start history retired issued f (last ∷ own) (b ∷ rest) looked committed before done
        → queued_by committed (accesses_of (timed start history s f).batches)
        ≡ queued_by committed (next_times start history issued f (last ∷ own) b).accesses ++ accesses_of (last ∷ own) }
    ensures reached_done { (start : Start) (history : History) (s : Flat) (retired issued : ℕ) (f : Footprint) (last : BatchTimes) (own : List BatchTimes) (b : Batch) (rest : List Batch) (looked committed before done : ℕ)
        → (timed start history s f).issued ≡ At issued → IsReached start history retired issued f (last ∷ own) (b ∷ rest) looked committed before done
        → all_done (queued_by committed (accesses_of (timed start history s f).batches))
        ≡ max done (all_done (queued_by committed (next_times start history issued f (last ∷ own) b).accesses)) }
    ensures reached_walks { (start : Start) (history : History) (s : Flat) (retired issued : ℕ) (f : Footprint) (last : BatchTimes) (own : List BatchTimes) (b : Batch) (rest : List Batch) (looked committed before done : ℕ)
        → (timed start history s f).issued ≡ At issued → IsReached start history retired issued f (last ∷ own) (b ∷ rest) looked committed before done
        → ended_by committed (walks_of_batches (timed start history s f).batches)
        ≡ ended_by committed (next_times start history issued f (last ∷ own) b).walks ++ walks_of_batches (last ∷ own) }
    ensures reached_later_walks { (start : Start) (history : History) (s : Flat) (retired issued : ℕ) (f : Footprint) (last : BatchTimes) (own : List BatchTimes) (b : Batch) (rest : List Batch) (looked committed before done : ℕ)
        → (timed start history s f).issued ≡ At issued → IsReached start history retired issued f (last ∷ own) (b ∷ rest) looked committed before done
        → (later : List Walk) × ((walks_of_batches (timed start history s f).batches
        ≡ later ++ ((next_times start history issued f (last ∷ own) b).walks ++ walks_of_batches (last ∷ own)))
        × (list_all (λ (w : Walk). nat_le (committed + 1) w.begun) later ≡ true)) }
    ensures stopped_accesses { (start : Start) (history : History) (s : Flat) (retired issued : ℕ) (f : Footprint) (own : List BatchTimes) (b : Batch) (rest : List Batch) (looked committed before done next end : ℕ) (failing : Failure)
        → (timed start history s f).issued ≡ At issued → IsReached start history retired issued f own (b ∷ rest) looked committed before done
        → (next_times start history issued f own b).failure ≡ Some failing → (next_times start history issued f own b).is_trimmed ≡ false
        → (next_times start history issued f own b).looked_up ≡ At next → next ≤ end
        → queued_by end (accesses_of (timed start history s f).batches) ≡ (next_times start history issued f own b).accesses ++ accesses_of own }
    ensures stopped_done { (start : Start) (history : History) (s : Flat) (retired issued : ℕ) (f : Footprint) (own : List BatchTimes) (b : Batch) (rest : List Batch) (looked committed before done next end : ℕ) (failing : Failure)
        → (timed start history s f).issued ≡ At issued → IsReached start history retired issued f own (b ∷ rest) looked committed before done
        → (next_times start history issued f own b).failure ≡ Some failing → (next_times start history issued f own b).is_trimmed ≡ false
        → (next_times start history issued f own b).looked_up ≡ At next → next ≤ end
        → all_done (queued_by end (accesses_of (timed start history s f).batches)) ≡ max done (all_done (next_times start history issued f own b).accesses) }
    ensures stopped_walks { (start : Start) (history : History) (s : Flat) (retired issued : ℕ) (f : Footprint) (own : List BatchTimes) (b : Batch) (rest : List Batch) (looked committed before done next end : ℕ) (failing : Failure)
        → (timed start history s f).issued ≡ At issued → IsReached start history retired issued f own (b ∷ rest) looked committed before done
        → (next_times start history issued f own b).failure ≡ Some failing → (next_times start history issued f own b).is_trimmed ≡ false
        → (next_times start history issued f own b).looked_up ≡ At next → next ≤ end
        → ended_by end (walks_of_batches (timed start history s f).batches) ≡ (next_times start history issued f own b).walks ++ walks_of_batches own }
    ensures stopped_all_walks { (start : Start) (history : History) (s : Flat) (retired issued : ℕ) (f : Footprint) (own : List BatchTimes) (b : Batch) (rest : List Batch) (looked committed before done next : ℕ) (failing : Failure)
        → (timed start history s f).issued ≡ At issued → IsReached start history retired issued f own (b ∷ rest) looked committed before done
        → (next_times start history issued f own b).failure ≡ Some failing → (next_times start history issued f own b).is_trimmed ≡ false
        → (next_times start history issued f own b).looked_up ≡ At next
        → walks_of_batches (timed start history s f).batches ≡ (next_times start history issued f own b).walks ++ walks_of_batches own }
    ensures completed_accesses { (start : Start) (history : History) (s : Flat) (retired issued : ℕ) (f : Footprint) (own : List BatchTimes) (looked committed before done end : ℕ)
        → (timed start history s f).issued ≡ At issued → IsReached start history retired issued f own [] looked committed before done → looked ≤ end
        → queued_by end (accesses_of (timed start history s f).batches) ≡ accesses_of own }
    ensures completed_done { (start : Start) (history : History) (s : Flat) (retired issued : ℕ) (f : Footprint) (own : List BatchTimes) (looked committed before done end : ℕ)
        → (timed start history s f).issued ≡ At issued → IsReached start history retired issued f own [] looked committed before done → looked ≤ end
        → all_done (queued_by end (accesses_of (timed start history s f).batches)) ≡ done }
    ensures completed_walks { (start : Start) (history : History) (s : Flat) (retired issued : ℕ) (f : Footprint) (own : List BatchTimes) (looked committed before done end : ℕ)
        → (timed start history s f).issued ≡ At issued → IsReached start history retired issued f own [] looked committed before done → looked ≤ end
        → ended_by end (walks_of_batches (timed start history s f).batches) ≡ walks_of_batches own }
    ensures completed_all_walks { (start : Start) (history : History) (s : Flat) (retired issued : ℕ) (f : Footprint) (own : List BatchTimes) (looked committed before done : ℕ)
        → (timed start history s f).issued ≡ At issued → IsReached start history retired issued f own [] looked committed before done
        → walks_of_batches (timed start history s f).batches ≡ walks_of_batches own }
{}
