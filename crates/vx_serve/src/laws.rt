ghost use Rattle.std.specs.Prelude.{◌≡◌, ◌<◌, ◌≤◌, ◌⊎◌, ℕ, Bool, false, true, List, [], ◌∷◌, ◌++◌, length, map, All};
ghost use Rattle.std.specs.List.{AllPass};
ghost use Rattle.vx_episode.specs.Batches.Fate.{Good, Unknown};
ghost use Rattle.vx_episode.specs.Batches.{Fate, Judged, queue_cycle, serve_cycle, judged, never_queued, lowest_failure, is_queued};
ghost use Rattle.vx_episode.specs.Cycles.Cycle.{At};
ghost use Rattle.vx_episode.specs.Footprint.{Access};
ghost use Rattle.vx_episode.specs.History.{AccessTimes, queued_by};
ghost use Rattle.vx_episode.specs.Organisation.{Organisation};
ghost use Rattle.vx_serve.specs.Agreeing.{AgreeBy, AreApart, IsCutAt};
ghost use Rattle.vx_serve.specs.InTurn.{IsInTurn, AreGood, failure_at};
ghost use Rattle.vx_serve.specs.Serving.{served_of, failing_from};

/// An access is queued at or behind the cycle at which its word is known, and served behind that; so is each of a batch that is
/// served, and it is done the bank time later.
pub fn accesses_go_in_turn()
    ensures queued { (lower : List Judged) (known word cycle : ℕ) → queue_cycle lower (Good known word) ≡ At cycle → known ≤ cycle }
    ensures served { (machine : Organisation) (earlier : List AccessTimes) (word queued : ℕ) → queued < serve_cycle machine earlier word queued }
    ensures all { (machine : Organisation) (earlier : List AccessTimes) (fate : Access → Fate) (accesses : List Access)
        → All (IsInTurn machine fate) (served_of machine earlier fate accesses) }
{}

/// Where the words of all accesses are known, all are queued; those below the first whose word isn't, are. The lowest that fails
/// is the first by number.
pub fn known_accesses_are_queued()
    ensures all { (fate : Access → Fate) (accesses : List Access) (is_trimmed : Bool) → AreGood fate accesses → never_queued is_trimmed (judged fate [] accesses) ≡ [] }
    ensures below { (fate : Access → Fate) (below rest : List Access) → AreGood fate below
        → (above : List Judged) × (judged fate [] (below ++ rest) ≡ above ++ judged fate [] below) × AllPass (λ (j : Judged). is_queued j.queued) (judged fate [] below) }
    ensures failure { (fate : Access → Fate) (accesses : List Access)
        → lowest_failure (judged fate [] accesses) ≡ failure_at accesses (failing_from 0 (map fate accesses)) }
{}

/// What is known of the accesses of a batch by a cycle decides which are queued by then, and when those are served and done; as
/// long as an access that is known later hasn't the word of a higher one that is known by then. Accesses to one word that are
/// known at one cycle are so, and those of which nothing is known later.
pub fn what_is_known_is_enough()
    ensures agree { (last : ℕ) (machine : Organisation) (earlier : List AccessTimes) (fate other : Access → Fate) (accesses : List Access) → AgreeBy last fate other accesses
        → AreApart last fate accesses → AreApart last other accesses
        → queued_by last (served_of machine earlier fate accesses) ≡ queued_by last (served_of machine earlier other accesses) }
    ensures together { (last : ℕ) (fate : Access → Fate) (accesses : List Access)
        → ((a b : Access) (cycle other word : ℕ) → fate a ≡ Good cycle word → fate b ≡ Good other word → cycle ≡ other) → AreApart last fate accesses }
    ensures cut { (last : ℕ) (fate : Access → Fate) (accesses : List Access) → All (λ (a : Access). IsCutAt last (fate a)) accesses → AreApart last fate accesses }
{}
