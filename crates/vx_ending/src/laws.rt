ghost use Rattle.std.specs.Prelude.{◌≡◌, ℕ, ◌+◌, ◌&&◌, ◌||◌, false, true, List, ◌∷◌, ◌++◌, [], None, Some, length, if◌then◌else◌};
ghost use Rattle.std.specs.List.{list_any};
ghost use Rattle.vx_flat.specs.Continued.{continued};
ghost use Rattle.vx_flat.specs.Outcome.Outcome.{Next};
ghost use Rattle.vx_flat.specs.Process.{Process, stepped};
ghost use Rattle.vx_flat.specs.State.{Flat};
ghost use Rattle.vx_flat.specs.Step.{step};
ghost use Rattle.vx_episode.specs.Commits.{Happening, entry_of, commits_of, ends, happening, happenings, happenings_of, not_last};
ghost use Rattle.vx_episode.specs.Commits.What.{Completes};
ghost use Rattle.vx_episode.specs.Cycles.{Cycle, cycles_of, is_by};
ghost use Rattle.vx_episode.specs.Cycles.Cycle.{At};
ghost use Rattle.vx_episode.specs.Episode.{commits_by, completes, end_by, episode, fetched_by};
ghost use Rattle.vx_episode.specs.History.{Entry, History, last_retire};
ghost use Rattle.vx_episode.specs.Instructions.{fetch_begin};
ghost use Rattle.vx_episode.specs.Organisation.{Start};
ghost use Rattle.vx_ending.specs.Counts.{changes_in, commits_in, completed_in};
ghost use Rattle.vx_ending.specs.Ends.{end_behind, process_behind};
ghost use Rattle.vx_ending.specs.UnderWay.{IsUnderWay, first_instructions};

/// An episode is under way where it begins, and goes on with an instruction that completes and of which nothing ends it.
#[inline(always)]
pub fn episodes_go_on()
    ensures begins { (start : Start) (until : ℕ) (from : Process) → from.over ≡ None → IsUnderWay start until from 0 [] from }
    ensures next { (start : Start) (until : ℕ) (from : Process) (n : ℕ) (history : History) (now : Process) (e : Entry) (t : Flat) (retired : ℕ) → IsUnderWay start until from n history now
        → e ≡ entry_of start history now.state → step now.state ≡ Next t → e.retired ≡ At retired
        → list_any (ends until) (happenings_of (last_retire start.cycle history) e) ≡ false
        → IsUnderWay start until from (n + 1) (e ∷ history) (stepped now) }
    ensures state { (start : Start) (until : ℕ) (from : Process) (n : ℕ) (history : History) (now : Process) (t : Flat) → IsUnderWay start until from n history now
        → step now.state ≡ Next t → (stepped now).state ≡ t }
{}

/// An episode that is under way ends at the first thing of the next instruction that ends it.
#[inline(always)]
pub fn episodes_end()
    ensures { (start : Start) (until : ℕ) (from : Process) (n : ℕ) (history : History) (now : Process) (e : Entry) (before after : List Happening) (last : Happening) → IsUnderWay start until from n history now
        → e ≡ entry_of start history now.state
        → happenings_of (last_retire start.cycle history) e ≡ before ++ last ∷ after → list_any (ends until) before ≡ false → ends until last ≡ true
        → episode start until from ≡ Some (end_by start from (happenings start.cycle history ++ before ++ last ∷ []) last (fetched_by start last.cycle from.state)) }
{}

/// The instructions in flight at a cycle are those up to the first behind which no fetch began by then: with the next
/// instruction, or with the one behind it too.
#[inline(always)]
pub fn instructions_in_flight()
    ensures any { (start : Start) (s : Flat) (last m : ℕ) → is_by last (fetch_begin start (first_instructions start m s)) ≡ true
        → is_by last (fetch_begin start (first_instructions start (m + 1) s)) ≡ false
        → fetched_by start last s ≡ first_instructions start (m + 1) s }
    ensures one { (start : Start) (until : ℕ) (from : Process) (n : ℕ) (history : History) (now : Process) (e : Entry) (last : ℕ) → IsUnderWay start until from n history now
        → e ≡ entry_of start history now.state
        → is_by last (fetch_begin start history) ≡ true → is_by last (fetch_begin start (e ∷ history)) ≡ false
        → fetched_by start last from.state ≡ e ∷ history }
    ensures two { (start : Start) (until : ℕ) (from : Process) (n : ℕ) (history : History) (now : Process) (e later : Entry) (last : ℕ) → IsUnderWay start until from n history now
        → e ≡ entry_of start history now.state → later ≡ entry_of start (e ∷ history) (continued now.state)
        → is_by last (fetch_begin start (e ∷ history)) ≡ true → is_by last (fetch_begin start (later ∷ e ∷ history)) ≡ false
        → fetched_by start last from.state ≡ later ∷ e ∷ history }
{}

/// What is counted of happenings is counted of one part after the other, and of one instruction after the other. Each that
/// retires completes once.
#[inline(always)]
pub fn happenings_are_counted()
    ensures commits { (some others : List Happening) → commits_in (some ++ others) ≡ commits_in some + commits_in others }
    ensures completed { (some others : List Happening) → completed_in (some ++ others) ≡ completed_in some + completed_in others }
    ensures changes { (some others : List Happening) → changes_in (some ++ others) ≡ (changes_in some || changes_in others) }
    ensures next_commits { (start : ℕ) (history : History) (e : Entry) → commits_in (happenings start (e ∷ history)) ≡ commits_in (happenings start history) + commits_in (happenings_of (last_retire start history) e) }
    ensures next_completed { (start : ℕ) (history : History) (e : Entry) → completed_in (happenings start (e ∷ history)) ≡ completed_in (happenings start history) + length (cycles_of e.retired) }
    ensures next_changes { (start : ℕ) (history : History) (e : Entry) → changes_in (happenings start (e ∷ history)) ≡ (changes_in (happenings start history) || changes_in (happenings_of (last_retire start history) e)) }
    ensures once { (e : Entry) (before : Cycle) → completed_in (happenings_of before e) ≡ length (cycles_of e.retired) }
    ensures of_one { (e : Entry) (before : Cycle) (some others : List Happening) → happenings_of before e ≡ some ++ others
        → changes_in some ≡ (list_any (λ (h : Happening). commits_by h.what) some && e.footprint.changes_vectors) }
{}

/// An instruction that retires commits its batches but the last, and completes; nothing else happens of it.
#[inline(always)]
pub fn retiring_instructions_commit()
    ensures commits { (start : Start) (history : History) (s : Flat) (e : Entry) (before : Cycle) (retired : ℕ) → e ≡ entry_of start history s → e.retired ≡ At retired
        → happenings_of before e ≡ commits_of e }
    ensures alone { (start : Start) (history : History) (s : Flat) (e : Entry) (before : Cycle) (retired : ℕ) → e ≡ entry_of start history s → e.retired ≡ At retired
        → not_last e.batches ≡ [] → happenings_of before e ≡ happening e Completes retired ∷ [] }
    ensures changes { (start : Start) (history : History) (s : Flat) (e : Entry) (before : Cycle) (retired : ℕ) → e ≡ entry_of start history s → e.retired ≡ At retired
        → changes_in (happenings_of before e) ≡ e.footprint.changes_vectors }
{}

/// The parts of an episode's end, by what is known in front of the instruction that ends it: the instructions before it completed,
/// and it hasn't before what ends the episode.
#[inline(always)]
pub fn ends_have_parts()
    ensures completed { (start : Start) (until : ℕ) (from : Process) (n : ℕ) (history : History) (now : Process) (e : Entry) (before after : List Happening) (last : Happening) (fetched : History) → IsUnderWay start until from n history now
        → e ≡ entry_of start history now.state → happenings_of (last_retire start.cycle history) e ≡ before ++ last ∷ after
        → (end_by start from (happenings start.cycle history ++ before ++ last ∷ []) last fetched).completed ≡ n + (if completes last.what then 1 else 0) }
    ensures process { (start : Start) (until : ℕ) (from : Process) (n : ℕ) (history : History) (now : Process) (e : Entry) (before after : List Happening) (last : Happening) (fetched : History) → IsUnderWay start until from n history now
        → e ≡ entry_of start history now.state → happenings_of (last_retire start.cycle history) e ≡ before ++ last ∷ after
        → (end_by start from (happenings start.cycle history ++ before ++ last ∷ []) last fetched).process ≡ process_behind last.what now }
    ensures commits { (start : Start) (until : ℕ) (from : Process) (n : ℕ) (history : History) (now : Process) (e : Entry) (before after : List Happening) (last : Happening) (fetched : History) → IsUnderWay start until from n history now
        → e ≡ entry_of start history now.state → happenings_of (last_retire start.cycle history) e ≡ before ++ last ∷ after
        → (end_by start from (happenings start.cycle history ++ before ++ last ∷ []) last fetched).commits ≡ commits_in (happenings start.cycle history) + commits_in (before ++ last ∷ []) }
    ensures changes { (start : Start) (until : ℕ) (from : Process) (n : ℕ) (history : History) (now : Process) (e : Entry) (before after : List Happening) (last : Happening) (fetched : History) → IsUnderWay start until from n history now
        → e ≡ entry_of start history now.state → happenings_of (last_retire start.cycle history) e ≡ before ++ last ∷ after
        → (end_by start from (happenings start.cycle history ++ before ++ last ∷ []) last fetched).changed_vectors ≡ (changes_in (happenings start.cycle history) || changes_in (before ++ last ∷ [])) }
    ensures whole { (start : Start) (until : ℕ) (from : Process) (n : ℕ) (history : History) (now : Process) (e : Entry) (before after : List Happening) (last : Happening) (fetched : History) → IsUnderWay start until from n history now
        → e ≡ entry_of start history now.state → happenings_of (last_retire start.cycle history) e ≡ before ++ last ∷ after
        → end_by start from (happenings start.cycle history ++ before ++ last ∷ []) last fetched ≡ end_behind start n (commits_in (happenings start.cycle history)) (changes_in (happenings start.cycle history)) now before last fetched }
{}
