ghost use Rattle.std.specs.Prelude.{◌≡◌, ℕ, List};
ghost use Rattle.vx_words.specs.Words.{Command, AskFor, IsFirstBad};

/// The words ask for one command at most.
pub fn words_ask_for_one_command()
    ensures { (words : List (List ℕ)) (one other : Command) → AskFor words one → AskFor words other → one ≡ other }
{}

/// The words have one first bad word at most.
pub fn first_bad_word_is_one()
    ensures { (words : List (List ℕ)) (one other : ℕ) → IsFirstBad words one → IsFirstBad words other → one ≡ other }
{}
