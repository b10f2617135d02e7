ghost use Rattle.std.specs.Prelude.{◌≡◌, List, [], pos};
ghost use Rattle.vx_language.specs.Lexemes.{Piece};
ghost use Rattle.vx_language.specs.Places.{statement_offset_faults};

/// A label that is 0 bytes away is in reach of every statement.
pub fn nowhere_is_in_reach()
    ensures { (statement : List Piece) → statement_offset_faults (λ label. pos 0) statement ≡ [] }
{}
