ghost use Rattle.std.specs.Prelude.{◌≡◌, ℕ, ◌*◌, ◌^◌, ◌<◌, List, [], ◌++◌};
ghost use Rattle.vx_base.specs.Numbers.{field};
ghost use Rattle.vx_cells.specs.Cells.{CellsState, IsMemory, Makes};
ghost use Rattle.vx_cells.specs.Merging.{merged, merged_byte};
ghost use Rattle.vx_cells.specs.declared.access.Access.{Access};

/// A merged word by its bytes; one of which all bytes are written is the value.
#[inline(always)]
pub fn words_are_merged_by_bytes()
    ensures byte { (mask old value j : ℕ) → j < 8 → field (merged mask old value) (8 * j) 8 ≡ merged_byte mask old value j }
    ensures whole { (old value : ℕ) → value < 2 ^ 64 → merged 255 old value ≡ value }
{}

/// Accesses that are made behind others are made in turn with them, none change nothing, and all keep the memory's size.
#[inline(always)]
pub fn accesses_are_made_in_turn()
    ensures none { (state : CellsState) → Makes state state [] }
    ensures joined { (before between after : CellsState) (first second : List Access) → Makes before between first → Makes between after second
        → Makes before after (first ++ second) }
    ensures memory { (before after : CellsState) (accesses : List Access) → Makes before after accesses → IsMemory before → IsMemory after }
{}
