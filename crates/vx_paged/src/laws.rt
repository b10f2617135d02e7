ghost use Rattle.std.specs.Prelude.{◌≡◌, ◌≢◌, ℕ, Bool, ◌+◌, ◌/◌, ◌≤◌, false, List, Some, length, slice_index};
ghost use Rattle.vx_base.specs.Pages.{IsPageList};
ghost use Rattle.vx_base.specs.declared.perm.PageEntry.{PageEntry};
ghost use Rattle.vx_cells.specs.Cells.{CellsState};
ghost use Rattle.vx_episode.specs.History.{Walk, after_walks};
ghost use Rattle.vx_episode.specs.Show.{Registers, Shows};
ghost use Rattle.vx_flat.specs.State.{Flat};
ghost use Rattle.vx_paged.specs.Framed.{IsPlacement, in_turn, shown};
ghost use Rattle.vx_paged.specs.Left.{is_framed, rest_of};
ghost use Rattle.vx_paged.specs.Placed.{AreAlone, IsPlacedAs, IsWhole};
ghost use Rattle.vx_paged.specs.declared.placement.FramedPage.{FramedPage};
ghost use Rattle.vx_pending.specs.Alike.{AreAlike};
ghost use Rattle.vx_tables.specs.Residency.{Residency, PlacedPage, at_boot, pages_of, placed};
ghost use Rattle.vx_tables.specs.Residency.Place.{Present};
ghost use Rattle.vx_tables.specs.Tables.{AreHeld, SameBut, table_count};

/// What is left as it was is each word outside of the pages' frames, and so are the page tables, where no page is in a frame of
/// theirs.
pub fn tables_stay()
    ensures words { (placement : List FramedPage) (before after : CellsState) → rest_of placement after ≡ rest_of placement before
        → (word : ℕ) → is_framed placement (word / 512) ≡ false → slice_index after.contents word ≡ slice_index before.contents word }
    ensures held { (placement : List FramedPage) (before after : CellsState) (first : ℕ) (residency : Residency) → IsPlacement placement → IsPlacedAs placement residency
        → AreAlone first residency → AreHeld before first residency → rest_of placement after ≡ rest_of placement before → AreHeld after first residency }
{}

/// Where physical memory shows a flat state, the memory that a placement shows is the state's but for pending bytes. And where
/// it is, the hart has the state's registers and the tables stand, physical memory shows the state.
pub fn shown_memory_is_alike()
    ensures there { (placement : List FramedPage) (registers : Registers) (cells : CellsState) (first : ℕ) (residency : Residency) (s : Flat) → IsWhole s.memory
        → IsPlacedAs placement residency → Shows registers cells first residency s → AreAlike s (shown placement cells.contents) }
    ensures back { (placement : List FramedPage) (registers : Registers) (cells : CellsState) (first : ℕ) (residency : Residency) (s : Flat) → IsPlacedAs placement residency
        → registers.pc ≡ s.pc → registers.x ≡ s.x → registers.v ≡ s.v → AreHeld cells first residency → AreAlone first residency
        → AreAlike s (shown placement cells.contents) → Shows registers cells first residency s }
    ensures whole { (placement : List FramedPage) (contents : List ℕ) → IsWhole (shown placement contents) }
{}

/// Pages in successive frames are where the residency at boot says.
pub fn pages_are_placed_in_turn()
    ensures placed { (first : ℕ) (pages : List PageEntry) → IsPlacedAs (in_turn first pages) (at_boot (Some first) pages) }
    ensures placement { (first : ℕ) (pages : List PageEntry) → IsPageList pages → first + length pages ≤ 16384 → IsPlacement (in_turn first pages) }
{}

/// Walks leave each page in its frame, and the memory that is shown: they write the tables alone. A frame in which the residency has
/// no page is none of the placement's. What is left as it was tells the placement.
pub fn walks_leave_pages()
    ensures placed { (placement : List FramedPage) (residency : Residency) (walks : List Walk) → IsPlacement placement → IsPlacedAs placement residency → IsPlacedAs placement (after_walks residency walks) }
    ensures alone { (placement : List FramedPage) (first : ℕ) (residency : Residency) (walks : List Walk) → IsPlacement placement → IsPlacedAs placement residency → AreAlone first residency → AreAlone first (after_walks residency walks) }
    ensures shown { (placement : List FramedPage) (first : ℕ) (residency : Residency) (before after : List ℕ) → IsPlacement placement → IsPlacedAs placement residency → AreAlone first residency
        → SameBut first (table_count (pages_of residency)) before after → shown placement after ≡ shown placement before }
    ensures elsewhere { (placement : List FramedPage) (residency : Residency) (frame : ℕ) → IsPlacement placement → IsPlacedAs placement residency
        → ((number : ℕ) (p : PlacedPage) (accessed dirty : Bool) → placed number residency ≡ Some p → p.place ≢ Present frame accessed dirty) → is_framed placement frame ≡ false }
    ensures same { (one other : List FramedPage) (before after : CellsState) → rest_of other after ≡ rest_of one before → other ≡ one }
{}
