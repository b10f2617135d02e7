ghost use Rattle.std.specs.Prelude.{◌≡◌, ◌&&◌, ℕ, ◌+◌, ◌*◌, ◌^◌, ◌<◌, ◌≤◌, ◌⊎◌, Bool, true, false, List, [], ◌∷◌, map, length, slice_index, slice_index_or, slice_set, Option, Some, None, IfSome, option_map, ◌≢◌, if◌then◌else◌};
ghost use Rattle.std.specs.Option.{option_to_list};
ghost use Rattle.vx_base.specs.Pages.{IsPageList};
ghost use Rattle.vx_base.specs.declared.machine.Want.{Want};
ghost use Rattle.vx_base.specs.declared.perm.PageEntry.{PageEntry};
ghost use Rattle.vx_base.specs.declared.perm.Perm.{Perm};
ghost use Rattle.vx_cells.specs.Cells.{CellsState, IsMemory, Makes, read_at};
ghost use Rattle.vx_cells.specs.declared.access.Port.{Port};
ghost use Rattle.vx_image.specs.Pages.{Memory, is_granted, is_canonical};
ghost use Rattle.vx_image.specs.Tables as image;
ghost use Rattle.vx_tables.specs.Building.{Builds, IsFrom, kernel_writes, pointer_for, table_writes};
ghost use Rattle.vx_tables.specs.Entries.{page_entry};
ghost use Rattle.vx_tables.specs.Examples.{ExamplesHold};
ghost use Rattle.vx_tables.specs.Residency.{Residency, PlacedPage, Place, IsOf, pages_of, placed, with_place, page_map, after_walk, AreBelow, at_boot, place_at_boot};
ghost use Rattle.vx_tables.specs.Tables.{AreHeld, Stand, SameBut, gib, mib2, has_region, region_total, regions_below, leaf_entry, leaf_word, table_count};
ghost use Rattle.vx_tables.specs.Walking.{Walking, first_stage, stage_after, IsWalk, Agree, CanTick, WalkGoesOn, WalkEnds};
ghost use Rattle.vx_tables.specs.Walks.{entry_word, walk, table_walk, walk_port, with_entry, written_entry};
ghost use Rattle.vx_tables.specs.declared.stage.Stage.TheVariants as stage;
ghost use Rattle.vx_tables.specs.declared.stage.TableEntry.{TableEntry};
ghost use Rattle.vx_tables.specs.declared.walked.Walked.{Walked};
ghost use Rattle.vx_tables.specs.declared.walked.Walked.TheVariants as walked;

use vx_cells::{accesses_are_made_in_turn, words_are_merged_by_bytes};

/// A walk through tables that stand for a residency depends on the pages and the residency alone, and answers the page map.
/// Once the entry is written that it writes, the tables stand for the residency with A and D set where they are to be.
pub fn a_walk_is_the_page_map()
    ensures walk { (contents : List ℕ) (root address : ℕ) (want : Want) (residency : Residency) → Stand contents root residency
        → walk (slice_index contents) root address want ≡ table_walk residency root address want }
    ensures answer { (root address : ℕ) (want : Want) (residency : Residency) → IsPageList (pages_of residency)
        → (table_walk residency root address want).answer ≡ page_map residency address want }
    ensures stand { (contents : List ℕ) (root address : ℕ) (want : Want) (residency : Residency) → Stand contents root residency
        → 512 * (root + table_count (pages_of residency)) ≤ length contents
        → Stand (with_entry (table_walk residency root address want).write contents) root (after_walk residency address want) }
{}

/// A leaf entry that is written anew says where its page is then, and no other page moves.
pub fn a_written_leaf_moves_its_page()
    ensures { (contents : List ℕ) (first number : ℕ) (residency : Residency) (p : PlacedPage) (place : Place) → Stand contents first residency
        → 512 * (first + table_count (pages_of residency)) ≤ length contents → placed number residency ≡ Some p
        → Stand (slice_set contents (leaf_word first (pages_of residency) number) (page_entry p.entry.perm.bits place)) first (with_place number place residency) }
{}

/// The definitions give what is worked out for some entries, walks and look-ups.
pub fn examples_hold()
    ensures { ExamplesHold }
{}

/// Tables stay where memory changes in other frames alone: of one of their own, nothing says what its words are afterwards.
pub fn tables_elsewhere_stay()
    ensures { (before after : List ℕ) (first changed count : ℕ) (residency : Residency) → Stand before first residency → SameBut changed count before after
        → (first + table_count (pages_of residency) ≤ changed) ⊎ (changed + count ≤ first) → Stand after first residency }
{}

/// The page map of a residency of a memory lets through what the memory permits at canonical addresses, and its tables take
/// as many frames as those of the memory's image.
pub fn pages_are_granted()
    ensures leaf { (residency : Residency) (memory : Memory) (address frame : ℕ) (perm : Perm) (dirty : Bool) (want : Want) → IsOf residency memory → IsPageList (pages_of residency)
        → page_map residency address want ≡ walked.Leaf frame perm dirty → (is_canonical address && is_granted memory address want) ≡ true }
    ensures denied { (residency : Residency) (memory : Memory) (address : ℕ) (want : Want) → IsOf residency memory
        → page_map residency address want ≡ walked.Denied → (is_canonical address && is_granted memory address want) ≡ false }
    ensures frames { (residency : Residency) (memory : Memory) → IsOf residency memory → table_count (pages_of residency) ≡ image.table_frames memory }
{}

/// A walk on its way through tables: what its next step needs, and what that leaves. Other walks may have set bits since it has
/// read.
#[inline(always)]
pub fn steps_follow_the_tables()
    ensures begins { (residency : Residency) (root address : ℕ) (want : Want) (port : Port) → IsPageList (pages_of residency)
        → IsWalk residency root (record { address = address; want = want; port = port; stage = first_stage root address }) [] }
    ensures can_tick { (cells : CellsState) (seen residency : Residency) (root : ℕ) (walking : Walking) (done : List TableEntry)
        → AreHeld cells root residency → Agree walking.address walking.want seen residency → IsWalk seen root walking done
        → CanTick cells walking.stage }
    ensures reads { (before after : CellsState) (seen residency : Residency) (root level frame : ℕ) (walking : Walking) (done : List TableEntry)
        → AreHeld before root residency → Agree walking.address walking.want seen residency → IsWalk seen root walking done
        → walking.stage ≡ stage.Reads level frame → Makes before after (read_at before walking.port (entry_word frame walking.address level) ∷ [])
        → WalkGoesOn before after residency root walking (record walking { stage = stage_after walking.want walking.address level frame (slice_index before.contents (entry_word frame walking.address level)) }) done }
    ensures ends { (before after : CellsState) (seen residency : Residency) (root : ℕ) (answer : Walked) (write : Option TableEntry) (walking : Walking) (done : List TableEntry)
        → AreHeld before root residency → Agree walking.address walking.want seen residency → IsWalk seen root walking done
        → walking.stage ≡ stage.Ends answer write → Makes before after (map (written_entry before.cycle walking.port) (option_to_list write))
        → WalkEnds before after seen residency root walking done answer }
{
    words_are_merged_by_bytes();
}

/// Walks go on side by side, one on each port: what one has seen agrees with what another one leaves, since no page grants both
/// a fetch and a store.
#[inline(always)]
pub fn walks_go_side_by_side()
    ensures same { (address : ℕ) (want : Want) (residency : Residency) → Agree address want residency residency }
    ensures joined { (address : ℕ) (want : Want) (seen between now : Residency) → Agree address want seen between → Agree address want between now → Agree address want seen now }
    ensures other { (residency : Residency) (address other_address : ℕ) (want other : Want) → IsPageList (pages_of residency) → walk_port want ≢ walk_port other
        → Agree address want residency (after_walk residency other_address other) }
{}

/// The tables of a residency are built frame after frame: the regions that have pages are counted, and each frame that is
/// written behind the others goes on with the tables' words.
#[inline(always)]
pub fn tables_are_built_in_turn()
    ensures none { (size : ℕ) (pages : List PageEntry) → regions_below size 0 pages ≡ 0 }
    ensures step { (size region : ℕ) (pages : List PageEntry) → regions_below size (region + 1) pages ≡ regions_below size region pages + (if has_region size region pages then 1 else 0) }
    ensures all { (size limit : ℕ) (pages : List PageEntry) → IsPageList pages → 67108863 < size * limit → regions_below size limit pages ≡ region_total size pages }
    ensures between { (region : ℕ) (pages : List PageEntry) → has_region gib region pages ≡ false → regions_below mib2 (512 * region + 512) pages ≡ regions_below mib2 (512 * region) pages }
    ensures bound { (size region : ℕ) (pages : List PageEntry) → regions_below size region pages ≤ region_total size pages }
    ensures begun { (state : CellsState) (first : ℕ) (residency : Residency) → Makes state state (table_writes state.cycle residency first 0) }
    ensures root { (before now after : CellsState) (first : ℕ) (residency : Residency) → Makes before now (table_writes before.cycle residency first 0)
        → Makes now after (kernel_writes now.cycle (512 * first) (λ i. pointer_for (first + 1) gib (pages_of residency) (0 + i)) 512)
        → Makes before after (table_writes before.cycle residency first 1) }
    ensures second { (before now after : CellsState) (first region frame : ℕ) (residency : Residency) → has_region gib region (pages_of residency) ≡ true
        → frame ≡ 1 + regions_below gib region (pages_of residency) → Makes before now (table_writes before.cycle residency first frame)
        → Makes now after (kernel_writes now.cycle (512 * (first + frame)) (λ i. pointer_for (first + 1 + region_total gib (pages_of residency)) mib2 (pages_of residency) (512 * region + i)) 512)
        → Makes before after (table_writes before.cycle residency first (frame + 1)) }
    ensures leaf { (before now after : CellsState) (first region frame : ℕ) (residency : Residency) → has_region mib2 region (pages_of residency) ≡ true
        → frame ≡ 1 + region_total gib (pages_of residency) + regions_below mib2 region (pages_of residency) → Makes before now (table_writes before.cycle residency first frame)
        → Makes now after (kernel_writes now.cycle (512 * (first + frame)) (λ i. leaf_entry residency (512 * region + i)) 512)
        → Makes before after (table_writes before.cycle residency first (frame + 1)) }
    ensures built { (before after : CellsState) (first : ℕ) (residency : Residency) → IsMemory before → IsPageList (pages_of residency)
        → first + table_count (pages_of residency) ≤ before.frames → AreBelow 16384 residency
        → Makes before after (table_writes before.cycle residency first (table_count (pages_of residency))) → Builds before after first residency }
    ensures pages { (frame : Option ℕ) (pages : List PageEntry) → pages_of (at_boot frame pages) ≡ pages }
    ensures found { (frame : Option ℕ) (pages : List PageEntry) (number index : ℕ) (d : PageEntry) → IsFrom 1 number pages index → index < length pages
        → (slice_index_or pages index d).page ≡ number
        → placed number (at_boot frame pages) ≡ Some (record { entry = slice_index_or pages index d; place = place_at_boot (option_map (λ f. f + index) frame) }) }
    ensures missing { (frame : Option ℕ) (pages : List PageEntry) (number index : ℕ) → IsPageList pages → IsFrom 1 number pages index
        → ((d : PageEntry) → index < length pages → (slice_index_or pages index d).page ≢ number) → placed number (at_boot frame pages) ≡ None }
    ensures below { (frame : Option ℕ) (pages : List PageEntry) (frames : ℕ) → IfSome frame (λ f. f + length pages ≤ frames) → AreBelow frames (at_boot frame pages) }
{
    words_are_merged_by_bytes();
    accesses_are_made_in_turn();
}
