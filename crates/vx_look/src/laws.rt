ghost use Rattle.std.specs.Prelude.{◌≡◌, ◌≢◌, ℕ, false, List, ◌∷◌, ◌++◌, map};
ghost use Rattle.vx_base.specs.Pages.{IsPageList};
ghost use Rattle.vx_base.specs.declared.machine.Want.{Want};
ghost use Rattle.vx_episode.specs.Footprint.{moved_access};
ghost use Rattle.vx_flat.specs.Transfers.{Direction};
ghost use Rattle.vx_episode.specs.History.{Walk, after_walks};
ghost use Rattle.vx_look.specs.Fetches.{is_away};
ghost use Rattle.vx_look.specs.LookUps.{AreOf};
ghost use Rattle.vx_vaddr.specs.Items.{accesses_of_items};
ghost use Rattle.vx_vaddr.specs.declared.item.Item.{Item};
ghost use Rattle.vx_vector.specs.Accesses.{Movement};
ghost use Rattle.vx_tables.specs.Residency.{Residency, pages_of, is_store, page_map, after_walk};
ghost use Rattle.vx_tables.specs.Walks.{walk_port};

use vx_tables::walks_go_side_by_side;

/// The accesses of a vector load or store are those of its items.
pub fn accesses_are_of_their_items()
    ensures { (direction : Direction) (m : Movement) (items : List Item) → AreOf items (map (moved_access direction m) (accesses_of_items items)) }
{}

/// Walks leave the same residency in whatever order they are made. None moves a page; one that isn't for a store changes no
/// answer of another, nor does one on the other port.
pub fn walks_commute()
    ensures joined { (residency : Residency) (later earlier : List Walk) → after_walks residency (later ++ earlier) ≡ after_walks (after_walks residency earlier) later }
    ensures swapped { (residency : Residency) (some others : List Walk) → after_walks residency (some ++ others) ≡ after_walks residency (others ++ some) }
    ensures front { (residency : Residency) (some others : List Walk) (w : Walk) → after_walks residency (some ++ w ∷ others) ≡ after_walks residency (w ∷ (some ++ others)) }
    ensures pages { (residency : Residency) (walks : List Walk) → pages_of (after_walks residency walks) ≡ pages_of residency }
    ensures accessed { (residency : Residency) (address other : ℕ) (want wanted : Want) → is_store wanted ≡ false
        → page_map (after_walk residency other wanted) address want ≡ page_map residency address want }
    ensures apart { (residency : Residency) (address other : ℕ) (want wanted : Want) → IsPageList (pages_of residency) → walk_port want ≢ walk_port wanted
        → page_map (after_walk residency other wanted) address want ≡ page_map residency address want }
    ensures away { (residency : Residency) (address : ℕ) (want : Want) (walks : List Walk)
        → is_away (page_map (after_walks residency walks) address want) ≡ is_away (page_map residency address want) }
{
    walks_go_side_by_side();
}
