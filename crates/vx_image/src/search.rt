ghost use Rattle.std.specs.Prelude.{MatchOption};
ghost use Rattle.vx_image.specs.Kept.{IsRising, IsPlaceOf, IsPlaceFrom, Lacks};

use vx_base::PageEntry;

/// The place of the entry of a page among entries whose pages rise, where one has it.
pub fn place_of(entries: &[PageEntry], page: u64) -> Option<usize>
    requires { IsRising entries.now }
    ensures { MatchOption result (Lacks entries.now page) (IsPlaceOf entries.now page) }
{
    entries.binary_search_by_key(&page, |entry| entry.page).ok()
}

/// The first place of an entry whose page is this one or above it.
pub fn place_from(entries: &[PageEntry], page: u64) -> usize
    requires { IsRising entries.now }
    ensures { IsPlaceFrom entries.now page result }
{
    entries.partition_point(|entry| entry.page < page)
}
