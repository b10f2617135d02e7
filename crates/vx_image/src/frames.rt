ghost use Rattle.std.specs.Prelude.{◌≡◌, ◌<◌, ◌≤◌, ◌/◌, map, not};
ghost use Rattle.vx_base.specs.Pages.{IsPageList};
ghost use Rattle.vx_base.specs.declared.perm.PageEntry.{PageEntry};
ghost use Rattle.vx_image.specs.Tables.{distinct_count};
ghost use Rattle.vx_image.specs.Building.{is_last};

use vx_base::PageEntry;

/// How many regions of so many pages have one of the pages, which rise.
pub fn region_count(entries: &[PageEntry], size: u64) -> u32
    requires entries { IsPageList entries.now }
    requires size { 0 < size }
    ensures count { result ≡ distinct_count (map (λ (entry : PageEntry). entry.page / size) entries.now) }
    ensures limit { result ≤ 67108864 }
{
    let mut count = 0;
    let mut last = None;
    for entry in entries {
        let region = entry.page / size;
        if !is_last(last, region) {
            count += 1;
        }
        last = Some(region);
    }
    count
}

/// Whether a region is the last one that was counted.
fn is_last(last: Option<u64>, region: u64) -> bool
    ensures { result ≡ is_last last region }
{
    match last {
        Some(before) => before == region,
        None => false,
    }
}
