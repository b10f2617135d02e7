ghost use Rattle.std.specs.Prelude.{◌≡◌, ◌<◌, ◌≤◌, ◌+◌, ◌*◌, ◌/◌, ◌^◌, ℕ, [], ◌∷◌, Some, None, length, slice_index_or, IfSome, option_map, if◌then◌else◌};
ghost use Rattle.vx_base.specs.declared.perm.PageEntry.{PageEntry};
ghost use Rattle.vx_cells.specs.Cells.{CellsState, IsMemory, Makes};
ghost use Rattle.vx_base.specs.Pages.{IsPageList};
ghost use Rattle.vx_tables.specs.Building.{Builds, IsFrom, kernel_write, kernel_writes, pointer_for, table_writes};
ghost use Rattle.vx_tables.specs.Entries.{pointer};
ghost use Rattle.vx_tables.specs.Residency.{Residency, pages_of, at_boot};
ghost use Rattle.vx_tables.specs.Tables.{AreHeld, gib, mib2, has_region, regions_below, region_total, leaf_entry, table_count};

use crate::entry::page_value;
use vx_base::{PageEntry, PageList};
use vx_cells::{Cells, Port, accesses_are_made_in_turn, words_are_merged_by_bytes};
use vx_tables::tables_are_built_in_turn;

/// How many pages a region of 1 GiB has, and how many such regions there are below the last page.
const GIB: u64 = 1 << 18;

const GIB_REGIONS: u64 = 256;

/// How many pages a region of 2 MiB has.
const MIB2: u64 = 1 << 9;

/// How many words a frame has.
const FRAME_WORDS: u32 = 512;

/// The page at an index.
pub fn entry_at(pages: &PageList, index: usize) -> PageEntry
    requires { index < length pages.now }
    ensures { (d : PageEntry) → result ≡ slice_index_or pages.now index d }
{
    match pages.get(index) {
        Some(entry) => *entry,
        None => unreachable!(),
    }
}

/// The region of so many pages in which the page at an index lies.
fn region_at(pages: &PageList, index: usize, size: u64) -> u64
    requires size { 0 < size }
    requires within { index < length pages.now }
    ensures { (d : PageEntry) → result ≡ (slice_index_or pages.now index d).page / size }
{
    entry_at(pages, index).page / size
}

/// The index of the first page at or above a region of so many pages, and the number of pages where there is none.
fn first_from(pages: &PageList, size: u64, region: u64) -> usize
    requires { 0 < size }
    ensures { IsFrom size region pages.now result }
{
    let mut low = 0;
    let mut high = pages.len();
    while low < high {
        let middle = low + (high - low) / 2;
        if region_at(pages, middle, size) < region {
            low = middle + 1;
        } else {
            high = middle;
        }
    }
    low
}

/// Whether a region of so many pages has one of the pages.
fn has_region(pages: &PageList, size: u64, region: u64) -> bool
    requires { 0 < size }
    ensures { result ≡ has_region size region pages.now }
{
    let index = first_from(pages, size, region);
    index < pages.len() && region_at(pages, index, size) == region
}

/// The leaf entry of a page at boot: the pages are in no frame, or in successive frames from one on.
fn leaf_value(pages: &PageList, frame: Option<u32>, number: u64) -> u64
    requires { IfSome frame (λ f. f + length pages.now ≤ 16384) }
    ensures { result ≡ leaf_entry (at_boot frame pages.now) number }
{
    tables_are_built_in_turn();
    let index = first_from(pages, 1, number);
    if index >= pages.len() {
        return 0;
    }
    let entry = entry_at(pages, index);
    if entry.page != number {
        return 0;
    }
    page_value(entry.perm, frame_behind(frame, index))
}

/// The frame that lies so many behind one.
fn frame_behind(frame: Option<u32>, index: usize) -> Option<u32>
    requires { IfSome frame (λ f. f + index < 2 ^ 32) }
    ensures { result ≡ option_map (λ f. f + index) frame }
{
    match frame {
        None => None,
        Some(frame) => Some(frame + index as u32),
    }
}

/// Writes a whole word, as the kernel.
pub fn write_word<C: Cells>(cells: &mut C, word: u32, value: u64)
    requires { word < 512 * (C.state cells.old).frames }
    ensures { Makes (C.state cells.old) (C.state cells.new) (kernel_write (C.state cells.old).cycle word value ∷ []) }
{
    words_are_merged_by_bytes();
    cells.write(Port::Kernel, word, value, u8::MAX);
}

/// Writes a table above the leaves, whose first entry is that of region `base` of `size` pages; the tables to which it leads
/// stand in successive frames from `next` on. Answers the frame behind them.
fn write_pointers<C: Cells>(
    cells: &mut C,
    frame: u32,
    pages: &PageList,
    size: u64,
    base: u64,
    next: u32,
) -> u32
    requires memory { IsMemory (C.state cells.old) }
    requires frame { frame < (C.state cells.old).frames }
    requires size { 0 < size }
    requires base { base ≤ 2 ^ 32 }
    requires next { next ≤ 65536 }
    ensures next { (from : ℕ) → next ≡ from + regions_below size base pages.now → result ≡ from + regions_below size (base + 512) pages.now }
    ensures makes { (from : ℕ) → next ≡ from + regions_below size base pages.now
        → Makes (C.state cells.old) (C.state cells.new) (kernel_writes (C.state cells.old).cycle (512 * frame) (λ i. pointer_for from size pages.now (base + i)) 512) }
{
    tables_are_built_in_turn();
    accesses_are_made_in_turn();
    let mut next = next;
    for i in 0..FRAME_WORDS {
        let is_mapped = has_region(pages, size, base + u64::from(i));
        write_word(
            cells,
            FRAME_WORDS * frame + i,
            pointer_or_none(is_mapped, next),
        );
        next += count_of(is_mapped);
    }
    next
}

/// How many tables a region has: one where it has a page.
fn count_of(is_mapped: bool) -> u32
    ensures value { result ≡ (if is_mapped then 1 else 0) }
    ensures few { result ≤ 1 }
{
    if is_mapped { 1 } else { 0 }
}

/// The entry that leads to the table in a frame, where there is one.
fn pointer_or_none(is_mapped: bool, frame: u32) -> u64
    ensures { result ≡ (if is_mapped then pointer frame else 0) }
{
    if is_mapped {
        1024 * u64::from(frame) + 1
    } else {
        0
    }
}

/// Writes the leaf table whose first entry is that of page `base`.
fn write_leaves<C: Cells>(
    cells: &mut C,
    frame: u32,
    pages: &PageList,
    first_page: Option<u32>,
    base: u64,
)
    requires memory { IsMemory (C.state cells.old) }
    requires frame { frame < (C.state cells.old).frames }
    requires base { base ≤ 2 ^ 32 }
    requires pages { IfSome first_page (λ f. f + length pages.now ≤ 16384) }
    ensures { Makes (C.state cells.old) (C.state cells.new) (kernel_writes (C.state cells.old).cycle (512 * frame) (λ i. leaf_entry (at_boot first_page pages.now) (base + i)) 512) }
{
    accesses_are_made_in_turn();
    for i in 0..FRAME_WORDS {
        let value = leaf_value(pages, first_page, base + u64::from(i));
        write_word(cells, FRAME_WORDS * frame + i, value);
    }
}

/// How far second-level tables are written: the tables' frames so far, and the frame of the next leaf table.
#[derive(Clone, Copy, PartialEq, Eq, Debug)]
struct Seconds {
    frame: u32,
    next: u32,
}

/// Writes the second-level table of a region of 1 GiB, where it has a page.
fn write_second<C: Cells>(
    cells: &mut C,
    first: u32,
    pages: &PageList,
    region: u64,
    begun: Seconds,
) -> Seconds
    requires memory { IsMemory (C.state cells.old) }
    requires room { first + table_count pages.now ≤ (C.state cells.old).frames }
    requires region { region < 256 }
    requires frame { begun.frame ≡ 1 + regions_below gib region pages.now }
    requires next { begun.next ≡ first + 1 + region_total gib pages.now + regions_below mib2 (512 * region) pages.now }
    ensures frame { result.frame ≡ 1 + regions_below gib (region + 1) pages.now }
    ensures next { result.next ≡ first + 1 + region_total gib pages.now + regions_below mib2 (512 * region + 512) pages.now }
    ensures frames { (C.state cells.new).frames ≡ (C.state cells.old).frames }
    ensures memory { IsMemory (C.state cells.new) }
    ensures makes { (before : CellsState) (residency : Residency) → pages_of residency ≡ pages.now
        → Makes before (C.state cells.old) (table_writes before.cycle residency first begun.frame)
        → Makes before (C.state cells.new) (table_writes before.cycle residency first result.frame) }
{
    tables_are_built_in_turn();
    accesses_are_made_in_turn();
    if !has_region(pages, GIB, region) {
        return begun;
    }
    let next = write_pointers(
        cells,
        first + begun.frame,
        pages,
        MIB2,
        512 * region,
        begun.next,
    );
    Seconds {
        frame: begun.frame + 1,
        next,
    }
}

/// Writes the leaf table of a region of 2 MiB, where it has a page. Answers how many frames the tables have so far.
fn write_leaf<C: Cells>(
    cells: &mut C,
    first: u32,
    pages: &PageList,
    first_page: Option<u32>,
    region: u64,
    frame: u32,
) -> u32
    requires memory { IsMemory (C.state cells.old) }
    requires room { first + table_count pages.now ≤ (C.state cells.old).frames }
    requires region { region < 2 ^ 20 }
    requires pages { IfSome first_page (λ f. f + length pages.now ≤ 16384) }
    requires frame { frame ≡ 1 + region_total gib pages.now + regions_below mib2 region pages.now }
    ensures frame { result ≡ 1 + region_total gib pages.now + regions_below mib2 (region + 1) pages.now }
    ensures frames { (C.state cells.new).frames ≡ (C.state cells.old).frames }
    ensures memory { IsMemory (C.state cells.new) }
    ensures makes { (before : CellsState)
        → Makes before (C.state cells.old) (table_writes before.cycle (at_boot first_page pages.now) first frame)
        → Makes before (C.state cells.new) (table_writes before.cycle (at_boot first_page pages.now) first result) }
{
    tables_are_built_in_turn();
    accesses_are_made_in_turn();
    if !has_region(pages, MIB2, region) {
        return frame;
    }
    write_leaves(cells, first + frame, pages, first_page, 512 * region);
    frame + 1
}

/// Writes the second-level tables behind the root. Answers how many frames the tables have so far.
fn write_seconds<C: Cells>(cells: &mut C, first: u32, pages: &PageList, next: u32) -> u32
    requires memory { IsMemory (C.state cells.old) }
    requires room { first + table_count pages.now ≤ (C.state cells.old).frames }
    requires listed { IsPageList pages.now }
    requires next { next ≡ first + 1 + region_total gib pages.now }
    ensures count { result ≡ 1 + region_total gib pages.now }
    ensures frames { (C.state cells.new).frames ≡ (C.state cells.old).frames }
    ensures memory { IsMemory (C.state cells.new) }
    ensures makes { (before : CellsState) (residency : Residency) → pages_of residency ≡ pages.now
        → Makes before (C.state cells.old) (table_writes before.cycle residency first 1)
        → Makes before (C.state cells.new) (table_writes before.cycle residency first result) }
{
    tables_are_built_in_turn();
    let mut begun = Seconds { frame: 1, next };
    for region in 0..GIB_REGIONS {
        begun = write_second(cells, first, pages, region, begun);
    }
    begun.frame
}

/// Writes the leaf tables of a region of 1 GiB. Answers how many frames the tables have so far.
fn write_leaf_region<C: Cells>(
    cells: &mut C,
    first: u32,
    pages: &PageList,
    first_page: Option<u32>,
    region: u64,
    frame: u32,
) -> u32
    requires memory { IsMemory (C.state cells.old) }
    requires room { first + table_count pages.now ≤ (C.state cells.old).frames }
    requires region { region < 256 }
    requires pages { IfSome first_page (λ f. f + length pages.now ≤ 16384) }
    requires frame { frame ≡ 1 + region_total gib pages.now + regions_below mib2 (512 * region) pages.now }
    ensures frame { result ≡ 1 + region_total gib pages.now + regions_below mib2 (512 * region + 512) pages.now }
    ensures frames { (C.state cells.new).frames ≡ (C.state cells.old).frames }
    ensures memory { IsMemory (C.state cells.new) }
    ensures makes { (before : CellsState)
        → Makes before (C.state cells.old) (table_writes before.cycle (at_boot first_page pages.now) first frame)
        → Makes before (C.state cells.new) (table_writes before.cycle (at_boot first_page pages.now) first result) }
{
    tables_are_built_in_turn();
    if !has_region(pages, GIB, region) {
        return frame;
    }
    let mut frame = frame;
    for i in 0..MIB2 {
        frame = write_leaf(cells, first, pages, first_page, MIB2 * region + i, frame);
    }
    frame
}

/// Writes the leaf tables behind the others. Answers how many frames the tables have.
fn write_leaf_tables<C: Cells>(
    cells: &mut C,
    first: u32,
    pages: &PageList,
    first_page: Option<u32>,
    frame: u32,
) -> u32
    requires memory { IsMemory (C.state cells.old) }
    requires room { first + table_count pages.now ≤ (C.state cells.old).frames }
    requires listed { IsPageList pages.now }
    requires pages { IfSome first_page (λ f. f + length pages.now ≤ 16384) }
    requires frame { frame ≡ 1 + region_total gib pages.now }
    ensures count { result ≡ table_count pages.now }
    ensures makes { (before : CellsState)
        → Makes before (C.state cells.old) (table_writes before.cycle (at_boot first_page pages.now) first frame)
        → Makes before (C.state cells.new) (table_writes before.cycle (at_boot first_page pages.now) first result) }
{
    tables_are_built_in_turn();
    let mut frame = frame;
    for region in 0..GIB_REGIONS {
        frame = write_leaf_region(cells, first, pages, first_page, region, frame);
    }
    frame
}

/// Writes the page tables of a process, whose pages are in no frame or in successive frames from one on.
fn build_tables<C: Cells>(
    cells: &mut C,
    first: u32,
    pages: &PageList,
    first_page: Option<u32>,
) -> u32
    requires room { first + table_count pages.now ≤ (C.state cells.old).frames }
    requires pages { IfSome first_page (λ f. f + length pages.now ≤ 16384) }
    ensures count { result ≡ table_count pages.now }
    ensures builds { Builds (C.state cells.old) (C.state cells.new) first (at_boot first_page pages.now) }
{
    tables_are_built_in_turn();
    accesses_are_made_in_turn();
    let _frames = cells.frames();
    let _pages = pages.len();
    let next = write_pointers(cells, first, pages, GIB, 0, first + 1);
    let frame = write_seconds(cells, first, pages, next);
    write_leaf_tables(cells, first, pages, first_page, frame)
}

/// Writes the page tables of a process in successive frames from `first` on, at the current cycle on port Kernel: the root,
/// the second-level tables, the leaf tables, each kind in rising address, and each frame's 512 words in rising order (RISC-V
/// Privileged 1.12, section 4.4). Every page is away. Answers how many frames the tables take; the cells have them.
pub fn build<C: Cells>(cells: &mut C, first: u32, pages: &PageList) -> u32
    requires { first + table_count pages.now ≤ (C.state cells.old).frames }
    ensures count { result ≡ table_count pages.now }
    ensures builds { Builds (C.state cells.old) (C.state cells.new) first (at_boot None pages.now) }
    ensures held { AreHeld (C.state cells.new) first (at_boot None pages.now) }
{
    tables_are_built_in_turn();
    build_tables(cells, first, pages, None)
}

/// The same with every page present, in successive frames from `frame` on, and A and D not set. The cells have these frames.
pub fn build_present<C: Cells>(cells: &mut C, first: u32, pages: &PageList, frame: u32) -> u32
    requires room { first + table_count pages.now ≤ (C.state cells.old).frames }
    requires pages { frame + length pages.now ≤ (C.state cells.old).frames }
    ensures count { result ≡ table_count pages.now }
    ensures builds { Builds (C.state cells.old) (C.state cells.new) first (at_boot (Some frame) pages.now) }
    ensures held { AreHeld (C.state cells.new) first (at_boot (Some frame) pages.now) }
{
    tables_are_built_in_turn();
    let _frames = cells.frames();
    build_tables(cells, first, pages, Some(frame))
}
