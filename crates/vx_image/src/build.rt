ghost use Rattle.std.specs.Prelude.{List, [], map, option_map, find, ◌≡◌, ℕ, ◌*◌, ◌^◌, ◌<◌, ◌++◌, length, IfOk, OnOk, All};
ghost use Rattle.std.specs.List.Sorted.{IsNonDecreasingBy};
ghost use Rattle.vx_base.specs.Pages.{IsPageList};
ghost use Rattle.vx_elf.specs.Segments.{IsSegment, IsSegmentList};
ghost use Rattle.vx_base.specs.declared.perm.PageEntry.{PageEntry};
ghost use Rattle.vx_image.specs.Images.{is_write_exec, is_code, pages_fault};
ghost use Rattle.vx_image.specs.Kept.{IsRising, pages_of};
ghost use Rattle.vx_image.specs.Mapping.{stack_page};
ghost use Rattle.vx_image.specs.Building.{is_among, is_met, numbers_below, granted, entry_of_segments, IsLaid, IsLaidOn, entries_below, stack_entries, bytes_of_entries};

use crate::fault::ImageFault;
use crate::met::{met_pages, places_met};
use crate::search::place_of;
use bitflags::Flags;
use std::alloc::{AllocError, Global};
use vx_base::{PageEntry, Perm, Want};
use vx_elf::Segment;

/// How many bytes a page has.
pub const PAGE_LEN: usize = 4096;

/// The same, as a step of addresses.
pub const PAGE_BYTES: u64 = PAGE_LEN as u64;

/// The first page of the stack.
const STACK_PAGE: u64 = 0x3ff_fff0;

/// How many pages the stack has.
pub const STACK_PAGES: u64 = 16;

/// The permissions of the stack's pages: R and W.
const STACK_PERM: Perm = Perm { bits: 6 };

/// How many pages an image may have.
pub const PAGE_LIMIT: u64 = 4096;

/// An entry for each page of a list, without permissions.
fn blank_entries(alloc: Global, pages: &[u64]) -> Result<Vec<PageEntry>, AllocError>
    requires rising { IsNonDecreasingBy (λ (n : ℕ). n) pages.now }
    requires low { All (λ (n : ℕ). n < stack_page) pages.now }
    ensures { IfOk result (λ entries. entries.items ≡ map (entry_of_segments []) (numbers_below (is_among pages.now) stack_page)) }
{
    let mut entries = Vec::new(alloc);
    let mut from = 0;
    for page in pages {
        let page = *page;
        if from <= page {
            let perm = Perm { bits: 0 };
            entries.push(PageEntry { page, perm })?;
            from = page + 1;
        }
    }
    Ok(entries)
}

/// Gives the pages that a segment's memory meets its permissions.
fn grant(entries: &mut [PageEntry], segment: &Segment)
    requires segment { IsSegment segment.now }
    requires rising { IsRising entries.old }
    ensures { entries.new ≡ map (granted segment.now) entries.old }
{
    let places = places_met(entries, segment);
    for place in places.start..places.end {
        let perm = entries[place].perm.union(segment.perm);
        entries[place].perm = perm;
    }
}

/// The pages that the segments meet, each with the permissions of all segments that meet it, in rising order.
fn segment_entries(alloc: Global, segments: &[Segment]) -> Result<Vec<PageEntry>, AllocError>
    requires { IsSegmentList segments.now }
    ensures { IfOk result (λ entries. entries.items ≡ map (entry_of_segments segments.now) (numbers_below (is_met segments.now) stack_page)) }
{
    let pages = met_pages(alloc, segments)?;
    let mut entries = blank_entries(alloc, &pages)?;
    for segment in segments {
        grant(entries.as_mut_slice(), segment);
    }
    Ok(entries)
}

/// The pages that the segments meet, and those of the stack, in rising order.
pub fn page_entries(alloc: Global, segments: &[Segment]) -> Result<Vec<PageEntry>, AllocError>
    requires { IsSegmentList segments.now }
    ensures { IfOk result (λ entries. entries.items ≡ entries_below segments.now 0x4000000) }
{
    let mut entries = segment_entries(alloc, segments)?;
    push_stack(&mut entries)?;
    Ok(entries)
}

/// Adds the stack's pages.
fn push_stack(entries: &mut Vec<PageEntry>) -> Result<(), AllocError>
    ensures { OnOk result (entries.new.items ≡ entries.old.items ++ stack_entries 16) }
{
    for i in 0..STACK_PAGES {
        entries.push(PageEntry {
            page: STACK_PAGE + i,
            perm: STACK_PERM,
        })?;
    }
    Ok(())
}

/// The bytes of the pages, one after another.
pub fn page_bytes(
    alloc: Global,
    segments: &[Segment],
    entries: &[PageEntry],
) -> Result<Vec<u8>, AllocError>
    requires segments { IsSegmentList segments.now }
    requires entries { IsPageList entries.now }
    ensures { IfOk result (λ bytes. bytes.items ≡ bytes_of_entries segments.now entries.now) }
{
    let mut bytes = Vec::new(alloc);
    bytes.resize(PAGE_LEN * entries.len(), 0)?;
    for segment in segments {
        lay_pages(bytes.as_mut_slice(), entries, segment);
    }
    Ok(bytes)
}

/// Lays the bytes that a segment holds onto those of pages.
fn lay_pages(bytes: &mut [u8], entries: &[PageEntry], segment: &Segment)
    requires segment { IsSegment segment.now }
    requires entries { IsPageList entries.now }
    requires whole { length bytes.old ≡ 4096 * length entries.now }
    ensures { IsLaidOn entries.now bytes.old bytes.new segment.now }
{
    let places = places_met(entries, segment);
    for place in places.start..places.end {
        let start = PAGE_LEN * place;
        let address = PAGE_BYTES * entries[place].page;
        lay(&mut bytes[start..start + PAGE_LEN], segment, address);
    }
}

/// Lays the bytes that a segment holds onto bytes that begin at an address, as far as they reach.
fn lay(page: &mut [u8], segment: &Segment, address: u64)
    requires segment { IsSegment segment.now }
    requires address { address < 2 ^ 63 }
    requires page { length page.old < 2 ^ 62 }
    ensures { IsLaid page.old page.new segment.now address }
{
    let segment_end = segment.address + segment.bytes.len() as u64;
    let start = address.max(segment.address);
    let end = segment_end.min(address + page.len() as u64);
    if start < end {
        let from = (start - address) as usize;
        let count = (end - start) as usize;
        let first = (start - segment.address) as usize;
        page[from..from + count].copy_from_slice(&segment.bytes.slice()[first..first + count]);
    }
}

/// The lowest page that may be both written and executed.
fn write_exec_page(entries: &[PageEntry]) -> Option<u64>
    ensures { result ≡ option_map (λ (entry : PageEntry). entry.page) (find (λ (entry : PageEntry). is_write_exec entry.perm.bits) entries.now) }
{
    let both = Perm::W.union(Perm::X);
    for entry in entries {
        if entry.perm.contains(both) {
            return Some(entry.page);
        }
    }
    None
}

/// Whether the page of an address is mapped and may be executed.
fn is_code(entries: &[PageEntry], address: u64) -> bool
    requires { IsRising entries.now }
    ensures { (bytes : List ℕ) → result ≡ is_code address (pages_of entries.now bytes) }
{
    match place_of(entries, address / PAGE_BYTES) {
        Some(place) => entries[place].perm.grants(Want::Fetch),
        None => false,
    }
}

/// The first fault of an entry point and of the pages of a program.
pub fn pages_fault(entry: u64, entries: &[PageEntry]) -> Option<ImageFault>
    requires { IsRising entries.now }
    ensures { (bytes : List ℕ) → result ≡ pages_fault entry (pages_of entries.now bytes) }
{
    if let Some(page) = write_exec_page(entries) {
        return Some(ImageFault::WriteExec(page));
    }
    let count = entries.len() as u64;
    if count > PAGE_LIMIT {
        return Some(ImageFault::TooManyPages(count));
    }
    if entry % 4 == 0 && is_code(entries, entry) {
        return None;
    }
    Some(ImageFault::EntryNotCode(entry))
}
