ghost use Rattle.std.specs.Prelude.{length, ◌≡◌, ◌%◌, None, IfOk, IsSome, IfSome, map, option_map};
ghost use Rattle.vx_base.specs.Pages.{IsPageList};
ghost use Rattle.vx_elf.specs.Segments.{IsSegmentList};
ghost use Rattle.vx_image.specs.Building.{entries_below};
ghost use Rattle.vx_image.specs.Images.{Makes, MakesRaw, raw_fault, raw_segment, raw_image, perm_of_page, entry_of_page, HoldBytes};
ghost use Rattle.vx_image.specs.Kept.{pages_of, IsKept};
ghost use Rattle.vx_image.specs.Mapping.{all_pages};
ghost use Rattle.vx_image.specs.Pages.{MappedPage, page_numbered};
ghost use Rattle.vx_image.specs.Tables.{table_frames};

use crate::build::{PAGE_LEN, PAGE_LIMIT, STACK_PAGES, page_bytes, page_entries, pages_fault};
use crate::fault::ImageFault;
use crate::frames::region_count;
use crate::search::place_of;
use byteorder::{ByteOrder, LittleEndian};
use std::alloc::{AllocError, Global};
use std::marker::Model;
use vx_base::{Bytes, Page, PageEntry, PageList, Perm};
use vx_elf::{Segment, Segments};

/// How many pages a region of 1 GiB has.
const GIB_PAGES: u64 = 1 << 18;

/// How many pages a region of 2 MiB has.
const MIB2_PAGES: u64 = 1 << 9;

/// Where a process begins, and its memory then, by page: the entries of the mapped pages in rising order, the stack's
/// 16 pages of zeros from 0x3fffff0000 on among them, and the bytes of all of them. The entry is a multiple of 4.
#[derive(Debug, Drop)]
pub struct Image {
    entry: u64,
    entries: Vec<PageEntry>,
    bytes: Vec<u8>,
}

impl Model for Image {
    ghost use Rattle.vx_image.specs.Pages.{Image as ProcessImage};
    ghost use Rattle.vx_image.specs.Kept.{pages_of, IsImage};

    ghost Value = { ProcessImage };

    ghost view = { λ i. record { entry = i.entry; pages = pages_of i.entries.items i.bytes.items } };

    ghost invariant = { λ i. IsImage i.entry i.entries.items i.bytes.items };
}

/// What an image holds, as it is kept: the entries of its pages in rising order, and the bytes of all pages one after
/// another, 4,096 of each.
#[derive(Clone, Copy, Debug)]
pub struct Contents<'a> {
    pub entries: &'a [PageEntry],
    pub bytes: &'a [u8],
}

impl Image {
    /// The address of the first instruction, a multiple of 4.
    pub fn entry(&self) -> u64
        ensures value { result ≡ self.now.entry }
        ensures aligned { result % 4 ≡ 0 }
    {
        self.entry
    }

    /// The permissions of the page of this number; `None` exactly where it isn't mapped.
    pub fn perm(&self, page: u64) -> Option<Perm>
        ensures { result ≡ option_map perm_of_page (page_numbered page self.now.pages) }
    {
        let place = place_of(&self.entries, page)?;
        Some(self.entries[place].perm)
    }

    /// Gives the bytes of the page of this number, which is mapped.
    pub fn load(&self, page: u64, into: &mut Page)
        requires { IsSome (page_numbered page self.now.pages) }
        ensures { IfSome (page_numbered page self.now.pages) (λ (page : MappedPage). HoldBytes into.new.words page.bytes) }
    {
        let Some(place) = place_of(&self.entries, page) else {
            unreachable!()
        };
        let start = PAGE_LEN * place;
        read_page(&self.bytes[start..start + PAGE_LEN], into);
    }

    /// How many frames of 4,096 bytes its page tables take (RISC-V Privileged 1.12, section 4.4): the root, and a table
    /// for each region of 1 GiB and of 2 MiB that has a page.
    pub fn table_frames(&self) -> u32
        ensures { result ≡ table_frames self.now.pages }
    {
        1 + region_count(&self.entries, GIB_PAGES) + region_count(&self.entries, MIB2_PAGES)
    }

    /// The mapped pages, with their permissions.
    pub fn pages(&self, alloc: Global) -> Result<PageList, AllocError>
        ensures { IfOk result (λ list. list ≡ map entry_of_page self.now.pages) }
    {
        Ok(PageList::of(Vec::from_slice(alloc, &self.entries)?))
    }

    /// All that it holds, for one who copies it.
    pub fn contents(&self) -> Contents<'_>
        ensures pages { self.now.pages ≡ pages_of result.entries.now result.bytes.now }
        ensures kept { IsKept result.entries.now result.bytes.now }
    {
        Contents {
            entries: &self.entries,
            bytes: &self.bytes,
        }
    }
}

/// Gives a page these bytes.
fn read_page(bytes: &[u8], into: &mut Page)
    requires { length bytes.now ≡ 4096 }
    ensures { HoldBytes into.new.words bytes.now }
{
    LittleEndian::read_u64_into(bytes, &mut into.words);
}

/// The address at which raw bytes stand.
const RAW_START: u64 = 0x10000;

/// The permissions of raw bytes: R and X.
const RAW_PERM: Perm = Perm { bits: 5 };

/// The image of a program's segments. A page has the permissions of all segments that meet it; the bytes of its memory
/// that no segment holds are zero.
///
/// The faults, of which the first in this order is answered: `WriteExec` with the lowest page that has both W and X;
/// `TooManyPages` with the number of pages, the stack's included, where they are more than 4,096; `EntryNotCode` where
/// the entry is no multiple of 4 or its page can't be executed.
pub fn image_of(alloc: Global, segments: &Segments) -> Result<Image, ImageFault>
    ensures { Makes segments.now result }
{
    let list = segments.list.slice();
    let entries = page_entries(alloc, list)?;
    if let Some(fault) = pages_fault(segments.entry, &entries) {
        return Err(fault);
    }
    Ok(assembled(alloc, segments.entry, list, entries)?)
}

/// The image of raw bytes: they stand from address 0x10000 on, where it begins, on pages that may be read and executed;
/// the rest of the last page is zero.
///
/// The faults, of which the first in this order is answered: `RawLength` where their number is 0 or no multiple of 4;
/// `TooManyPages` with the number of pages, the stack's included, where they are more than 4,096.
pub fn raw_image(alloc: Global, bytes: &[u8]) -> Result<Image, ImageFault>
    ensures { MakesRaw bytes.now result }
{
    if let Some(fault) = raw_fault(bytes) {
        return Err(fault);
    }
    Ok(raw_assembled(alloc, bytes)?)
}

/// The first fault of raw bytes.
#[tactic(auto, unfolding(crate::specs::Images::raw_fault))]
fn raw_fault(bytes: &[u8]) -> Option<ImageFault>
    ensures { result ≡ raw_fault bytes.now }
{
    if bytes.len() == 0 || bytes.len() % 4 != 0 {
        return Some(ImageFault::RawLength(bytes.len() as u64));
    }
    let count = bytes.len().div_ceil(PAGE_LEN) as u64 + STACK_PAGES;
    if count > PAGE_LIMIT {
        return Some(ImageFault::TooManyPages(count));
    }
    None
}

/// The image of raw bytes that have no fault.
fn raw_assembled(alloc: Global, bytes: &[u8]) -> Result<Image, AllocError>
    requires { raw_fault bytes.now ≡ None }
    ensures { IfOk result (λ image. image ≡ raw_image bytes.now) }
{
    let mut segments = Vec::new(alloc);
    segments.push(raw_segment(alloc, bytes)?)?;
    let entries = page_entries(alloc, segments.as_slice())?;
    assembled(alloc, RAW_START, segments.as_slice(), entries)
}

/// The one segment of raw bytes.
#[tactic(auto, unfolding(crate::specs::Images::raw_segment))]
fn raw_segment(alloc: Global, bytes: &[u8]) -> Result<Segment, AllocError>
    ensures { IfOk result (λ segment. segment ≡ raw_segment bytes.now) }
{
    Ok(Segment {
        index: 0,
        address: RAW_START,
        bytes: Bytes::of(Vec::from_slice(alloc, bytes)?),
        size: bytes.len() as u64,
        perm: RAW_PERM,
    })
}

/// The image that begins at an entry, of segments and the entries of their pages.
fn assembled(
    alloc: Global,
    entry: u64,
    segments: &[Segment],
    entries: Vec<PageEntry>,
) -> Result<Image, AllocError>
    requires segments { IsSegmentList segments.now }
    requires entries { entries.items ≡ entries_below segments.now 0x4000000 }
    requires listed { IsPageList entries.items }
    requires aligned { entry % 4 ≡ 0 }
    ensures { IfOk result (λ image. image ≡ record { entry = entry; pages = all_pages segments.now }) }
{
    let bytes = page_bytes(alloc, segments, &entries)?;
    Ok(Image {
        entry,
        entries,
        bytes,
    })
}
