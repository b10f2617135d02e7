ghost use Rattle.std.specs.Prelude.{◌≡◌, ◌+◌, ◌*◌, ◌<◌, ◌≤◌, ◌%◌, ◌++◌, ℕ, length, find, option_copied, None, IfOk};
ghost use Rattle.vx_elf.specs.Layout.{header_at, header_place, header_count};
ghost use Rattle.vx_elf.specs.Segments.{ranges_meet, segments_room, total_size, IsSegmentList};
ghost use Rattle.vx_elf.specs.Taken.{IsHeld};
ghost use Rattle.vx_elf.specs.Reading.{Reads, ReadsHeaders, ReadsHeader, kind_fault, table_fault, header_fault, segment_fault, headers_fault, is_segment, with_read, segment_of, segments_of, segments_under, is_bad_range, meets};

use crate::fault::ElfFault;
use crate::header::{
    ProgramHeader, entry_point, file_flags, file_type, header_count, header_from, header_size,
    machine, table_place,
};
use crate::segment::Segment;
use crate::segments::{SegmentList, Segments};
use crate::taken::{Taken, is_free, nothing, taken_up};
use bitflags::Flags;
use std::alloc::{AllocError, Global};
use vx_base::{Bytes, Perm};

/// The first bytes of a little-endian ELF64 file of version 1.
const MAGIC: [u8; 7] = [0x7f, 0x45, 0x4c, 0x46, 2, 1, 1];

/// How many bytes the file header has.
const FILE_HEADER: u64 = 64;

/// How many bytes a program header has.
const PROGRAM_HEADER: u64 = 56;

/// `EM_RISCV`.
const RISCV: u16 = 243;

/// `ET_EXEC`.
const EXECUTABLE: u16 = 2;

/// `PT_LOAD`.
const LOAD: u32 = 1;

/// `PT_INTERP`.
const INTERPRETER: u32 = 3;

/// Behind the last address that a segment may take, where the stack begins.
const SEGMENTS_END: u128 = 0x3f_ffff_0000;

/// How many bytes of memory segments may take together.
const SEGMENTS_ROOM: u128 = 16_777_216;

/// Reads an ELF file. A segment's bytes beyond those of the file are zero, and one that may be written may be read.
/// Headers that are no `PT_LOAD`, take no memory or give no permission are passed over.
///
/// The faults, of which the first in this order is answered: `Short` for a file without a whole file header; `NotElf`,
/// `NotRiscv`, `NotExec` and `Compressed` for another kind of file; `BadTable` at 54 where program headers haven't 56
/// bytes, and at 56 where there are 65,535; `Short` for a table past the end. Then those of each program header in turn:
/// `Interp`; `BadRange` where the file holds more bytes than the memory, the memory passes address 0x3fffff0000, or that
/// of all segments so far passes 16 MiB; `Short` where its bytes pass the end; `Overlap` with an earlier segment.
pub fn read_elf(alloc: Global, bytes: &[u8]) -> Result<Segments, ElfFault>
    ensures { Reads bytes.now result }
{
    if let Some(fault) = kind_fault(bytes) {
        return Err(fault);
    }
    if let Some(fault) = table_fault(bytes) {
        return Err(fault);
    }
    let list = read_headers(alloc, bytes)?;
    Ok(Segments {
        entry: entry_point(bytes),
        list,
    })
}

/// The first fault of the file header: its length, its first bytes, and what kind of program it is.
#[tactic(auto, unfolding(crate::specs::Reading::kind_fault))]
fn kind_fault(bytes: &[u8]) -> Option<ElfFault>
    ensures fault { result ≡ kind_fault bytes.now }
    ensures long { result ≡ None → 64 ≤ length bytes.now }
{
    let have = bytes.len() as u64;
    if have < FILE_HEADER {
        return Some(ElfFault::Short(u128::from(FILE_HEADER), have));
    }
    if !bytes.starts_with(&MAGIC) {
        return Some(ElfFault::NotElf);
    }
    if machine(bytes) != RISCV {
        return Some(ElfFault::NotRiscv(machine(bytes)));
    }
    if file_type(bytes) != EXECUTABLE {
        return Some(ElfFault::NotExec(file_type(bytes)));
    }
    if file_flags(bytes) % 2 == 1 {
        return Some(ElfFault::Compressed);
    }
    None
}

/// The first fault of the table of program headers as a whole.
#[tactic(auto, unfolding(crate::specs::Reading::table_fault))]
fn table_fault(bytes: &[u8]) -> Option<ElfFault>
    requires { 64 ≤ length bytes.now }
    ensures fault { result ≡ table_fault bytes.now }
    ensures whole { result ≡ None → header_place bytes.now (header_count bytes.now) ≤ length bytes.now }
{
    if u64::from(header_size(bytes)) != PROGRAM_HEADER {
        return Some(ElfFault::BadTable(54));
    }
    if header_count(bytes) == u16::MAX {
        return Some(ElfFault::BadTable(56));
    }
    let have = bytes.len() as u64;
    let need = u128::from(table_place(bytes))
        + u128::from(PROGRAM_HEADER) * u128::from(header_count(bytes));
    if u128::from(have) < need {
        return Some(ElfFault::Short(need, have));
    }
    None
}

/// The segments of all program headers, or their first fault.
fn read_headers(alloc: Global, bytes: &[u8]) -> Result<SegmentList, ElfFault>
    requires long { 64 ≤ length bytes.now }
    requires whole { header_place bytes.now (header_count bytes.now) ≤ length bytes.now }
    ensures { ReadsHeaders bytes.now (header_count bytes.now) result }
{
    let mut items = Vec::new(alloc);
    let mut taken = nothing(alloc);
    let mut total = 0;
    for index in 0..u32::from(header_count(bytes)) {
        total = read_header(alloc, bytes, index, total, &taken, &mut items)?;
        taken = taken_up(alloc, taken, &items)?;
    }
    Ok(SegmentList::of(items))
}

/// Adds the segment of a program header, where it is one, to those of the headers before it, which take `total` bytes of
/// memory. Answers how many they take then.
#[tactic(auto, unfolding(crate::specs::Reading::segments_under))]
fn read_header(
    alloc: Global,
    bytes: &[u8],
    index: u32,
    total: u64,
    taken: &Taken,
    items: &mut Vec<Segment>,
) -> Result<u64, ElfFault>
    requires long { 64 ≤ length bytes.now }
    requires place { header_place bytes.now index + 56 ≤ length bytes.now }
    requires sum { total ≡ total_size items.old.items }
    requires held { IsHeld taken.now.spans.items taken.now.count items.old.items }
    ensures { ReadsHeader bytes.now index items.old.items items.new.items result }
{
    let place = table_place(bytes) + PROGRAM_HEADER * u64::from(index);
    let header = header_from(bytes, place as usize);
    if let Some(fault) = header_fault(bytes, items, index, &header, total, taken) {
        return Err(fault);
    }
    if !is_segment(&header) {
        return Ok(total);
    }
    items.push(segment_of(alloc, bytes, index, &header)?)?;
    Ok(total + header.memory_size)
}

/// Whether a program header is a segment: `PT_LOAD`, with memory and with a permission.
fn is_segment(header: &ProgramHeader) -> bool
    ensures { result ≡ is_segment header.now }
{
    header.kind == LOAD && header.memory_size != 0 && header.flags % 8 != 0
}

/// The first fault of a program header, where these are the segments before it, which take `total` bytes of memory.
#[tactic(auto, unfolding(crate::specs::Reading::header_fault))]
fn header_fault(
    bytes: &[u8],
    before: &[Segment],
    index: u32,
    header: &ProgramHeader,
    total: u64,
    taken: &Taken,
) -> Option<ElfFault>
    requires sum { total ≡ total_size before.now }
    requires held { IsHeld taken.now.spans.items taken.now.count before.now }
    ensures { result ≡ header_fault bytes.now before.now index header.now }
{
    if header.kind == INTERPRETER {
        return Some(ElfFault::Interp(index));
    }
    if is_segment(header) {
        return segment_fault(bytes, before, index, header, total, taken);
    }
    None
}

/// The first fault of a segment's header, where these are the segments before it, which take `total` bytes of memory.
#[tactic(auto, unfolding(crate::specs::Reading::segment_fault))]
fn segment_fault(
    bytes: &[u8],
    before: &[Segment],
    index: u32,
    header: &ProgramHeader,
    total: u64,
    taken: &Taken,
) -> Option<ElfFault>
    requires sum { total ≡ total_size before.now }
    requires held { IsHeld taken.now.spans.items taken.now.count before.now }
    ensures { result ≡ segment_fault bytes.now before.now index header.now }
{
    if is_bad_range(total, header) {
        return Some(ElfFault::BadRange(index));
    }
    let have = bytes.len() as u64;
    let need = u128::from(header.offset) + u128::from(header.file_size);
    if u128::from(have) < need {
        return Some(ElfFault::Short(need, have));
    }
    let segment = first_met(before, header, taken)?;
    Some(ElfFault::Overlap(segment.index, index))
}

/// Whether a segment's memory holds fewer bytes than the file, ends too high, or is too much beside `total` bytes.
fn is_bad_range(total: u64, header: &ProgramHeader) -> bool
    ensures { result ≡ is_bad_range total header.now }
{
    let size = u128::from(header.memory_size);
    header.memory_size < header.file_size
        || u128::from(header.address) + size > SEGMENTS_END
        || u128::from(total) + size > SEGMENTS_ROOM
}

/// The first segment that the memory of a header meets. Those that are taken are passed over where it meets none of them.
fn first_met<'a>(
    segments: &'a [Segment],
    header: &ProgramHeader,
    taken: &Taken,
) -> Option<&'a Segment>
    requires { IsHeld taken.now.spans.items taken.now.count segments.now }
    ensures { option_copied result ≡ find (meets header.now) segments.now }
{
    if is_free(&taken.spans, header) {
        first_met_of(&segments[taken.count..], header)
    } else {
        first_met_of(segments, header)
    }
}

/// The first segment that the memory of a header meets.
fn first_met_of<'a>(segments: &'a [Segment], header: &ProgramHeader) -> Option<&'a Segment>
    ensures { option_copied result ≡ find (meets header.now) segments.now }
{
    for segment in segments {
        if meets(header, segment) {
            return Some(segment);
        }
    }
    None
}

/// Whether the memory of a header meets that of a segment.
fn meets(header: &ProgramHeader, segment: &Segment) -> bool
    ensures { result ≡ meets header.now segment.now }
{
    let end = u128::from(segment.address) + u128::from(segment.size);
    let header_end = u128::from(header.address) + u128::from(header.memory_size);
    u128::from(segment.address) < header_end && u128::from(header.address) < end
}

/// The permissions of a header's flags. What may be written may be read.
fn perm_of(flags: u32) -> Perm
    ensures { result.bits ≡ with_read (flags % 8) }
{
    let perm = Perm {
        bits: (flags % 8) as u8,
    };
    if perm.contains(Perm::W) {
        perm.union(Perm::R)
    } else {
        perm
    }
}

/// The segment of a header whose bytes the file holds.
#[tactic(auto, unfolding(crate::specs::Reading::segment_of))]
fn segment_of(
    alloc: Global,
    bytes: &[u8],
    index: u32,
    header: &ProgramHeader,
) -> Result<Segment, AllocError>
    requires { header.now.offset + header.now.file_size ≤ length bytes.now }
    ensures { IfOk result (λ segment. segment ≡ segment_of bytes.now index header.now) }
{
    let start = header.offset as usize;
    let end = start + header.file_size as usize;
    Ok(Segment {
        index,
        address: header.address,
        bytes: Bytes::of(Vec::from_slice(alloc, &bytes[start..end])?),
        size: header.memory_size,
        perm: perm_of(header.flags),
    })
}
