ghost use Rattle.std.specs.Prelude.{◌≡◌, ℕ, ◌||◌, IfOk, OnOk};
ghost use Rattle.vx_elf.specs.Segments.{IsSegment, IsSegmentList};
ghost use Rattle.vx_image.specs.Building.{is_among, AreMet, IsSpan, ArePlaces};
ghost use Rattle.vx_image.specs.Kept.{IsRising};
ghost use Rattle.vx_image.specs.Mapping.{meets_page};

use crate::build::PAGE_BYTES;
use crate::search::place_from;
use std::alloc::{AllocError, Global};
use std::ops::Range;
use vx_base::PageEntry;
use vx_elf::Segment;

/// The numbers of the pages that a segment's memory meets.
fn span_of(segment: &Segment) -> Range<u64>
    requires { IsSegment segment.now }
    ensures { IsSpan segment.now result.start result.end }
{
    let first = segment.address / PAGE_BYTES;
    let last = (segment.address + segment.size - 1) / PAGE_BYTES;
    first..last + 1
}

/// Adds the pages that a segment's memory meets.
fn push_span(pages: &mut Vec<u64>, segment: &Segment) -> Result<(), AllocError>
    requires { IsSegment segment.now }
    ensures { OnOk result ((number : ℕ) → is_among pages.new.items number ≡ (is_among pages.old.items number || meets_page number segment.now)) }
{
    let span = span_of(segment);
    for page in span.start..span.end {
        pages.push(page)?;
    }
    Ok(())
}

/// The pages that the segments meet, in rising order; a page that several meet stands there several times.
pub fn met_pages(alloc: Global, segments: &[Segment]) -> Result<Vec<u64>, AllocError>
    requires { IsSegmentList segments.now }
    ensures { IfOk result (λ pages. AreMet pages.items segments.now) }
{
    let mut pages = Vec::new(alloc);
    for segment in segments {
        push_span(&mut pages, segment)?;
    }
    pages.sort_unstable();
    Ok(pages)
}

/// The places of the entries whose pages a segment's memory meets.
pub fn places_met(entries: &[PageEntry], segment: &Segment) -> Range<usize>
    requires segment { IsSegment segment.now }
    requires rising { IsRising entries.now }
    ensures { ArePlaces entries.now segment.now result.start result.end }
{
    let span = span_of(segment);
    let low = place_from(entries, span.start);
    let high = place_from(entries, span.end);
    low..high
}
