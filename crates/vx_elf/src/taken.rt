ghost use Rattle.std.specs.Prelude.{◌≡◌, [], map, IsTrue, IsFalse, IfOk, All};
ghost use Rattle.vx_elf.specs.Taken.{span_of, meets_span, AreApart, IsHeld};

use crate::header::ProgramHeader;
use crate::segment::Segment;
use std::alloc::{AllocError, Global};

/// How many segments may stand beside those that are taken up.
const FEW: usize = 1024;

/// The addresses from `start` to below `end`.
#[derive(Clone, Copy, PartialEq, Eq, Debug)]
pub struct Span {
    pub start: u64,
    pub end: u128,
}

/// The memory of the first `count` of a list of segments, in rising order.
#[derive(Debug, Drop)]
pub struct Taken {
    pub spans: Vec<Span>,
    pub count: usize,
}

/// The addresses of a segment.
fn span_of(segment: &Segment) -> Span
    ensures { result ≡ span_of segment.now }
{
    Span {
        start: segment.address,
        end: u128::from(segment.address) + u128::from(segment.size),
    }
}

/// The addresses of each segment.
fn spans_of(alloc: Global, segments: &[Segment]) -> Result<Vec<Span>, AllocError>
    ensures { IfOk result (λ spans. spans.items ≡ map span_of segments.now) }
{
    segments.iter().map(span_of).collect(alloc)
}

/// Whether the spans rise, each from the end of the one before it or above that.
fn are_apart(spans: &[Span]) -> bool
    ensures { IsTrue result → AreApart spans.now }
{
    let mut last = 0;
    for span in spans {
        let start = u128::from(span.start);
        if start < last || span.end < start {
            return false;
        }
        last = span.end;
    }
    true
}

/// Whether the memory of a header meets none of the spans.
pub fn is_free(spans: &[Span], header: &ProgramHeader) -> bool
    requires { AreApart spans.now }
    ensures { IsTrue result → All (λ span. IsFalse (meets_span header.now span)) spans.now }
{
    let start = u128::from(header.address);
    let end = start + u128::from(header.memory_size);
    let mut low = 0;
    let mut high = spans.len();
    while low < high {
        let middle = low + (high - low) / 2;
        let span = spans[middle];
        if span.end <= start {
            low = middle + 1;
        } else if end <= u128::from(span.start) {
            high = middle;
        } else {
            return false;
        }
    }
    true
}

/// The memory of all the segments, or of none where two of them meet.
fn taken_by(alloc: Global, segments: &[Segment]) -> Result<Taken, AllocError>
    ensures { IfOk result (λ taken. IsHeld taken.spans.items taken.count segments.now) }
{
    let mut spans = spans_of(alloc, segments)?;
    spans.sort_unstable_by_key(|span| span.start);
    if are_apart(&spans) {
        let count = segments.len();
        Ok(Taken { spans, count })
    } else {
        Ok(nothing(alloc))
    }
}

/// No memory.
pub fn nothing(alloc: Global) -> Taken
    ensures spans { result.spans.items ≡ [] }
    ensures count { result.count ≡ 0 }
{
    Taken {
        spans: Vec::new(alloc),
        count: 0,
    }
}

/// The memory of more of the segments, where many have come since.
pub fn taken_up(alloc: Global, taken: Taken, segments: &[Segment]) -> Result<Taken, AllocError>
    requires { IsHeld taken.spans.items taken.count segments.now }
    ensures { IfOk result (λ new. IsHeld new.spans.items new.count segments.now) }
{
    if segments.len() - taken.count < FEW {
        return Ok(taken);
    }
    taken_by(alloc, segments)
}
