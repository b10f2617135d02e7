ghost use Rattle.std.specs.Prelude.{◌≡◌, ◌↔◌, [], length, slice_get, option_copied, IsTrue};
ghost use Rattle.vx_elf.specs.Segments.{IsSegmentList};

use crate::segment::Segment;
use std::marker::Model;

/// Segments in the order of their program headers, whose numbers rise. Each takes memory, at most up to address
/// 0x3fffff0000 and no fewer bytes than it holds, and has one or more of R, W and X, R wherever W is. Together they take
/// at most 16 MiB, and no two meet.
#[derive(Debug, Drop)]
pub struct SegmentList {
    items: Vec<Segment>,
}

impl Model for SegmentList {
    ghost use Rattle.std.specs.Prelude.{List};
    ghost use Rattle.vx_elf.specs.declared.segment.Segment.{Segment};
    ghost use Rattle.vx_elf.specs.Segments.{IsSegmentList};

    ghost Value = { List Segment };

    ghost view = { λ s. s.items.items };

    ghost invariant = { λ s. IsSegmentList s.items.items };
}

impl SegmentList {
    /// The list of a vector of segments. Takes no memory.
    pub fn of(items: Vec<Segment>) -> Self
        requires { IsSegmentList items.items }
        ensures { result ≡ items.items }
    {
        SegmentList { items }
    }

    /// How many segments there are.
    pub fn len(&self) -> usize
        ensures count { result ≡ length self.now }
        ensures kept { IsSegmentList self.now }
    {
        self.items.len()
    }

    /// Whether there are none.
    pub fn is_empty(&self) -> bool
        ensures { IsTrue result ↔ (self.now ≡ []) }
    {
        self.items.is_empty()
    }

    /// Segment `n` of the list, from 0; `None` exactly where `n` isn't below the length.
    pub fn get(&self, n: usize) -> Option<&Segment>
        ensures item { option_copied result ≡ slice_get self.now n }
        ensures kept { IsSegmentList self.now }
    {
        self.items.get(n)
    }

    /// All the segments.
    pub fn slice(&self) -> &[Segment]
        ensures items { result.now ≡ self.now }
        ensures kept { IsSegmentList self.now }
    {
        self.items.as_slice()
    }

    /// The vector of the segments. Takes no memory.
    pub fn into_vec(self) -> Vec<Segment>
        ensures segments { result.items ≡ self }
        ensures kept { IsSegmentList result.items }
    {
        let SegmentList { items } = self;
        items
    }
}

/// What an ELF file says of a program: where it begins, and its memory.
#[derive(Debug, Drop)]
pub struct Segments {
    /// The address of the first instruction.
    pub entry: u64,
    pub list: SegmentList,
}
