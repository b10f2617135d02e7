use crate::walked::Walked;

/// An entry of a page table: the word of physical memory in which it stands, and its value.
#[derive(Clone, Copy, PartialEq, Eq, Debug)]
pub struct TableEntry {
    pub word: u32,
    pub value: u64,
}

/// What comes next in a walk of the page tables.
#[derive(Clone, Copy, PartialEq, Eq, Debug)]
pub enum Stage {
    /// A read at this level, 2 for the root, 1 and 0 for the leaves, in the table in this frame.
    Reads(u32, u32),
    /// The end, with this answer, and the leaf entry that it writes.
    Ends(Walked, Option<TableEntry>),
    /// Nothing.
    Over,
}
