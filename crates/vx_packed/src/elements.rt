/// How elements stand in words: as many of each width, from the lowest bits on.
#[derive(Clone, Copy, Debug, PartialEq, Eq)]
pub struct Packing {
    /// How many elements.
    pub count: u32,
    /// The width in bits of the new elements and the old ones.
    pub width: u32,
    /// The width in bits of the elements of `a`.
    pub a: u32,
    /// The width in bits of the elements of `b`.
    pub b: u32,
}

/// The words of which a word is made.
#[derive(Clone, Copy, Debug, PartialEq, Eq)]
pub struct Sources {
    /// The elements of the place of `vs2`.
    pub a: u64,
    /// The elements of the place of `vs1`.
    pub b: u64,
    /// The old elements.
    pub d: u64,
    /// A bit for each element: those of the mask in `v0`.
    pub m: u64,
}

/// The numbers at one place of the sources.
#[derive(Clone, Copy, Debug, PartialEq, Eq)]
pub struct Lane {
    /// The element of `vs2`.
    pub a: u64,
    /// The element of `vs1`.
    pub b: u64,
    /// The old element.
    pub d: u64,
    /// The bit of `v0`.
    pub m: bool,
}

/// A word that was made.
#[derive(Clone, Copy, Debug, PartialEq, Eq)]
pub struct Made {
    /// The new elements.
    pub value: u64,
    /// A bit for each element: whether it saturated.
    pub sats: u64,
}
