/// The lowest access of a batch that fails.
#[derive(Clone, Copy, PartialEq, Eq, Debug)]
pub struct Failing {
    /// Its number within the batch, from 0.
    pub number: usize,
    /// Whether its page is away.
    pub is_away: bool,
}

/// What the accesses of a batch come to.
#[derive(Clone, Copy, PartialEq, Eq, Debug)]
pub struct Served {
    /// The cycle by which all that were queued are done, 0 where none was.
    pub done: u64,
    /// How many are never queued.
    pub missing: usize,
    /// The lowest that fails.
    pub failing: Option<Failing>,
}
