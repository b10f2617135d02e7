/// What an engine counts in an episode.
#[derive(Clone, Copy, PartialEq, Eq, Debug)]
pub struct Counts {
    /// How many instructions retired, and how often something was committed.
    pub retired: u64,
    pub commits: u64,
    /// Something was committed that changes the vector state.
    pub dirtied: bool,
}
