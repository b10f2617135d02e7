/// What the machine spent on a process.
#[derive(Clone, Copy, PartialEq, Eq, Debug)]
pub struct Costs {
    /// Its cycles.
    pub cycles: u64,
    /// Its pages that were brought.
    pub misses: u64,
}

/// What a report's total counts.
#[derive(Clone, Copy, PartialEq, Eq, Debug)]
pub enum Measure {
    /// The cycles of the machine.
    Cycles,
    /// The completed instructions.
    Instructions,
}
