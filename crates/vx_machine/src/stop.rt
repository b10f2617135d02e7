/// Why a run stopped.
#[derive(Clone, Copy, PartialEq, Eq, Debug)]
pub enum Stop {
    /// Every process has ended.
    Done,
    /// The clock reached the budget.
    Spent,
}
