/// Whether registers are loaded from memory, or stored there.
#[derive(Clone, Copy, PartialEq, Eq, Debug)]
pub enum Direction {
    Loading,
    Storing,
}
