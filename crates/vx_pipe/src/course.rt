//! The course of an episode in numbers.

ghost use Rattle.std.specs.Prelude.{◌+◌, ◌<◌, ◌^◌};

/// What an engine keeps of an episode from instruction to instruction.
#[derive(Clone, Copy, Debug)]
pub struct Course {
    /// The cycle of the last retire, or of the episode's start.
    pub retired: u64,
    /// That at which the next fetch begins.
    pub begun: u64,
    /// How many instructions completed.
    pub completed: u64,
    /// How often something was committed in front of an instruction's end.
    pub reached: u64,
    /// Something was committed that changes the vector state.
    pub changed: bool,
    ghost in_range: { completed + reached < 2 ^ 64 },
}
