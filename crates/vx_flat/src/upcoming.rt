use vx_decode::Instr;

/// What stands at the pc.
#[derive(Clone, Copy, PartialEq, Eq, Debug)]
pub enum Upcoming {
    /// The pc isn't canonical or its page can't be executed.
    Denied,
    /// A word that no row has, or whose instruction is illegal in this state.
    Illegal(u32),
    /// An instruction.
    Instruction(Instr),
}
