/// What comes of an instruction: the episode goes on with the next one, or it is over, and the system takes over at a cycle.
#[derive(Clone, Copy, PartialEq, Eq, Debug)]
pub enum Turn {
    Goes,
    /// The slice has ended.
    Slice(u64),
    /// The process asks for a service.
    Service(u64),
    /// The instruction faulted; the engine keeps the fault.
    Faulted(u64),
}
