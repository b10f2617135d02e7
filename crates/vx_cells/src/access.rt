/// Who accesses physical memory: the data side of a process, its page walks, its fetches, the walks of its fetches, and
/// the system.
#[derive(Clone, Copy, PartialEq, Eq, Debug)]
pub enum Port {
    Data,
    Walk,
    Fetch,
    FetchWalk,
    Kernel,
}

/// An access to physical memory, as the log has it.
#[derive(Clone, Copy, PartialEq, Eq, Debug)]
pub struct Access {
    /// The cycle at which it was made.
    pub cycle: u64,
    pub port: Port,
    /// The word, from 0: the physical address divided by 8.
    pub word: u32,
    /// Whether it is a write.
    pub written: bool,
    /// Which bytes are written, bit `j` for byte `j`; all of them for a read.
    pub bytes: u8,
    /// The whole word that was read, or the value that was given, with 0 in each byte that isn't written.
    pub value: u64,
}
