/// What an instruction that touches no memory does.
#[derive(Clone, Copy, PartialEq, Eq, Debug)]
pub enum Effect {
    /// Puts the first number into `rd`, and goes on at the second.
    Value(u64, u64),
    /// Goes on there.
    Next(u64),
    /// Jumps to this target, which is no multiple of 4.
    Misaligned(u64),
}
