use vx_base::Fault;

/// What a step of the flat machine answers.
#[derive(Clone, Copy, PartialEq, Eq, Debug)]
pub enum Turn {
    /// The process goes on.
    Next,
    /// It exited with this code.
    Exited(i64),
    /// Its instruction faulted.
    Faulted(Fault),
}
