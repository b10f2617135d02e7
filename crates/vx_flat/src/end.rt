use vx_base::Fault;

/// How a process ended.
#[derive(Clone, Copy, PartialEq, Eq, Debug)]
pub enum End {
    /// It exited with this code.
    Exited(i64),
    /// An instruction faulted.
    Faulted(Fault),
}
