use vx_base::{Fault, Want};

/// Why an episode ended.
#[derive(Clone, Copy, PartialEq, Eq, Debug)]
pub enum Ended {
    /// There was a commit at or after the end of the process's slice.
    Slice,
    /// This address lies on a page that is mapped and in no frame.
    Away(u64, Want),
    /// An instruction of vectors comes while the process hasn't got them.
    Vector,
    /// The process asks for a service.
    Service,
    /// An instruction faulted.
    Faulted(Fault),
}
