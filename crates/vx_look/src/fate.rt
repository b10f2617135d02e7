use vx_serve::Fate;

/// What is known of a batch of one access, and the cycle at which its look-up and walk end.
#[derive(Clone, Copy, PartialEq, Eq, Debug)]
pub struct Looked {
    pub fate: Fate,
    pub ended: u64,
}
