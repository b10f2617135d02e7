use vx_base::Perm;

/// What a walk of the page tables answers.
#[derive(Clone, Copy, PartialEq, Eq, Debug)]
pub enum Walked {
    /// The page is in this frame, has these permissions, which grant the access, and has D set or not after the walk.
    Leaf(u32, Perm, bool),
    /// The page is mapped and in no frame, whatever its permissions are.
    Away,
    /// The page isn't mapped, or doesn't grant the access, or the address isn't canonical.
    Denied,
}
