/// The application's vector length, of which a configuration makes vl (RISC-V "V" 1.0, section 6.2).
#[derive(Clone, Copy, PartialEq, Eq, Debug)]
pub enum Avl {
    /// So many elements.
    Value(u64),
    /// As many as a group holds.
    Max,
    /// As many as before.
    Keep,
}
