/// What a look into a cache of translations answers.
#[derive(Clone, Copy, PartialEq, Eq, Debug)]
pub enum Look {
    /// The page is in this frame and grants the access; for a store its D is set.
    Hit(u32),
    /// The page is kept, and doesn't grant the access.
    Denied,
    /// The page isn't kept, or a store is wanted, the page grants it, and its D isn't set.
    Miss,
}
