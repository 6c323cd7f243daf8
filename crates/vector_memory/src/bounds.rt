/// The bounds of a memory: how much it may hold. Whoever replays a history needs them.
#[derive(Clone, Copy, Debug, PartialEq, Eq)]
pub struct Bounds {
    /// The greatest number of items of all values together.
    pub room: u64,
    /// The greatest number of items of a value, and the greatest sum of the lengths of a segment list.
    pub limit: usize,
}
