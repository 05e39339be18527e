//! What settling knows of a segment.

/// How many items of a segment are live and how many are dead, and whether an open merge has it.
#[derive(Clone, Copy, Debug, PartialEq, Eq)]
pub struct SegmentCount {
    /// How many of its items are live.
    pub live: u64,
    /// How many of its items are dead.
    pub dead: u64,
    /// Whether an open merge has it: settling leaves it as it is.
    pub held: bool,
}
