//! What settling makes of segments.

/// Segments that stand one behind the other and give way to one.
#[derive(Clone, Copy, Debug, PartialEq, Eq)]
pub struct Run {
    /// The index of its first segment before settling.
    pub first: u64,
    /// The index of its last segment before settling.
    pub last: u64,
    /// How many segments are made before the one that it gives way to; None where its one segment stays as it is.
    pub made: Option<u64>,
}

/// The segments that settling leaves, in order.
#[derive(Debug, Drop)]
pub struct SettledRuns {
    /// A run for each segment that is left. What stands in none of them has no live item.
    pub runs: Vec<Run>,
    /// How many segments settling makes, with those that give way to another at once.
    pub made: u64,
}
