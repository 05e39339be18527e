//! Merges of neighbours that are asked for.

/// A merge of neighbours that is asked for, or a step of one.
#[derive(Clone, Copy, Debug, PartialEq, Eq)]
pub enum MergeCommand {
    /// Opens a merge of so many segments, from an index on.
    Start { from: u64, count: u64 },
    /// Walks so many roots of an open merge, or those that are left.
    Advance { id: u64, roots: u64 },
    /// Puts one segment in place of those of an open merge that is walked.
    Finish { id: u64 },
    /// Gives an open merge up.
    Abort { id: u64 },
    /// Merges at once the last segments, so that at most so many are left.
    Force { most: u64 },
}
