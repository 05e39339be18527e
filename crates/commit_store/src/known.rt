//! A segment that a store knows.

use extent_pool::Extent;
use segment_view::Entry;

/// A segment of the last commit: the entry of the view that had it, shared, and where its bytes stand.
#[derive(Drop)]
pub struct KnownSegment {
    pub entry: Entry,
    pub extent: Extent,
}
