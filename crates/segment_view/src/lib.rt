//! Entries and views: what a search sees, and what a point in time keeps.
//!
//! An entry is a segment with its live bits, a view is a list of entries (Lucene's `SegmentReader` and `DirectoryReader`,
//! package `org.apache.lucene.index`). The crate stands on `segment`. A view is seen as a list of `EntryState`, and what
//! others use is that `kill` changes one root of one entry of one view, and `pin` gives a view of its own.
//! Begin reading with `specs/Views.antt`, then `View`.
#![tactic(auto)]

mod entry;
mod view;

pub use entry::Entry;
use std::alloc::{AllocError, AllocFailed};
pub use view::View;

/// Memory ran out. What the call was to change is as it was.
#[derive(Clone, Copy, Debug, PartialEq, Eq)]
pub struct NoMemory;

impl From<AllocError> for NoMemory {
    fn from(_: AllocError) -> NoMemory {
        NoMemory
    }
}

impl<T: Drop> From<AllocFailed<T>> for NoMemory {
    fn from(_: AllocFailed<T>) -> NoMemory {
        NoMemory
    }
}

impl From<segment::NoMemory> for NoMemory {
    fn from(_: segment::NoMemory) -> NoMemory {
        NoMemory
    }
}
