//! What there is no memory for.

use std::alloc::{AllocError, AllocFailed};

/// Memory ran out. What the call was to change is as it was.
#[derive(Clone, Copy, Debug, PartialEq, Eq)]
pub struct NoMemory;

impl From<AllocError> for NoMemory {
    fn from(_: AllocError) -> NoMemory {
        NoMemory
    }
}

impl<T: Drop> From<AllocFailed<T>> for NoMemory {
    fn from(_: AllocFailed<T>) -> NoMemory {
        NoMemory
    }
}

impl From<segment_view::NoMemory> for NoMemory {
    fn from(_: segment_view::NoMemory) -> NoMemory {
        NoMemory
    }
}

impl From<segment_merge::NoMemory> for NoMemory {
    fn from(_: segment_merge::NoMemory) -> NoMemory {
        NoMemory
    }
}
