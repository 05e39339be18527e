//! What there is no memory for.

use std::alloc::{AllocError, AllocFailed};

/// Memory ran out.
#[derive(Clone, Copy, Debug, PartialEq, Eq)]
pub struct NoMemory;

impl From<AllocError> for NoMemory {
    fn from(_: AllocError) -> NoMemory {
        NoMemory
    }
}

impl<T: Drop> From<AllocFailed<T>> for NoMemory {
    fn from(_: AllocFailed<T>) -> NoMemory {
        NoMemory
    }
}

impl From<stored_sources::NoMemory> for NoMemory {
    fn from(_: stored_sources::NoMemory) -> NoMemory {
        NoMemory
    }
}

impl From<segment_builder::NoMemory> for NoMemory {
    fn from(_: segment_builder::NoMemory) -> NoMemory {
        NoMemory
    }
}

impl From<segment_parts::NoMemory> for NoMemory {
    fn from(_: segment_parts::NoMemory) -> NoMemory {
        NoMemory
    }
}
