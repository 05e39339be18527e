//! Want of memory.

use std::alloc::{AllocError, AllocFailed};

/// There was no memory.
#[derive(Clone, Copy, Debug, PartialEq, Eq)]
pub struct NoMemory;

impl From<AllocError> for NoMemory {
    fn from(_error: AllocError) -> NoMemory {
        NoMemory
    }
}

impl<T: Drop> From<AllocFailed<T>> for NoMemory {
    fn from(_error: AllocFailed<T>) -> NoMemory {
        NoMemory
    }
}

impl From<tree_json::NoMemory> for NoMemory {
    fn from(_error: tree_json::NoMemory) -> NoMemory {
        NoMemory
    }
}

impl From<index_core::NoMemory> for NoMemory {
    fn from(_error: index_core::NoMemory) -> NoMemory {
        NoMemory
    }
}

impl From<stored_sources::NoMemory> for NoMemory {
    fn from(_error: stored_sources::NoMemory) -> NoMemory {
        NoMemory
    }
}
