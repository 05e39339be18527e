//! Want of memory.
use std::alloc::{AllocError, AllocFailed};

/// There was too little memory.
#[derive(Clone, Copy, Debug, PartialEq, Eq)]
pub struct NoMemory;

impl From<AllocError> for NoMemory {
    fn from(_: AllocError) -> NoMemory {
        NoMemory
    }
}

impl<T: Drop> From<AllocFailed<T>> for NoMemory {
    fn from(_: AllocFailed<T>) -> NoMemory {
        NoMemory
    }
}

impl From<hit_order::NoMemory> for NoMemory {
    fn from(_: hit_order::NoMemory) -> NoMemory {
        NoMemory
    }
}

impl From<block_bits::NoMemory> for NoMemory {
    fn from(_: block_bits::NoMemory) -> NoMemory {
        NoMemory
    }
}
