//! The one error of this crate.
use std::alloc::{AllocError, AllocFailed};

/// There was too little memory, or a count passed 64 bits.
#[derive(Clone, Copy, Debug, PartialEq, Eq)]
pub struct NoMemory;

impl From<AllocError> for NoMemory {
    fn from(_: AllocError) -> NoMemory {
        NoMemory
    }
}

impl<T: Drop> From<AllocFailed<T>> for NoMemory {
    fn from(_: AllocFailed<T>) -> NoMemory {
        NoMemory
    }
}

impl From<block_bits::NoMemory> for NoMemory {
    fn from(_: block_bits::NoMemory) -> NoMemory {
        NoMemory
    }
}

impl From<query_eval::NoMemory> for NoMemory {
    fn from(_: query_eval::NoMemory) -> NoMemory {
        NoMemory
    }
}
