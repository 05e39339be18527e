//! What there is no memory for.

use std::alloc::{AllocError, AllocFailed};

/// Memory ran out.
#[derive(Clone, Copy, Debug, PartialEq, Eq)]
pub struct NoMemory;

impl From<AllocError> for NoMemory {
    fn from(_: AllocError) -> NoMemory {
        NoMemory
    }
}

impl<T: Drop> From<AllocFailed<T>> for NoMemory {
    fn from(_: AllocFailed<T>) -> NoMemory {
        NoMemory
    }
}

impl From<block_bits::NoMemory> for NoMemory {
    fn from(_: block_bits::NoMemory) -> NoMemory {
        NoMemory
    }
}

impl From<part_text::NoMemory> for NoMemory {
    fn from(_: part_text::NoMemory) -> NoMemory {
        NoMemory
    }
}

impl From<segment::NoMemory> for NoMemory {
    fn from(_: segment::NoMemory) -> NoMemory {
        NoMemory
    }
}
