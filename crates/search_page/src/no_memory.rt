//! The one error of this crate.
use std::alloc::{AllocError, AllocFailed};

/// There was too little memory.
#[derive(Clone, Copy, Debug, PartialEq, Eq)]
pub struct NoMemory;

impl From<AllocError> for NoMemory {
    fn from(_: AllocError) -> NoMemory {
        NoMemory
    }
}

impl<T: Drop> From<AllocFailed<T>> for NoMemory {
    fn from(_: AllocFailed<T>) -> NoMemory {
        NoMemory
    }
}

impl From<bucket_aggs::NoMemory> for NoMemory {
    fn from(_: bucket_aggs::NoMemory) -> NoMemory {
        NoMemory
    }
}

impl From<hit_order::NoMemory> for NoMemory {
    fn from(_: hit_order::NoMemory) -> NoMemory {
        NoMemory
    }
}

impl From<join_ordinals::NoMemory> for NoMemory {
    fn from(_: join_ordinals::NoMemory) -> NoMemory {
        NoMemory
    }
}

impl From<query_eval::NoMemory> for NoMemory {
    fn from(_: query_eval::NoMemory) -> NoMemory {
        NoMemory
    }
}
