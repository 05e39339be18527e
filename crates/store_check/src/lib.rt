//! Whether a store's segments are those of their sources: what a user who fears for a store asks for.
//!
//! It stands on `flattener` and `segment_builder`, by which a segment is made anew of its sources, and on `segment_view` for the
//! entries of a store. The contract that others use is that of `holds`: true exactly where the blocks of each entry, dead ones too,
//! are those of trees that can have been indexed. Nothing is written. Begin reading with `specs/Held` and `holds`; `law` says why
//! the comparison of bytes decides.
#![tactic(auto)]

mod anew;
mod entries;
mod law;
mod tree;

pub use entries::holds;
pub use law::segments_are_known_by_their_blocks;
use std::alloc::{AllocError, AllocFailed};

/// Memory ran out.
#[derive(Clone, Copy, Debug, PartialEq, Eq)]
pub struct NoMemory;

impl From<AllocError> for NoMemory {
    fn from(_: AllocError) -> NoMemory {
        NoMemory
    }
}

impl<T: Drop> From<AllocFailed<T>> for NoMemory {
    fn from(_: AllocFailed<T>) -> NoMemory {
        NoMemory
    }
}

impl From<stored_sources::NoMemory> for NoMemory {
    fn from(_: stored_sources::NoMemory) -> NoMemory {
        NoMemory
    }
}

impl From<segment_builder::NoMemory> for NoMemory {
    fn from(_: segment_builder::NoMemory) -> NoMemory {
        NoMemory
    }
}
