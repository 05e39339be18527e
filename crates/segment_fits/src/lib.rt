//! Whether a mapping can have made a segment that was found in a file: what a reader of a store tests once a segment's bytes are
//! known to be an encoding.
//!
//! It stands on `flattener`, whose `SegmentFits` it decides, on `segment` and on `tree_json`. The contract that others use is that
//! of `fits`: true exactly where the segment fits the mapping and each source is read back as it was written. Begin reading with
//! `specs/Sources` and `fits`; `specs/Tested` says what is tested part by part.
#![tactic(auto)]

mod columns;
mod fitting;
mod form;
mod known;
mod source;
mod standing;

pub use fitting::fits;
pub use source::SourceReader;
use std::alloc::{AllocError, AllocFailed};

/// Memory ran out.
#[derive(Clone, Copy, Debug, PartialEq, Eq)]
pub struct NoMemory;

impl From<AllocError> for NoMemory {
    fn from(_: AllocError) -> NoMemory {
        NoMemory
    }
}

impl<T: Drop> From<AllocFailed<T>> for NoMemory {
    fn from(_: AllocFailed<T>) -> NoMemory {
        NoMemory
    }
}

impl From<stored_sources::NoMemory> for NoMemory {
    fn from(_: stored_sources::NoMemory) -> NoMemory {
        NoMemory
    }
}

impl From<tree_json::NoMemory> for NoMemory {
    fn from(_: tree_json::NoMemory) -> NoMemory {
        NoMemory
    }
}
