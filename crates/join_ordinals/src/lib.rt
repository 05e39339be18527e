//! Ordinals of ids over all entries of a view: joined trees are found by number.
//!
//! Stands on `segment_view`. Terms of different segments have different ordinals (Lucene's `OrdinalMap`, package
//! `org.apache.lucene.index`), so the ids of a view's live roots and of their parents are numbered anew for a search that
//! joins, and each root's relation is kept beside. The contract that others use: `JoinOrdinals::over` gives two roots, or a
//! root and a parent, the same ordinal exactly where they have the same id, and a root the relation of its join value. Begin
//! with `specs/Ordinals`, then `ordinals`.
#![tactic(auto)]

mod ids;
mod numbers;
mod ordinals;
mod rows;

pub use ordinals::JoinOrdinals;
use std::alloc::{AllocError, AllocFailed};

/// Memory ran out, or there are 2^32 ids, those of roots and those of their parents.
#[derive(Clone, Copy, Debug, PartialEq, Eq)]
pub struct NoMemory;

impl From<AllocError> for NoMemory {
    fn from(_: AllocError) -> NoMemory {
        NoMemory
    }
}

impl<T: Drop> From<AllocFailed<T>> for NoMemory {
    fn from(_: AllocFailed<T>) -> NoMemory {
        NoMemory
    }
}
