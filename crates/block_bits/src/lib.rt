//! Bit sets over blocks: which document encloses a document, and which documents lie inside one.
//!
//! A block is a tree's documents, nested objects first and the root last (Lucene's block join, package
//! `org.apache.lucene.search.join`). The crate stands on std alone. What joins use of it is
//! `ScopeBits::parent_of` and `ScopeBits::child_range`: a document lies in the range of a parent exactly
//! where the parent is its enclosing document at that scope.
#![tactic(auto)]

mod bit_set;
mod blocks;
mod laws;
mod lists;
mod partition;
mod scope_bits;
mod walk;
mod words;

pub use bit_set::BitSet;
pub use laws::{places_are_nearest, words_are_of_one_set};
pub use lists::{BitList, ScopeList};
pub use scope_bits::{BitsRefusal, ScopeBits};
use std::alloc::{AllocError, AllocFailed};
pub use walk::Walk;

/// Memory ran out. What the call was to change is as it was.
#[derive(Clone, Copy, Debug, PartialEq, Eq)]
pub struct NoMemory;

impl From<AllocError> for NoMemory {
    fn from(_: AllocError) -> NoMemory {
        NoMemory
    }
}

impl<T: Drop> From<AllocFailed<T>> for NoMemory {
    fn from(_: AllocFailed<T>) -> NoMemory {
        NoMemory
    }
}
