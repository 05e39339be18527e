//! The columns of a segment and their bytes: which columns are those of a segment, how they are written, and where they stand
//! in the bytes of one.
//!
//! It stands on the crates of the columns. `segment_bytes` writes columns, `Parts::read` finds them in bytes again, exactly
//! where they are some, and `agree` says whether what they say of one another holds. The crate `segment` puts these together.
//! Begin reading with `specs/Text.antt`, the grammar of the bytes, and `specs/Agree.antt`.
#![tactic(auto)]

mod by_field;
mod columns;
mod given;
mod given_terms;
mod given_values;
mod head;
mod parts;
mod presence;
mod search;
mod sentences;
mod taken;
mod values;
mod writable;
mod written;

pub use by_field::ByField;
pub use columns::{ColumnList, Columns};
pub use given::agree;
pub use head::head_at;
pub use parts::{Parts, count_roots};
pub use sentences::{
    MAX_SOURCE_LEN, MAX_TERM_LEN, ends_with_root, has_greatest, have_present, is_id,
};
use std::alloc::{AllocError, AllocFailed};
pub use stored_sources::{Bytes, Id, Join, Root};
pub use written::{put_head_of, segment_bytes};

/// Memory ran out. What the call was to change is as it was.
#[derive(Clone, Copy, Debug, PartialEq, Eq)]
pub struct NoMemory;

impl From<AllocError> for NoMemory {
    fn from(_: AllocError) -> NoMemory {
        NoMemory
    }
}

impl<T: Drop> From<AllocFailed<T>> for NoMemory {
    fn from(_: AllocFailed<T>) -> NoMemory {
        NoMemory
    }
}

impl From<block_bits::NoMemory> for NoMemory {
    fn from(_: block_bits::NoMemory) -> NoMemory {
        NoMemory
    }
}

impl From<part_text::NoMemory> for NoMemory {
    fn from(_: part_text::NoMemory) -> NoMemory {
        NoMemory
    }
}
