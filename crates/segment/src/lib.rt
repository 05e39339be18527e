//! One segment: the documents of a list of blocks in one byte string, and which of its roots are live.
//!
//! A segment never changes; a delete clears live bits beside it (Lucene's `SegmentReader` and its live docs, package
//! `org.apache.lucene.index`). The crate stands on `segment_parts`. A segment is seen as the columns that its bytes are the
//! text of: `Segment::of_bytes` tests bytes, `Segment::of_text` takes those that are known to be a segment. Begin reading with
//! `specs/Encoding.antt`.
#![tactic(auto)]

mod agree;
mod agree_columns;
mod agree_terms;
mod by_id;
mod laws;
mod live_bits;
mod old;
mod refusal;
mod root_docs;
mod segment;

pub use laws::{scopes_are_of_documents, terms_are_of_documents, values_are_of_documents};
pub use live_bits::LiveBits;
pub use old::renewed;
pub use refusal::SegmentRefusal;
pub use segment::Segment;
pub use segment_parts::{ByField, ColumnList, Columns, NoMemory};
pub use stored_sources::{Bytes, Id, Join, JoinValue, Root};
