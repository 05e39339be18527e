//! The postings of a segment's terms: the documents of each, with the positions at which it stands there.
//!
//! A cursor goes over the postings of one term (Lucene's `PostingsEnum`, package `org.apache.lucene.index`).
//! The crate stands on `term_table`, whose places it takes, and `block_bits`. A table is seen as the list of postings
//! lists that stand in a segment's bytes, and a cursor as one of these and a place in it: begin with `Cursor::advance`.
#![tactic(auto)]

mod cursor;
mod entry;
mod search;
mod skips;
mod table;

pub use cursor::Cursor;
pub use skips::SkipLists;
pub use table::PostingsTable;
