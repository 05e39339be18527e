//! The terms of a segment in order, each with its number, the ordinal.
//!
//! A term is a field and bytes (Lucene's term dictionary, package `org.apache.lucene.index`, `Terms` and
//! `TermsEnum`). The crate stands on `part_text`. `TermTable` reads a segment's bytes in place and is seen as the list of
//! their terms: `find` gives a term's ordinal, `range` and `prefix` the ordinals of exactly the terms asked for.
#![tactic(auto)]

mod cut;
mod edge;
mod keys;
mod order;
mod placing;
mod rows;
mod table;
mod walk;
mod written;

pub use edge::Edge;
pub use keys::{keys_are_ordered, number_key, number_of};
pub use part_text::{NoMemory, PlaceList};
pub use rows::{Bytes, PositionList, PostingList, RowList, TermRow, rows_have_one_text};
pub use table::TermTable;
