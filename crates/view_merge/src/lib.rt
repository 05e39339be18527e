//! Views whose neighbouring entries give way to one: an entry of the live blocks of others, what settling by a factor leaves,
//! and the rows that show a view.
//!
//! It stands on `segment_merge` and `merge_policy` (Lucene's `IndexWriter.merge`, package `org.apache.lucene.index`). What
//! others use is that `settled_view` gives entries whose blocks lie as a layout's that has settled. Begin reading with
//! `specs/Given.antt`, then `settle`.
#![tactic(auto)]

mod entry;
mod refusal;
mod rows;
mod settle;

pub use entry::{alive_entry, merged_entry};
pub use refusal::NoMemory;
pub use rows::{SegmentRow, segment_rows};
pub use settle::{counts_of_entries, neighbours, settled_view};
