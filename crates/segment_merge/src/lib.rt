//! Segments merged into one: the blocks that are live in some entries, in their order, as one segment (Lucene's
//! `SegmentMerger`, package `org.apache.lucene.index`).
//!
//! It stands on `segment_view` for entries and on `segment_builder`, which says what columns of blocks are. The parts of the
//! new segment's text are written one behind the other, straight from those of the entries' segments: no source is parsed,
//! no document flattened again, and none read back. What others use is that `merged` gives a segment of exactly the live
//! blocks. Begin reading with `specs/Merged.antt`, then `merge`.
#![tactic(auto)]

mod agreed;
mod by_field;
mod counts;
mod encoded;
mod head;
mod law;
mod marks;
mod merge;
mod merged_value;
mod new_ordinals;
mod numbering;
mod pieces;
mod put_roots;
mod refusal;
mod terms;
mod text_columns;
mod value_columns;

pub use merge::merged;
pub use refusal::NoMemory;
