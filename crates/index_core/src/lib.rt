//! What an index keeps: segments and a buffer of blocks, and what writes and merges make of them.
//!
//! It stands on `segment_builder`, which makes a segment of the buffer, on `segment_view`, and on `merge_jobs` and `view_merge`
//! for merges (Lucene's `IndexWriter` with its buffer, package `org.apache.lucene.index`). An `IndexCore` is seen as the entries
//! of its view, the blocks of its buffer and the merges that are open; what others use is that `write`, `seal` and each step of
//! a merge do to the layout of these blocks what `layout` says, whatever their sources say.
//! Begin reading with `specs/Kept.antt` and `specs/Write.antt`, then `IndexCore`.
#![tactic(auto)]

mod ascending;
mod finish;
mod index_core;
mod kept_blocks;
mod live_numbers;
mod merge;
mod op;
mod opening;
mod place;
mod ready;
mod refusal;
mod write;

pub use index_core::IndexCore;
pub use merge::{LayoutRows, MergeDone, MergeRefusal};
pub use merge_jobs::MergeRow;
pub use op::{WriteDone, WriteOp};
pub use refusal::{NoMemory, WriteRefusal};
pub use view_merge::SegmentRow;
