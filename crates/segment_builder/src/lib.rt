//! Blocks as a segment: the documents of trees, put together by field and by term.
//!
//! It stands on `flattener` for blocks and on `segment` for columns (Lucene's `IndexingChain`, package `org.apache.lucene.index`).
//! What documents carry is put together by field, part by part, terms with a stable sort in each field, and each part is written
//! straight from what the blocks lend. What others use is that `built` gives a segment whose documents and roots are those of its
//! blocks, and that a segment stands for the trees of its blocks. Begin reading with `specs/Blocks.antt` and `assemble`, then
//! `by_field`.
#![tactic(auto)]

mod assemble;
mod by_field;
mod entries;
mod find;
mod fit;
mod grouping;
mod law;
mod numbers;
mod ordinals;
mod present;
mod refusal;
mod room;
mod roots;
mod rows;
mod scopes;
mod terms;

pub use assemble::built;
pub use by_field::grouped_by_field;
pub use grouping::grouped;
pub use law::{
    blocks_are_whole, blocks_carry_what_documents_carry, blocks_stand_for_trees,
    columns_by_key_are_made, deaths_mark_blocks, documents_live_with_their_blocks,
    fitting_segments_are_blocks, made_columns_agree, made_segments_are_blocks,
    segments_say_what_documents_carry,
};
pub use refusal::NoMemory;
pub use scopes::scope_sets;
