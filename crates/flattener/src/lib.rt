//! A tree as a block: a document for each of its objects, nested objects first, the root last (Lucene, `search.join`).
//!
//! Stands on `tree_objects` for objects and their values, and on `segment` for the form of documents and roots.
//! The contract that others use: `block` gives `block_of` its tree, or that its source is too long, or the refusal that
//! `block_refusal` says; all that evaluates cites `specs/Flat`, `specs/Block` and `specs/StandsFor`. Begin with `flatten`, then
//! `walk` and `fields`.
#![tactic(auto)]

mod document;
mod fields;
mod flatten;
mod gather;
mod join;
mod law;
mod marked;
mod names;
mod refusal;
mod shown;
mod source_text;
mod texts;
mod values;
mod walk;

pub use document::{Block, Document, Keyword, KeywordField, NumberField, Word};
pub use flatten::block;
pub use law::{blocks_are_of_their_mapping, blocks_are_small, further_bodies_leave_blocks};
pub use refusal::{FlattenRefusal, NoMemory};
pub use source_text::LONGEST_SOURCE;
