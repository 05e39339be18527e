//! The documents of a segment that meet a leaf of a query: terms, ranges, prefixes, ids, words and phrases.
//!
//! It stands on `segment` for terms and postings, on `query_ast` for leaves and their meaning, and on `flattener` for how a
//! segment stands for trees. The contract that others use is that of `leaf`: its set has exactly the documents of the live
//! objects of a scope at which the leaf holds. Begin with `leaf`, then `terms`, and for the meaning with `specs/Found`.
#![tactic(auto)]

mod apart;
mod conjunction;
mod distinct;
mod document_set;
mod exists;
mod ids;
mod key;
mod leaves;
mod long_phrase;
mod no_memory;
mod on_field;
mod on_kind;
mod on_roots;
mod ordinals;
mod phrase;
mod roots;
mod run_search;
mod scoped;
mod sets;
mod shifts;
mod terms;
mod words;

pub use document_set::DocumentSet;
pub use leaves::leaf;
pub use no_memory::NoMemory;
pub use on_roots::{all_documents, live_documents};
