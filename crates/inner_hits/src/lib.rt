//! Inner hits: the nested objects, or the joined trees, that a hit shows (Elasticsearch reference, retrieve inner hits).
//!
//! Stands on `query_eval` for what queries find, on `view_objects` for the objects of documents, and on `nested_sort` and
//! `hit_order` for pages. The contract that others use: `shown` gives the source and the `inner_pages` of a tree that hit, over
//! what `prepare` evaluated once for the search. Begin with `specs/Prepared`, then `prepared`, `pages` and `root_hits`.
#![tactic(auto)]

mod along;
mod below;
mod content;
mod filters;
mod joined;
mod no_memory;
mod page_refusal;
mod pages;
mod prepared;
mod root_hits;
mod rows;
mod trees;
mod walk;

pub use no_memory::NoMemory;
pub use page_refusal::PageRefusal;
pub use pages::{inner, source_in};
pub use prepared::{PreparedList, prepare};
pub use root_hits::{ShownTree, shown};
