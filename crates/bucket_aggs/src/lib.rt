//! Buckets: what is counted of objects, up and down the nesting and across the join.
//!
//! Stands on `query_eval` for filters and for the ways up, down and across, and on `segment` for the values of documents. The
//! objects are those of one scope that the documents of a view stand for, a set of bits for each entry. The contract that
//! others use is that of `found_buckets`, the answers over all that a search found; `found_count` says how many they are. Begin with `specs/Given`, then `answers`.
#![tactic(auto)]

mod across;
mod answers;
mod at_once;
mod columns;
mod distinct;
mod facets;
mod found;
mod metric_answers;
mod metrics;
mod no_memory;
mod objects;
mod once;
mod posted;
mod ranges;
mod rows;
mod sets;
mod showing;
mod terms;

pub use answers::buckets;
pub use found::{found_buckets, found_count};
pub use no_memory::NoMemory;
