//! The keys of hits: what each was found with, made the rows that are put in order.
//!
//! Stands on `query_eval` for what was found, on `segment` for the columns of values, on `view_objects` for the documents
//! inside a document, and on `hit_order` for rows. The contract that others use: `keys` gives each hit that a page can show the
//! `sort_key` of each clause; `columns` does so for any list of hits, and `next_hit` is one step of a walk over them. Begin with
//! `specs/Keyed`, then `rows`.
#![tactic(auto)]

mod asked;
mod clauses;
mod hits;
mod inside;
mod limit;
mod modes;
mod near;
mod no_memory;
mod numbers;
mod reached;
mod row_guess;
mod rows;
mod sample;
mod texts;

pub use hits::next_hit;
pub use no_memory::NoMemory;
pub use rows::{columns, keys};
