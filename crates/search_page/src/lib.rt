//! What a search finds in a view: the page of its hits, each with its source and its inner hits, and the answers of its buckets.
//!
//! Stands on `query_eval` for what a query matches, on `nested_sort` and `hit_order` for the page that is asked for of it, on
//! `inner_hits` and `bucket_aggs` for what is told of it besides. The contract that others use is that of `found`: over any view
//! that stands for live trees it is their `hit_page` and their `found_buckets`. Begin with `pages`, then `hits`.
#![tactic(auto)]

mod filters;
mod first;
mod found_refusal;
mod hits;
mod no_memory;
mod ordinals;
mod pages;

pub use found_refusal::FoundRefusal;
use no_memory::NoMemory;
pub use pages::{SearchResult, found};
