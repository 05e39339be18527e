//! The search that a body says under a mapping.
//!
//! Stands on `search_form` and `search_walk`, which test the body, and on the types of `query_ast`. `specs/Search` is the
//! search of a body that isn't refused, made of `specs/Queries`, `specs/Sorts`, `specs/InnerHits` and `specs/Buckets`. The
//! contract that others use: `resolved` gives that search, or the body's first refusal. Begin with `specs/Search`.
#![tactic(auto)]

mod buckets;
mod built;
mod inner;
mod queries;
mod readings;
mod resolve;
mod sorts;

pub use resolve::resolved;
pub use search_walk::SearchRefusal;
