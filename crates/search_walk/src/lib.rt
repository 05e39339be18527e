//! The walk of a search body under a mapping: which parts are judged, in which order, and what a body is refused for.
//!
//! Stands on `search_form`, `mapping` and `tree_objects`. `specs/Node` has the parts in the order of the walk, `specs/Fault`
//! what each is refused for, `specs/Refusal` the first refusal of all. The contract that others use: `judged` accepts a
//! shape or gives its `first_refusal`. Begin with `specs/Names`, what the names in a body mean.
#![tactic(auto)]

mod after;
mod bucket_fault;
mod fault;
mod judge;
mod kinds;
mod known;
mod leaf_fault;
mod limit;
mod names;
mod node;
mod parts;
mod refusal;
mod sorts;

pub use judge::judged;
pub use known::KnownNames;
pub use mapping::NoMemory;
pub use names::{
    buckets_in, child_under, flag_under, member, nested_under, parent_under, path_or_root, root_if,
    scope_inside, text_of, text_under,
};
pub use parts::has_parts;
pub use refusal::SearchRefusal;
pub use sorts::{given_missing, is_score, sort_name, sort_part};
