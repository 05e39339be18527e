//! What a query finds in a view: a score for each document of a scope that it hits.
//!
//! Stands on `leaf_search` for leaves, on `block_join` for scores and joins of blocks, on `tree_joins` for what these are on
//! trees, and on `join_ordinals` for joins of trees. The contract that others use is that of `matches`: over any view that
//! stands for live trees its scores are those of the query's clause. Begin with `specs/Found`, then `evaluation`.
#![tactic(auto)]

mod answer;
mod counts;
mod evaluation;
mod kept;
mod key_scores;
mod keyed;
mod law;
mod leaves;
mod merges;
mod nests;
mod no_memory;
mod ranks;
mod side;
mod tallies;
mod tally;
mod trees;

pub use counts::{live_count, marked_ups, up_count};
pub use evaluation::{found, matches};
pub use kept::kept as kept_hits;
pub use keyed::{KeyedRoot, KeyedRoots, children_led, parents_led};
pub use law::{keys_join_trees, ups_are_counted};
pub use leaf_search::DocumentSet;
pub use leaves::all_objects;
pub use merges::merges as merged_hits;
pub use nests::{downs, ups};
pub use no_memory::NoMemory;
pub use side::{Side, key_of};
pub use trees::{with_children, with_parent_by};
