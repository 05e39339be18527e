//! Joins of blocks are joins of trees: what is proved of lists of documents holds of the objects that they stand for.
//!
//! Stands on `flattener`, which says when documents stand for trees, and on the definitions of `block_join`. It has no code:
//! the contract that others use is that of `joins_are_of_trees`, and evaluators call it where their proof asks for it.
//! Begin with `specs/Seen`, then `law`.
#![tactic(auto)]

mod law;

pub use law::{joins_are_of_trees, objects_are_parted};
