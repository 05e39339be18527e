//! JSON values merged, as an update merges its `doc` into a source, and values compared.
//!
//! Stands on `tree_json`. `specs/Merged` says what a change makes of a live value. The contract that others use is that of
//! `merged`: it gives that value, moves what it is given and copies nothing; and that of `is_same`, which holds exactly
//! where two values are equal. Begin reading at `merged`.
#![tactic(auto)]

mod coming;
mod merge;
mod same;

pub use merge::{members_are_merged, merged, merged_values_nest_no_deeper};
pub use same::{is_same, same_values_are_equal};
