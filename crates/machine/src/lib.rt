//! The plain machine: what each request answers, over JSON trees, and the state that it leaves.
//!
//! It has definitions, laws and the limits of a session alone, and nothing of it runs; the engine is proved to answer as it
//! does. Stands on the definitions of `request_form`, `mapping`, `tree_objects`, `query_ast`, `query_parser`, `layout`,
//! `extent_pool`, `segment` and `reply_text`. Begin with `specs/Step`.
#![tactic(auto)]

mod law;
mod limits;
mod merge_command;

pub use law::{
    commits_keep_what_they_name, live_trees_are_numbered, merge_commands_are_alike,
    merges_and_commits_change_no_other_reply, no_other_reply_shows_the_layout,
    points_in_time_keep_their_trees, the_layout_has_the_live_trees, the_store_alone_needs_the_disk,
};
pub use limits::Limits;
pub use merge_command::MergeCommand;
