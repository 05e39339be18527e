//! Where trees stand: segments and a buffer, and what sealing, changes and merges do to them.
//!
//! It has definitions and laws alone: `specs/Layout` says what a layout is and what is done to it, of items of any type, so
//! that the machine lays out trees by it and the index blocks. It stands on nothing. The laws that others use:
//! `layouts_keep_what_is_live` and `layouts_are_alike`. Begin with `specs/Layout`.
#![tactic(auto)]

mod law;

pub use law::{
    layouts_are_alike, layouts_keep_what_is_live, merges_are_alike, merges_keep_what_is_live,
};
