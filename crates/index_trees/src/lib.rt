//! Which trees an index of blocks stands for, what commits say of them, and the states that a file is opened in.
//!
//! It has definitions and laws alone, and ties the machine, which has trees, to an index and a store, which have blocks and
//! bytes. The laws that others use: `commits_are_those_of_the_machine`, `commits_hold_the_trees` and
//! `an_opened_store_stands_for_its_trees`. Begin with `specs/Faithful`.
#![tactic(auto)]

mod law;

pub use law::{
    an_opened_store_stands_for_its_trees, commits_are_those_of_the_machine, commits_hold_the_trees,
};
