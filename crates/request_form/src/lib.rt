//! The form of requests: what a line asks for, or why it has not the form of a request.
//!
//! Stands on `tree_json`, on `line_reader` for lines and on `search_form` for search bodies; no state and no mapping is asked
//! here. `specs/Table` has the names of each command, `specs/Command` says what a first line is, and `specs/Asked` what it
//! asks for with its source line. The contract that others use: `asked` answers as `asked_of` says. Begin with `specs/Table`.
#![tactic(auto)]

mod action;
mod command;
mod form;
mod law;
mod object;
mod refusal;
mod request;
mod table;
mod value;

pub use action::{Action, Changes, Operation, Target, Write};
pub use form::{Form, Name, Presence};
pub use law::{merges_are_formed, moves_are_formed, searches_are_formed, writes_are_formed};
pub use refusal::FormRefusal;
pub use request::{NoAction, asked};
