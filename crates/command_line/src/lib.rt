//! The program's call over the machine: its words, its standard streams, the file of its store and its exit status.
//!
//! It hands the machine's streams and the file that `serve STORE` or `check STORE` names to `run` of `line_engine`, prints nothing itself and ends with
//! the status that it is given. What `run` promises of a source and a sink holds for these streams as far as they do what the traits
//! say: the clauses of `served` say it of any source and sink. Programs call `exit_code`, and nothing else. Begin with `program.rt`.
#![tactic(auto)]

mod program;
mod words;

pub use program::exit_code;
