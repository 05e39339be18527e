//! Worked examples as data: a case file read into its cases.
//!
//! It stands on `disk` and `io_edges`, and knows no engine: what a case asks to be run with is a number or a text here. Others call
//! `cases_of`, ask a `Case` for its input, its output, and what of it is to come where a run is stopped, cut short or sent again,
//! and run it over the sources, sinks and disks of `outside.rt`. docs/SCENARIOS.md says how a file is written. No contract says
//! more than that the crate is safe. Begin with `case.rt`; `read.rt` reads the files, `settings.rt` the settings.
#![tactic(auto)]

mod case;
mod damage;
mod notation;
mod outside;
mod read;
mod settings;
mod store_file;

pub use case::{Case, Exchange, Stop, Turn};
pub use damage::{Damage, DamagedRange, damaged};
pub use outside::{CountedDisk, Dialogue, PieceSink, PieceSource};
pub use read::cases_of;
pub use settings::{Failing, Given, GivenLimits, Left, Rose, Settings, Sweep};
pub use store_file::{Piece, with_pieces};
