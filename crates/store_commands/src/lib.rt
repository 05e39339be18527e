//! Commands on a store: a commit, a compaction and a trim of what an index keeps, each with the reply that it is given.
//!
//! It stands on `index_core`, whose view is sealed and committed, and on `store_compact`, which writes it. The contracts that
//! others use: behind `commit` and `compact` the store keeps what the machine says, each image of the disk holds the view, and
//! what the store knows of the layout is so (`AreKnown`, which `known_segments_stay_known` carries over every other change).
//! Nothing is printed here: the engine writes the reply. Begin with `specs/Commands`, then `commit`.
#![tactic(auto)]

mod commands;
mod law;
mod not_done;
mod ready;
mod trims;
mod written;

pub use commands::{commit, compact};
pub use law::known_segments_stay_known;
pub use not_done::NotDone;
pub use trims::trim;

/// The most bytes of a reply to one of these commands, a refusal among them, its newline aside: it has two numbers of 64 bits at
/// most. Who takes room for it beforehand can write it whatever happens.
pub const LONGEST_LINE: usize = 128;
