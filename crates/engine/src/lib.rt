//! The engine: an index of documents with their mapping, and what answers requests on it.
//!
//! Stands on `machine`, the plain machine over trees, on `index_core`, which keeps trees as blocks, on `write_plan` for writes
//! and mapping lines, on `search_page` for searches, and on `store_commands` for commits. The contract that others use: where what an engine keeps is faithful
//! to a state of the machine, `Engine::answer` answers as the machine may, and is faithful to the state afterwards; a refusal
//! leaves it as it was, or sealed, whatever it keeps. Begin with `specs/Faithful` and `specs/Answers`, then `Engine::answer`.
#![tactic(auto)]

mod change;
mod engine;
mod entries;
mod mapping_line;
mod no_memory;
mod ordinals;
mod points;
mod refresh;
mod reply;
mod search;
mod segments;
mod storing;
mod write;

pub use engine::{Answered, Engine};
pub use no_memory::NoMemory;
