//! Commits that move segments towards the front of a store's file, and the cut of the file behind what the last commit names
//! (SQLite's incremental vacuum has the same purpose).
//! It stands on `commit_store`, which prepares a commit, offers a segment a better place and writes, and on `extent_pool`, whose
//! first fit decides; what is left of a store is said in the machine's words.
//! The contracts that others use are those of `compacted` and `trimmed`. Begin with `specs/Compacting.antt`.
#![tactic(auto)]

mod compact;
mod moves;
mod trim;

pub use compact::compacted;
pub use trim::trimmed;
