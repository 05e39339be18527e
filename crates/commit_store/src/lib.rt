//! A store: one file that keeps a mapping and the segments of a view, commit by commit, so that a stop at any moment leaves the
//! last commit or one that was tried since (SQLite's rollback journal and Lucene's `segments_N` have the same purpose).
//! It stands on `commit_images`, whose steps it takes on a disk, and on `extent_pool`, which says where new bytes go.
//! The contract that others use is that of `Store::finished`: behind it each image of the disk holds the new commit.
//! Begin reading with `specs/Saying.antt`, then `specs/Known.antt`.
#![tactic(auto)]

mod finish;
mod idle;
mod known;
mod plan;
mod prepared;
mod record;
mod refusal;
mod saying;
mod store;

pub use known::KnownSegment;
pub use prepared::Prepared;
pub use refusal::{CommitRefusal, FinishRefusal, IdleRefusal, NoMemory};
pub use saying::StoreSaying;
pub use store::Store;
