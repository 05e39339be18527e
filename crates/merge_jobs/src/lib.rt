//! Merges in pieces: what an open merge keeps of its neighbours until it is finished, and the list of those that are open.
//!
//! It stands on `segment_merge`, which makes a segment of live blocks, and on `segment_view` (Lucene's `OneMerge`, package
//! `org.apache.lucene.index`). A `MergeJob` is seen as the entries that it was started on and the roots that it has left; what
//! others use is that `finish` gives a segment of exactly the blocks that are live at the finish, whatever died since the
//! start, also where `advance` had made one before. Begin reading with `specs/Job.antt`, then `MergeJob`.
#![tactic(auto)]

mod counted;
mod job;
mod made;
mod open_jobs;
mod refusal;
mod rows;

pub use counted::live_roots;
pub use job::MergeJob;
pub use open_jobs::{OpenJob, OpenJobs};
pub use refusal::NoMemory;
pub use rows::{MergeRow, is_held, move_behind, overlapping};
