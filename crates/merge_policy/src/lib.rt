//! Which neighbouring segments settling merges, from how many live and dead items each has.
//!
//! It stands on `layout`, whose `settled` says what settling does to a layout, and on std (Lucene, `LogMergePolicy`). What others
//! use: `settled` gives runs before any segment is made, and by the law `layouts_settle_by_runs` what these runs say of a layout
//! of those counts is that layout settled; `settled_layouts_have_few_segments` is the bound. Begin with `specs/Runs`.
#![tactic(auto)]

mod counts;
mod law;
mod neighbours;
mod policy;
mod refusal;
mod runs;

pub use counts::SegmentCount;
pub use law::{layouts_settle_by_runs, settled_layouts_have_few_segments};
pub use policy::settled;
pub use refusal::NoMemory;
pub use runs::{Run, SettledRuns};
