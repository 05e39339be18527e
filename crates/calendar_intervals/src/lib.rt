//! Where the days, months and years of UTC begin.
//!
//! A moment is a number of milliseconds since 1970-01-01T00:00:00Z. The crate stands on `jiff` for the calendar and takes no
//! memory. Other crates use [`start`], whose contract says that its answer is `start_of`: the greatest start that isn't after the
//! moment. Begin with `interval`.
#![tactic(auto)]

mod interval;
mod law;

pub use interval::{Interval, next, start};
pub use law::starts_ascend;
