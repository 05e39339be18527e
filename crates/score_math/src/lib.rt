//! The arithmetic of scores and of sort keys: sums that stop at a cap, the mode of several scores,
//! a clamp to 64 bits and a mean that is rounded down. It stands on std alone.
//! The contract that others use is that of `combine`: a running sum, count, least and greatest are
//! enough to give the mode of the whole list of scores, as `mode_of` of `specs/Scores.antt` defines it.
#![tactic(auto)]

mod integer;
mod score;

pub use integer::{clamp64, floor_mean};
pub use score::{SCORE_CAP, ScoreMode, cap_add, combine};
