//! The made input: the lines that everybody makes alike from a number and a count, for trials of speed and of memory.
//!
//! It stands on `tree_json`, for the buffer that lines are written into and for numbers in decimal. `specs/Lines` says what the
//! lines are, and `specs/Draws` which numbers are drawn for them. The one contract that others use is that of
//! `MadeInput::append_next`: it hands out the lines in their order, at most four in one call. Begin with `specs/Lines`.
#![tactic(auto)]

mod draws;
mod input;
mod lines;
mod source;

pub use input::{LONGEST_STEP, MadeInput};
