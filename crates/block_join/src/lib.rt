//! Scores of documents, joins of blocks and merges: scores of nested documents go up to the documents around them, and down.
//!
//! It stands on `block_bits` for the sets, `score_math` for the modes and `source_steps` for the counter. The contracts
//! that others use are those of `join_up` and `join_down`, and of `to_parent` and `to_child` for `ScopeBits` in the place of
//! sets: `joined` and `spread` of `specs/Joins.antt` on the list of all documents; and that of `merged`, two lists put together
//! by a `Rule`. Begin with `Scored`, then read `Cursor` and `Builder`, with which scores are read and made in order, and
//! `Parts`, the sums that are kept as sets.
#![tactic(auto)]

mod builder;
mod count;
mod cursor;
mod down;
mod matches;
mod merge;
mod parts;
mod reached;
mod reached_counts;
mod rule;
mod scored;
mod scores;
mod up;

pub use block_bits::NoMemory;
pub use builder::Builder;
pub use cursor::Cursor;
pub use down::{join_down, to_child};
pub use matches::Matches;
pub use merge::merged;
pub use reached_counts::reached_count;
pub use rule::Rule;
pub use scored::Scored;
pub use up::{join_up, to_parent};
