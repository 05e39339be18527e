//! Commands on the layout of an index and on its points in time, each with the reply that it is given.
//!
//! It stands on `index_core`, which lays out blocks in segments and merges these, on `point_in_time`, and on the definitions of
//! `machine`. The contracts that others use: `merge` does to the layout of blocks what `machine` says of a merge command, and
//! gives that reply; `open_point` and `close_point` give and take points in time on the sealed index. Nothing here is written
//! anywhere: the engine writes the reply. Begin with `specs/Ends`, then `merge`.
#![tactic(auto)]

mod factor;
mod layout_rows;
mod merges;
mod not_done;
mod points;

pub use factor::automerge;
pub use layout_rows::rows;
pub use merges::merge;
pub use not_done::NotDone;
pub use points::{close_point, open_point};

/// The most bytes of a reply to a merge command, to `automerge` and of a point in time, its newline aside: such a reply has two
/// numbers of 64 bits at most. Who takes room for it beforehand can write it whatever happens.
pub const LONGEST_LINE: usize = 128;
