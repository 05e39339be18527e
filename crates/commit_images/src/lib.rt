//! Which commit a file shows, and what every stop leaves while one is made.
//!
//! It stands on `disk` for images and on `store_text` for the header's pieces, and is generic over what a commit says: `Saying`.
//! The contracts that others use are those of the steps, `close_gate`, `write_extents`, `write_slot`, `open_gate` and `cut_behind`:
//! each keeps `KeepsCommit` of a store and its disk, whether it fails or not, and says what an image on the way shows. Begin with
//! `specs/Commits.antt`, then `specs/Keeping.antt` and `specs/Steps.antt`.
#![tactic(auto)]

mod block;
mod law;
mod saying;
mod steps;
mod writes;

pub use block::Block;
pub use law::{
    a_file_shows_one_commit, a_torn_gate_leaves_one_of_two_files, an_opened_store_keeps_its_commit,
};
pub use saying::Saying;
pub use steps::{close_gate, cut_behind, open_gate, write_extents, write_slot};
pub use writes::write_each;
