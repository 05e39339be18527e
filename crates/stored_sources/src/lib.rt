//! What a segment stores of its roots: ids, numbers, mapping generations, sources and join values, read in place.
//!
//! It stands on `part_text`, for texts and places, and on `source_steps`, the counter of sources that were read.
//! `StoredSources` is seen as the list of roots that its text is of. `fetch` gives the bytes of one root's source and
//! ticks the counter once: a caller whose contract leaves the counter as it was has read no source. Begin reading with
//! `specs/Roots.antt` and `specs/Text.antt`.
#![tactic(auto)]

mod kept;
mod old;
mod placing;
mod root;
mod sources;
mod walk;
mod written;

pub use old::{old_roots_have_one_text, renewed_root};
pub use part_text::{NoMemory, PlaceList};
pub use root::{Bytes, Id, Join, JoinValue, Root, RowList, roots_have_one_text};
pub use sources::StoredSources;
