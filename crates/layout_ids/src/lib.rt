//! Which segments keep their items whatever is done to a layout, and where the items of a layout come from.
//!
//! It stands on `layout`, and has definitions and laws alone. What others use: `segments_keep_their_items`, by which a segment's
//! id stands for its items as long as a session lasts, so that what was written of it under its id need not be written again.
//! Begin with `specs/Ids`.
#![tactic(auto)]

mod law;

pub use law::{layouts_have_no_item_of_their_own, segments_keep_their_items};
