//! The form of a search body: which names its objects have, and what stands under each.
//!
//! Stands on `tree_json` alone; no mapping is asked here. `specs/Table` has the forms as tables, `specs/Form` what it is
//! to have one, and `table` is the same tables in code. The contract that others use: `search` gives a `Shape`, which is
//! the body itself, exactly where the body has the form. Begin with `specs/Table`.
#![tactic(auto)]

mod form;
mod judge;
mod object;
mod shape;
mod single;
mod table;

pub use form::{Form, Line, Presence};
pub use object::{ChosenName, chosen, form_at};
pub use shape::{Shape, ShapeRefusal, search};
pub use table::{element_of, single_of};
