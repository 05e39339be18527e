//! What sources add to a mapping: the body of the paths that a source has and the mapping hasn't.
//!
//! Stands on `mapping` for the fields that are mapped, and on `tree_json` for sources and bodies. `specs/Growth` says which
//! body a source adds, by its first values and its objects; the contract that others use: `seen` answers as `growth` says,
//! or with NoMemory, and `growth_is_taken` says that the mapping takes that body. Begin with `specs/Growth`.
#![tactic(auto)]

mod form;
mod found;
mod law;
mod mapped;
mod unmapped;

pub use law::{growth_is_said_by_values, growth_is_taken};
pub use mapped::seen;
pub use mapping::NoMemory;
