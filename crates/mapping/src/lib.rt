//! Mappings: what their bodies say together, as numbered fields with their homes, scopes and relations.
//!
//! Stands on `mapping_growth`, which says which bodies are a mapping. `specs/Mapping` says what a mapping is, `specs/IsMapping`
//! what holds of each, and `specs/Growth` how a further body adds to it; the look-ups of `Mapping` answer as these say.
//! Others cite the look-ups and the laws in `law`. Begin with `specs/Mapping`.
#![tactic(auto)]

mod law;
mod mapping;
mod scope;

pub use law::{
    further_bodies_stand_behind, growth_keeps_numbers, inclusion_goes_by_flags,
    names_lead_to_fields, scopes_form_chains,
};
pub use mapping::{Growth, Mapping};
pub use mapping_body::{Bytes, Kind, Limit, MappingRefusal, NoMemory};
