//! What bodies of mappings say together: fields and relations by their numbers, and which bodies are a mapping.
//!
//! Stands on `mapping_body`, which says what form a body has. `specs/Fields` and `specs/Relations` say what bodies add one
//! after another, and `specs/Bodies` which of them are a mapping. The contract that others use: `Bodies::read` and
//! `Bodies::grown` take a body where these definitions do, and refuse it with its cause. Begin with `specs/Bodies`.
#![tactic(auto)]

mod addition;
mod ancestor;
mod bodies;
mod candidate;
mod conflict;
mod draft;
mod law;
mod limit;
mod property;
mod relation;
mod said;
mod taken;

pub use bodies::Bodies;
pub use draft::Draft;
pub use law::lines_turn_back_at_ancestors;
pub use relation::Relation;
