//! Trees and their objects: what a source is under a mapping.
//!
//! Stands on `mapping` for fields, scopes and relations, on `date_fields` and `analysis` for values.
//! `specs/Tree`, `specs/Object` and `specs/Values` say what a tree is, which objects nest in it, and which values each of
//! them shows; others cite these. `first_fault` answers whether a source may be indexed. `law` is where to begin.
#![tactic(auto)]

mod convert;
mod fault;
mod field_value;
mod join;
mod law;
mod near;
mod refusal;

pub use convert::{is_of_kind, value_of};
pub use fault::{Fault, first_fault};
pub use field_value::FieldValue;
pub use law::{further_bodies_leave_trees, objects_nest, values_are_bounded};
pub use mapping::Bytes;
pub use refusal::ValueRefusal;
