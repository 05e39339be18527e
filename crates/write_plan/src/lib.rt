//! What writes and mapping lines do, before anything of the index is changed.
//!
//! Stands on `machine`, whose definitions each contract cites, and on the crates that each part of a write is made of:
//! `mapping` and `source_growth` for mappings, `flattener` for blocks, `json_merge` for updates. It needs no index, and
//! holds nothing. A write is refused early by `early_refusal`, an update's source is that of `updated` or `put_anew`, and
//! `planned` gives what is put; `first_mapping` and `further_mapping` do mapping lines. Begin with `planned`.
#![tactic(auto)]

mod early;
mod mapping_line;
mod plan;
mod refusal;
mod update;

pub use early::early_refusal;
pub use mapping_line::{Further, first_mapping, further_mapping};
pub use plan::{Plan, planned};
pub use refusal::PlanRefusal;
pub use update::{put_anew, updated};
