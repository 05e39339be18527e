//! The text of every reply.
//!
//! Stands on `query_ast`, whose pages of hits and replies of buckets it prints, and on `tree_json` for texts and numbers.
//! `specs/Text` says each reply as an object of names and the texts of their values. The contract that others use is
//! that of `text`: it appends exactly that line, or refuses where it is too long.
//! Begin reading at `reply`, then `text`.
#![tactic(auto)]

mod buckets;
mod field;
mod found;
mod hits;
mod inner_hits;
mod layout;
mod line;
mod order;
mod printer;
mod refusal;
mod refused;
mod reply;
mod room;
mod rows;
mod write;

pub use layout::{MergeRow, MergeRows, SegmentRow, SegmentRows};
pub use line::TextRefusal;
pub use printer::text;
pub use refusal::{MappingLimit, Refusal};
pub use reply::{Reply, WriteResult};
pub use room::{HIT_BYTES, PAGE_BYTES, TooLarge, reply_weighs_its_page, take_hit, take_page};
