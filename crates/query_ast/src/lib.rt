//! Searches whose names were looked up, what they answer, and what they mean on trees.
//!
//! It stands on `mapping`, on `tree_objects` for trees and their objects, on `score_math` and `analysis`. The one contract
//! that others use: a search answers `hit_page` and `found_buckets` of its body, over a mapping and the live trees. Begin
//! with `query`, and for the meaning with `specs/Hit.antt`.
#![tactic(auto)]

mod agg;
mod bucket;
mod hit;
mod inner;
mod joins;
mod law;
mod lists;
mod no_memory;
mod query;
mod search;
mod sort;

pub use agg::{AggDef, AggForm, AggList};
pub use bucket::{AggReplies, AggReply, AggValue, Bucket, BucketList};
pub use hit::{
    Hit, HitList, HitPage, InnerHit, InnerHitList, InnerPage, InnerPageList, Level, LevelList,
};
pub use inner::{InnerDef, InnerList, InnerOver};
pub use law::{
    everything_is_found_in_order, joins_alone_look_at_other_trees, nested_hits_have_witnesses,
    pages_meet, rows_stand_in_order, sums_have_no_order,
};
pub use lists::{BytesList, ValueList};
pub use no_memory::NoMemory;
pub use query::{Query, QueryBox, QueryList, RangeEnd};
pub use search::SearchBody;
pub use sort::{
    Chain, ChainList, Direction, Key, KeyList, KeyRow, Missing, Sort, SortKey, SortList, SortMode,
};
