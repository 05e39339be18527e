//! Bodies of mappings: names and paths, kinds, and the form of one body with the pairs that its joins name.
//!
//! Stands on `tree_json`. `specs/Names` says what names and paths are, `specs/Body` which form a body has and which
//! properties it has, and `specs/Pairs` what its joins name. The contracts that others use: `is_body_alone` and
//! `is_property` hold where these definitions do, and `place_of` and `number_among` find names. Begin with `specs/Body`.
#![tactic(auto)]

mod bytes;
mod copy;
mod form;
mod kind;
mod law;
mod names;
mod order;
mod pair;
mod refusal;

pub use bytes::Bytes;
pub use copy::copied;
pub use form::{
    has_flag, index_of, is_body_alone, is_join, is_nested, is_property, kind_of, member_named,
};
pub use kind::{Kind, is_same_kind};
pub use law::paths_are_lists_of_names;
pub use names::{
    Below, Named, Sought, Whole, dot_count, has_dot, is_name, is_property_name, joined, lies_above,
    number_among, place_of, put,
};
pub use order::{in_byte_order, order_from};
pub use pair::{Pair, has_two_parents, lacks_names, pairs_of_said, parent_in};
pub use refusal::{
    Limit, MOST_BODIES, MOST_BYTES, MOST_FIELDS, MOST_NAME_BYTES, MOST_NAMES, MOST_NESTED,
    MappingRefusal, NoMemory,
};
