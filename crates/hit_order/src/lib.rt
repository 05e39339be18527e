//! The rows of hits with the keys that they are ordered by, and the page that is asked for of them.
//!
//! It stands on `query_ast`, whose definitions say when a row comes before another. The one contract that others use:
//! `top` answers `page_of` of the rows. Begin with `rows`.
#![tactic(auto)]

mod column;
mod compare;
mod first_keys;
mod keys;
mod law;
mod no_memory;
mod rows;
mod selection;
mod table;

pub use column::{Column, ColumnKeys, RowPlace};
pub use first_keys::FirstKeys;
pub use keys::{NumberKeys, TextKeys};
pub use law::pages_are_of_rows_within_reach;
pub use no_memory::NoMemory;
pub use rows::{KeyRows, top};
