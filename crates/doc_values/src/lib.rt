//! The values of one field of a segment, by document: signed numbers, or ordinals of terms.
//!
//! A document may have several values (Lucene's `SortedNumericDocValues` and `SortedSetDocValues`, package
//! `org.apache.lucene.index`; here a value is repeated as often as it stands there). A column is read in place, from the
//! bytes of a segment; texts and places come from `part_text`. It is seen as the list of rows that its text is of: `count`,
//! `value` and `values` give the values of a document, ascending, and none where it has no row; `values_near` gives them for
//! documents in order, and `single_rows` gives the rows of a column where each document has one. Begin reading with `specs/Values.antt` and `specs/Text.antt`.
#![tactic(auto)]

mod column;
mod placing;
mod rows;
mod search;
mod single;
mod value;
mod values;
mod walk;
mod written;

pub use column::Column;
pub use part_text::{NoMemory, PlaceList};
pub use rows::{RowList, ValueList, columns_have_one_text};
pub use single::SingleRows;
pub use value::ColumnValue;
pub use values::Values;

/// The numbers of one document, as of a field of kind long, boolean or date.
pub type NumberList = ValueList<i64>;

/// What a column of numbers holds.
pub type NumberRows = RowList<i64>;

/// A column of numbers.
pub type NumberColumn<'a> = Column<'a, i64>;

/// The ordinals of one document: the terms of a keyword field, each by its place in the list of terms.
pub type OrdinalList = ValueList<u64>;

/// What a column of ordinals holds.
pub type OrdinalRows = RowList<u64>;

/// A column of ordinals.
pub type OrdinalColumn<'a> = Column<'a, u64>;
