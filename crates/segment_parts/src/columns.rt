//! The columns that a segment is written from.

ghost use Rattle.std.specs.Prelude.{◌≡◌, ◌↔◌, ◌<◌, ◌^◌, length, IsTrue};
ghost use Rattle.std.specs.List.{All};
ghost use Rattle.std.specs.Option.{option_map};
ghost use Rattle.std.specs.List.Sorted.{IsStrictlyIncreasing};
ghost use Rattle.doc_values.specs.Stands.{IsColumn};
ghost use Rattle.segment_parts.specs.Fields.{column_of, fields, AreByField};

use crate::ByField;
use block_bits::{BitList, BitSet};
use doc_values::{ColumnValue, RowList};
use std::marker::Model;

/// The columns of one segment: documents are numbered from 0, block after block.
#[derive(Drop)]
pub struct Columns {
    /// How many documents there are.
    pub documents: u32,
    /// The documents of each scope; a document of scope 0 is a root.
    pub scopes: BitList,
    /// The roots with their sources, in the order of their documents.
    pub roots: stored_sources::RowList,
    /// The terms of all fields with their postings; a number stands there by its key.
    pub terms: term_table::RowList,
    /// The keyword fields: values are ordinals of terms.
    pub ordinals: ColumnList<u64>,
    /// The fields of kind long, boolean and date.
    pub numbers: ColumnList<i64>,
    /// The text fields: the documents with a value.
    pub present: ByField<BitSet>,
}

/// Columns of values, one a field, by ascending field.
#[derive(Drop)]
pub struct ColumnList<T: ColumnValue> {
    columns: Vec<RowList<T>>,
}

impl<T: ColumnValue> Model for ColumnList<T> {
    ghost use Rattle.std.specs.Prelude.{ℕ, List};
    ghost use Rattle.doc_values.specs.Stands.{IsColumn};
    ghost use Rattle.segment_parts.specs.Fields.{AreByField};

    ghost Value = { List (ℕ × List (ℕ × List T)) };

    ghost view = { λ list. list.columns.items };

    ghost invariant = { λ list. AreByField (IsColumn T.cmp T.Fits) list.columns.items };
}

impl<T: ColumnValue> ColumnList<T> {
    /// The list of these columns, as `are_columns` tests them. Takes no memory.
    pub fn of(columns: Vec<RowList<T>>) -> ColumnList<T>
        requires { AreByField (IsColumn T.cmp T.Fits) columns.items }
        ensures { result ≡ columns.items }
    {
        ColumnList { columns }
    }

    /// Whether there are fewer than 2^32 columns, by strictly ascending field.
    pub fn are_columns(columns: &[RowList<T>]) -> bool
        ensures ascending { IsTrue result ↔ ((length columns.now < 2 ^ 32) × IsStrictlyIncreasing (fields columns.now)) }
        ensures are { IsTrue result → AreByField (IsColumn T.cmp T.Fits) columns.now }
    {
        if columns.len() > u32::MAX as usize {
            return false;
        }
        'columns: for at in 0..columns.len() {
            let field = columns[at].field();
            if at > 0 && field <= columns[at - 1].field() {
                return false;
            }
        }
        true
    }

    /// The column of a field, and None where the field has none.
    pub(crate) fn get(&self, field: u32) -> Option<&RowList<T>>
        ensures { option_map (λ column. column.now.1) result ≡ column_of field self.now }
    {
        let columns = self.columns.as_slice();
        match columns.binary_search_by_key(&field, |column| column.field()) {
            Ok(at) => Some(&columns[at]),
            Err(_) => None,
        }
    }

    /// The columns, in order.
    pub fn as_slice(&self) -> &[RowList<T>]
        ensures columns { result.now ≡ self.now }
        ensures are { AreByField (IsColumn T.cmp T.Fits) self.now }
    {
        self.columns.as_slice()
    }
}
