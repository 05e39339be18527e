//! Rows of values, as a column is written from them.

ghost use Rattle.std.specs.Prelude.{◌≡◌, ◌++◌, ℕ, List, ◌<◌, ◌^◌, ◌↔◌, length, IsTrue};
ghost use Rattle.std.specs.List.{All};
ghost use Rattle.std.specs.List.Sorted.{IsStrictlyIncreasing};
ghost use Rattle.doc_values.specs.Values.{documents, AreValues};
ghost use Rattle.doc_values.specs.Text.{column_text};
ghost use Rattle.doc_values.specs.Stands.{AreEntries, IsColumn, IsRow};

use crate::ColumnValue;
use std::marker::Model;

/// The values of one document: one or more, ascending, a value as often as it stands there.
#[derive(Drop)]
pub struct ValueList<T: ColumnValue> {
    values: Vec<T>,
}

impl<T: ColumnValue> Model for ValueList<T> {
    ghost use Rattle.std.specs.Prelude.{List};
    ghost use Rattle.std.specs.List.{All};
    ghost use Rattle.doc_values.specs.Values.{AreValues};

    ghost Value = { List T };

    ghost view = { λ list. list.values.items };

    ghost invariant = { λ list. AreValues T.cmp list.values.items × All T.Fits list.values.items };
}

impl<T: ColumnValue> ValueList<T> {
    /// The list of these values, as `are_values` tests them. Takes no memory.
    pub fn of(values: Vec<T>) -> ValueList<T>
        requires are { AreValues T.cmp values.items }
        requires fit { All T.Fits values.items }
        ensures { result ≡ values.items }
    {
        ValueList { values }
    }

    /// Whether values are one or more, fewer than 2^32 and ascending, as a list wants them.
    pub fn are_values(values: &[T]) -> bool
        ensures are { IsTrue result ↔ AreValues T.cmp values.now }
        ensures fit { IsTrue result → All T.Fits values.now }
    {
        if values.is_empty() || values.len() > u32::MAX as usize {
            return false;
        }
        'values: for at in 0..values.len() {
            values[at].fits();
            if at > 0 && values[at].cmp(&values[at - 1]).is_lt() {
                return false;
            }
        }
        true
    }

    /// The values, ascending.
    pub fn as_slice(&self) -> &[T]
        ensures values { result.now ≡ self.now }
        ensures are { AreValues T.cmp self.now }
        ensures fit { All T.Fits self.now }
    {
        self.values.as_slice()
    }
}

/// What a column holds: a field with rows of a document and its values, by strictly ascending document; at least one, and
/// fewer than 2^32.
#[derive(Drop)]
pub struct RowList<T: ColumnValue> {
    field: u32,
    rows: Vec<(u32, ValueList<T>)>,
}

impl<T: ColumnValue> Model for RowList<T> {
    ghost use Rattle.std.specs.Prelude.{ℕ, List};
    ghost use Rattle.doc_values.specs.Stands.{AreEntries};

    ghost Value = { ℕ × List (ℕ × List T) };

    ghost view = { λ list. (list.field, list.rows.items) };

    ghost invariant = { λ list. AreEntries T.cmp T.Fits list.rows.items };
}

impl<T: ColumnValue> RowList<T> {
    /// The column of this field with these rows, as `are_entries` tests them. Takes no memory.
    pub fn of(field: u32, rows: Vec<(u32, ValueList<T>)>) -> RowList<T>
        requires { AreEntries T.cmp T.Fits rows.items }
        ensures { result ≡ (field, rows.items) }
    {
        RowList { field, rows }
    }

    /// Whether there are rows, fewer than 2^32, and their documents are strictly ascending, as a column wants them.
    pub fn are_entries(rows: &[(u32, ValueList<T>)]) -> bool
        ensures ascending { IsTrue result ↔ ((0 < length rows.now) × (length rows.now < 2 ^ 32) × IsStrictlyIncreasing (documents rows.now)) }
        ensures are { IsTrue result → AreEntries T.cmp T.Fits rows.now }
    {
        if rows.is_empty() || rows.len() > u32::MAX as usize {
            return false;
        }
        'rows: for at in 0..rows.len() {
            is_row(&rows[at]);
            if at > 0 && rows[at].0 <= rows[at - 1].0 {
                return false;
            }
        }
        true
    }

    /// The field.
    pub fn field(&self) -> u32
        ensures field { result ≡ self.now.0 }
        ensures column { IsColumn T.cmp T.Fits self.now }
    {
        self.field
    }

    /// The rows, in order.
    pub fn as_slice(&self) -> &[(u32, ValueList<T>)]
        ensures rows { result.now ≡ self.now.1 }
        ensures entries { AreEntries T.cmp T.Fits self.now.1 }
    {
        self.rows.as_slice()
    }
}

/// Says what a row is, as each of its type is.
fn is_row<T: ColumnValue>(row: &(u32, ValueList<T>))
    ensures { IsRow T.cmp T.Fits row.now }
{
    let _document = row.0;
    let _values = row.1.as_slice();
}

/// No bytes begin with the text of two columns, so that a column has one spelling. Does nothing.
pub fn columns_have_one_text<T: ColumnValue>()
    ensures { (column other : ℕ × List (ℕ × List T)) (rest more : List ℕ) → IsColumn T.cmp T.Fits column → IsColumn T.cmp T.Fits other
        → column_text T.text column ++ rest ≡ column_text T.text other ++ more → (column ≡ other) × (rest ≡ more) }
{}
