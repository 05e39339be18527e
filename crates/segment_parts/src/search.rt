//! Look-ups by number among things in ascending order, and of a term among terms in order.

ghost use Rattle.std.specs.Prelude.{◌≡◌, ◌<◌, Some, length, map, slice_get, All, Contains, IfSome, IfNone};
ghost use Rattle.std.specs.List.Sorted.{IsStrictlyIncreasing, IsSorted};
ghost use Rattle.doc_values.specs.Values.{values_of};
ghost use Rattle.term_table.specs.Part.{AreRows};
ghost use Rattle.term_table.specs.Terms.{term_cmp};
ghost use Rattle.segment_parts.specs.Fields.{fields};

use doc_values::{ColumnValue, RowList};
use std::cmp::Ordering;
use term_table::TermRow;

/// The index of what has a number, as of a document's row or of a field's column; None where nothing has it.
pub(crate) fn index_of<X>(rows: &[(u32, X)], number: u32) -> Option<usize>
    requires { IsStrictlyIncreasing (fields rows.now) }
    ensures within { IfSome result (λ at. at < length rows.now) }
    ensures found { IfSome result (λ at. slice_get (fields rows.now) at ≡ Some number) }
    ensures missing { IfNone result (¬ Contains (fields rows.now) number) }
{
    match rows.binary_search_by_key(&number, |row| row.0) {
        Ok(at) => Some(at),
        Err(_) => None,
    }
}

/// The values of a document in a column, ascending; none where it has no row.
pub(crate) fn values_of<T: ColumnValue>(column: &RowList<T>, doc: u32) -> &[T]
    ensures values { result.now ≡ values_of doc column.now.1 }
    ensures ascending { IsSorted T.cmp result.now }
    ensures fit { All T.Fits result.now }
{
    let rows = column.as_slice();
    match index_of(rows, doc) {
        Some(at) => rows[at].1.as_slice(),
        None => &[],
    }
}

/// The place of a term among terms in order; None where it isn't there.
pub(crate) fn place_of_term(rows: &[TermRow], field: u32, bytes: &[u8]) -> Option<usize>
    requires { AreRows rows.now }
    ensures found { IfSome result (λ place. slice_get (map (λ row. row.term) rows.now) place ≡ Some (field, bytes.now)) }
    ensures missing { IfNone result (¬ Contains (map (λ row. row.term) rows.now) (field, bytes.now)) }
{
    let mut low = 0;
    let mut high = rows.len();
    'search: while low < high {
        let middle = low + (high - low) / 2;
        match compare(&rows[middle], field, bytes) {
            Ordering::Less => low = middle + 1,
            Ordering::Equal => return Some(middle),
            Ordering::Greater => high = middle,
        }
    }
    None
}

/// How the term of a row stands to the one of this field and these bytes.
fn compare(row: &TermRow, field: u32, bytes: &[u8]) -> Ordering
    ensures { result ≡ term_cmp row.now.term (field, bytes.now) }
{
    match row.term.0.cmp(&field) {
        Ordering::Equal => row.term.1.as_slice().cmp(bytes),
        apart => apart,
    }
}
