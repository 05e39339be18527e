//! The column of one field, read in place.

ghost use Rattle.std.specs.Prelude.{◌≡◌, ℕ, ◌<◌, ◌↔◌, ◌++◌, List, length, drop, Some, slice_get, slice_index, Contains, IfSome, IfNone, IsNone, IfOk, OnOk, OnErr};
ghost use Rattle.std.specs.List.Sorted.{IsStrictlyIncreasing, IsSorted};
ghost use Rattle.doc_values.specs.Values.{documents, values_of, AreRows};
ghost use Rattle.doc_values.specs.Single.{AreSingle};
ghost use Rattle.doc_values.specs.Text.{column_text};
ghost use Rattle.doc_values.specs.Stands.{IsColumn, Stands, Belong};

use crate::placing::{from_place, placed_entries};
use crate::search::{document, index_near, index_of, value_bytes};
use crate::single::single_bytes;
use crate::walk::head_at;
use crate::written::put_column;
use crate::{ColumnValue, RowList, SingleRows, Values};
use part_text::{NoMemory, PlaceList};
use std::alloc::Global;
use std::marker::{Model, PhantomData};

/// The values of one field, by document, read from the bytes of a segment.
#[derive(Drop)]
pub struct Column<'a, T: ColumnValue> {
    bytes: &'a [u8],
    places: &'a [u64],
    of: PhantomData<T>,
}

impl<'a, T: ColumnValue> Model for Column<'a, T> {
    ghost use Rattle.std.specs.Prelude.{ℕ, List};
    ghost use Rattle.doc_values.specs.Kept.{column_rows, IsKept};

    ghost Value = { List (ℕ × List T) };

    ghost view = { λ it. column_rows T.front it.places.now it.bytes.now };

    ghost invariant = { λ it. IsKept T.cmp T.front it.places.now it.bytes.now };
}

impl<'a, T: ColumnValue> Column<'a, T> {
    /// The column whose entries stand at these places of bytes, as `places` finds them. Takes no memory.
    pub fn over(bytes: &'a [u8], places: &'a PlaceList) -> Column<'a, T>
        requires { (column : ℕ × List (ℕ × List T)) × Belong T.cmp T.Fits T.text bytes.now places.now column }
        ensures { (column : ℕ × List (ℕ × List T)) → Belong T.cmp T.Fits T.text bytes.now places.now column → result ≡ column.1 }
    {
        Column {
            bytes,
            places: places.as_slice(),
            of: PhantomData,
        }
    }

    /// Where the entries of the column stand that is written from a place on, and the place behind it; None exactly where no
    /// column stands there.
    pub fn places(
        alloc: Global,
        bytes: &[u8],
        at: u64,
    ) -> Result<Option<(PlaceList, u64)>, NoMemory>
        ensures found { IfOk result (λ found. IfSome found (λ it. (column : ℕ × List (ℕ × List T)) × Stands T.cmp T.Fits T.text bytes.now at column it.0 it.1)) }
        ensures only { IfOk result (λ found. IsNone found → (column : ℕ × List (ℕ × List T)) (rest : List ℕ)
            → IsColumn T.cmp T.Fits column → drop at bytes.now ≡ column_text T.text column ++ rest → ⊥) }
    {
        let end = bytes.len() as u64;
        let Some(own) = from_place(bytes, at) else {
            return Ok(None);
        };
        let Some((count, entries)) = head_at(own) else {
            return Ok(None);
        };
        match placed_entries::<T>(alloc, count, entries, end)? {
            Some((places, rest)) => Ok(Some((places, end - rest.len() as u64))),
            None => Ok(None),
        }
    }

    /// Appends a column as it is written. After NoMemory the bytes are as they were.
    pub fn written(column: &RowList<T>, into: &mut Vec<u8>) -> Result<(), NoMemory>
        ensures written { OnOk result (into.new.items ≡ into.old.items ++ column_text T.text column.now) }
        ensures unchanged { OnErr result (into.new.items ≡ into.old.items) }
    {
        let old = into.len();
        let done = put_column(column, into);
        if done.is_err() {
            into.truncate(old);
        }
        done
    }

    /// How many values a document has: 0 exactly for a document without a row.
    pub fn count(&self, doc: u32) -> u32
        ensures count { result ≡ length (values_of doc self.now) }
        ensures absent { (result ≡ 0) ↔ ¬ Contains (documents self.now) doc }
        ensures ascending { IsSorted T.cmp (values_of doc self.now) }
    {
        self.values(doc).len()
    }

    /// Value `i` of a document, of its values ascending.
    pub fn value(&self, doc: u32, i: u32) -> T
        requires { i < length (values_of doc self.now) }
        ensures { slice_get (values_of doc self.now) i ≡ Some result }
    {
        self.values(doc).value(i)
    }

    /// The values of a document, ascending; none where it has no row.
    pub fn values(&self, doc: u32) -> Values<'a, T>
        ensures values { result ≡ values_of doc self.now }
        ensures rows { AreRows T.cmp self.now }
    {
        match index_of(self.places, self.bytes, doc) {
            Some(at) => Values::over(value_bytes(self.places, self.bytes, at)),
            None => Values::over(self.bytes.split_at(0).0),
        }
    }

    /// The values of a document, as `values` gives them, looked for from row `near` on. That is left behind the document's row, so
    /// that documents in ascending order cost the way from row to row.
    pub fn values_near(&self, doc: u32, near: &mut u32) -> Values<'a, T>
        ensures values { result ≡ values_of doc self.now }
        ensures ascending { IsSorted T.cmp result }
    {
        match index_near(self.places, self.bytes, doc, *near as usize) {
            Some(at) => {
                *near = at as u32 + 1;
                Values::over(value_bytes(self.places, self.bytes, at))
            }
            None => Values::over(self.bytes.split_at(0).0),
        }
    }

    /// How many documents have a row.
    pub fn rows(&self) -> u32
        ensures count { result ≡ length self.now }
        ensures ascending { IsStrictlyIncreasing (documents self.now) }
    {
        (self.places.len() - 1) as u32
    }

    /// The rows, if each document has one value; None exactly where one has more (Lucene's `DocValues.unwrapSingleton`).
    pub fn single_rows(&self) -> Option<SingleRows<'a, T>>
        ensures some { IfSome result (λ rows. (rows ≡ self.now) × AreSingle self.now) }
        ensures none { IfNone result (¬ AreSingle self.now) }
    {
        match single_bytes(self.places, self.bytes) {
            Some(bytes) => Some(SingleRows::over(bytes)),
            None => None,
        }
    }

    /// The document of row `row`.
    pub fn doc(&self, row: u32) -> u32
        requires { row < length self.now }
        ensures { result ≡ slice_index (documents self.now) row }
    {
        document(self.places, self.bytes, row as usize)
    }

    /// The values of row `row`, ascending.
    pub fn row_values(&self, row: u32) -> Values<'a, T>
        requires { row < length self.now }
        ensures { slice_get self.now row ≡ Some (slice_index (documents self.now) row, result) }
    {
        Values::over(value_bytes(self.places, self.bytes, row as usize))
    }
}
