//! The ordinals that documents have in the column of a field of texts, counted.

ghost use Rattle.std.specs.Prelude.{◌≡◌, ◌<◌, [], ◌∷◌, false, length, map, slice_index_or, IfSome, IsTrue, OnOk};
ghost use Rattle.std.specs.List.{All};
ghost use Rattle.std.specs.List.Sorted.{IsSorted, IsStrictlyIncreasing};
ghost use Rattle.std.specs.Ordering.{nat_cmp};
ghost use Rattle.doc_values.specs.Single.{AreSingle};
ghost use Rattle.doc_values.specs.Values.{documents, values_of};
ghost use Rattle.query_ast.specs.Uses.{is_written};
ghost use Rattle.segment_parts.specs.Text.{marked_places};
ghost use Rattle.bucket_aggs.specs.Counts.{Counted};

use crate::NoMemory;
use crate::distinct::is_again;
use block_bits::BitSet;
use doc_values::{Column, ColumnValue, OrdinalColumn, SingleRows, Values};
use mapping::Kind;

/// How many rows of a column there may be for each document of a set where all rows are walked over: to look for one costs as much.
const ROWS_EACH: u32 = 8;

/// Whether a set has so many of a column's documents that its rows are walked over.
pub(crate) fn has_many<T: ColumnValue>(set: &BitSet, column: &Column<T>) -> bool {
    column.rows() / ROWS_EACH < set.count()
}

/// The rows of a column, if each document has one value there.
pub(crate) fn single_rows<'a, T: ColumnValue>(column: &Column<'a, T>) -> Option<SingleRows<'a, T>>
    ensures rows { IfSome result (λ rows. (rows ≡ column.now) × AreSingle rows) }
    ensures ascending { IfSome result (λ rows. IsStrictlyIncreasing (documents rows)) }
{
    let _ascending = column.rows();
    column.single_rows()
}

/// Adds the documents of a set to the counts of the ordinals that they have; the first count is that of the ordinal `first`. Each
/// document of the column has a place in the set.
///
/// Where the set has many documents of the column its rows are walked over, else each document's row is looked for near the one before.
pub(crate) fn count_ordinals(
    set: &BitSet,
    column: &OrdinalColumn,
    first: u64,
    counts: &mut Vec<u64>,
) -> Result<(), NoMemory>
    requires { All (λ doc. doc < length set.now) (documents column.now) }
    ensures { OnOk result (Counted first (map (λ doc. values_of doc column.now) (marked_places 0 set.now)) counts.old.items counts.new.items) }
{
    if !has_many(set, column) {
        return count_documents(set, column, first, counts);
    }
    match single_rows(column) {
        Some(rows) => count_single_rows(set, &rows, first, counts),
        None => count_rows(set, column, first, counts),
    }
}

/// The same, document by document.
fn count_documents(
    set: &BitSet,
    column: &OrdinalColumn,
    first: u64,
    counts: &mut Vec<u64>,
) -> Result<(), NoMemory>
    ensures { OnOk result (Counted first (map (λ doc. values_of doc column.now) (marked_places 0 set.now)) counts.old.items counts.new.items) }
{
    let mut walk = set.walk();
    let mut near = 0;
    'documents: while let Some(doc) = walk.next() {
        let values = column.values_near(doc, &mut near);
        count_values(values, first, counts)?;
    }
    Ok(())
}

/// The same, row by row.
fn count_rows(
    set: &BitSet,
    column: &OrdinalColumn,
    first: u64,
    counts: &mut Vec<u64>,
) -> Result<(), NoMemory>
    ensures { OnOk result (Counted first (map (λ doc. values_of doc column.now) (marked_places 0 set.now)) counts.old.items counts.new.items) }
{
    let _ascending = column.values(0);
    'rows: for row in 0..column.rows() {
        let doc = column.doc(row);
        if is_in(set, doc) {
            count_values(column.row_values(row), first, counts)?;
        }
    }
    Ok(())
}

/// The same over rows of one value each.
fn count_single_rows(
    set: &BitSet,
    rows: &SingleRows<u64>,
    first: u64,
    counts: &mut Vec<u64>,
) -> Result<(), NoMemory>
    requires ascending { IsStrictlyIncreasing (documents rows.now) }
    requires within { All (λ doc. doc < length set.now) (documents rows.now) }
    ensures { OnOk result (Counted first (map (λ doc. values_of doc rows.now) (marked_places 0 set.now)) counts.old.items counts.new.items) }
{
    'rows: for at in 0..rows.len() {
        let own = rows.row(at);
        if set.has(own.0) {
            count_one(own.1, first, counts)?;
        }
    }
    Ok(())
}

/// Whether the values of fields of this kind are texts.
pub(crate) fn is_text(kind: Kind) -> bool
    ensures { result ≡ is_written kind }
{
    match kind {
        Kind::Text | Kind::Keyword => true,
        Kind::Long | Kind::Boolean | Kind::Date | Kind::Object | Kind::Nested | Kind::Join => false,
    }
}

/// Whether a document is in a set; one that isn't there is in none.
pub(crate) fn is_in(set: &BitSet, doc: u32) -> bool
    ensures { result ≡ slice_index_or set.now doc false }
{
    doc < set.len() && set.has(doc)
}

/// Adds one to the count of each ordinal of a document, once for each.
///
/// Most documents have one value alone: it is looked at by itself.
fn count_values(values: Values<u64>, first: u64, counts: &mut Vec<u64>) -> Result<(), NoMemory>
    requires { IsSorted nat_cmp values }
    ensures { OnOk result (Counted first (values.entry ∷ []) counts.old.items counts.new.items) }
{
    if values.len() == 1 {
        return Ok(count_one(values.value(0), first, counts)?);
    }
    Ok(count_each(values, first, counts)?)
}

/// The same, value by value.
fn count_each(values: Values<u64>, first: u64, counts: &mut Vec<u64>) -> Result<(), NoMemory>
    requires { IsSorted nat_cmp values }
    ensures { OnOk result (Counted first (values.entry ∷ []) counts.old.items counts.new.items) }
{
    let mut values = values;
    let mut before = None;
    'values: while let Some(ordinal) = values.next() {
        if !is_again(before, ordinal) {
            count_one(ordinal, first, counts)?;
            before = Some(ordinal);
        }
    }
    Ok(())
}

/// Adds one to the count of an ordinal, if it has one.
fn count_one(ordinal: u64, first: u64, counts: &mut Vec<u64>) -> Result<(), NoMemory>
    ensures { OnOk result (Counted first ((ordinal ∷ []) ∷ []) counts.old.items counts.new.items) }
{
    if ordinal < first {
        return Ok(());
    }
    let at = (ordinal - first) as usize;
    if at >= counts.len() {
        return Ok(());
    }
    let Some(more) = counts[at].checked_add(1) else {
        return Err(NoMemory);
    };
    counts[at] = more;
    Ok(())
}
