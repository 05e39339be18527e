//! Whether what columns that are given hold stands among the terms and their postings, before they are written.

ghost use Rattle.std.specs.Prelude.{◌≡◌, ◌↔◌, ℕ, List, [], map, IsTrue, Contains, slice_index_or};
ghost use Rattle.std.specs.List.{All};
ghost use Rattle.std.specs.List.Sorted.{IsStrictlyIncreasing};
ghost use Rattle.postings.specs.Postings.{documents};
ghost use Rattle.segment_parts.specs.Lists.{terms_of, postings_of};
ghost use Rattle.segment_parts.specs.Agree.{IsOrdinalAt, IsKeyed, HaveOrdinals, HaveKeys};

use crate::Columns;
use crate::search::{index_of, place_of_term};
use doc_values::{NumberRows, OrdinalRows};
use term_table::{PositionList, RowList, number_key};

/// Whether each ordinal in a column is the place of a term of the column's field, and the row's document is one of
/// that term's.
pub(crate) fn have_ordinals(columns: &Columns) -> bool
    ensures { IsTrue result ↔ All (HaveOrdinals (terms_of columns.now) (postings_of columns.now)) columns.now.ordinals }
{
    'columns: for column in columns.ordinals.as_slice() {
        if !are_ordinals(&columns.terms, column) {
            return false;
        }
    }
    true
}

/// Whether each number in a column stands by its key among the terms of the column's field, and the row's document is
/// one of that term's.
pub(crate) fn have_keys(columns: &Columns) -> bool
    ensures { IsTrue result ↔ All (HaveKeys (terms_of columns.now) (postings_of columns.now)) columns.now.numbers }
{
    let terms = &columns.terms;
    columns
        .numbers
        .as_slice()
        .iter()
        .all(|column| are_keyed(terms, column))
}

/// Whether each ordinal in a column is the place of a term of its field that the row's document has.
fn are_ordinals(terms: &RowList, column: &OrdinalRows) -> bool
    ensures { IsTrue result ↔ HaveOrdinals (map (λ row. row.term) terms.now) (map (λ row. row.postings) terms.now) column.now }
{
    let field = column.field();
    'rows: for (doc, ordinals) in column.as_slice() {
        if !have_terms_at(terms, field, *doc, ordinals.as_slice()) {
            return false;
        }
    }
    true
}

/// Whether each number in a column is a term of its field that the row's document has.
fn are_keyed(terms: &RowList, column: &NumberRows) -> bool
    ensures { IsTrue result ↔ HaveKeys (map (λ row. row.term) terms.now) (map (λ row. row.postings) terms.now) column.now }
{
    let field = column.field();
    column
        .as_slice()
        .iter()
        .all(|row| have_keys_at(terms, field, row.0, row.1.as_slice()))
}

/// Whether each ordinal of a document is the place of a term of the field that the document has.
fn have_terms_at(terms: &RowList, field: u32, doc: u32, ordinals: &[u64]) -> bool
    ensures { IsTrue result ↔ All (λ ordinal. IsOrdinalAt (map (λ row. row.term) terms.now) (map (λ row. row.postings) terms.now) field doc ordinal) ordinals.now }
{
    ordinals
        .iter()
        .all(|ordinal| is_ordinal(terms, field, doc, *ordinal))
}

/// Whether each number of a document is a term of the field that the document has.
fn have_keys_at(terms: &RowList, field: u32, doc: u32, numbers: &[i64]) -> bool
    ensures { IsTrue result ↔ All (λ number. IsKeyed (map (λ row. row.term) terms.now) (map (λ row. row.postings) terms.now) field doc number) numbers.now }
{
    numbers
        .iter()
        .all(|number| is_keyed(terms, field, doc, *number))
}

/// Whether an ordinal is the place of a term of the field that the document has.
fn is_ordinal(terms: &RowList, field: u32, doc: u32, ordinal: u64) -> bool
    ensures { IsTrue result ↔ IsOrdinalAt (map (λ row. row.term) terms.now) (map (λ row. row.postings) terms.now) field doc ordinal }
{
    match terms.as_slice().get(ordinal as usize) {
        Some(row) => row.term.0 == field && has_document(terms, ordinal as usize, doc),
        None => false,
    }
}

/// Whether a number is a term of the field that the document has.
fn is_keyed(terms: &RowList, field: u32, doc: u32, number: i64) -> bool
    ensures { IsTrue result ↔ IsKeyed (map (λ row. row.term) terms.now) (map (λ row. row.postings) terms.now) field doc number }
{
    match place_of_term(terms.as_slice(), field, &number_key(number)) {
        Some(place) => has_document(terms, place, doc),
        None => false,
    }
}

/// Whether a document has the term at this place; no document has one past the last.
fn has_document(terms: &RowList, place: usize, doc: u32) -> bool
    ensures { IsTrue result ↔ Contains (documents (slice_index_or (map (λ row. row.postings) terms.now) place [])) doc }
{
    match terms.as_slice().get(place) {
        Some(row) => has_posting(row.postings.as_slice(), doc),
        None => false,
    }
}

/// Whether a document is one of a term's.
fn has_posting(postings: &[(u32, PositionList)], doc: u32) -> bool
    requires { IsStrictlyIncreasing (documents postings.now) }
    ensures { IsTrue result ↔ Contains (documents postings.now) doc }
{
    index_of(postings, doc).is_some()
}
