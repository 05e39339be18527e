//! Whether what the columns of keyword and number fields hold stands among the terms and their postings.

ghost use Rattle.std.specs.Prelude.{◌≡◌, ◌↔◌, ◌<◌, ℕ, List, [], length, slice_get, Some, IsTrue, Contains, slice_index_or};
ghost use Rattle.std.specs.List.{All};
ghost use Rattle.postings.specs.Postings.{documents};
ghost use Rattle.segment_parts.specs.Lists.{terms_of, postings_of};
ghost use Rattle.segment_parts.specs.Agree.{IsOrdinalAt, IsKeyed, HaveOrdinals, HaveKeys};

use doc_values::{NumberColumn, OrdinalColumn, Values};
use segment_parts::Parts;
use term_table::number_key;

/// Whether each ordinal in a column is the place of a term of the column's field, and the row's document is one of
/// that term's.
#[tactic(auto, using(segment_parts::specs::Passes::passes))]
pub(crate) fn have_ordinals(parts: &Parts) -> bool
    ensures { IsTrue result ↔ All (HaveOrdinals (terms_of parts.now) (postings_of parts.now)) parts.now.ordinals }
{
    'columns: for at in 0..parts.ordinal_columns() {
        let (field, column) = parts.ordinal_column(at);
        if !are_ordinal_rows(parts, field, &column) {
            return false;
        }
    }
    true
}

/// Whether each number in a column stands by its key among the terms of the column's field, and the row's document is
/// one of that term's.
#[tactic(auto, using(segment_parts::specs::Passes::passes))]
pub(crate) fn have_keys(parts: &Parts) -> bool
    ensures { IsTrue result ↔ All (HaveKeys (terms_of parts.now) (postings_of parts.now)) parts.now.numbers }
{
    'columns: for at in 0..parts.number_columns() {
        let (field, column) = parts.number_column(at);
        if !are_keyed_rows(parts, field, &column) {
            return false;
        }
    }
    true
}

/// Whether each ordinal in a field's rows is the place of a term of the field that the row's document has.
#[tactic(auto, using(segment_parts::specs::Passes::passes))]
fn are_ordinal_rows(parts: &Parts, field: u32, column: &OrdinalColumn) -> bool
    ensures { IsTrue result ↔ HaveOrdinals (terms_of parts.now) (postings_of parts.now) (field, column.now) }
{
    'rows: for row in 0..column.rows() {
        if !are_ordinals(parts, field, column.doc(row), &column.row_values(row)) {
            return false;
        }
    }
    true
}

/// Whether each number in a field's rows is a term of the field that the row's document has.
#[tactic(auto, using(segment_parts::specs::Passes::passes))]
fn are_keyed_rows(parts: &Parts, field: u32, column: &NumberColumn) -> bool
    ensures { IsTrue result ↔ HaveKeys (terms_of parts.now) (postings_of parts.now) (field, column.now) }
{
    'rows: for row in 0..column.rows() {
        if !are_keyed(parts, field, column.doc(row), &column.row_values(row)) {
            return false;
        }
    }
    true
}

/// Whether each ordinal of a document is the place of a term of the field that the document has.
#[tactic(auto, using(segment_parts::specs::Passes::passes))]
fn are_ordinals(parts: &Parts, field: u32, doc: u32, values: &Values<u64>) -> bool
    ensures { IsTrue result ↔ All (λ ordinal. IsOrdinalAt (terms_of parts.now) (postings_of parts.now) field doc ordinal) values.now }
{
    'values: for at in 0..values.len() {
        if !is_ordinal(parts, field, doc, values.value(at)) {
            return false;
        }
    }
    true
}

/// Whether each number of a document is a term of the field that the document has.
#[tactic(auto, using(segment_parts::specs::Passes::passes))]
fn are_keyed(parts: &Parts, field: u32, doc: u32, values: &Values<i64>) -> bool
    ensures { IsTrue result ↔ All (λ number. IsKeyed (terms_of parts.now) (postings_of parts.now) field doc number) values.now }
{
    'values: for at in 0..values.len() {
        if !is_keyed(parts, field, doc, values.value(at)) {
            return false;
        }
    }
    true
}

/// Whether an ordinal is the place of a term of the field that the document has.
fn is_ordinal(parts: &Parts, field: u32, doc: u32, ordinal: u64) -> bool
    ensures { IsTrue result ↔ IsOrdinalAt (terms_of parts.now) (postings_of parts.now) field doc ordinal }
{
    let terms = parts.terms();
    if ordinal >= terms.count() {
        return false;
    }
    terms.term(ordinal).0 == field && is_posted(parts, ordinal, doc)
}

/// Whether a number is a term of the field that the document has.
fn is_keyed(parts: &Parts, field: u32, doc: u32, number: i64) -> bool
    ensures { IsTrue result ↔ IsKeyed (terms_of parts.now) (postings_of parts.now) field doc number }
{
    let terms = parts.terms();
    let _count = terms.count();
    match terms.find(field, &number_key(number)) {
        Some(ordinal) => is_posted(parts, ordinal, doc),
        None => false,
    }
}

/// Whether a document has the term with this ordinal.
fn is_posted(parts: &Parts, ordinal: u64, doc: u32) -> bool
    requires { ordinal < length (terms_of parts.now) }
    ensures { IsTrue result ↔ Contains (documents (slice_index_or (postings_of parts.now) ordinal [])) doc }
{
    let mut cursor = parts.postings().cursor(ordinal);
    let _first = cursor.doc();
    match cursor.advance(doc) {
        Some(own) => own == doc,
        None => false,
    }
}
