//! Whether terms say the same as the columns of their fields.

ghost use Rattle.std.specs.Prelude.{◌≡◌, ◌<◌, ◌≤◌, ◌↔◌, ℕ, List, length, map, slice_get, slice_index_or, Some, [], All, Contains, IsTrue, FitsSigned};
ghost use Rattle.std.specs.Int.{w64};
ghost use Rattle.std.specs.List.Sorted.{IsSorted};
ghost use Rattle.std.specs.Ordering.{nat_cmp, int_cmp};
ghost use Rattle.term_table.specs.Keys.{number_key};
ghost use Rattle.segment_parts.specs.Fields.{column_of};
ghost use Rattle.segment_parts.specs.Lists.{terms_of, postings_of};
ghost use Rattle.segment_parts.specs.Agree.{IsTermAt, IsTermOf, IsWordAt, IsKeywordAt, IsNumberAt};
ghost use Rattle.segment.specs.Kinds.{IsPosting, HasFits};

use block_bits::BitSet;
use doc_values::{NumberColumn, OrdinalColumn, Values};
use postings::Cursor;
use segment_parts::{MAX_TERM_LEN, Parts};
use std::cmp::Ordering;
use term_table::number_of;

/// What a term is, as the column of its field is.
#[derive(Drop)]
enum Kind<'a> {
    /// A word of a text field, by the documents with a value.
    Word(&'a BitSet),
    /// A keyword, by the field's column and the term's ordinal.
    Keyword(OrdinalColumn<'a>, u64),
    /// A number, by the field's column and the term's key.
    Number(NumberColumn<'a>, &'a [u8]),
}

/// Whether each term has documents as its field's column says.
pub(crate) fn are_terms(parts: &Parts) -> bool
    ensures { IsTrue result ↔ ((ordinal : ℕ) (term : ℕ × List ℕ) → slice_get (terms_of parts.now) ordinal ≡ Some term → IsTermAt parts.now ordinal term) }
{
    'ordinals: for ordinal in 0..parts.terms().count() {
        if !is_term_at(parts, ordinal) {
            return false;
        }
    }
    true
}

/// Whether a term has at most 32,766 bytes, and documents as its field's column says.
fn is_term_at(parts: &Parts, ordinal: u64) -> bool
    requires { ordinal < length (terms_of parts.now) }
    ensures { (term : ℕ × List ℕ) → slice_get (terms_of parts.now) ordinal ≡ Some term → (IsTrue result ↔ IsTermAt parts.now ordinal term) }
{
    let (field, bytes) = parts.terms().term(ordinal);
    if bytes.len() > MAX_TERM_LEN {
        return false;
    }
    is_term_of(parts, field, ordinal, bytes)
}

/// Whether the postings of a term are as its field's column says; a field without a column has no term.
fn is_term_of(parts: &Parts, field: u32, ordinal: u64, bytes: &[u8]) -> bool
    requires { ordinal < length (terms_of parts.now) }
    ensures { IsTrue result ↔ IsTermOf (column_of field parts.now.present) (column_of field parts.now.ordinals) (column_of field parts.now.numbers) ordinal bytes.now (slice_index_or (postings_of parts.now) ordinal []) }
{
    let _parts = parts.bytes();
    let cursor = parts.postings().cursor(ordinal);
    if let Some(present) = parts.present().get(field) {
        return are_postings(&Kind::Word(present), cursor);
    }
    if let Some(rows) = parts.ordinals(field) {
        return are_postings(&Kind::Keyword(rows, ordinal), cursor);
    }
    if let Some(rows) = parts.numbers(field) {
        return are_postings(&Kind::Number(rows, bytes), cursor);
    }
    false
}

/// Whether the postings from a cursor on are those of a term of a kind.
fn are_postings(kind: &Kind, postings: Cursor) -> bool
    requires fits { HasFits kind.now }
    requires start { postings.at ≡ 0 }
    ensures { IsTrue result ↔ All (IsPosting kind.now) postings.entry.postings }
{
    let mut cursor = postings;
    let mut present = cursor.doc();
    'postings: while let Some(doc) = present {
        if !is_posting(kind, doc, cursor.positions()) {
            return false;
        }
        present = cursor.next();
    }
    true
}

/// Whether a posting with this document and so many positions is one of a term of a kind.
fn is_posting(kind: &Kind, doc: u32, positions: u32) -> bool
    requires { HasFits kind.now }
    ensures { (posting : ℕ × List ℕ) → posting.0 ≡ doc → length posting.1 ≡ positions → (IsTrue result ↔ IsPosting kind.now posting) }
{
    match kind {
        Kind::Word(set) => is_word(set, doc, positions),
        Kind::Keyword(rows, ordinal) => is_keyword(rows, *ordinal, doc, positions),
        Kind::Number(rows, key) => is_number(rows, key, doc, positions),
    }
}

/// Whether a posting is one of a word: with positions, and of a document that has a value of the field.
fn is_word(set: &BitSet, doc: u32, positions: u32) -> bool
    ensures { (posting : ℕ × List ℕ) → posting.0 ≡ doc → length posting.1 ≡ positions → (IsTrue result ↔ IsWordAt set.now posting) }
{
    if positions == 0 {
        return false;
    }
    if doc >= set.len() {
        return false;
    }
    set.has(doc)
}

/// Whether a posting is one of a keyword: without positions, and of a document that has it in the field's column.
fn is_keyword(rows: &OrdinalColumn, ordinal: u64, doc: u32, positions: u32) -> bool
    ensures { (posting : ℕ × List ℕ) → posting.0 ≡ doc → length posting.1 ≡ positions → (IsTrue result ↔ IsKeywordAt rows.now ordinal posting) }
{
    if positions > 0 {
        return false;
    }
    has_ordinal(&rows.values(doc), ordinal)
}

/// Whether a posting is one of a number: without positions, and of a document that has it in the field's column.
fn is_number(rows: &NumberColumn, key: &[u8], doc: u32, positions: u32) -> bool
    requires { All (λ row. All (FitsSigned w64) row.1) rows.now }
    ensures { (posting : ℕ × List ℕ) → posting.0 ≡ doc → length posting.1 ≡ positions → (IsTrue result ↔ IsNumberAt rows.now key.now posting) }
{
    if positions > 0 {
        return false;
    }
    has_key(&rows.values(doc), key)
}

/// Whether an ordinal is one of these, which ascend.
fn has_ordinal(values: &Values<u64>, ordinal: u64) -> bool
    requires { IsSorted nat_cmp values.now }
    ensures { IsTrue result ↔ Contains values.now ordinal }
{
    let mut low = 0;
    let mut high = values.len();
    'halves: while low < high {
        let middle = low + (high - low) / 2;
        match values.value(middle).cmp(&ordinal) {
            Ordering::Less => low = middle + 1,
            Ordering::Equal => return true,
            Ordering::Greater => high = middle,
        }
    }
    false
}

/// Whether one of these numbers, which ascend, has this key.
fn has_key(values: &Values<i64>, key: &[u8]) -> bool
    requires ascending { IsSorted int_cmp values.now }
    requires fit { All (FitsSigned w64) values.now }
    ensures { IsTrue result ↔ Contains (map number_key values.now) key.now }
{
    match number_of(key) {
        Some(number) => has_number(values, number),
        None => false,
    }
}

/// Whether a number is one of these, which ascend.
fn has_number(values: &Values<i64>, number: i64) -> bool
    requires { IsSorted int_cmp values.now }
    ensures { IsTrue result ↔ Contains values.now number }
{
    let mut low = 0;
    let mut high = values.len();
    'halves: while low < high {
        let middle = low + (high - low) / 2;
        match values.value(middle).cmp(&number) {
            Ordering::Less => low = middle + 1,
            Ordering::Equal => return true,
            Ordering::Greater => high = middle,
        }
    }
    false
}
