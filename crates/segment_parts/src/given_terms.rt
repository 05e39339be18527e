//! Whether terms that are given say the same as the columns of their fields, before they are written.

ghost use Rattle.std.specs.Prelude.{◌≡◌, ◌<◌, ◌↔◌, ℕ, List, length, map, slice_get, Some, All, Contains, IsTrue, FitsSigned};
ghost use Rattle.std.specs.Int.{w64};
ghost use Rattle.std.specs.List.Sorted.{IsSorted};
ghost use Rattle.std.specs.Ordering.{int_cmp};
ghost use Rattle.term_table.specs.Keys.{number_key};
ghost use Rattle.segment_parts.specs.Fields.{column_of};
ghost use Rattle.segment_parts.specs.Lists.{terms_of};
ghost use Rattle.segment_parts.specs.Agree.{IsTermAt, IsTermOf, IsWordAt, IsKeywordAt, IsNumberAt, HaveTerms};

use crate::Columns;
use crate::given_values::{have_keys, have_ordinals};
use crate::search::values_of;
use crate::sentences::MAX_TERM_LEN;
use block_bits::BitSet;
use doc_values::{NumberRows, OrdinalRows};
use term_table::{PositionList, number_of};

/// Whether terms and the columns of fields say the same.
pub(crate) fn have_terms(columns: &Columns) -> bool
    ensures { IsTrue result ↔ HaveTerms columns.now }
{
    if !are_terms(columns) {
        return false;
    }
    if !have_ordinals(columns) {
        return false;
    }
    have_keys(columns)
}

/// Whether each term has documents as its field's column says.
fn are_terms(columns: &Columns) -> bool
    ensures { IsTrue result ↔ ((ordinal : ℕ) (term : ℕ × List ℕ) → slice_get (terms_of columns.now) ordinal ≡ Some term → IsTermAt columns.now ordinal term) }
{
    'terms: for ordinal in 0..columns.terms.as_slice().len() {
        if !is_term_at(columns, ordinal) {
            return false;
        }
    }
    true
}

/// Whether a term has at most 32,766 bytes, and documents as its field's column says.
fn is_term_at(columns: &Columns, ordinal: usize) -> bool
    requires { ordinal < length columns.now.terms }
    ensures { (term : ℕ × List ℕ) → slice_get (terms_of columns.now) ordinal ≡ Some term → (IsTrue result ↔ IsTermAt columns.now ordinal term) }
{
    let row = &columns.terms.as_slice()[ordinal];
    let bytes = row.term.1.as_slice();
    let postings = row.postings.as_slice();
    bytes.len() <= MAX_TERM_LEN && is_term_of(columns, row.term.0, ordinal as u64, bytes, postings)
}

/// Whether the postings of a term are as its field's column says; a field without a column has no term.
fn is_term_of(
    columns: &Columns,
    field: u32,
    ordinal: u64,
    bytes: &[u8],
    postings: &[(u32, PositionList)],
) -> bool
    ensures { IsTrue result ↔ IsTermOf (column_of field columns.now.present) (column_of field columns.now.ordinals) (column_of field columns.now.numbers) ordinal bytes.now postings.now }
{
    match columns.present.get(field) {
        Some(present) => are_word(present, postings),
        None => match columns.ordinals.get(field) {
            Some(column) => are_keyword(column, ordinal, postings),
            None => match columns.numbers.get(field) {
                Some(column) => are_number(column, bytes, postings),
                None => false,
            },
        },
    }
}

/// Whether postings are those of a word of a text field.
fn are_word(present: &BitSet, postings: &[(u32, PositionList)]) -> bool
    ensures { IsTrue result ↔ All (IsWordAt present.now) postings.now }
{
    postings.iter().all(|posting| is_word_at(present, posting))
}

/// Whether a posting is one of a word: with positions, and of a document that has a value of the field.
fn is_word_at(present: &BitSet, posting: &(u32, PositionList)) -> bool
    ensures { IsTrue result ↔ IsWordAt present.now posting.now }
{
    let (doc, positions) = posting;
    !positions.as_slice().is_empty() && *doc < present.len() && present.has(*doc)
}

/// Whether postings are those of the keyword with this ordinal.
fn are_keyword(column: &OrdinalRows, ordinal: u64, postings: &[(u32, PositionList)]) -> bool
    ensures { IsTrue result ↔ All (IsKeywordAt column.now.1 ordinal) postings.now }
{
    postings
        .iter()
        .all(|posting| is_keyword_at(column, ordinal, posting))
}

/// Whether a posting is one of a keyword: without positions, and of a document that has it in the field's column.
fn is_keyword_at(column: &OrdinalRows, ordinal: u64, posting: &(u32, PositionList)) -> bool
    ensures { IsTrue result ↔ IsKeywordAt column.now.1 ordinal posting.now }
{
    let (doc, positions) = posting;
    positions.as_slice().is_empty() && values_of(column, *doc).binary_search(&ordinal).is_ok()
}

/// Whether postings are those of the number with this key.
fn are_number(column: &NumberRows, key: &[u8], postings: &[(u32, PositionList)]) -> bool
    ensures { IsTrue result ↔ All (IsNumberAt column.now.1 key.now) postings.now }
{
    postings
        .iter()
        .all(|posting| is_number_at(column, key, posting))
}

/// Whether a posting is one of a number: without positions, and of a document that has it in the field's column.
fn is_number_at(column: &NumberRows, key: &[u8], posting: &(u32, PositionList)) -> bool
    ensures { IsTrue result ↔ IsNumberAt column.now.1 key.now posting.now }
{
    let (doc, positions) = posting;
    positions.as_slice().is_empty() && has_key(values_of(column, *doc), key)
}

/// Whether one of these numbers, which ascend, has this key.
fn has_key(numbers: &[i64], key: &[u8]) -> bool
    requires ascending { IsSorted int_cmp numbers.now }
    requires fit { All (FitsSigned w64) numbers.now }
    ensures { IsTrue result ↔ Contains (map number_key numbers.now) key.now }
{
    match number_of(key) {
        Some(number) => numbers.binary_search(&number).is_ok(),
        None => false,
    }
}
