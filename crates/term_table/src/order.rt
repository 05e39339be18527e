//! Tests that terms, documents and positions stand in order.

ghost use Rattle.std.specs.Prelude.{◌↔◌, IsTrue};
ghost use Rattle.term_table.specs.Postings.{AreAscending, ArePostings};
ghost use Rattle.term_table.specs.Part.{IsRow, AreRows};

use crate::walk::{follows, term_follows};
use crate::{PositionList, TermRow};

/// Whether numbers are fewer than 2^32 and ascend.
fn is_ascending(numbers: &[u32]) -> bool
    ensures { IsTrue result ↔ AreAscending numbers.now }
{
    if numbers.len() > u32::MAX as usize {
        return false;
    }
    'numbers: for at in 1..numbers.len() {
        if numbers[at] <= numbers[at - 1] {
            return false;
        }
    }
    true
}

/// Whether postings are those of a term: their documents ascend, and so do the positions in each.
fn are_postings(postings: &[(u32, PositionList)]) -> bool
    ensures { IsTrue result ↔ ArePostings postings.now }
{
    if postings.len() > u32::MAX as usize {
        return false;
    }
    let mut before = None;
    'postings: for (document, positions) in postings {
        if !follows(before, *document) {
            return false;
        }
        if !is_ascending(positions.as_slice()) {
            return false;
        }
        before = Some(*document);
    }
    true
}

/// Whether a term has fewer than 2^32 bytes, and at least one posting, in order.
fn is_row(row: &TermRow) -> bool
    ensures { IsTrue result ↔ IsRow row.now }
{
    let (_field, bytes) = (row.term.0, row.term.1.as_slice());
    if bytes.len() > u32::MAX as usize {
        return false;
    }
    let postings = row.postings.as_slice();
    if postings.is_empty() {
        return false;
    }
    are_postings(postings)
}

/// Whether terms come in order, each of them with postings in order.
pub(crate) fn are_rows(rows: &[TermRow]) -> bool
    ensures { IsTrue result ↔ AreRows rows.now }
{
    let mut before = None;
    'rows: for row in rows {
        let term = (row.term.0, row.term.1.as_slice());
        if !term_follows(before, term) {
            return false;
        }
        if !is_row(row) {
            return false;
        }
        before = Some(term);
    }
    true
}
