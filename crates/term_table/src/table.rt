//! The table of a segment's terms.

ghost use Rattle.std.specs.Prelude.{◌≡◌, ℕ, ◌==◌, ◌+◌, ◌<◌, ◌≤◌, ◌↔◌, List, length, map, Some, slice_get, IsTrue, IsNone, IfSome, IfOk, OnOk, OnErr, Contains, ◌++◌, drop};
ghost use Rattle.part_text.specs.Places.{row, ArePlaces};
ghost use Rattle.term_table.specs.declared.rows.TermRow.{TermRow};
ghost use Rattle.term_table.specs.Terms.{AreAscending};
ghost use Rattle.term_table.specs.Part.{AreRows, rows_text, Stand, Belong};
ghost use Rattle.term_table.specs.Kept.{term_of, HasTerm};
ghost use Rattle.term_table.specs.Ranges.{is_between, is_of_field, has_prefix, comes_before, lies_below, IsFront, IsRange};

use crate::cut::{Cut, is_before};
use crate::placing::{from_place, placed_rows};
use crate::written::put_rows;
use crate::{Edge, NoMemory, PlaceList, RowList};
use part_text::{first_u32, row, u64_at};
use std::alloc::Global;
use std::marker::Model;

/// The terms of a segment by ordinal: the first term has the ordinal 0.
///
/// It reads the segment's bytes in place.
#[derive(Drop)]
pub struct TermTable<'a> {
    bytes: &'a [u8],
    places: &'a [u64],
}

impl<'a> Model for TermTable<'a> {
    ghost use Rattle.std.specs.Prelude.{ℕ, List};
    ghost use Rattle.term_table.specs.Kept.{terms_of, IsTable};

    ghost Value = { List (ℕ × List ℕ) };

    ghost view = { λ table. terms_of table.bytes.now table.places.now };

    ghost invariant = { λ table. IsTable table.bytes.now table.places.now };
}

impl<'a> TermTable<'a> {
    /// The table of the terms that stand in these bytes at these places. Takes no memory and reads nothing.
    pub fn over(bytes: &'a [u8], places: &'a PlaceList) -> TermTable<'a>
        requires { Belong bytes.now places.now }
        ensures { (at : ℕ) (rows : List TermRow) (end : ℕ) → Stand bytes.now at rows places.now end → result ≡ map (λ row. row.term) rows }
    {
        TermTable {
            bytes,
            places: places.as_slice(),
        }
    }

    /// Where the terms with their postings stand that are written from a place on, and the place behind them; None exactly
    /// where none stand there.
    pub fn places(
        alloc: Global,
        bytes: &[u8],
        at: u64,
    ) -> Result<Option<(PlaceList, u64)>, NoMemory>
        ensures found { IfOk result (λ found. IfSome found (λ it. (rows : List TermRow) × Stand bytes.now at rows it.0 it.1)) }
        ensures only { IfOk result (λ found. IsNone found → (rows : List TermRow) (rest : List ℕ)
            → AreRows rows → drop at bytes.now ≡ rows_text rows ++ rest → ⊥) }
    {
        let end = bytes.len() as u64;
        let Some(own) = from_place(bytes, at) else {
            return Ok(None);
        };
        let Some((count, first)) = u64_at(own) else {
            return Ok(None);
        };
        match placed_rows(alloc, count, first, end)? {
            Some((places, rest)) => Ok(Some((places, end - rest.len() as u64))),
            None => Ok(None),
        }
    }

    /// Appends terms with their postings as they are written. After NoMemory the bytes are as they were.
    pub fn written(rows: &RowList, into: &mut Vec<u8>) -> Result<(), NoMemory>
        ensures written { OnOk result (into.new.items ≡ into.old.items ++ rows_text rows.now) }
        ensures unchanged { OnErr result (into.new.items ≡ into.old.items) }
    {
        let old = into.len();
        let done = put_rows(rows, into);
        if done.is_err() {
            into.truncate(old);
        }
        done
    }

    /// How many terms there are.
    #[tactic(auto, using(crate::proofs::Tables::tables))]
    pub fn count(&self) -> u64
        ensures count { result ≡ length self.now }
        ensures ascending { AreAscending self.now }
    {
        (self.places.len() - 1) as u64
    }

    /// The field and the bytes of the term with this ordinal.
    #[tactic(auto, using(crate::proofs::Tables::tables))]
    pub fn term(&self, ordinal: u64) -> (u32, &'a [u8])
        requires { ordinal < length self.now }
        ensures { slice_get self.now ordinal ≡ Some (result.0, result.1.now) }
    {
        term_of(row(self.places, self.bytes, ordinal as usize))
    }

    /// The ordinal of a term, and None where the table doesn't have it.
    pub fn find(&self, field: u32, bytes: &[u8]) -> Option<u64>
        ensures found { IfSome result (λ ordinal. slice_get self.now ordinal ≡ Some (field, bytes.now)) }
        ensures missing { IsNone result ↔ ¬ Contains self.now (field, bytes.now) }
    {
        let ordinal = self.cut_at(field, &Cut::Low(Edge::Closed(bytes)));
        if ordinal < self.count() && self.is_at(ordinal, field, bytes) {
            Some(ordinal)
        } else {
            None
        }
    }

    /// The terms of a field between two edges: the ordinal of the first, and the one past the last.
    ///
    /// Where no term lies between the edges, both are the ordinal of the first term past the low edge.
    pub fn range(&self, field: u32, low: Edge, high: Edge) -> (u64, u64)
        ensures ordered { result.0 ≤ result.1 }
        ensures within { result.1 ≤ length self.now }
        // what comes before the range
        ensures below { IsFront (lies_below field low.entry) self.now result.0 }
        ensures between { IsRange (is_between field low.entry high.entry) self.now result.0 result.1 }
    {
        let first = self.cut_at(field, &Cut::Low(low));
        let end = self.cut_at(field, &Cut::High(high));
        (first, end.max(first))
    }

    /// The terms of a field: the ordinal of the first, and the one past the last.
    pub fn field_range(&self, field: u32) -> (u64, u64)
        ensures ordered { result.0 ≤ result.1 }
        ensures within { result.1 ≤ length self.now }
        ensures of_field { IsRange (is_of_field field) self.now result.0 result.1 }
    {
        self.range(field, Edge::Unbounded, Edge::Unbounded)
    }

    /// The terms of a field that begin with these bytes: the ordinal of the first, and the one past the last.
    ///
    /// Where no term begins with them, both are the ordinal of the first term past them.
    pub fn prefix(&self, field: u32, bytes: &[u8]) -> (u64, u64)
        ensures ordered { result.0 ≤ result.1 }
        ensures within { result.1 ≤ length self.now }
        // what comes before the range
        ensures below { IsFront (lies_below field (Edge.Closed bytes.entry)) self.now result.0 }
        ensures prefixed { IsRange (has_prefix field bytes.now) self.now result.0 result.1 }
    {
        let first = self.cut_at(field, &Cut::Low(Edge::Closed(bytes)));
        let end = self.cut_at(field, &Cut::Prefix(bytes));
        (first, end.max(first))
    }

    /// How many terms come before a cut of a field: all that do stand before all others.
    #[tactic(auto, using(crate::proofs::Orders::searches))]
    fn cut_at(&self, field: u32, cut: &Cut) -> u64
        ensures within { result ≤ length self.now }
        ensures split { IsFront (comes_before field cut.now) self.now result }
    {
        let mut low = 0;
        let mut high = self.count();
        'search: while low < high {
            let middle = low + (high - low) / 2;
            if self.lies_before(middle, field, cut) {
                low = middle + 1;
            } else {
                high = middle;
            }
        }
        low
    }

    /// Whether the term with this ordinal comes before a cut of a field.
    fn lies_before(&self, ordinal: u64, field: u32, cut: &Cut) -> bool
        requires { ordinal < length self.now }
        ensures { (term : ℕ × List ℕ) → slice_get self.now ordinal ≡ Some term → result ≡ comes_before field cut.now term }
    {
        let (own, bytes) = self.term(ordinal);
        own < field || (own == field && is_before(cut, bytes))
    }

    /// Whether this is the term with this ordinal.
    fn is_at(&self, ordinal: u64, field: u32, bytes: &[u8]) -> bool
        requires { ordinal < length self.now }
        ensures { IsTrue result ↔ (slice_get self.now ordinal ≡ Some (field, bytes.now)) }
    {
        let (own, term) = self.term(ordinal);
        own == field && term == bytes
    }
}

/// The term at the front of a row.
fn term_of(row: &[u8]) -> (u32, &[u8])
    requires { HasTerm row.now }
    ensures { (result.0, result.1.now) ≡ term_of row.now }
{
    let (_, behind_field) = row.split_at(4);
    let count = first_u32(behind_field) as usize;
    let (_, behind_length) = row.split_at(8);
    (first_u32(row), behind_length.split_at(count).0)
}
