//! The parts of a segment in its bytes, before it is known that they agree.

ghost use Rattle.std.specs.Prelude.{◌≡◌, ◌≤◌, ◌++◌, ◌<◌, ℕ, List, Some, length, count_by, drop, slice_get, IfOk, IfSome, IsNone};
ghost use Rattle.std.specs.Option.{option_map};
ghost use Rattle.block_bits.specs.Flags.{is_marked};
ghost use Rattle.stored_sources.specs.Stands.{AreRoots};
ghost use Rattle.segment_parts.specs.Text.{segment_text};
ghost use Rattle.segment_parts.specs.Fields.{column_of};
ghost use Rattle.segment_parts.specs.Lists.{terms_of, postings_of};
ghost use Rattle.segment_parts.specs.Parts.{root_flags, AreParts};
ghost use Rattle.segment_parts.specs.Rows.{AreRowsAt, NoRows};
ghost use Rattle.segment_parts.specs.Tails.{AreFieldsAt, NoFields};
ghost use Rattle.segment_parts.specs.declared.columns.Columns.{Columns};

use crate::head::head_at;
use crate::presence::present_at;
use crate::values::columns_at;
use crate::{ByField, NoMemory};
use block_bits::{BitList, BitSet, words_are_of_one_set};
use doc_values::{NumberColumn, OrdinalColumn};
use part_text::PlaceList;
use postings::{PostingsTable, SkipLists};
use std::alloc::Global;
use std::marker::Model;
use stored_sources::StoredSources;
use term_table::TermTable;

/// The bytes of a segment, and where its parts stand in them.
#[derive(Drop)]
pub struct Parts {
    bytes: Vec<u8>,
    documents: u32,
    scopes: BitList,
    roots: PlaceList,
    terms: PlaceList,
    skips: SkipLists,
    ordinals: ByField<PlaceList>,
    numbers: ByField<PlaceList>,
    present: ByField<BitSet>,
}

impl Model for Parts {
    ghost use Rattle.segment_parts.specs.declared.columns.Columns.{Columns};

    ghost Value = { Columns };

    ghost use Rattle.segment_parts.specs.InPlace.{columns_of, IsInPlace};

    ghost view = { columns_of };

    ghost invariant = { IsInPlace };
}

impl Parts {
    /// The parts that these bytes are; None exactly where they are those of no segment.
    pub fn read(alloc: Global, bytes: Vec<u8>) -> Result<Option<Parts>, NoMemory>
        ensures found { IfOk result (λ found. IfSome found (λ parts. bytes.items ≡ segment_text parts)) }
        ensures are { IfOk result (λ found. IfSome found (λ parts. AreParts parts)) }
        ensures only { IfOk result (λ found. IsNone found → (columns : Columns) → AreParts columns → bytes.items ≡ segment_text columns → ⊥) }
    {
        words_are_of_one_set();
        let Some((documents, scopes, behind)) = head_at(alloc, bytes.as_slice())? else {
            return Ok(None);
        };
        let at = bytes.len() - behind.len();
        let count = count_roots(scopes.as_slice());
        let Some((roots, terms, at)) = rows_at(alloc, bytes.as_slice(), at, count)? else {
            return Ok(None);
        };
        match fields_at(alloc, bytes.as_slice(), at, documents)? {
            Some((ordinals, numbers, present)) => {
                let skips = SkipLists::made(alloc, bytes.as_slice(), &terms)?;
                Ok(Some(Parts {
                    bytes,
                    documents,
                    scopes,
                    roots,
                    terms,
                    skips,
                    ordinals,
                    numbers,
                    present,
                }))
            }
            None => Ok(None),
        }
    }

    /// The bytes.
    pub fn bytes(&self) -> &[u8]
        ensures bytes { result.now ≡ segment_text self.now }
        ensures parts { AreParts self.now }
    {
        self.bytes.as_slice()
    }

    /// How many documents there are.
    pub fn documents(&self) -> u32
        ensures { result ≡ self.now.documents }
    {
        self.documents
    }

    /// The documents of each scope.
    pub fn scopes(&self) -> &BitList
        ensures { result.now ≡ self.now.scopes }
    {
        &self.scopes
    }

    /// The roots.
    pub fn sources(&self) -> StoredSources<'_>
        ensures { result ≡ self.now.roots }
    {
        StoredSources::over(self.bytes.as_slice(), &self.roots)
    }

    /// The terms.
    pub fn terms(&self) -> TermTable<'_>
        ensures { result ≡ terms_of self.now }
    {
        TermTable::over(self.bytes.as_slice(), &self.terms)
    }

    /// The postings of each term.
    pub fn postings(&self) -> PostingsTable<'_>
        ensures { result ≡ postings_of self.now }
    {
        PostingsTable::leaping(self.bytes.as_slice(), &self.terms, &self.skips)
    }

    /// The numbers of a field.
    pub fn numbers(&self, field: u32) -> Option<NumberColumn<'_>>
        ensures { result ≡ column_of field self.now.numbers }
    {
        match self.numbers.get(field) {
            Some(places) => Some(NumberColumn::over(self.bytes.as_slice(), places)),
            None => None,
        }
    }

    /// The ordinals of a field.
    pub fn ordinals(&self, field: u32) -> Option<OrdinalColumn<'_>>
        ensures { result ≡ column_of field self.now.ordinals }
    {
        match self.ordinals.get(field) {
            Some(places) => Some(OrdinalColumn::over(self.bytes.as_slice(), places)),
            None => None,
        }
    }

    /// The text fields, each with the documents that have a value.
    pub fn present(&self) -> &ByField<BitSet>
        ensures { result.now ≡ self.now.present }
    {
        &self.present
    }

    /// How many fields have numbers.
    pub fn number_columns(&self) -> usize
        ensures { result ≡ length self.now.numbers }
    {
        self.numbers.as_slice().len()
    }

    /// Of the fields that have numbers, the one with this place, and its numbers.
    pub fn number_column(&self, at: usize) -> (u32, NumberColumn<'_>)
        requires { at < length self.now.numbers }
        ensures { slice_get self.now.numbers at ≡ Some result }
    {
        let kept = &self.numbers.as_slice()[at];
        let column = NumberColumn::over(self.bytes.as_slice(), &kept.1);
        (kept.0, column)
    }

    /// How many fields have ordinals.
    pub fn ordinal_columns(&self) -> usize
        ensures { result ≡ length self.now.ordinals }
    {
        self.ordinals.as_slice().len()
    }

    /// Of the fields that have ordinals, the one with this place, and its ordinals.
    pub fn ordinal_column(&self, at: usize) -> (u32, OrdinalColumn<'_>)
        requires { at < length self.now.ordinals }
        ensures { slice_get self.now.ordinals at ≡ Some result }
    {
        let kept = &self.ordinals.as_slice()[at];
        let column = OrdinalColumn::over(self.bytes.as_slice(), &kept.1);
        (kept.0, column)
    }
}

/// How many documents are roots, by the documents of each scope.
pub fn count_roots(scopes: &[BitSet]) -> u32
    ensures { result ≡ count_by is_marked (root_flags scopes.now) }
{
    match scopes {
        [] => 0,
        [roots, ..] => roots.count(),
    }
}

/// The places of so many roots that stand from a place of bytes on, those of the terms behind them, and the place behind
/// these; None exactly where none stand there.
fn rows_at(
    alloc: Global,
    bytes: &[u8],
    at: usize,
    roots: u32,
) -> Result<Option<(PlaceList, PlaceList, usize)>, NoMemory>
    requires { at ≤ length bytes.now }
    ensures taken { IfOk result (λ found. IfSome found (λ it. AreRowsAt bytes.now at roots it.0 it.1 it.2)) }
    ensures nowhere { IfOk result (λ found. IsNone found → NoRows (drop at bytes.now) roots) }
{
    let Some((roots, middle)) = StoredSources::places(alloc, bytes, at as u64, roots)? else {
        return Ok(None);
    };
    match TermTable::places(alloc, bytes, middle)? {
        Some((terms, end)) => Ok(Some((roots, terms, end as usize))),
        None => Ok(None),
    }
}

/// The columns of ordinals, of numbers and of text fields that stand from a place of bytes up to their end; None exactly
/// where none stand there.
fn fields_at(
    alloc: Global,
    bytes: &[u8],
    at: usize,
    documents: u32,
) -> Result<Option<(ByField<PlaceList>, ByField<PlaceList>, ByField<BitSet>)>, NoMemory>
    requires { at ≤ length bytes.now }
    ensures taken { IfOk result (λ found. IfSome found (λ it. AreFieldsAt bytes.now at documents it.0 it.1 it.2)) }
    ensures nowhere { IfOk result (λ found. IsNone found → NoFields documents (drop at bytes.now)) }
{
    let Some((ordinals, middle)) = columns_at::<u64>(alloc, bytes, at)? else {
        return Ok(None);
    };
    let Some((numbers, behind)) = columns_at::<i64>(alloc, bytes, middle)? else {
        return Ok(None);
    };
    let Some((present, rest)) = present_at(alloc, documents, bytes.split_at(behind).1)? else {
        return Ok(None);
    };
    if rest.is_empty() {
        Ok(Some((ordinals, numbers, present)))
    } else {
        Ok(None)
    }
}
