//! The documents that have terms of a field.

ghost use Rattle.std.specs.Prelude.{◌≡◌, ℕ, ◌<◌, ◌≤◌, ◌||◌, false, Bool, List, length, slice_index_or, drop, map, take, IfOk, OnOk};
ghost use Rattle.std.specs.List.{All, list_any};
ghost use Rattle.std.specs.Str.{bytes_eq};
ghost use Rattle.postings.specs.Marks.{has_document};
ghost use Rattle.segment.specs.Lists.{terms_of, postings_of};
ghost use Rattle.term_table.specs.Ranges.{IsRange};
ghost use Rattle.leaf_search.specs.Keys.{FitsKey, EndFits, key_of, is_term, is_within, lies_within, begins, has_one_of};
ghost use Rattle.leaf_search.specs.Kept.{bytes_of};
ghost use Rattle.leaf_search.specs.Sets.{Gains};
ghost use Rattle.segment.specs.Shows.{has_term};
ghost use Rattle.leaf_search.specs.Words.{shows_some};

use crate::NoMemory;
use crate::distinct::distinct;
use crate::key::{Key, edge};
use block_bits::BitSet;
use query_ast::RangeEnd;
use segment::{Segment, terms_are_of_documents};
use std::alloc::Global;
use term_table::{Edge, TermTable};
use tree_objects::FieldValue;

/// Adds the documents of the terms with these ordinals, list by list.
fn mark_lists(segment: &Segment, first: u64, end: u64, set: &mut BitSet)
    requires long { length set.old ≡ segment.now.documents }
    requires ordered { first ≤ end }
    requires within { end ≤ length (terms_of segment.now) }
    ensures long { length set.new ≡ length set.old }
    ensures marked { (doc : ℕ) → doc < length set.old → slice_index_or set.new doc false
        ≡ (slice_index_or set.old doc false || list_any (has_document doc) (drop first (take end (postings_of segment.now)))) }
{
    terms_are_of_documents(segment);
    let postings = segment.postings();
    'lists: for ordinal in first..end {
        postings.mark(ordinal, set);
    }
}

/// Adds the documents that have a term of a field between two edges.
pub(crate) fn mark_range(segment: &Segment, field: u32, low: Edge, high: Edge, set: &mut BitSet)
    requires { length set.old ≡ segment.now.documents }
    ensures { Gains segment.now (has_term field (is_within low.entry high.entry)) set.old set.new }
{
    terms_are_of_documents(segment);
    let (first, end) = segment.terms().range(field, low, high);
    mark_lists(segment, first, end, set);
}

/// Adds the documents that have a term of a field that begins with these bytes.
pub(crate) fn mark_prefix(segment: &Segment, field: u32, start: &[u8], set: &mut BitSet)
    requires { length set.old ≡ segment.now.documents }
    ensures { Gains segment.now (has_term field (begins start.now)) set.old set.new }
{
    terms_are_of_documents(segment);
    let (first, end) = segment.terms().prefix(field, start);
    mark_lists(segment, first, end, set);
}

/// The ordinals of a term: its own alone, and none where the field doesn't have it. One search in the table.
fn ordinals_of(terms: &TermTable, field: u32, bytes: &[u8]) -> (u64, u64)
    ensures ordered { result.0 ≤ result.1 }
    ensures within { result.1 ≤ length terms.now }
    ensures own { IsRange (is_term field bytes.now) terms.now result.0 result.1 }
{
    let _count = terms.count();
    match terms.find(field, bytes) {
        Some(ordinal) => (ordinal, ordinal + 1),
        None => (0, 0),
    }
}

/// Adds the documents that have a term.
pub(crate) fn mark_term(segment: &Segment, field: u32, bytes: &[u8], set: &mut BitSet)
    requires { length set.old ≡ segment.now.documents }
    ensures { Gains segment.now (has_term field (bytes_eq bytes.now)) set.old set.new }
{
    terms_are_of_documents(segment);
    let (first, end) = ordinals_of(&segment.terms(), field, bytes);
    mark_lists(segment, first, end, set);
}

/// Adds the documents that have one of some terms.
pub(crate) fn mark_terms(segment: &Segment, field: u32, terms: &[&[u8]], set: &mut BitSet)
    requires { length set.old ≡ segment.now.documents }
    ensures { Gains segment.now (shows_some field (map (λ term. term.now) terms.now)) set.old set.new }
{
    'terms: for term in terms {
        mark_term(segment, field, term, set);
    }
}

/// Adds the documents that have the term that a value stands for.
pub(crate) fn mark_value(segment: &Segment, field: u32, value: &FieldValue, set: &mut BitSet)
    requires { length set.old ≡ segment.now.documents }
    ensures gains { Gains segment.now (has_term field (bytes_eq (key_of value.now))) set.old set.new }
    ensures fits { FitsKey value.now }
{
    let key = Key::of(value);
    mark_term(segment, field, key.as_slice(), set);
}

/// Adds the documents that have a term that one of some values stands for. The postings of each term are read once.
pub(crate) fn mark_values(
    alloc: Global,
    segment: &Segment,
    field: u32,
    values: &[FieldValue],
    set: &mut BitSet,
) -> Result<(), NoMemory>
    requires { length set.old ≡ segment.now.documents }
    ensures gains { OnOk result (Gains segment.now (has_one_of field values.now) set.old set.new) }
    ensures fit { OnOk result (All FitsKey values.now) }
{
    let keys = keys_of(alloc, values)?;
    let terms = distinct_keys(alloc, keys.as_slice())?;
    mark_terms(segment, field, terms.as_slice(), set);
    Ok(())
}

/// The keys of some values.
fn keys_of<'a>(alloc: Global, values: &'a [FieldValue]) -> Result<Vec<Key<'a>>, NoMemory>
    ensures keys { IfOk result (λ keys. map bytes_of keys.items ≡ map key_of values.now) }
    ensures fit { IfOk result (λ keys. All FitsKey values.now) }
{
    let mut keys = Vec::with_capacity(alloc, values.len())?;
    'values: for value in values {
        keys.push(Key::of(value))?;
    }
    Ok(keys)
}

/// Each of some keys once.
fn distinct_keys<'a>(alloc: Global, keys: &'a [Key<'_>]) -> Result<Vec<&'a [u8]>, NoMemory>
    ensures { IfOk result (λ found. (test : List ℕ → Bool) → list_any test (map (λ term. term.now) found.items) ≡ list_any test (map bytes_of keys.now)) }
{
    let mut lent = Vec::with_capacity(alloc, keys.len())?;
    'keys: for key in keys {
        lent.push(key.as_slice())?;
    }
    Ok(distinct(lent))
}

/// Adds the documents that have a term between the ends of a range.
pub(crate) fn mark_between(
    segment: &Segment,
    field: u32,
    low: &RangeEnd,
    high: &RangeEnd,
    set: &mut BitSet,
)
    requires { length set.old ≡ segment.now.documents }
    ensures gains { Gains segment.now (has_term field (lies_within low.now high.now)) set.old set.new }
    ensures fit { EndFits low.now × EndFits high.now }
{
    let from = Key::of_end(low);
    let to = Key::of_end(high);
    let first = edge(low, from.as_slice());
    let last = edge(high, to.as_slice());
    mark_range(segment, field, first, last, set);
}
