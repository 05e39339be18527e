//! The terms of a field, each counted by its postings.

ghost use Rattle.std.specs.Prelude.{◌≡◌, ◌+◌, ◌-◌, ◌<◌, ◌≤◌, ℕ, false, [], length, replicate, count_by, get_or, slice_index_or, IfOk, OnOk};
ghost use Rattle.postings.specs.Postings.{ArePostings};
ghost use Rattle.segment_parts.specs.Lists.{postings_of, terms_of};
ghost use Rattle.bucket_aggs.specs.Counts.{AreFound, IsTermSet, is_posted};

use crate::NoMemory;
use crate::columns::is_in;
use block_bits::BitSet;
use postings::{Cursor, PostingsTable};
use segment::{Segment, terms_are_of_documents};
use std::alloc::Global;

/// The documents of a set that have the term with an ordinal, where the set is that of one entry of a view.
#[derive(Drop)]
pub(crate) struct TermSet {
    pub(crate) entry: usize,
    pub(crate) ordinal: u64,
    pub(crate) documents: BitSet,
}

/// Of how many documents of a set each term is, as `posting_counts` gives it; the documents themselves are kept too.
pub(crate) fn posting_sets(
    alloc: Global,
    segment: &Segment,
    set: &BitSet,
    first: u64,
    end: u64,
    entry: usize,
    found: &mut Vec<TermSet>,
) -> Result<Vec<u64>, NoMemory>
    requires documents { length set.now ≡ segment.now.documents }
    requires ordered { first ≤ end }
    requires within { end ≤ length (terms_of segment.now) }
    ensures long { IfOk result (λ counts. length counts.items ≡ end - first) }
    ensures each { IfOk result (λ counts. (k : ℕ) → k < end - first → get_or counts.items k 0 ≡ count_by (is_posted set.now) (slice_index_or (postings_of segment.now) (first + k) [])) }
    ensures are { IfOk result (λ counts. (k : ℕ) → k < end - first → ArePostings (slice_index_or (postings_of segment.now) (first + k) [])) }
    ensures found { OnOk result (AreFound segment.now set.now entry found.old.items found.new.items) }
{
    let mut counts = Vec::with_capacity(alloc, (end - first) as usize)?;
    'terms: for ordinal in first..end {
        let count = keep_set(alloc, segment, set, ordinal, entry, found)?;
        counts.push(count)?;
    }
    Ok(counts)
}

/// Keeps the documents of a set that have a term, and counts them.
fn keep_set(
    alloc: Global,
    segment: &Segment,
    set: &BitSet,
    ordinal: u64,
    entry: usize,
    found: &mut Vec<TermSet>,
) -> Result<u64, NoMemory>
    requires documents { length set.now ≡ segment.now.documents }
    requires ordinal { ordinal < length (terms_of segment.now) }
    ensures count { IfOk result (λ count. count ≡ count_by (is_posted set.now) (slice_index_or (postings_of segment.now) ordinal [])) }
    ensures are { ArePostings (slice_index_or (postings_of segment.now) ordinal []) }
    ensures found { OnOk result (AreFound segment.now set.now entry found.old.items found.new.items) }
{
    let _first = segment.postings().cursor(ordinal).doc();
    let documents = term_set(alloc, segment, set, ordinal)?;
    let count = u64::from(documents.count());
    found.push(TermSet {
        entry,
        ordinal,
        documents,
    })?;
    Ok(count)
}

/// The documents of a set that have a term.
pub(crate) fn term_set(
    alloc: Global,
    segment: &Segment,
    set: &BitSet,
    ordinal: u64,
) -> Result<BitSet, NoMemory>
    requires documents { length set.now ≡ segment.now.documents }
    requires ordinal { ordinal < length (terms_of segment.now) }
    ensures { IfOk result (IsTermSet segment.now set.now ordinal) }
{
    let mut own = BitSet::empty(alloc, set.len())?;
    mark_term(segment, set, ordinal, &mut own);
    Ok(own)
}

/// Puts the documents of a set that have a term into a set of none.
pub(crate) fn mark_term(segment: &Segment, set: &BitSet, ordinal: u64, own: &mut BitSet)
    requires documents { length set.now ≡ segment.now.documents }
    requires ordinal { ordinal < length (terms_of segment.now) }
    requires none { own.old ≡ replicate (length set.now) false }
    ensures { IsTermSet segment.now set.now ordinal own.new }
{
    terms_are_of_documents(segment);
    segment.postings().mark(ordinal, own);
    own.and(set);
}

/// Of how many documents of a set each term is, by ordinal from `first` up to `end`. It costs all postings of these terms.
pub(crate) fn posting_counts(
    alloc: Global,
    set: &BitSet,
    postings: &PostingsTable,
    first: u64,
    end: u64,
) -> Result<Vec<u64>, NoMemory>
    requires ordered { first ≤ end }
    requires within { end ≤ length postings.now }
    ensures long { IfOk result (λ counts. length counts.items ≡ end - first) }
    ensures each { IfOk result (λ counts. (k : ℕ) → k < end - first → get_or counts.items k 0 ≡ count_by (is_posted set.now) (slice_index_or postings.now (first + k) [])) }
    ensures are { IfOk result (λ counts. (k : ℕ) → k < end - first → ArePostings (slice_index_or postings.now (first + k) [])) }
{
    let mut counts = Vec::with_capacity(alloc, (end - first) as usize)?;
    'terms: for ordinal in first..end {
        counts.push(documents_in(set, postings.cursor(ordinal)))?;
    }
    Ok(counts)
}

/// How many documents of a set a term has.
fn documents_in(set: &BitSet, cursor: Cursor) -> u64
    requires { cursor.at ≡ 0 }
    ensures count { result ≡ count_by (is_posted set.now) cursor.entry.postings }
    ensures are { ArePostings cursor.entry.postings }
{
    let mut cursor = cursor;
    let mut count = 0;
    'postings: while let Some(doc) = cursor.doc() {
        if is_in(set, doc) {
            count += 1;
        }
        cursor.next();
    }
    count
}
