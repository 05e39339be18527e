//! The objects that show a text of a keyword field, by the documents of its term.

ghost use Rattle.std.specs.Prelude.{◌≡◌, ◌<◌, ◌&&◌, ℕ, Bool, true, false, length, map, slice_get, slice_index_or, is_some, IfOk, IfSome, IsTrue, Some};
ghost use Rattle.std.specs.List.{AllByRecursion};
ghost use Rattle.query_ast.specs.Uses.{is_written};
ghost use Rattle.query_eval.specs.Found.{AreLong};
ghost use Rattle.segment.specs.Flat.{flat_of};
ghost use Rattle.tree_objects.specs.declared.field_value.FieldValue.TheVariants.{Written};
ghost use Rattle.bucket_aggs.specs.Counts.{AreKnown, IsShownSet, IsTermSet, passed_from, passed_in, passed_of_view, shows};
ghost use Rattle.bucket_aggs.specs.declared.posted.TermSet.{TermSet as Found};

use crate::NoMemory;
use crate::posted::{TermSet, term_set};
use block_bits::BitSet;
use block_join::{Matches, Rule, Scored, merged};
use mapping::Kind;
use segment::{Segment, values_are_of_documents};
use segment_view::Entry;
use std::alloc::Global;
use term_table::TermTable;

/// Of the objects those that show a text of a keyword field, with the scores that they have.
///
/// Where the documents of its term were found already they are copied.
pub(crate) fn showing(
    alloc: Global,
    entries: &[Entry],
    kind: Kind,
    field: u32,
    text: &[u8],
    objects: &Matches,
    found: &[TermSet],
) -> Result<Matches, NoMemory>
    requires kind { is_written kind ≡ true }
    requires long { AreLong entries.now objects.now }
    requires found { AreKnown entries.now objects.now found.now }
    ensures { IfOk result (λ made. made ≡ passed_of_view (shows kind field (Written text.now)) entries.now objects.now) }
{
    let objects = objects.as_slice();
    let mut made = Vec::with_capacity(alloc, entries.len())?;
    let mut near = 0;
    'entries: for at in 0..entries.len() {
        let scores = own_showing(
            alloc,
            entries[at].segment(),
            kind,
            field,
            text,
            &objects[at],
            at,
            found,
            &mut near,
        )?;
        made.push(scores)?;
    }
    Ok(Matches::of(made))
}

/// Those of one entry.
fn own_showing(
    alloc: Global,
    segment: &Segment,
    kind: Kind,
    field: u32,
    text: &[u8],
    hits: &Scored,
    entry: usize,
    found: &[TermSet],
    near: &mut usize,
) -> Result<Scored, NoMemory>
    requires kind { is_written kind ≡ true }
    requires long { length hits.now ≡ segment.now.documents }
    requires found { AllByRecursion (λ (it : Found). it.entry ≡ entry → IsTermSet segment.now (map is_some hits.now) it.ordinal it.documents) found.now }
    ensures { IfOk result (λ made. made ≡ passed_in (shows kind field (Written text.now)) segment.now hits.now) }
{
    let set = text_set(
        alloc,
        segment,
        kind,
        field,
        text,
        hits.set(),
        entry,
        found,
        near,
    )?;
    Ok(kept_in(alloc, hits, set)?)
}

/// The documents of a set that show a text.
fn text_set(
    alloc: Global,
    segment: &Segment,
    _kind: Kind,
    field: u32,
    text: &[u8],
    set: &BitSet,
    entry: usize,
    found: &[TermSet],
    near: &mut usize,
) -> Result<BitSet, NoMemory>
    requires kind { is_written _kind ≡ true }
    requires long { length set.now ≡ segment.now.documents }
    requires found { AllByRecursion (λ (it : Found). it.entry ≡ entry → IsTermSet segment.now set.now it.ordinal it.documents) found.now }
    ensures { IfOk result (IsShownSet segment.now _kind field (Written text.now) set.now) }
{
    values_are_of_documents(segment);
    let _agree = segment.docs();
    let Some(_column) = segment.ordinals(field) else {
        return Ok(BitSet::empty(alloc, set.len())?);
    };
    let terms = segment.terms();
    let _ascending = terms.count();
    if let Some(at) = known_set(&terms, field, text, entry, found, near) {
        return Ok(found[at].documents.copy(alloc)?);
    }
    match terms.find(field, text) {
        Some(ordinal) => Ok(term_set(alloc, segment, set, ordinal)?),
        None => Ok(BitSet::empty(alloc, set.len())?),
    }
}

/// Where the documents of a text's term stand among those found, which are in the order of their entries; none before `near`
/// are looked at, and that is left where the entry's begin or where they were found.
fn known_set(
    terms: &TermTable,
    field: u32,
    text: &[u8],
    entry: usize,
    found: &[TermSet],
    near: &mut usize,
) -> Option<usize>
    ensures within { IfSome result (λ at. at < length found.now) }
    ensures entry { IfSome result (λ at. (d : Found) → (slice_index_or found.now at d).entry ≡ entry) }
    ensures term { IfSome result (λ at. (d : Found) → slice_get terms.now (slice_index_or found.now at d).ordinal ≡ Some (field, text.now)) }
{
    'sets: for at in *near..found.len() {
        let own = &found[at];
        if own.entry > entry {
            *near = at;
            return None;
        }
        if own.entry == entry && is_term(terms, own.ordinal, field, text) {
            *near = at;
            return Some(at);
        }
    }
    None
}

/// Whether an ordinal is that of a term.
fn is_term(terms: &TermTable, ordinal: u64, field: u32, text: &[u8]) -> bool
    ensures { IsTrue result → slice_get terms.now ordinal ≡ Some (field, text.now) }
{
    if ordinal >= terms.count() {
        return false;
    }
    let (own, bytes) = terms.term(ordinal);
    own == field && bytes == text
}

/// Of hits those in a set.
fn kept_in(alloc: Global, hits: &Scored, set: BitSet) -> Result<Scored, NoMemory>
    requires { length set ≡ length hits.now }
    ensures { (test : ℕ → Bool) → ((k : ℕ) → k < length hits.now → slice_index_or set k false ≡ (slice_index_or (map is_some hits.now) k false && test k)) → IfOk result (λ made. made ≡ passed_from test 0 hits.now) }
{
    match hits.shared() {
        Some(score) => Ok(Scored::same(set, score)),
        None => Ok(merged(alloc, hits, &Scored::same(set, 1), Rule::Kept)?),
    }
}
