//! The hits whose numbers a page can show, found by the terms of a field: these stand in the order of their numbers.
ghost use Rattle.std.specs.Prelude.{◌≡◌, ◌<◌, ◌≤◌, ℕ, false, length, slice_index_or, option_map, IfOk, IfSome};
ghost use Rattle.std.specs.List.{flat_map};
ghost use Rattle.nested_sort.specs.Documents.{docs_inside, numbers_at, question_of};
ghost use Rattle.nested_sort.specs.Inside.{AreAt, marked_within, passing};
ghost use Rattle.nested_sort.specs.Near.{AreOut, HaveNone, IsCut, inside_numbers, is_within, is_within_by};
ghost use Rattle.query_eval.specs.Folds.{scopes_in};
ghost use Rattle.view_objects.specs.Hits.{start_before};
ghost use Rattle.segment.specs.Flat.{flat_of};
ghost use Rattle.segment.specs.Shows.{has_term};

use crate::NoMemory;
use crate::asked::Asked;
use crate::inside::{passing_set, scope_documents};
use block_bits::BitSet;
use block_join::Scored;
use query_ast::{Chain, Direction};
use segment::{Segment, terms_are_of_documents, values_are_of_documents};
use std::alloc::Global;
use term_table::{Edge, keys_are_ordered, number_key};

/// The numbers that a page can show: from the one to go on behind, if it is named, up to a limit that is left out.
#[derive(Clone, Copy, Debug, PartialEq, Eq)]
pub(crate) struct Reach {
    pub(crate) direction: Direction,
    pub(crate) after: Option<i64>,
    pub(crate) limit: i64,
}

/// Of the documents with a score those that may have a number within reach; None where they aren't known to share one score.
pub(crate) fn within_reach(
    alloc: Global,
    segment: &Segment,
    place: usize,
    found: &Scored,
    asked: &Asked<'_>,
    reach: Reach,
) -> Result<Option<Scored>, NoMemory>
    requires long { length found.now ≡ segment.now.documents }
    requires found { AreAt place segment.now.documents asked.now.filters.now }
    ensures { IfOk result (λ cut. IfSome cut (λ near. IsCut segment.now place (question_of asked.now) reach found.now near)) }
{
    let Some(score) = found.shared() else {
        return Ok(None);
    };
    let Some(mut set) = documents_reached(alloc, segment, place, asked, reach)? else {
        return Ok(None);
    };
    set.and(found.set());
    Ok(Some(Scored::same(set, score)))
}

/// The documents from which a chain of at most one step leads to a number within reach, and perhaps others; None where it
/// has more steps, or leads nowhere.
fn documents_reached(
    alloc: Global,
    segment: &Segment,
    place: usize,
    asked: &Asked<'_>,
    reach: Reach,
) -> Result<Option<BitSet>, NoMemory>
    requires found { AreAt place segment.now.documents asked.now.filters.now }
    ensures long { IfOk result (λ found. IfSome found (λ set. length set ≡ segment.now.documents)) }
    ensures left { IfOk result (λ found. IfSome found (λ set. (doc : ℕ) → doc < segment.now.documents → slice_index_or set doc false ≡ false → AreOut reach (inside_numbers segment.now place (question_of asked.now) doc))) }
{
    match asked.chain {
        [] => Ok(Some(documents_within(alloc, segment, asked.field, reach)?)),
        [step] => Ok(documents_above(alloc, segment, place, step, asked, reach)?),
        _ => Ok(None),
    }
}

/// The same for the documents that one step leads on from.
fn documents_above(
    alloc: Global,
    segment: &Segment,
    place: usize,
    step: &Chain,
    asked: &Asked<'_>,
    reach: Reach,
) -> Result<Option<BitSet>, NoMemory>
    requires found { AreAt place segment.now.documents asked.now.filters.now }
    ensures long { IfOk result (λ found. IfSome found (λ set. length set ≡ segment.now.documents)) }
    ensures left { IfOk result (λ found. IfSome found (λ set. (doc : ℕ) → doc < segment.now.documents → slice_index_or set doc false ≡ false
        → AreOut reach (flat_map (numbers_at segment.now asked.now.field) (marked_within (start_before asked.now.scope doc (scopes_in segment.now)) doc (passing place (scopes_in segment.now) step.now.scope step.now.filter asked.now.filters.now))))) }
{
    let Some(passing) = passing_set(segment, place, step, asked.filters) else {
        return Ok(None);
    };
    let Some(parents) = scope_documents(segment, asked.scope) else {
        return Ok(None);
    };
    let mut inner = documents_within(alloc, segment, asked.field, reach)?;
    inner.and(passing);
    Ok(Some(documents_around(alloc, parents, &inner)?))
}

/// The documents of a set that come next at or behind one of others, and all that aren't of the set.
fn documents_around(alloc: Global, parents: &BitSet, inner: &BitSet) -> Result<BitSet, NoMemory>
    requires { length inner.now ≡ length parents.now }
    ensures { IfOk result (λ set. HaveNone parents.now inner.now (length parents.now) set) }
{
    let mut set = BitSet::full(alloc, parents.len())?;
    set.and_not(parents);
    let mut from = 0;
    'inner: while let Some(doc) = inner.next_set(from) {
        if let Some(parent) = parents.next_set(doc) {
            set.set(parent);
        }
        from = doc + 1;
    }
    Ok(set)
}

/// The documents that have a number of a field within reach.
fn documents_within(
    alloc: Global,
    segment: &Segment,
    field: u32,
    reach: Reach,
) -> Result<BitSet, NoMemory>
    ensures long { IfOk result (λ set. length set ≡ segment.now.documents) }
    ensures left { IfOk result (λ set. (doc : ℕ) → doc < segment.now.documents → slice_index_or set doc false ≡ false → AreOut reach (numbers_at segment.now field doc)) }
{
    keys_are_ordered();
    values_are_of_documents(segment);
    let descending = reach.direction.descending;
    let limit = number_key(reach.limit);
    let far = Edge::Past(limit.as_slice());
    match reach.after {
        None => {
            let near = Edge::Unbounded;
            Ok(documents_up_to(alloc, segment, field, descending, near, far)?)
        }
        Some(after) => {
            let key = number_key(after);
            let near = Edge::Closed(key.as_slice());
            Ok(documents_up_to(alloc, segment, field, descending, near, far)?)
        }
    }
}

/// The documents that have a term of a field between two edges, of which `near` comes first in order.
fn documents_up_to(
    alloc: Global,
    segment: &Segment,
    field: u32,
    descending: bool,
    near: Edge,
    far: Edge,
) -> Result<BitSet, NoMemory>
    ensures long { IfOk result (λ set. length set ≡ segment.now.documents) }
    ensures left { IfOk result (λ set. (doc : ℕ) → doc < segment.now.documents → slice_index_or set doc false ≡ false
        → has_term field (is_within_by descending near.entry far.entry) (flat_of segment.now doc) ≡ false) }
{
    if descending {
        Ok(documents_between(alloc, segment, field, far, near)?)
    } else {
        Ok(documents_between(alloc, segment, field, near, far)?)
    }
}

/// The documents that have a term of a field between two edges.
fn documents_between(
    alloc: Global,
    segment: &Segment,
    field: u32,
    low: Edge,
    high: Edge,
) -> Result<BitSet, NoMemory>
    ensures long { IfOk result (λ set. length set ≡ segment.now.documents) }
    ensures left { IfOk result (λ set. (doc : ℕ) → doc < segment.now.documents → slice_index_or set doc false ≡ false
        → has_term field (is_within low.entry high.entry) (flat_of segment.now doc) ≡ false) }
{
    terms_are_of_documents(segment);
    let (first, end) = segment.terms().range(field, low, high);
    let postings = segment.postings();
    let mut set = BitSet::empty(alloc, segment.docs())?;
    'lists: for ordinal in first..end {
        postings.mark(ordinal, &mut set);
    }
    Ok(set)
}
