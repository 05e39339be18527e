//! The documents that have all of several terms, by the postings of one of them (Lucene's `ConjunctionDISI`).

ghost use Rattle.std.specs.Prelude.{◌≡◌, ℕ, ◌+◌, ◌<◌, ◌≤◌, ◌^◌, ◌&&◌, ◌==◌, true, false, Bool, List, [], ◌∷◌, ◌++◌, length, slice_index_or, slice_set, if◌then◌else◌, nat_le, IsSome, IfOk, IsTrue};
ghost use Rattle.std.specs.List.{All, list_all, list_any};
ghost use Rattle.doc_values.specs.Values.{values_of};
ghost use Rattle.postings.specs.Marks.{has_document};
ghost use Rattle.postings.specs.Postings.{present, present_positions};
ghost use Rattle.segment.specs.Lists.{terms_of, postings_of};
ghost use Rattle.segment.specs.Live.{IsLiveOver};
ghost use Rattle.leaf_search.specs.Cursors.{IsBehind, IsOn, lists_in};
ghost use Rattle.leaf_search.specs.Sets.{MadeByLists, Marks};
ghost use Rattle.leaf_search.specs.Words.{lists_at, posted, run_posted, stands_around};

use crate::NoMemory;
use block_bits::BitSet;
use postings::Cursor;
use segment::{LiveBits, Segment, scopes_are_of_documents, terms_are_of_documents};
use std::alloc::Global;

/// The live documents of a scope that have all of some terms, one after the other where `in_order` says so.
///
/// It goes over the postings of one term, the lead, and leaps in those of the others. Positions are looked at only in
/// documents that have all terms. It is made for a lead that few documents have.
pub(crate) fn conjunction_set(
    alloc: Global,
    segment: &Segment,
    live: &LiveBits,
    scope: u32,
    ordinals: &[u64],
    lead: usize,
    in_order: bool,
) -> Result<BitSet, NoMemory>
    requires live { IsLiveOver segment.now live.now }
    requires terms { All (λ ordinal. ordinal < length (terms_of segment.now)) ordinals.now }
    requires lead { lead < length ordinals.now }
    ensures { IfOk result (MadeByLists segment.now live.now scope (posted in_order (lists_at (postings_of segment.now) ordinals.now))) }
{
    scopes_are_of_documents(segment);
    let _documents = segment.docs();
    let scopes = segment.scopes().as_slice();
    if scope as usize >= scopes.len() {
        return Ok(BitSet::empty(alloc, segment.docs())?);
    }
    Ok(select(
        alloc,
        segment,
        live.documents(),
        &scopes[scope as usize],
        ordinals,
        lead,
        in_order,
    )?)
}

/// Of the documents of two sets those that have all of some terms.
pub(crate) fn select(
    alloc: Global,
    segment: &Segment,
    live: &BitSet,
    scope: &BitSet,
    ordinals: &[u64],
    lead: usize,
    in_order: bool,
) -> Result<BitSet, NoMemory>
    requires live { length live.now ≡ segment.now.documents }
    requires scope { length scope.now ≡ segment.now.documents }
    requires terms { All (λ ordinal. ordinal < length (terms_of segment.now)) ordinals.now }
    requires lead { lead < length ordinals.now }
    ensures { IfOk result (Marks (length live.now) (λ doc. slice_index_or live.now doc false && (slice_index_or scope.now doc false && posted in_order (lists_at (postings_of segment.now) ordinals.now) doc))) }
{
    terms_are_of_documents(segment);
    let (first, rest) = ordinals.split_at(lead);
    let mut before = cursors_at(alloc, segment, first)?;
    let mut behind = cursors_at(alloc, segment, rest.split_at(1).1)?;
    let mut own = first_of(segment, ordinals[lead]);
    let mut set = BitSet::empty(alloc, segment.docs())?;
    'documents: while let Some(doc) = own.doc() {
        let found = takes(live, scope, &mut before, &own, &mut behind, doc, in_order);
        put_if(&mut set, doc, found);
        let _next = own.next();
    }
    Ok(set)
}

/// Puts a document into a set if it is to be taken.
fn put_if(set: &mut BitSet, doc: u32, found: bool)
    requires { doc < length set.old }
    ensures { set.new ≡ if found then slice_set set.old doc true else set.old }
{
    if found {
        set.set(doc);
    }
}

/// Cursors at the first posting of each of these terms.
pub(crate) fn cursors_at<'a>(
    alloc: Global,
    segment: &'a Segment,
    ordinals: &[u64],
) -> Result<Vec<Cursor<'a>>, NoMemory>
    requires { All (λ ordinal. ordinal < length (terms_of segment.now)) ordinals.now }
    ensures lists { IfOk result (λ cursors. lists_in cursors.items ≡ lists_at (postings_of segment.now) ordinals.now) }
    ensures first { IfOk result (λ cursors. All (IsBehind 0) cursors.items) }
{
    let mut cursors = Vec::with_capacity(alloc, ordinals.len())?;
    'ordinals: for ordinal in ordinals {
        cursors.push(first_of(segment, *ordinal))?;
    }
    Ok(cursors)
}

/// A cursor at the first posting of a term.
fn first_of(segment: &Segment, ordinal: u64) -> Cursor<'_>
    requires { ordinal < length (terms_of segment.now) }
    ensures list { result.postings ≡ slice_index_or (postings_of segment.now) ordinal [] }
    ensures at { result.at ≡ 0 }
    ensures first { IsBehind 0 result }
{
    let cursor = segment.postings().cursor(ordinal);
    let _first = cursor.doc();
    cursor
}

/// Whether a document of the lead is in two sets and has the other terms, and where `in_order` says so in this order.
fn takes(
    live: &BitSet,
    scope: &BitSet,
    before: &mut Vec<Cursor>,
    own: &Cursor,
    behind: &mut Vec<Cursor>,
    doc: u32,
    in_order: bool,
) -> bool
    requires live { doc < length live.now }
    requires scope { doc < length scope.now }
    requires before { All (IsBehind doc) before.old.items }
    requires own { IsOn doc own.now }
    requires behind { All (IsBehind doc) behind.old.items }
    ensures before_lists { lists_in before.new.items ≡ lists_in before.old.items }
    ensures behind_lists { lists_in behind.new.items ≡ lists_in behind.old.items }
    ensures before_passed { All (IsBehind (doc + 1)) before.new.items }
    ensures behind_passed { All (IsBehind (doc + 1)) behind.new.items }
    ensures says { result ≡ (slice_index_or live.now doc false && (slice_index_or scope.now doc false && posted in_order (lists_in before.old.items ++ own.now.postings ∷ lists_in behind.old.items) doc)) }
{
    if !live.has(doc) {
        return false;
    }
    if !scope.has(doc) {
        return false;
    }
    meet(before, own, behind, doc, in_order)
}

/// Whether a document of the lead has the terms before and behind it, and where `in_order` says so in this order.
fn meet(
    before: &mut Vec<Cursor>,
    own: &Cursor,
    behind: &mut Vec<Cursor>,
    doc: u32,
    in_order: bool,
) -> bool
    requires before { All (IsBehind doc) before.old.items }
    requires own { IsOn doc own.now }
    requires behind { All (IsBehind doc) behind.old.items }
    ensures before_lists { lists_in before.new.items ≡ lists_in before.old.items }
    ensures behind_lists { lists_in behind.new.items ≡ lists_in behind.old.items }
    ensures before_passed { All (IsBehind (doc + 1)) before.new.items }
    ensures behind_passed { All (IsBehind (doc + 1)) behind.new.items }
    ensures says { result ≡ posted in_order (lists_in before.old.items ++ own.now.postings ∷ lists_in behind.old.items) doc }
{
    if !go_to(before, doc) {
        return false;
    }
    if !go_to(behind, doc) {
        return false;
    }
    if !in_order {
        return true;
    }
    stand_in_order(before.as_slice(), own, behind.as_slice(), doc)
}

/// Goes to a document with each cursor, up to the first whose term isn't there; whether all terms are.
pub(crate) fn go_to(cursors: &mut Vec<Cursor>, doc: u32) -> bool
    requires { All (IsBehind doc) cursors.old.items }
    ensures lists { lists_in cursors.new.items ≡ lists_in cursors.old.items }
    ensures passed { All (IsBehind (doc + 1)) cursors.new.items }
    ensures there { result ≡ true → All (IsOn doc) cursors.new.items }
    ensures says { result ≡ list_all (has_document doc) (lists_in cursors.old.items) }
{
    'cursors: for at in 0..cursors.len() {
        let place = cursors[at].advance(doc);
        let Some(own) = place else {
            return false;
        };
        if own != doc {
            return false;
        }
    }
    true
}

/// Whether terms stand in a document one after the other, by the positions of one of them.
fn stand_in_order(before: &[Cursor], own: &Cursor, behind: &[Cursor], doc: u32) -> bool
    requires before { All (IsOn doc) before.now }
    requires own { IsSome (present own.now) }
    requires behind { All (IsOn doc) behind.now }
    ensures { result ≡ list_any (stands_around (lists_in before.now) (lists_in behind.now) doc) (present_positions own.now) }
{
    'positions: for i in 0..own.positions() {
        if stand_around(before, behind, doc, own.position(i)) {
            return true;
        }
    }
    false
}

/// Whether terms stand in a document up to a position, and others from behind it on.
fn stand_around(before: &[Cursor], behind: &[Cursor], doc: u32, position: u32) -> bool
    requires before { All (IsOn doc) before.now }
    requires behind { All (IsOn doc) behind.now }
    ensures { result ≡ stands_around (lists_in before.now) (lists_in behind.now) doc position }
{
    let at = position as u64;
    let count = before.len() as u64;
    if at < count {
        return false;
    }
    if !run_from(before, doc, at - count) {
        return false;
    }
    run_from(behind, doc, at + 1)
}

/// Whether the terms stand in a document at a position and those behind it.
fn run_from(cursors: &[Cursor], doc: u32, at: u64) -> bool
    requires there { All (IsOn doc) cursors.now }
    requires short { at ≤ 2 ^ 32 }
    ensures { result ≡ run_posted (lists_in cursors.now) doc at }
{
    let mut position = at;
    'cursors: for cursor in cursors {
        if !stands(cursor, doc, position) {
            return false;
        }
        position += 1;
    }
    true
}

/// Whether a cursor's term stands in the cursor's document at a position.
fn stands(cursor: &Cursor, doc: u32, position: u64) -> bool
    requires { IsOn doc cursor.now }
    ensures { result ≡ list_any (λ p. p == position) (values_of doc cursor.now.postings) }
{
    has_position(cursor, position)
}

/// Whether a cursor's term stands at a position in the cursor's document. Positions ascend, so that it looks at few of them.
pub(crate) fn has_position(cursor: &Cursor, position: u64) -> bool
    requires { IsSome (present cursor.now) }
    ensures { result ≡ list_any (λ p. p == position) (present_positions cursor.now) }
{
    let _document = cursor.doc();
    let mut first = 0;
    let mut end = cursor.positions();
    'halves: while first < end {
        let middle = first + (end - first) / 2;
        let own = cursor.position(middle) as u64;
        if own == position {
            return true;
        }
        if own < position {
            first = middle + 1;
        } else {
            end = middle;
        }
    }
    false
}
