//! The documents in which many words stand one after the other, where a word may come often.

ghost use Rattle.std.specs.Prelude.{◌≡◌, ◌+◌, ◌<◌, ◌&&◌, true, false, length, slice_index_or, slice_set, IfOk, OnOk};
ghost use Rattle.std.specs.List.{All};
ghost use Rattle.segment.specs.Lists.{terms_of, postings_of};
ghost use Rattle.segment.specs.Live.{IsLiveOver};
ghost use Rattle.leaf_search.specs.Cursors.{IsBehind, lists_in};
ghost use Rattle.leaf_search.specs.Patterns.{AreShifts};
ghost use Rattle.leaf_search.specs.Sets.{MadeByLists, Marks};
ghost use Rattle.leaf_search.specs.Words.{all_posted, lists_at, phrase_posted};

use crate::NoMemory;
use crate::apart::are_apart;
use crate::conjunction::{cursors_at, go_to, select};
use crate::ordinals::{distinct_ordinals, indexes_in, rarest};
use crate::run_search::has_run;
use crate::shifts::shifts_of;
use block_bits::BitSet;
use postings::Cursor;
use segment::{LiveBits, Segment, scopes_are_of_documents};
use std::alloc::Global;

/// The live documents of a scope in which terms stand one after the other.
///
/// The postings of each term are read once, however often it comes, and a document costs as much as its positions of the
/// terms: `conjunction_set` looks each term up for itself, at each position of its lead.
pub(crate) fn long_phrase_set(
    alloc: Global,
    segment: &Segment,
    live: &LiveBits,
    scope: u32,
    ordinals: &[u64],
) -> Result<BitSet, NoMemory>
    requires live { IsLiveOver segment.now live.now }
    requires terms { All (λ ordinal. ordinal < length (terms_of segment.now)) ordinals.now }
    requires some { 0 < length ordinals.now }
    ensures { IfOk result (MadeByLists segment.now live.now scope (phrase_posted (lists_at (postings_of segment.now) ordinals.now))) }
{
    scopes_are_of_documents(segment);
    let _documents = segment.docs();
    let scopes = segment.scopes().as_slice();
    if scope as usize >= scopes.len() {
        return Ok(BitSet::empty(alloc, segment.docs())?);
    }
    let own = &scopes[scope as usize];
    Ok(with_phrase(alloc, segment, live.documents(), own, ordinals)?)
}

/// Of the documents of two sets those in which terms stand one after the other.
fn with_phrase(
    alloc: Global,
    segment: &Segment,
    live: &BitSet,
    scope: &BitSet,
    ordinals: &[u64],
) -> Result<BitSet, NoMemory>
    requires live { length live.now ≡ segment.now.documents }
    requires scope { length scope.now ≡ segment.now.documents }
    requires terms { All (λ ordinal. ordinal < length (terms_of segment.now)) ordinals.now }
    requires some { 0 < length ordinals.now }
    ensures { IfOk result (Marks (length live.now) (λ doc. slice_index_or live.now doc false && (slice_index_or scope.now doc false && phrase_posted (lists_at (postings_of segment.now) ordinals.now) doc))) }
{
    let kept = distinct_ordinals(Vec::from_slice(alloc, ordinals)?);
    let asked = kept.as_slice();
    let words = indexes_in(alloc, asked, ordinals)?;
    let shifts = shifts_of(alloc, words.as_slice())?;
    let lead = rarest(segment, asked);
    let mut set = select(alloc, segment, live, scope, asked, lead, false)?;
    let mut cursors = cursors_at(alloc, segment, asked)?;
    let mut from = 0;
    'documents: while let Some(doc) = set.next_set(from) {
        narrow(
            alloc,
            &mut cursors,
            words.as_slice(),
            shifts.as_slice(),
            &mut set,
            doc,
        )?;
        from = doc + 1;
    }
    Ok(set)
}

/// Takes a document that has all words out of a set, unless they stand there one after the other.
#[tactic(auto, using(crate::proofs::Narrowing::same_with))]
fn narrow(
    alloc: Global,
    cursors: &mut Vec<Cursor>,
    words: &[usize],
    shifts: &[usize],
    set: &mut BitSet,
    doc: u32,
) -> Result<(), NoMemory>
    requires behind { All (IsBehind doc) cursors.old.items }
    requires words { All (λ word. word < length cursors.old.items) words.now }
    requires some { 0 < length words.now }
    requires long { length shifts.now ≡ length words.now }
    requires shifts { AreShifts words.now shifts.now }
    requires within { doc < length set.old }
    requires has { slice_index_or set.old doc false ≡ true }
    requires there { all_posted (lists_in cursors.old.items) doc ≡ true }
    ensures lists { lists_in cursors.new.items ≡ lists_in cursors.old.items }
    ensures passed { All (IsBehind (doc + 1)) cursors.new.items }
    ensures set { OnOk result (set.new ≡ slice_set set.old doc (phrase_posted (lists_at (lists_in cursors.old.items) words.now) doc)) }
{
    if !stands_in(alloc, cursors, words, shifts, doc)? {
        set.clear(doc);
    }
    Ok(())
}

/// Whether words, each by the index of its cursor, stand one after the other in a document that has all of them.
fn stands_in(
    alloc: Global,
    cursors: &mut Vec<Cursor>,
    words: &[usize],
    shifts: &[usize],
    doc: u32,
) -> Result<bool, NoMemory>
    requires behind { All (IsBehind doc) cursors.old.items }
    requires words { All (λ word. word < length cursors.old.items) words.now }
    requires some { 0 < length words.now }
    requires long { length shifts.now ≡ length words.now }
    requires shifts { AreShifts words.now shifts.now }
    requires there { all_posted (lists_in cursors.old.items) doc ≡ true }
    ensures lists { lists_in cursors.new.items ≡ lists_in cursors.old.items }
    ensures passed { All (IsBehind (doc + 1)) cursors.new.items }
    ensures says { IfOk result (λ found. found ≡ phrase_posted (lists_at (lists_in cursors.old.items) words.now) doc) }
{
    if !go_to(cursors, doc) {
        return Ok(false);
    }
    let apart = are_apart(alloc, cursors.as_slice())?;
    Ok(has_run(cursors.as_slice(), words, shifts, apart))
}
