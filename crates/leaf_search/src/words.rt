//! The words of a query's text, and the documents that show some or all of them.

ghost use Rattle.std.specs.Prelude.{◌≡◌, ◌<◌, ◌&&◌, ℕ, Bool, List, length, map, true, IfOk};
ghost use Rattle.std.specs.List.{All, list_any};
ghost use Rattle.query_ast.specs.Leaf.{is_any};
ghost use Rattle.segment.specs.Flat.{flats_of};
ghost use Rattle.segment.specs.Lists.{terms_of, postings_of};
ghost use Rattle.segment.specs.Live.{IsLiveOver};
ghost use Rattle.leaf_search.specs.Sets.{Made, MadeByLists, Marks};
ghost use Rattle.leaf_search.specs.Words.{all_posted, folded_words, lists_at, shows_some, shows_words};

use crate::NoMemory;
use crate::conjunction::conjunction_set;
use crate::distinct::distinct;
use crate::ordinals::{distinct_ordinals, ordinals_of, rarest};
use crate::scoped::keep_live;
use crate::terms::mark_terms;
use analysis::Token;
use block_bits::BitSet;
use segment::{LiveBits, Segment, terms_are_of_documents};
use std::alloc::Global;

/// The documents that show some of the words.
pub(crate) fn some_marks(
    alloc: Global,
    segment: &Segment,
    field: u32,
    words: &[Token],
) -> Result<BitSet, NoMemory>
    ensures { IfOk result (λ set. set ≡ map (shows_some field (folded_words words.now)) (flats_of segment.now)) }
{
    let asked = distinct_words(alloc, words)?;
    let mut set = BitSet::empty(alloc, segment.docs())?;
    mark_terms(segment, field, asked.as_slice(), &mut set);
    Ok(set)
}

/// Each of the words once.
fn distinct_words<'a>(alloc: Global, words: &'a [Token]) -> Result<Vec<&'a [u8]>, NoMemory>
    ensures { IfOk result (λ found. (test : List ℕ → Bool) → list_any test (map (λ word. word.now) found.items) ≡ list_any test (folded_words words.now)) }
{
    let mut lent = Vec::with_capacity(alloc, words.len())?;
    'words: for word in words {
        lent.push(word.folded.as_slice())?;
    }
    Ok(distinct(lent))
}

/// The live documents of a scope that show each of the words; of no words none.
pub(crate) fn all_set(
    alloc: Global,
    segment: &Segment,
    live: &LiveBits,
    scope: u32,
    field: u32,
    words: &[Token],
) -> Result<BitSet, NoMemory>
    requires { IsLiveOver segment.now live.now }
    ensures { IfOk result (Made segment.now live.now scope (shows_words true field (folded_words words.now))) }
{
    terms_are_of_documents(segment);
    let _count = segment.terms().count();
    match ordinals_of(alloc, segment, field, words)? {
        Some(asked) => {
            let ordinals = distinct_ordinals(asked);
            Ok(common_set(alloc, segment, live, scope, ordinals.as_slice())?)
        }
        None => Ok(BitSet::empty(alloc, segment.docs())?),
    }
}

/// The live documents of a scope that have each of some terms; of no terms none.
fn common_set(
    alloc: Global,
    segment: &Segment,
    live: &LiveBits,
    scope: u32,
    ordinals: &[u64],
) -> Result<BitSet, NoMemory>
    requires live { IsLiveOver segment.now live.now }
    requires terms { All (λ ordinal. ordinal < length (terms_of segment.now)) ordinals.now }
    ensures { IfOk result (MadeByLists segment.now live.now scope (λ doc. is_any ordinals.now && all_posted (lists_at (postings_of segment.now) ordinals.now) doc)) }
{
    if ordinals.len() == 0 {
        return Ok(BitSet::empty(alloc, segment.docs())?);
    }
    Ok(met_set(alloc, segment, live, scope, ordinals)?)
}

/// The live documents of a scope that have each of some terms: by the rarest, where the others' lists are much longer.
fn met_set(
    alloc: Global,
    segment: &Segment,
    live: &LiveBits,
    scope: u32,
    ordinals: &[u64],
) -> Result<BitSet, NoMemory>
    requires live { IsLiveOver segment.now live.now }
    requires some { 0 < length ordinals.now }
    requires terms { All (λ ordinal. ordinal < length (terms_of segment.now)) ordinals.now }
    ensures { IfOk result (MadeByLists segment.now live.now scope (all_posted (lists_at (postings_of segment.now) ordinals.now))) }
{
    let lead = rarest(segment, ordinals);
    if leaps(segment, ordinals, lead) {
        return Ok(conjunction_set(alloc, segment, live, scope, ordinals, lead, false)?);
    }
    let mut set = common_marks(alloc, segment, ordinals)?;
    keep_live(&mut set, segment, live, scope);
    Ok(set)
}

/// Whether it costs less to leap in the lists of the other terms than to mark all lists in sets.
///
/// To leap to a document of the lead costs what twelve postings cost to mark; sets cost a pass over 64 documents at a time.
fn leaps(segment: &Segment, ordinals: &[u64], lead: usize) -> bool
    requires lead { lead < length ordinals.now }
    requires terms { All (λ ordinal. ordinal < length (terms_of segment.now)) ordinals.now }
{
    let postings = segment.postings();
    let mut marked = segment.docs() as u64 / 64;
    'ordinals: for ordinal in ordinals {
        marked = marked.saturating_add(postings.documents(*ordinal) as u64);
    }
    let steps = (ordinals.len() as u64).saturating_mul(12).saturating_sub(8);
    steps.saturating_mul(postings.documents(ordinals[lead]) as u64) <= marked
}

/// The documents that have each of some terms.
fn common_marks(alloc: Global, segment: &Segment, ordinals: &[u64]) -> Result<BitSet, NoMemory>
    requires some { 0 < length ordinals.now }
    requires terms { All (λ ordinal. ordinal < length (terms_of segment.now)) ordinals.now }
    ensures { IfOk result (Marks segment.now.documents (all_posted (lists_at (postings_of segment.now) ordinals.now))) }
{
    terms_are_of_documents(segment);
    let postings = segment.postings();
    let mut set = BitSet::empty(alloc, segment.docs())?;
    postings.mark(ordinals[0], &mut set);
    'ordinals: for at in 1..ordinals.len() {
        let mut own = BitSet::empty(alloc, segment.docs())?;
        postings.mark(ordinals[at], &mut own);
        set.and(&own);
    }
    Ok(set)
}
