//! The documents in which words stand one after the other.

ghost use Rattle.std.specs.Prelude.{◌≡◌, ◌<◌, length, IfOk};
ghost use Rattle.std.specs.List.{All};
ghost use Rattle.segment.specs.Lists.{terms_of, postings_of};
ghost use Rattle.segment.specs.Live.{IsLiveOver};
ghost use Rattle.leaf_search.specs.Sets.{Made, MadeByLists};
ghost use Rattle.leaf_search.specs.Words.{folded_words, lists_at, phrase_posted, shows_phrase};

use crate::NoMemory;
use crate::conjunction::conjunction_set;
use crate::long_phrase::long_phrase_set;
use crate::ordinals::{ordinals_of, rarest};
use analysis::Token;
use block_bits::BitSet;
use segment::{LiveBits, Segment, terms_are_of_documents};
use std::alloc::Global;

/// A phrase of up to so many words is looked for at each position of its rarest word.
const SHORT_PHRASE: usize = 32;

/// The live documents of a scope in which the words stand one after the other, in one value; of no words none.
///
/// It goes over the positions of the rarest word alone, in the live documents of the scope that have all words.
pub(crate) fn phrase_set(
    alloc: Global,
    segment: &Segment,
    live: &LiveBits,
    scope: u32,
    field: u32,
    words: &[Token],
) -> Result<BitSet, NoMemory>
    requires { IsLiveOver segment.now live.now }
    ensures { IfOk result (Made segment.now live.now scope (shows_phrase field (folded_words words.now))) }
{
    terms_are_of_documents(segment);
    match ordinals_of(alloc, segment, field, words)? {
        Some(ordinals) => Ok(ordered_set(alloc, segment, live, scope, ordinals.as_slice())?),
        None => Ok(BitSet::empty(alloc, segment.docs())?),
    }
}

/// The live documents of a scope in which terms stand one after the other; of no terms none.
fn ordered_set(
    alloc: Global,
    segment: &Segment,
    live: &LiveBits,
    scope: u32,
    ordinals: &[u64],
) -> Result<BitSet, NoMemory>
    requires live { IsLiveOver segment.now live.now }
    requires terms { All (λ ordinal. ordinal < length (terms_of segment.now)) ordinals.now }
    ensures { IfOk result (MadeByLists segment.now live.now scope (phrase_posted (lists_at (postings_of segment.now) ordinals.now))) }
{
    if ordinals.len() == 0 {
        return Ok(BitSet::empty(alloc, segment.docs())?);
    }
    if ordinals.len() > SHORT_PHRASE {
        return Ok(long_phrase_set(alloc, segment, live, scope, ordinals)?);
    }
    let lead = rarest(segment, ordinals);
    Ok(conjunction_set(alloc, segment, live, scope, ordinals, lead, true)?)
}
