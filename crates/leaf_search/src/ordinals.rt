//! Words of a field by the ordinals of their terms.

ghost use Rattle.std.specs.Prelude.{◌≡◌, ℕ, ◌<◌, ◌==◌, Bool, true, length, slice_index, IfOk, IfSome, IsNone};
ghost use Rattle.std.specs.List.{All, list_any};
ghost use Rattle.std.specs.List.Sorted.{IsStrictlyIncreasing};
ghost use Rattle.segment.specs.Lists.{terms_of};
ghost use Rattle.leaf_search.specs.Patterns.{AreIndexes};
ghost use Rattle.leaf_search.specs.Words.{AreOrdinals, Misses, folded_words};

use crate::NoMemory;
use analysis::Token;
use segment::Segment;
use std::alloc::Global;

/// The ordinal of each word; None where the field doesn't have one of them.
pub(crate) fn ordinals_of(
    alloc: Global,
    segment: &Segment,
    field: u32,
    words: &[Token],
) -> Result<Option<Vec<u64>>, NoMemory>
    ensures found { IfOk result (λ found. IfSome found (λ ordinals. AreOrdinals (terms_of segment.now) field (folded_words words.now) ordinals.items)) }
    ensures missing { IfOk result (λ found. IsNone found → Misses (terms_of segment.now) field (folded_words words.now)) }
{
    let terms = segment.terms();
    let mut ordinals = Vec::with_capacity(alloc, words.len())?;
    'words: for word in words {
        let Some(ordinal) = terms.find(field, word.folded.as_slice()) else {
            return Ok(None);
        };
        ordinals.push(ordinal)?;
    }
    Ok(Some(ordinals))
}

/// Each of some ordinals once, ascending, so that the postings of a word that is asked for again are not read again.
pub(crate) fn distinct_ordinals(ordinals: Vec<u64>) -> Vec<u64>
    ensures same { (test : ℕ → Bool) → list_any test result.items ≡ list_any test ordinals.items }
    ensures ascending { IsStrictlyIncreasing result.items }
{
    let mut kept = ordinals;
    kept.sort_unstable();
    kept.dedup();
    kept
}

/// Each of some ordinals by its index among the distinct ones.
pub(crate) fn indexes_in(
    alloc: Global,
    asked: &[u64],
    ordinals: &[u64],
) -> Result<Vec<usize>, NoMemory>
    requires ascending { IsStrictlyIncreasing asked.now }
    requires same { (test : ℕ → Bool) → list_any test asked.now ≡ list_any test ordinals.now }
    ensures { IfOk result (λ words. AreIndexes asked.now ordinals.now words.items) }
{
    let mut words = Vec::with_capacity(alloc, ordinals.len())?;
    'ordinals: for ordinal in ordinals {
        words.push(index_in(asked, *ordinal))?;
    }
    Ok(words)
}

/// The index of an ordinal that is among those that are asked for.
fn index_in(asked: &[u64], ordinal: u64) -> usize
    requires ascending { IsStrictlyIncreasing asked.now }
    requires there { list_any (λ other. other == ordinal) asked.now ≡ true }
    ensures within { result < length asked.now }
    ensures is { slice_index asked.now result ≡ ordinal }
{
    match asked.binary_search(&ordinal) {
        Ok(index) => index,
        Err(_) => 0,
    }
}

/// The index of the term that the fewest documents have.
pub(crate) fn rarest(segment: &Segment, ordinals: &[u64]) -> usize
    requires some { 0 < length ordinals.now }
    requires terms { All (λ ordinal. ordinal < length (terms_of segment.now)) ordinals.now }
    ensures { result < length ordinals.now }
{
    let postings = segment.postings();
    let mut best = 0;
    'ordinals: for at in 1..ordinals.len() {
        if postings.documents(ordinals[at]) < postings.documents(ordinals[best]) {
            best = at;
        }
    }
    best
}
