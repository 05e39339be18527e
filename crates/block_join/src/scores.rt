//! The scores of a set's documents, and how they are kept.

ghost use Rattle.std.specs.Prelude.{◌≡◌, ℕ, ◌+◌, ◌<◌, ◌≤◌, Bool, List, [], ◌∷◌, ◌++◌, length, replicate, slice_index, take, IfOk, IfSome, OnOk, OnErr};
ghost use Rattle.block_join.specs.Kept.{kept_score, marks, score_of, IsLong, IsPlaced, IsRead, IsSame};
ghost use Rattle.block_join.specs.Sums.{or_zero};

use crate::NoMemory;
use crate::count::count_between;
use crate::parts::Parts;
use block_bits::BitSet;
use std::alloc::Global;

/// The scores of a set's documents, as they are made one after the other.
#[derive(Drop)]
pub(crate) enum Scores {
    /// All have this one.
    Same(u64),
    /// One each, in the order of the documents.
    Each(Vec<u64>),
}

/// How the scores of a set's documents are kept.
#[derive(Drop)]
pub(crate) enum Form {
    /// All have this one.
    Shared(u64),
    /// One each, in the order of the documents.
    Listed(Vec<u64>),
    /// As the sums of parts.
    Summed(Box<Parts>),
}

impl Form {
    /// The score of a document, whose place in a list is `at`, and the place of the next one's.
    pub(crate) fn read(&self, at: usize, doc: u32) -> (u64, usize)
        requires { (flags : List Bool) × IsRead flags self.now at doc }
        ensures score { (flags : List Bool) → IsRead flags self.now at doc → result.0 ≡ kept_score self.now (marks (take doc flags)) }
        ensures placed { (k : ℕ) → IsPlaced self.now at k → IsPlaced self.now result.1 (k + 1) }
    {
        match self {
            Form::Shared(score) => (*score, at),
            Form::Listed(scores) => listed_at(scores.as_slice(), at),
            Form::Summed(parts) => (or_zero(parts.at(doc)), at),
        }
    }

    /// The one score of all documents, where that is known without reading them.
    pub(crate) fn shared(&self) -> Option<u64>
        ensures { IfSome result (IsSame self.now) }
    {
        match self {
            Form::Shared(score) => Some(*score),
            Form::Listed(_) => None,
            Form::Summed(_) => None,
        }
    }

    /// The place of the next score from document `end` of the set on, where `at` is that from `from` on.
    pub(crate) fn place_at(&self, set: &BitSet, at: usize, from: u32, end: u32) -> usize
        requires ordered { from ≤ end }
        requires within { end ≤ length set.now }
        requires placed { IsPlaced self.now at (marks (take from set.now)) }
        ensures { IsPlaced self.now result (marks (take end set.now)) }
    {
        match self {
            Form::Shared(_) => at,
            Form::Listed(_) => at + count_between(set, from, end) as usize,
            Form::Summed(_) => at,
        }
    }
}

impl Scores {
    /// Adds the score of one document more to those of `count`.
    ///
    /// One score for all is kept as long as no other comes.
    pub(crate) fn add(&mut self, alloc: Global, count: u32, score: u64) -> Result<(), NoMemory>
        requires { IsLong self.old count }
        ensures long { OnOk result (IsLong self.new (count + 1)) }
        ensures own { OnOk result (score_of self.new count ≡ score) }
        ensures others { OnOk result ((k : ℕ) → k < count → score_of self.new k ≡ score_of self.old k) }
        ensures same_long { OnErr result (IsLong self.new count) }
        ensures same { OnErr result ((k : ℕ) → score_of self.new k ≡ score_of self.old k) }
    {
        match self {
            Scores::Each(scores) => {
                scores.push(score)?;
                Ok(())
            }
            Scores::Same(same) => {
                let shared = *same;
                if count == 0 || shared == score {
                    *self = Scores::Same(score);
                } else {
                    *self = Scores::Each(one_each(alloc, shared, count, score)?);
                }
                Ok(())
            }
        }
    }
}

/// So many times the score `same`, and then `score`.
fn one_each(alloc: Global, same: u64, count: u32, score: u64) -> Result<Vec<u64>, NoMemory>
    ensures { IfOk result (λ scores. scores.items ≡ replicate count same ++ (score ∷ [])) }
{
    let mut scores = Vec::with_capacity(alloc, count as usize + 1)?;
    scores.resize(count as usize, same)?;
    scores.push(score)?;
    Ok(scores)
}

/// The score at a place of a list, and the next place.
fn listed_at(scores: &[u64], at: usize) -> (u64, usize)
    requires { at < length scores.now }
    ensures score { result.0 ≡ slice_index scores.now at }
    ensures next { result.1 ≡ at + 1 }
{
    (scores[at], at + 1)
}

/// A score, or 0 where there is none.
fn or_zero(score: Option<u64>) -> u64
    ensures { result ≡ or_zero score }
{
    match score {
        Some(score) => score,
        None => 0,
    }
}
