//! What keys are given for their scores.

ghost use Rattle.std.specs.Prelude.{◌≡◌, ◌<◌, ◌≤◌, ℕ, List, [], ◌∷◌, ◌++◌, IfOk, IfSome, OnOk};
ghost use Rattle.query_eval.specs.Sides.{AreKeyScores, answer_of, key_count, scores_of};
ghost use Rattle.query_eval.specs.declared.answer.Answer.{Answer};
ghost use Rattle.score_math.specs.declared.score.TheConstants.{SCORE_CAP};

use crate::NoMemory;
use crate::answer::{Answer, answer_of};
use crate::tally::Tallies;
use block_bits::BitSet;
use std::alloc::Global;

/// What the keys with scores are given.
#[derive(Drop)]
pub(crate) enum KeyScores {
    /// All the same boost: their scores aren't kept.
    Alike(u32, BitSet),
    /// What their tallies answer.
    Tallied(Answer, Tallies),
}

impl KeyScores {
    /// No scores, for so many keys. `NoMemory` too where there are more than 2^32 - 1.
    pub(crate) fn none(alloc: Global, count: usize, answer: Answer) -> Result<KeyScores, NoMemory>
        ensures long { IfOk result (λ keyed. key_count keyed ≡ count) }
        ensures scores { IfOk result (AreKeyScores answer []) }
    {
        if let Answer::Parent {
            score: false,
            boost,
        } = answer
        {
            let Ok(count) = u32::try_from(count) else {
                return Err(NoMemory);
            };
            return Ok(KeyScores::Alike(boost, BitSet::empty(alloc, count)?));
        }
        Ok(KeyScores::Tallied(answer, Tallies::none(alloc, count)?))
    }

    /// Adds a score to those of a key.
    pub(crate) fn add(&mut self, key: u32, score: u64) -> Result<(), NoMemory>
        requires key { key < key_count self.old }
        requires capped { score ≤ SCORE_CAP }
        ensures long { key_count self.new ≡ key_count self.old }
        ensures scores { (asked : Answer) (pairs : List (ℕ × ℕ)) → AreKeyScores asked pairs self.old → OnOk result (AreKeyScores asked (pairs ++ (key, score) ∷ []) self.new) }
    {
        match self {
            KeyScores::Alike(_, keys) => {
                keys.set(key);
                Ok(())
            }
            KeyScores::Tallied(_, tallies) => Ok(tallies.add(key, score)?),
        }
    }

    /// What a key is given.
    pub(crate) fn given(&self, key: u32) -> Option<u64>
        requires { key < key_count self.now }
        ensures given { (asked : Answer) (pairs : List (ℕ × ℕ)) → AreKeyScores asked pairs self.now → result ≡ answer_of asked (scores_of key pairs) }
        ensures capped { IfSome result (λ score. score ≤ SCORE_CAP) }
    {
        match self {
            KeyScores::Alike(boost, keys) => {
                if keys.has(key) {
                    Some(u64::from(*boost))
                } else {
                    None
                }
            }
            KeyScores::Tallied(answer, tallies) => match tallies.of(key) {
                Some(tally) => answer_of(tally, *answer),
                None => None,
            },
        }
    }
}
