//! Scores that are counted, summed and compared one after the other.

ghost use Rattle.std.specs.Prelude.{◌≡◌, ◌≤◌, ◌+◌, ◌*◌, ℕ, List, [], ◌∷◌, ◌++◌, length, slice_index_or, OnOk};
ghost use Rattle.query_eval.specs.Tallies.{IsTally};
ghost use Rattle.score_math.specs.declared.score.TheConstants.{SCORE_CAP};

use crate::NoMemory;

/// The number, the sum, the least, the greatest and the first of some scores.
#[derive(Clone, Copy)]
pub(crate) struct Tally {
    pub(crate) count: u32,
    pub(crate) total: u128,
    pub(crate) least: u64,
    pub(crate) greatest: u64,
    pub(crate) first: u64,
    ghost bounded: { total ≤ count * greatest },
    ghost least_capped: { least ≤ SCORE_CAP },
    ghost greatest_capped: { greatest ≤ SCORE_CAP },
    ghost first_capped: { first ≤ SCORE_CAP },
}

/// A tally for each key that has scores. A key without any takes four bytes.
#[derive(Drop)]
pub(crate) struct Tallies {
    /// For each key one more than the index of its tally, or 0.
    pub(crate) slots: Vec<u32>,
    pub(crate) told: Vec<Tally>,
    ghost within: { (key : ℕ) → slice_index_or slots.items key 0 ≤ length told.items },
}

impl Tally {
    /// Of no scores.
    pub(crate) fn none() -> Tally
        ensures { IsTally [] result.count result.total result.least result.greatest result.first }
    {
        Tally {
            count: 0,
            total: 0,
            least: 0,
            greatest: 0,
            first: 0,
        }
    }

    /// Adds a score. `NoMemory` where 2^32 were added.
    pub(crate) fn add(&mut self, score: u64) -> Result<(), NoMemory>
        requires { score ≤ SCORE_CAP }
        ensures { (scores : List ℕ) → IsTally scores self.old.count self.old.total self.old.least self.old.greatest self.old.first
            → OnOk result (IsTally (scores ++ score ∷ []) self.new.count self.new.total self.new.least self.new.greatest self.new.first) }
    {
        let Some(count) = self.count.checked_add(1) else {
            return Err(NoMemory);
        };
        *self = self.with(count, score);
        Ok(())
    }

    /// With one score more, which is the one with this number.
    #[tactic(auto, using(crate::proofs::Counting::tallies))]
    fn with(&self, count: u32, score: u64) -> Tally
        requires count { count ≡ self.now.count + 1 }
        requires score { score ≤ SCORE_CAP }
        ensures { (scores : List ℕ) → IsTally scores self.now.count self.now.total self.now.least self.now.greatest self.now.first
            → IsTally (scores ++ score ∷ []) result.count result.total result.least result.greatest result.first }
    {
        if self.count == 0 {
            Tally {
                count,
                total: u128::from(score),
                least: score,
                greatest: score,
                first: score,
            }
        } else {
            Tally {
                count,
                total: self.total + u128::from(score),
                least: self.least.min(score),
                greatest: self.greatest.max(score),
                first: self.first,
            }
        }
    }
}
