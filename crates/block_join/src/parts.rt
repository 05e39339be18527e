//! Scores that are sums, each over some sets.

ghost use Rattle.std.specs.Prelude.{◌≡◌, ◌<◌, ◌≤◌, ◌*◌, ◌-◌, [], Some, None, length, drop, take, get_or, sum, IfOk, IfSome, OnOk};
ghost use Rattle.block_join.specs.Kept.{marks};
ghost use Rattle.block_join.specs.Merge.{paired, put_together};
ghost use Rattle.block_join.specs.Scores.{between, filled};
ghost use Rattle.block_join.specs.Sums.{AreParts, summed};
ghost use Rattle.block_join.specs.declared.rule.Rule.{Rule};
ghost use Rattle.score_math.specs.Scores.{capped};
ghost use Rattle.score_math.specs.declared.score.TheConstants.{SCORE_CAP};

use crate::count::count_between;
use crate::{NoMemory, Rule};
use block_bits::BitSet;
use score_math::{SCORE_CAP, cap_add};
use std::alloc::Global;

/// What the documents of a set have of a sum.
#[derive(Drop)]
pub(crate) struct Part {
    pub(crate) set: BitSet,
    pub(crate) score: u64,
}

/// The parts of a sum over so many documents: a document's score is the sum of those of the parts that it is in.
#[derive(Drop)]
pub(crate) struct Parts {
    pub(crate) parts: Vec<Part>,
    pub(crate) len: u32,
}

impl Parts {
    /// No parts.
    pub(crate) fn none(alloc: Global, len: u32) -> Parts
        ensures none { result.parts.items ≡ [] }
        ensures len { result.len ≡ len }
    {
        Parts {
            parts: Vec::new(alloc),
            len,
        }
    }

    /// Adds a score for the documents of a set.
    pub(crate) fn add(&mut self, set: BitSet, score: u64) -> Result<(), NoMemory>
        requires parts { AreParts self.old }
        requires long { length set ≡ self.old.len }
        requires capped { score ≤ SCORE_CAP }
        ensures parts { OnOk result (AreParts self.new) }
        ensures len { OnOk result (self.new.len ≡ self.old.len) }
        ensures sums { OnOk result (summed self.new ≡ paired (put_together Rule.Either) (summed self.old) (filled (Some score) set)) }
    {
        self.parts.push(Part { set, score })?;
        Ok(())
    }

    /// The same parts.
    pub(crate) fn copy(&self, alloc: Global) -> Result<Parts, NoMemory>
        requires { AreParts self.now }
        ensures parts { IfOk result AreParts }
        ensures len { IfOk result (λ made. made.len ≡ self.now.len) }
        ensures sums { IfOk result (λ made. summed made ≡ summed self.now) }
    {
        let mut made = Parts::none(alloc, self.len);
        'parts: for part in &self.parts {
            made.add(part.set.copy(alloc)?, part.score)?;
        }
        Ok(made)
    }

    /// The parts cut to the documents of a set.
    pub(crate) fn cut(&self, alloc: Global, within: &BitSet) -> Result<Parts, NoMemory>
        requires parts { AreParts self.now }
        requires long { length within.now ≡ self.now.len }
        ensures parts { IfOk result AreParts }
        ensures len { IfOk result (λ made. made.len ≡ self.now.len) }
        ensures sums { IfOk result (λ made. summed made ≡ paired (put_together Rule.Both) (filled (Some 0) within.now) (summed self.now)) }
    {
        let mut made = Parts::none(alloc, self.len);
        'parts: for part in &self.parts {
            let mut set = part.set.copy(alloc)?;
            set.and(within);
            made.add(set, part.score)?;
        }
        Ok(made)
    }

    /// The score of a document.
    pub(crate) fn at(&self, doc: u32) -> Option<u64>
        requires parts { AreParts self.now }
        requires within { doc < self.now.len }
        ensures { result ≡ get_or (summed self.now) doc None }
    {
        let mut sum = None;
        'parts: for part in &self.parts {
            sum = Rule::Either.apply(sum, part.at(doc));
        }
        sum
    }

    /// The sum of the scores of the documents from `from` up to `end`.
    pub(crate) fn total(&self, from: u32, end: u32) -> u64
        requires parts { AreParts self.now }
        requires ordered { from ≤ end }
        requires within { end ≤ self.now.len }
        ensures sum { result ≡ capped (sum (between (summed self.now) from end)) }
        ensures capped { result ≤ SCORE_CAP }
    {
        let mut total = 0;
        'parts: for part in &self.parts {
            total = cap_add(total, part.total(from, end));
        }
        total
    }
}

impl Part {
    /// What a document has of it.
    fn at(&self, doc: u32) -> Option<u64>
        requires part { self.now.score ≤ SCORE_CAP }
        requires within { doc < length self.now.set }
        ensures value { result ≡ get_or (filled (Some self.now.score) self.now.set) doc None }
        ensures capped { IfSome result (λ score. score ≤ SCORE_CAP) }
    {
        if self.set.has(doc) {
            Some(self.score)
        } else {
            None
        }
    }

    /// What the documents from `from` up to `end` have of it together.
    fn total(&self, from: u32, end: u32) -> u64
        requires ordered { from ≤ end }
        requires within { end ≤ length self.now.set }
        ensures { result ≡ capped (marks (take (end - from) (drop from self.now.set)) * self.now.score) }
    {
        let count = count_between(&self.set, from, end);
        let total = u128::from(count) * u128::from(self.score);
        total.min(u128::from(SCORE_CAP)) as u64
    }
}
