//! Scores read in the order of their documents.

ghost use Rattle.std.specs.Prelude.{◌≡◌, ℕ, ◌+◌, ◌-◌, ◌<◌, ◌≤◌, List, [], ◌∷◌, length, Some, IfSome, IfNone};
ghost use Rattle.std.specs.Option.{is_some};
ghost use Rattle.block_bits.specs.Places.{next_place};
ghost use Rattle.block_join.specs.Kept.{shown, kept_score, AreKept};
ghost use Rattle.block_join.specs.Sums.{AreParts, summed};
ghost use Rattle.block_join.specs.Scores.{between};
ghost use Rattle.score_math.specs.Scores.{mode_of};
ghost use Rattle.score_math.specs.declared.score.ScoreMode.{ScoreMode};
ghost use Rattle.score_math.specs.declared.score.TheConstants.{SCORE_CAP};

use crate::parts::Parts;
use crate::scores::Form;
use block_bits::{BitSet, Walk};
use score_math::{ScoreMode, combine};
use std::marker::Model;

/// Scores read in the order of their documents, from some document on.
///
/// It keeps the next document that hits in hand, so that a look ahead costs nothing.
#[derive(Drop)]
pub struct Cursor<'a> {
    set: &'a BitSet,
    walk: Walk<'a>,
    ahead: Option<u32>,
    form: &'a Form,
    from: u32,
    at: usize,
}

impl<'a> Model for Cursor<'a> {
    ghost use Rattle.block_join.specs.Scores.{Standing};
    ghost use Rattle.block_join.specs.Kept.{shown, kept_score, IsStanding};

    ghost Value = { Standing };

    ghost view = { λ it. record { scores = shown (kept_score it.form.now) 0 it.walk.documents; from = it.from } };

    ghost invariant = { λ it. IsStanding it.set.now it.walk it.ahead it.form.now it.from it.at };
}

impl<'a> Cursor<'a> {
    /// The scores of a set's documents, from the first document on.
    pub(crate) fn over(set: &'a BitSet, form: &'a Form) -> Cursor<'a>
        requires { AreKept set.now form.now }
        ensures { result ≡ record { scores = shown (kept_score form.now) 0 set.now; from = 0 } }
    {
        let mut walk = set.walk();
        let ahead = walk.next();
        Cursor {
            set,
            walk,
            ahead,
            form,
            from: 0,
            at: 0,
        }
    }

    /// The document from which on it reads.
    pub fn from(&self) -> u32
        ensures from { result ≡ self.now.from }
        ensures within { result ≤ length self.now.scores }
    {
        self.from
    }

    /// The next document that hits, without going on.
    pub fn peek(&self) -> Option<u32>
        ensures value { result ≡ next_place is_some self.now.from self.now.scores }
        ensures within { IfSome result (λ doc. (self.now.from ≤ doc) × (doc < length self.now.scores)) }
    {
        self.ahead
    }

    /// The next score of a document before `end`. It goes on behind that document, and at `end` where there is none.
    pub fn next_before(&mut self, end: u32) -> Option<u64>
        requires ordered { self.old.from ≤ end }
        requires within { end ≤ length self.old.scores }
        ensures scores { self.new.scores ≡ self.old.scores }
        ensures score { IfSome result (λ score. between self.old.scores self.old.from end ≡ score ∷ between self.new.scores self.new.from end) }
        ensures capped { IfSome result (λ score. score ≤ SCORE_CAP) }
        ensures later { IfSome result (λ score. (self.old.from < self.new.from) × (self.new.from ≤ end)) }
        ensures document { IfSome result (λ score. next_place is_some self.old.from self.old.scores ≡ Some (self.new.from - 1)) }
        ensures none { IfNone result ((between self.old.scores self.old.from end ≡ []) × (self.new.from ≡ end)) }
    {
        match self.ahead {
            Some(doc) if doc < end => {
                let (score, next) = self.form.read(self.at, doc);
                self.at = next;
                self.from = self.walk.from();
                self.ahead = self.walk.next();
                Some(score)
            }
            _ => {
                self.from = end;
                None
            }
        }
    }

    /// Goes on at `end`. Documents that are passed over are counted 64 at a time, and not at all where scores are not listed.
    pub fn skip(&mut self, end: u32)
        requires ordered { self.old.from ≤ end }
        requires within { end ≤ length self.old.scores }
        ensures { self.new ≡ record { scores = self.old.scores; from = end } }
    {
        match self.ahead {
            Some(doc) if doc < end => {
                self.at = self.form.place_at(self.set, self.at, doc, end);
                self.walk.skip_to(end);
                self.ahead = self.walk.next();
                self.from = end;
            }
            _ => self.from = end,
        }
    }

    /// The mode of the scores of the documents before `end`, by their sum, count, least and greatest. It goes on at `end`.
    ///
    /// The sum of sums is found part by part.
    pub fn mode_before(&mut self, end: u32, mode: ScoreMode) -> Option<u64>
        requires ordered { self.old.from ≤ end }
        requires within { end ≤ length self.old.scores }
        ensures value { result ≡ mode_of mode (between self.old.scores self.old.from end) }
        ensures capped { IfSome result (λ score. score ≤ SCORE_CAP) }
        ensures place { self.new ≡ record { scores = self.old.scores; from = end } }
    {
        if let Form::Summed(parts) = self.form {
            if mode == ScoreMode::Sum {
                return self.sum_before(parts, end);
            }
        }
        let first = self.next_before(end)?;
        let mut total = u128::from(first);
        let mut count = 1u32;
        let mut least = first;
        let mut greatest = first;
        'scores: while let Some(score) = self.next_before(end) {
            total += u128::from(score);
            count += 1;
            least = least.min(score);
            greatest = greatest.max(score);
        }
        Some(combine(mode, total, count, least, greatest))
    }

    /// The sum of the scores of the documents before `end`, which are the sums of these parts. It goes on at `end`.
    fn sum_before(&mut self, parts: &Parts, end: u32) -> Option<u64>
        requires ordered { self.old.from ≤ end }
        requires within { end ≤ length self.old.scores }
        requires parts { AreParts parts.now }
        requires sums { self.old.scores ≡ summed parts.now }
        requires len { parts.now.len ≡ length self.old.scores }
        ensures value { result ≡ mode_of ScoreMode.Sum (between self.old.scores self.old.from end) }
        ensures capped { IfSome result (λ score. score ≤ SCORE_CAP) }
        ensures place { self.new ≡ record { scores = self.old.scores; from = end } }
    {
        let ahead = self.peek();
        let from = self.from();
        self.skip(end);
        let Some(doc) = ahead else {
            return None;
        };
        if doc < end {
            Some(parts.total(from, end))
        } else {
            None
        }
    }
}
