//! A set of documents with a score for each.

ghost use Rattle.std.specs.Prelude.{◌≡◌, ◌≤◌, ◌<◌, ◌^◌, length, map, Some, IfOk, IfSome, is_some};
ghost use Rattle.block_join.specs.Merge.{paired, put_together};
ghost use Rattle.block_join.specs.Scores.{filled};
ghost use Rattle.block_join.specs.Sums.{AreParts, IsSum, summed};
ghost use Rattle.block_join.specs.declared.rule.Rule.{Rule};
ghost use Rattle.block_join.specs.Kept.{shown, score_of, AreScores};
ghost use Rattle.score_math.specs.declared.score.TheConstants.{SCORE_CAP};

use crate::parts::Parts;
use crate::scores::{Form, Scores};
use crate::{Cursor, NoMemory};
use block_bits::BitSet;
use score_math::SCORE_CAP;
use std::alloc::Global;
use std::marker::Model;

/// A sum of so many parts gets no further one: a part costs a copy of its set at each step, and a look into it at each score.
const MANY_PARTS: usize = 16;

/// The documents that hit, each with a score of at most `SCORE_CAP`, seen as one optional score a document.
///
/// A score that all of them share takes no memory.
#[derive(Drop)]
pub struct Scored {
    set: BitSet,
    form: Form,
}

impl Model for Scored {
    ghost use Rattle.std.specs.Prelude.{ℕ, List, Option};
    ghost use Rattle.std.specs.Coded.{coded_list, coded_option, coded_ℕ};
    ghost use Rattle.block_join.specs.Kept.{shown, kept_score, AreKept};

    ghost Value = { List (Option ℕ) };

    ghost coded = { coded_list (coded_option coded_ℕ) };

    ghost view = { λ it. shown (kept_score it.form) 0 it.set };

    ghost invariant = { λ it. AreKept it.set it.form };
}

impl Scored {
    /// The documents of the set, all with one score. Takes no memory.
    pub fn same(set: BitSet, score: u64) -> Scored
        requires { score ≤ SCORE_CAP }
        ensures { result ≡ filled (Some score) set }
    {
        Scored {
            set,
            form: Form::Shared(score),
        }
    }

    /// The scores of a set's documents, in their order.
    pub(crate) fn of(set: BitSet, scores: Scores) -> Scored
        requires { AreScores set scores }
        ensures { result ≡ shown (score_of scores) 0 set }
    {
        match scores {
            Scores::Same(score) => Scored {
                set,
                form: Form::Shared(score),
            },
            Scores::Each(scores) => Scored {
                set,
                form: Form::Listed(scores),
            },
        }
    }

    /// How many documents there are, whether they hit or not.
    pub fn len(&self) -> u32
        ensures { result ≡ length self.now }
    {
        self.set.len()
    }

    /// The documents that hit.
    pub fn set(&self) -> &BitSet
        ensures { result.now ≡ map is_some self.now }
    {
        &self.set
    }

    /// The one score of all documents that hit, where that is known without reading them.
    pub fn shared(&self) -> Option<u64>
        ensures alike { IfSome result (λ score. self.now ≡ filled (Some score) (map is_some self.now)) }
        ensures capped { IfSome result (λ score. score ≤ SCORE_CAP) }
    {
        let score = self.form.shared()?;
        Some(score.min(SCORE_CAP))
    }

    /// The scores in order, from the first document on.
    pub fn cursor(&self) -> Cursor<'_>
        ensures { result ≡ record { scores = self.now; from = 0 } }
    {
        Cursor::over(&self.set, &self.form)
    }

    /// The sums of parts. The set has just the documents that have one.
    fn of_parts(alloc: Global, set: BitSet, parts: Parts) -> Result<Scored, NoMemory>
        requires { IsSum set parts }
        ensures { IfOk result (λ made. made ≡ summed parts) }
    {
        let parts = Box::new(alloc, parts)?;
        Ok(Scored {
            set,
            form: Form::Summed(parts),
        })
    }

    /// Whether these are sums of so many parts that they get no further one.
    pub(crate) fn has_many_parts(&self) -> bool {
        match &self.form {
            Form::Shared(_) => false,
            Form::Listed(_) => false,
            Form::Summed(parts) => parts.parts.len() >= MANY_PARTS,
        }
    }

    /// With a score more for the documents of a set, as a sum of parts; None where these scores are listed one each.
    pub(crate) fn plus(
        &self,
        alloc: Global,
        set: &BitSet,
        score: u64,
    ) -> Result<Option<Scored>, NoMemory>
        requires long { length set.now ≡ length self.now }
        requires capped { score ≤ SCORE_CAP }
        ensures { IfOk result (λ made. IfSome made (λ made. made ≡ paired (put_together Rule.Either) self.now (filled (Some score) set.now))) }
    {
        let Some(mut parts) = self.parts(alloc)? else {
            return Ok(None);
        };
        parts.add(set.copy(alloc)?, score)?;
        let mut all = self.set.copy(alloc)?;
        all.or(set);
        Ok(Some(Scored::of_parts(alloc, all, parts)?))
    }

    /// The parts of the sums that these scores are; None where they are listed one each.
    fn parts(&self, alloc: Global) -> Result<Option<Parts>, NoMemory>
        ensures parts { IfOk result (λ made. IfSome made AreParts) }
        ensures len { IfOk result (λ made. IfSome made (λ made. made.len ≡ length self.now)) }
        ensures sums { IfOk result (λ made. IfSome made (λ made. summed made ≡ self.now)) }
    {
        if let Form::Summed(parts) = &self.form {
            return Ok(Some(parts.copy(alloc)?));
        }
        let Some(score) = self.shared() else {
            return Ok(None);
        };
        let mut parts = Parts::none(alloc, self.len());
        parts.add(self.set.copy(alloc)?, score)?;
        Ok(Some(parts))
    }

    /// Those of the documents of a set, where they are the sums of parts.
    pub(crate) fn cut(&self, alloc: Global, within: &BitSet) -> Result<Option<Scored>, NoMemory>
        requires { length within.now ≡ length self.now }
        ensures { IfOk result (λ made. IfSome made (λ made. made ≡ paired (put_together Rule.Both) (filled (Some 0) within.now) self.now)) }
    {
        let Form::Summed(parts) = &self.form else {
            return Ok(None);
        };
        let mut set = self.set.copy(alloc)?;
        set.and(within);
        let inside = parts.cut(alloc, within)?;
        Ok(Some(Scored::of_parts(alloc, set, inside)?))
    }
}
