//! Scores made in the order of their documents.

ghost use Rattle.std.specs.Prelude.{◌≡◌, ℕ, ◌+◌, ◌<◌, ◌≤◌, List, [], ◌∷◌, ◌++◌, length, Option, Some, None, IfSome, IfOk, OnOk, OnErr};
ghost use Rattle.block_join.specs.Scores.{padded};
ghost use Rattle.score_math.specs.declared.score.TheConstants.{SCORE_CAP};

use crate::scores::Scores;
use crate::{NoMemory, Scored};
use block_bits::BitSet;
use std::alloc::Global;
use std::marker::Model;

/// Scores made in the order of their documents.
///
/// As long as all are equal they take no memory but that of the set.
#[derive(Drop)]
pub struct Builder {
    alloc: Global,
    set: BitSet,
    scores: Scores,
    end: u32,
    count: u32,
}

impl Model for Builder {
    ghost use Rattle.std.specs.Prelude.{take, length};
    ghost use Rattle.block_join.specs.Scores.{Begun};
    ghost use Rattle.block_join.specs.Kept.{shown, score_of, IsBegun};

    ghost Value = { Begun };

    ghost view = { λ it. record { done = take it.end (shown (score_of it.scores) 0 it.set); len = length it.set } };

    ghost invariant = { λ it. IsBegun it.set it.scores it.end it.count };
}

impl Builder {
    /// No scores yet, for so many documents.
    pub fn empty(alloc: Global, len: u32) -> Result<Builder, NoMemory>
        ensures { IfOk result (λ made. made ≡ record { done = []; len = len }) }
    {
        let set = BitSet::empty(alloc, len)?;
        Ok(Builder {
            alloc,
            set,
            scores: Scores::Same(0),
            end: 0,
            count: 0,
        })
    }

    /// Gives a document its score; those before it that were not given one have none.
    pub fn push(&mut self, doc: u32, score: u64) -> Result<(), NoMemory>
        requires later { length self.old.done ≤ doc }
        requires within { doc < self.old.len }
        requires capped { score ≤ SCORE_CAP }
        ensures done { OnOk result (self.new.done ≡ padded doc self.old.done ++ (Some score ∷ [])) }
        ensures len { self.new.len ≡ self.old.len }
        ensures same { OnErr result (self.new ≡ self.old) }
    {
        self.scores.add(self.alloc, self.count, score)?;
        self.set.set(doc);
        self.count += 1;
        self.end = doc + 1;
        Ok(())
    }

    /// Gives a document its score or none.
    pub fn put(&mut self, doc: u32, score: Option<u64>) -> Result<(), NoMemory>
        requires later { length self.old.done ≤ doc }
        requires within { doc < self.old.len }
        requires capped { IfSome score (λ score. score ≤ SCORE_CAP) }
        ensures done { OnOk result (padded (doc + 1) self.new.done ≡ padded doc self.old.done ++ (score ∷ [])) }
        ensures up_to { OnOk result (length self.new.done ≤ doc + 1) }
        ensures len { self.new.len ≡ self.old.len }
        ensures same { OnErr result (self.new ≡ self.old) }
    {
        if let Some(score) = score {
            self.push(doc, score)?;
        }
        Ok(())
    }

    /// All scores; the documents that were not given one have none. Takes no memory.
    pub fn finish(self) -> Scored
        ensures scores { result ≡ padded self.len self.done }
        ensures long { length result ≡ self.len }
    {
        Scored::of(self.set, self.scores)
    }
}
