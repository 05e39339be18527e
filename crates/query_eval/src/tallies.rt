//! The scores of keys, tallied: of many keys, few have any.

ghost use Rattle.std.specs.Prelude.{◌≡◌, ◌<◌, ◌≤◌, ℕ, List, [], ◌∷◌, ◌++◌, length, slice_index_or, IfNone, IfOk, IfSome, OnOk};
ghost use Rattle.query_eval.specs.Sides.{AreTallies, TallyOf, scores_of};
ghost use Rattle.score_math.specs.declared.score.TheConstants.{SCORE_CAP};

use crate::NoMemory;
use crate::tally::{Tallies, Tally};
use std::alloc::Global;

impl Tallies {
    /// No scores, for so many keys.
    pub(crate) fn none(alloc: Global, count: usize) -> Result<Tallies, NoMemory>
        ensures long { IfOk result (λ tallies. length tallies.slots.items ≡ count) }
        ensures tallies { IfOk result (AreTallies []) }
    {
        let mut slots = Vec::with_capacity(alloc, count)?;
        slots.resize(count, 0)?;
        Ok(Tallies {
            slots,
            told: Vec::new(alloc),
        })
    }

    /// Adds a score to those of a key. `NoMemory` where 2^32 scores of it or keys were added.
    pub(crate) fn add(&mut self, key: u32, score: u64) -> Result<(), NoMemory>
        requires key { key < length self.old.slots.items }
        requires capped { score ≤ SCORE_CAP }
        ensures long { length self.new.slots.items ≡ length self.old.slots.items }
        ensures tallies { (pairs : List (ℕ × ℕ)) → AreTallies pairs self.old → OnOk result (AreTallies (pairs ++ (key, score) ∷ []) self.new) }
    {
        let slot = self.slots[key as usize];
        if slot == 0 {
            return Ok(self.add_first(key, score)?);
        }
        let tally = &mut self.told[slot as usize - 1];
        tally.add(score)?;
        Ok(())
    }

    /// Adds the first score of a key.
    fn add_first(&mut self, key: u32, score: u64) -> Result<(), NoMemory>
        requires key { key < length self.old.slots.items }
        requires first { slice_index_or self.old.slots.items key 0 ≡ 0 }
        requires capped { score ≤ SCORE_CAP }
        ensures long { length self.new.slots.items ≡ length self.old.slots.items }
        ensures tallies { (pairs : List (ℕ × ℕ)) → AreTallies pairs self.old → OnOk result (AreTallies (pairs ++ (key, score) ∷ []) self.new) }
    {
        let mut tally = Tally::none();
        tally.add(score)?;
        let Ok(last) = u32::try_from(self.told.len()) else {
            return Err(NoMemory);
        };
        let Some(slot) = last.checked_add(1) else {
            return Err(NoMemory);
        };
        self.told.push(tally)?;
        self.slots[key as usize] = slot;
        Ok(())
    }

    /// The tally of a key, if it has scores.
    pub(crate) fn of(&self, key: u32) -> Option<&Tally>
        requires { key < length self.now.slots.items }
        ensures some { (pairs : List (ℕ × ℕ)) → AreTallies pairs self.now → IfSome result (λ tally. TallyOf (scores_of key pairs) tally.now) }
        ensures none { (pairs : List (ℕ × ℕ)) → AreTallies pairs self.now → IfNone result (scores_of key pairs ≡ []) }
    {
        let slot = self.slots[key as usize];
        if slot == 0 {
            return None;
        }
        Some(&self.told[slot as usize - 1])
    }
}
