//! The pool: extents that are taken, and the holes that they leave below the limit.
ghost use Rattle.std.specs.Prelude.{◌≡◌, ℕ, ◌+◌, ◌%◌, ◌≤◌, ◌<◌, ◌^◌, ◌∷◌, ◌↔◌, length, All, Any, Contains, IfOk, OnOk, OnErr, IsErrOf, Some, None, vec_len, vec_capacity};
ghost use Rattle.std.specs.List.Sorted.{IsPermutation};
ghost use Rattle.extent_pool.specs.Extents.{end_of, room_of, AreDisjoint, AreInOrder};
ghost use Rattle.std.specs.Option.{option_map};
ghost use Rattle.extent_pool.specs.Holes.{holes_of, first_fit};
ghost use Rattle.extent_pool.specs.Placing.{fit};

use crate::extent::{Extent, ExtentList, UNIT};
use crate::holes::{add_gaps, first_with_room, release, shorten};
use crate::taken::{add_extent, all_within, in_order, remove_extent, stand_apart};
use std::alloc::{AllocError, Global};
use std::marker::Model;

/// Why no pool can be made.
#[derive(Clone, Copy, Debug, PartialEq, Eq)]
pub enum PoolRefusal {
    /// Two extents share a byte.
    Overlap,
    /// The units of an extent end past the limit. This comes before Overlap.
    BeyondLimit,
    NoMemory,
}

impl From<AllocError> for PoolRefusal {
    ghost use Rattle.std.specs.Prelude.{◌≡◌};
    ghost use Rattle.extent_pool.specs.declared.pool.PoolRefusal.TheVariants.{NoMemory};

    ghost from_gives = { λ _ e. e ≡ NoMemory };

    fn from(_: AllocError) -> Self {
        PoolRefusal::NoMemory
    }
}

/// Why no extent was taken.
#[derive(Clone, Copy, Debug, PartialEq, Eq)]
pub enum TakeRefusal {
    /// No hole is as long as the rounded length.
    Full,
    NoMemory,
}

impl From<AllocError> for TakeRefusal {
    ghost use Rattle.std.specs.Prelude.{◌≡◌};
    ghost use Rattle.extent_pool.specs.declared.pool.TakeRefusal.TheVariants.{NoMemory};

    ghost from_gives = { λ _ e. e ≡ NoMemory };

    fn from(_: AllocError) -> Self {
        TakeRefusal::NoMemory
    }
}

/// The bytes below a limit: extents that are taken, in ascending order of place, and the holes that they leave.
#[derive(Drop)]
pub struct ExtentPool {
    limit: u64,
    taken: Vec<Extent>,
    holes: ExtentList,
}

impl Model for ExtentPool {
    ghost use Rattle.extent_pool.specs.Extents.{Pool};

    ghost Value = { Pool };

    ghost view = { λ p. record { limit = p.limit; taken = p.taken.items } };

    ghost use Rattle.extent_pool.specs.Gaps.{IsKept};

    ghost invariant = { λ p. IsKept p.limit p.taken.items p.holes };
}

impl ExtentPool {
    /// The pool of the bytes below the limit where these extents are taken. Only whole units below the limit count.
    pub fn over(alloc: Global, limit: u64, taken: &ExtentList) -> Result<ExtentPool, PoolRefusal>
        requires places { All (λ e. e.at % UNIT ≡ 0) taken.now.extents }
        requires lengths { All (λ e. (1 ≤ e.len) × (e.len ≤ 2 ^ 60)) taken.now.extents }
        requires limit { limit ≤ 2 ^ 60 }

        ensures limit { IfOk result (λ pool. pool.limit ≡ limit) }
        ensures taken { IfOk result (λ pool. IsPermutation taken.now.extents pool.taken) }
        ensures in_order { IfOk result (λ pool. AreInOrder limit pool.taken) }

        // It succeeds, but for want of memory, exactly where these two facts hold.
        ensures within { OnOk result (All (λ e. end_of e ≤ limit) taken.now.extents) }
        ensures disjoint { OnOk result (AreDisjoint taken.now.extents) }

        ensures beyond_limit { IsErrOf result PoolRefusal.BeyondLimit ↔ Any (λ e. limit < end_of e) taken.now.extents }
        ensures overlap { IsErrOf result PoolRefusal.Overlap
            → All (λ e. end_of e ≤ limit) taken.now.extents × ¬ AreDisjoint taken.now.extents }
    {
        if !all_within(taken.as_slice(), limit) {
            return Err(PoolRefusal::BeyondLimit);
        }
        let sorted = in_order(alloc, taken.as_slice())?;
        if !stand_apart(sorted.as_slice()) {
            return Err(PoolRefusal::Overlap);
        }
        let mut holes = ExtentList::of(Vec::new(alloc));
        holes.reserve(sorted.len() + 1)?;
        add_gaps(sorted.as_slice(), limit / UNIT * UNIT, &mut holes);
        Ok(ExtentPool {
            limit,
            taken: sorted,
            holes,
        })
    }

    /// Takes the front of the first hole that has room for the length, rounded up to whole units. After a refusal the
    /// pool is as it was.
    #[tactic(auto, using(crate::proofs::Kept::keeping))]
    pub fn take(&mut self, len: u64) -> Result<Extent, TakeRefusal>
        requires { 1 ≤ len }

        ensures first_fit { IfOk result (λ e. first_fit len (holes_of self.old.limit self.old.taken) ≡ Some e) }
        ensures gains { IfOk result (λ e. IsPermutation (e ∷ self.old.taken) self.new.taken) }
        ensures limit { self.new.limit ≡ self.old.limit }

        ensures full { IsErrOf result TakeRefusal.Full
            ↔ (first_fit len (holes_of self.old.limit self.old.taken) ≡ None) }
        ensures unchanged { OnErr result (self.new ≡ self.old) }

        ensures in_order { AreInOrder self.new.limit self.new.taken }
        ensures disjoint { AreDisjoint self.new.taken }
    {
        let Some(place) = first_with_room(self.holes.as_slice(), len) else {
            return Err(TakeRefusal::Full);
        };
        reserve_one(&mut self.taken, &mut self.holes)?;
        let extent = Extent {
            at: self.holes.as_slice()[place].at,
            len,
        };
        shorten(&mut self.holes, place, len.next_multiple_of(UNIT));
        add_extent(&mut self.taken, extent);
        Ok(extent)
    }

    /// The place that `take` would give to this length: None exactly where it would be refused as full. It takes nothing,
    /// and no memory.
    pub fn peek(&self, len: u64) -> Option<u64>
        requires { 1 ≤ len }
        ensures { result ≡ option_map (λ e. e.at) (fit self.now.limit self.now.taken len) }
    {
        let holes = self.holes().as_slice();
        match first_with_room(holes, len) {
            Some(place) => Some(holes[place].at),
            None => None,
        }
    }

    /// Makes the units of a taken extent free again. It takes no memory.
    #[tactic(auto, using(crate::proofs::Kept::keeping))]
    pub fn give_back(&mut self, extent: Extent)
        requires { Contains self.old.taken extent }

        ensures loses { IsPermutation self.old.taken (extent ∷ self.new.taken) }
        ensures limit { self.new.limit ≡ self.old.limit }

        ensures in_order { AreInOrder self.new.limit self.new.taken }
        ensures disjoint { AreDisjoint self.new.taken }
    {
        remove_extent(&mut self.taken, extent);
        release(&mut self.holes, extent.at, extent.end());
    }

    /// The holes, in ascending order of place.
    #[tactic(auto, using(crate::proofs::Kept::keeping))]
    pub fn holes(&self) -> &ExtentList
        ensures holes { result.now.extents ≡ holes_of self.now.limit self.now.taken }
        ensures disjoint { AreDisjoint self.now.taken }
    {
        &self.holes
    }
}

/// Makes room for one more taken extent, and for one hole more than there are taken extents then.
fn reserve_one(taken: &mut Vec<Extent>, holes: &mut ExtentList) -> Result<(), AllocError>
    requires { length holes.old.extents ≤ length taken.old.items + 1 }
    ensures taken { taken.new.items ≡ taken.old.items }
    ensures holes { holes.new.extents ≡ holes.old.extents }
    ensures room { room_of holes.old ≤ room_of holes.new }
    ensures ok { OnOk result ((vec_len taken.new < vec_capacity taken.new)
        × (length taken.old.items + 2 ≤ room_of holes.new)) }
{
    taken.reserve(1)?;
    holes.reserve(taken.len() + 2 - holes.as_slice().len())
}
