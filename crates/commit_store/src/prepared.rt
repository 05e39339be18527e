//! A commit that is prepared.

ghost use Rattle.std.specs.Prelude.{◌≡◌, ◌≤◌, Some, length, slice_get, IfOk, OnErr, IsSomeAnd};
ghost use Rattle.commit_store.specs.Moving.{IsOffered, SaysAsMuch};
ghost use Rattle.commit_store.specs.Placed.{IsMoved};
ghost use Rattle.commit_store.specs.Planned.{planned_seen};
ghost use Rattle.commit_store.specs.Preparing.{IsPreparedBy, before_at};

use crate::refusal::NoMemory;
use crate::store::Store;
use extent_pool::{Extent, ExtentPool};
use segment_view::Entry;
use std::marker::Model;
use store_text::{Body, record_has_one_text};

/// A segment of a commit that is prepared: the entry whose segment is written or stands written, the entry of the view with the
/// same id, and where the segment stands in the last commit and in this one.
#[derive(Drop)]
pub(crate) struct Planned {
    pub(crate) entry: Entry,
    pub(crate) seen: Entry,
    pub(crate) before: Option<Extent>,
    pub(crate) extent: Extent,
}

/// A commit that is prepared: all that it needs is at hand, and nothing of it is written.
#[derive(Drop)]
pub struct Prepared {
    pub(crate) bodies: Vec<Body>,
    pub(crate) dynamic: bool,
    pub(crate) next: u64,
    pub(crate) segments: Vec<Planned>,
    pub(crate) record_extent: Extent,
    pub(crate) pool: ExtentPool,
}

impl Model for Prepared {
    ghost use Rattle.commit_store.specs.Preparing.{PreparedState};

    ghost Value = { PreparedState };

    ghost use Rattle.commit_store.specs.Planned.{all_planned};

    ghost view = { λ it. record {
      limit = it.pool.limit;
      bodies = it.bodies.items;
      dynamic = it.dynamic;
      next = it.next;
      segments = all_planned it.segments.items;
      record_extent = it.record_extent;
      taken = it.pool.taken;
    } };
}

impl Prepared {
    /// How many segments it has: those of the view, in order. Takes no memory.
    pub fn segment_count(&self) -> u64
        ensures { result ≡ length self.now.segments }
    {
        self.segments.len() as u64
    }

    /// The extent that the segment at a place of the view had when the commit was prepared; None exactly where it had none, or
    /// the place is past the end. Takes no memory.
    pub fn extent(&self, place: u64) -> Option<Extent>
        ensures { result ≡ before_at self.now place }
    {
        match self.segments.get(place as usize) {
            Some(planned) => planned.before,
            None => None,
        }
    }

    /// Offers the segment at a place of the view, which has an extent and wasn't moved, a place nearer to the front: the first
    /// hole that is long enough, where that stands before its own. False exactly where it isn't moved. The commit stays one that
    /// the store prepared, and says what it said.
    pub fn offer(&mut self, store: &Store, place: u64) -> Result<bool, NoMemory>
        requires by { IsPreparedBy store.now self.old }
        requires stays { IsSomeAnd (slice_get self.old.segments place) (λ segment. segment.before ≡ Some segment.extent) }
        ensures offered { IfOk result (λ moved. IsOffered moved place self.old self.new) }
        ensures by { IfOk result (λ moved. IsPreparedBy store.now self.new) }
        ensures says { IfOk result (λ moved. SaysAsMuch store.now self.old self.new) }
        ensures unchanged { OnErr result (self.new ≡ self.old) }
    {
        record_has_one_text();
        let _limit = store.limit();
        let planned = &mut self.segments[place as usize];
        move_to_front(planned, &mut self.pool)
    }
}

/// Moves a segment to the first hole that is long enough, where that stands before its own place.
#[tactic(auto, using(crate::proofs::Offers::offers))]
fn move_to_front(planned: &mut Planned, pool: &mut ExtentPool) -> Result<bool, NoMemory>
    requires { 1 ≤ planned.old.extent.len }
    ensures moved { IfOk result (λ moved. IsMoved moved (planned_seen planned.old) (planned_seen planned.new) pool.old pool.new) }
    ensures planned_stays { OnErr result (planned.new ≡ planned.old) }
    ensures pool_stays { OnErr result (pool.new ≡ pool.old) }
{
    let Some(at) = pool.peek(planned.extent.len) else {
        return Ok(false);
    };
    if at >= planned.extent.at {
        return Ok(false);
    }
    match pool.take(planned.extent.len) {
        Ok(extent) => {
            planned.extent = extent;
            Ok(true)
        }
        Err(_) => Err(NoMemory),
    }
}
