//! Where a commit will stand: each segment keeps the extent that it has, and what is new goes to the first hole that has room.

ghost use Rattle.std.specs.Prelude.{◌≡◌, ◌≢◌, ◌+◌, ◌*◌, ◌≤◌, ◌<◌, ◌^◌, ◌∷◌, [], true, false, not, ℕ, List, Some, None, length, map, count_by, sum_by, All, find, IfOk, OnOk, OnErr, IsErrOf};
ghost use Rattle.std.specs.List.{AllByRecursion};
ghost use Rattle.std.specs.List.Sorted.{IsPermutation};
ghost use Rattle.std.specs.Option.{option_map};
ghost use Rattle.extent_pool.specs.Extents.{AreDisjoint, AreInOrder};
ghost use Rattle.extent_pool.specs.Placing.{fit, room_for};
ghost use Rattle.mapping.specs.Mapping.{mapping_of};
ghost use Rattle.mapping_growth.specs.Bodies.{AreBodies};
ghost use Rattle.segment_parts.specs.Text.{segment_text};
ghost use Rattle.segment_view.specs.Views.{HaveOwnIds};
ghost use Rattle.tree_json.specs.Text.{compact};
ghost use Rattle.tree_json.specs.View.{view};
ghost use Rattle.commit_store.specs.Known.{IsKnownSegment};
ghost use Rattle.commit_store.specs.Preparing.{IsPreparedFor, known_as, room_of, taken_by};
ghost use Rattle.commit_store.specs.Planned.{planned_seen, all_planned};
ghost use Rattle.commit_store.specs.Placed.{IsPlannedIn, IsSound, IsNextBy, IsFullBy, ArePlanned, placed_in};

use crate::known::KnownSegment;
use crate::prepared::{Planned, Prepared};
use crate::refusal::{CommitRefusal, NoMemory};
use crate::store::Store;
use extent_pool::{
    Extent, ExtentList, ExtentPool, PoolRefusal, TakeRefusal, order_makes_no_difference,
};
use mapping::Mapping;
use segment_view::{Entry, View};
use std::alloc::Global;
use store_text::{Body, HEADER_SIZE};
use tree_json::{Json, OutText, print};

impl Store {
    /// Where a commit of the view will stand, beside what the last commit names. StoreFull exactly where there is no room.
    pub(crate) fn plan(
        &self,
        mapping: &Mapping,
        next: u64,
        view: &View,
    ) -> Result<Prepared, CommitRefusal>
        ensures room { IfOk result (IsPreparedFor self.now mapping.now next view.now) }
        ensures sound { IfOk result (λ prepared. AllByRecursion IsSound prepared.segments) }
        ensures in_order { IfOk result (λ prepared. AreInOrder prepared.limit prepared.taken) }
        ensures disjoint { IfOk result (λ prepared. AreDisjoint prepared.taken) }
        ensures few { IfOk result (λ prepared. length view.now < 2 ^ 32) }
        ensures ids { HaveOwnIds view.now }
        ensures bodies { IfOk result (λ prepared. AreBodies mapping.now.bodies) }
        ensures mapping { IfOk result (λ prepared. mapping.now ≡ mapping_of mapping.now.bodies mapping.now.dynamic) }
        ensures full { IsErrOf result CommitRefusal.StoreFull → room_of self.now mapping.now view.now ≡ None }
        ensures no_fault { IsErrOf result CommitRefusal.DiskFault → ⊥ }
    {
        order_makes_no_difference();
        let entries = view.entries();
        if entries.len() > u32::MAX as usize {
            return Err(CommitRefusal::NoMemory);
        }
        let mut pool = self.pool()?;
        let bodies = body_texts(self.alloc, mapping)?;
        let segments = planned_in(self.alloc, self.known.as_slice(), entries, &mut pool)?;
        let size = record_size(bodies.as_slice(), segments.as_slice())?;
        let record_extent = taken_in(&mut pool, size)?;
        Ok(Prepared {
            bodies,
            dynamic: mapping.dynamic(),
            next,
            segments,
            record_extent,
            pool,
        })
    }

    /// The pool before a commit: the header is taken, and what the last commit names.
    fn pool(&self) -> Result<ExtentPool, CommitRefusal>
        ensures taken { IfOk result (λ pool. IsPermutation (taken_by self.now) pool.taken) }
        ensures limit { IfOk result (λ pool. pool.limit ≡ self.now.limit) }
        ensures full { IsErrOf result CommitRefusal.StoreFull → self.now.limit < HEADER_SIZE }
        ensures no_fault { IsErrOf result CommitRefusal.DiskFault → ⊥ }
    {
        let named = self.named.as_slice();
        let mut taken = Vec::with_capacity(self.alloc, named.len() + 1)?;
        taken.push(Extent {
            at: 0,
            len: HEADER_SIZE,
        })?;
        taken.extend_from_slice(named)?;
        match ExtentPool::over(self.alloc, self.limit, &ExtentList::of(taken)) {
            Ok(pool) => Ok(pool),
            Err(PoolRefusal::BeyondLimit) => Err(CommitRefusal::StoreFull),
            Err(PoolRefusal::Overlap) => Err(CommitRefusal::NoMemory),
            Err(PoolRefusal::NoMemory) => Err(CommitRefusal::NoMemory),
        }
    }
}

/// The compact texts of the bodies of a mapping, in order.
fn body_texts(alloc: Global, mapping: &Mapping) -> Result<Vec<Body>, NoMemory>
    ensures texts { IfOk result (λ texts. texts.items ≡ map compact mapping.now.bodies) }
    ensures bodies { AreBodies mapping.now.bodies }
    ensures mapping { mapping.now ≡ mapping_of mapping.now.bodies mapping.now.dynamic }
{
    let mut texts = Vec::new(alloc);
    'bodies: for generation in 0..mapping.generation() {
        texts.push(body_text(alloc, mapping.body(generation + 1))?)?;
    }
    Ok(texts)
}

fn body_text(alloc: Global, body: &Json) -> Result<Body, NoMemory>
    ensures { IfOk result (λ text. text ≡ compact (view body.now)) }
{
    let mut text = OutText::empty(alloc);
    print(body, &mut text)?;
    Ok(Body::of(text.into_vec()))
}

/// An extent of this length in the first hole that has room. StoreFull exactly where none has.
fn taken_in(pool: &mut ExtentPool, len: u64) -> Result<Extent, CommitRefusal>
    requires { 1 ≤ len }
    ensures fit { IfOk result (λ extent. fit pool.old.limit pool.old.taken len ≡ Some extent) }
    ensures taken { IfOk result (λ extent. IsPermutation (extent ∷ pool.old.taken) pool.new.taken) }
    ensures limit { pool.new.limit ≡ pool.old.limit }
    ensures in_order { AreInOrder pool.new.limit pool.new.taken }
    ensures disjoint { AreDisjoint pool.new.taken }
    ensures full { IsErrOf result CommitRefusal.StoreFull → fit pool.old.limit pool.old.taken len ≡ None }
    ensures no_fault { IsErrOf result CommitRefusal.DiskFault → ⊥ }
{
    match pool.take(len) {
        Ok(extent) => Ok(extent),
        Err(TakeRefusal::Full) => Err(CommitRefusal::StoreFull),
        Err(TakeRefusal::NoMemory) => Err(CommitRefusal::NoMemory),
    }
}

/// The segment that is known under an id.
fn known_segment(known: &[KnownSegment], id: u128) -> Option<&KnownSegment>
    ensures { option_map (λ segment. segment.now) result ≡ known_as known.now id }
{
    for segment in known {
        if segment.entry.id() == id {
            return Some(segment);
        }
    }
    None
}

/// Each entry with the extent that it has, or a new one.
#[tactic(auto, using(crate::proofs::Planning::planning))]
fn planned_in(
    alloc: Global,
    known: &[KnownSegment],
    entries: &[Entry],
    pool: &mut ExtentPool,
) -> Result<Vec<Planned>, CommitRefusal>
    requires { AllByRecursion IsKnownSegment known.now }
    ensures planned { IfOk result (λ segments. ArePlanned known.now entries.now pool.old pool.new (all_planned segments.items)) }
    ensures limit { pool.new.limit ≡ pool.old.limit }
    ensures full { IsErrOf result CommitRefusal.StoreFull → placed_in known.now entries.now pool.old ≡ None }
    ensures no_fault { IsErrOf result CommitRefusal.DiskFault → ⊥ }
{
    order_makes_no_difference();
    let mut segments = Vec::with_capacity(alloc, entries.len())?;
    'entries: for entry in entries {
        segments.push(planned_next(known, entry, pool)?)?;
    }
    Ok(segments)
}

/// An entry with the extent that it has, or a new one.
fn planned_next(
    known: &[KnownSegment],
    entry: &Entry,
    pool: &mut ExtentPool,
) -> Result<Planned, CommitRefusal>
    ensures planned { IfOk result (λ it. IsNextBy (known_as known.now entry.now.id) entry.now pool.old pool.new (planned_seen it)) }
    ensures limit { pool.new.limit ≡ pool.old.limit }
    ensures full { IsErrOf result CommitRefusal.StoreFull → IsFullBy (known_as known.now entry.now.id) entry.now pool.old }
    ensures no_fault { IsErrOf result CommitRefusal.DiskFault → ⊥ }
{
    match known_segment(known, entry.id()) {
        Some(segment) => Ok(planned_as_known(segment, entry)?),
        None => Ok(planned_as_new(entry, pool)?),
    }
}

/// An entry that the store knows stays where it stands.
fn planned_as_known(segment: &KnownSegment, seen: &Entry) -> Result<Planned, NoMemory>
    ensures { IfOk result (λ it. planned_seen it ≡ record { entry = segment.now.entry; live = seen.now.live.roots; before = Some segment.now.extent; extent = segment.now.extent }) }
{
    Ok(Planned {
        entry: segment.entry.share()?,
        seen: seen.share()?,
        before: Some(segment.extent),
        extent: segment.extent,
    })
}

/// A new entry gets an extent as long as its segment's bytes.
fn planned_as_new(seen: &Entry, pool: &mut ExtentPool) -> Result<Planned, CommitRefusal>
    ensures planned { IfOk result (λ it. IsPlannedIn pool.old seen.now (planned_seen it)) }
    ensures taken { IfOk result (λ it. IsPermutation (it.extent ∷ pool.old.taken) pool.new.taken) }
    ensures limit { pool.new.limit ≡ pool.old.limit }
    ensures full { IsErrOf result CommitRefusal.StoreFull → fit pool.old.limit pool.old.taken (length (segment_text seen.now.columns)) ≡ None }
    ensures no_fault { IsErrOf result CommitRefusal.DiskFault → ⊥ }
{
    let entry = seen.share()?;
    let again = seen.share()?;
    let extent = taken_in(pool, seen.segment().bytes().len() as u64)?;
    Ok(Planned {
        entry,
        seen: again,
        before: None,
        extent,
    })
}

/// How many bytes the record has. NoMemory where they are 2^64 or more, since no vector has so many.
fn record_size(bodies: &[Body], segments: &[Planned]) -> Result<u64, NoMemory>
    ensures { IfOk result (λ size. size ≡ 21 + (sum_by (λ body. 4 + length body) bodies.now + sum_by (λ segment. 20 + 4 * count_by not segment.live) (all_planned segments.now))) }
{
    let bodies = body_sizes(bodies)?;
    let rows = row_sizes(segments)?;
    plus(plus(21, bodies)?, rows)
}

fn plus(size: u64, more: u64) -> Result<u64, NoMemory>
    ensures { IfOk result (λ sum. sum ≡ size + more) }
{
    match size.checked_add(more) {
        Some(sum) => Ok(sum),
        None => Err(NoMemory),
    }
}

fn body_sizes(bodies: &[Body]) -> Result<u64, NoMemory>
    ensures { IfOk result (λ size. size ≡ sum_by (λ body. 4 + length body) bodies.now) }
{
    let mut size = 0;
    'bodies: for body in bodies {
        size = plus(size, plus(4, body.as_slice().len() as u64)?)?;
    }
    Ok(size)
}

fn row_sizes(segments: &[Planned]) -> Result<u64, NoMemory>
    ensures { IfOk result (λ size. size ≡ sum_by (λ segment. 20 + 4 * count_by not segment.live) (all_planned segments.now)) }
{
    let mut size = 0;
    'segments: for segment in segments {
        size = plus(size, 20 + 4 * dead_count(&segment.seen) as u64)?;
    }
    Ok(size)
}

/// How many roots of an entry are dead.
fn dead_count(entry: &Entry) -> u32
    ensures count { result ≡ count_by not entry.now.live.roots }
{
    entry.segment().roots() - entry.live().live_roots().count()
}
