//! The join down: scores of documents go to the documents inside them.

ghost use Rattle.std.specs.Prelude.{◌≡◌, ◌≢◌, ℕ, ◌+◌, ◌<◌, ◌≤◌, ◌++◌, List, length, take, drop, Some, IfOk, IfSome, OnOk};
ghost use Rattle.std.specs.List.{zip};
ghost use Rattle.score_math.specs.declared.score.TheConstants.{SCORE_CAP};
ghost use Rattle.block_bits.specs.Blocks.{documents_of};
ghost use Rattle.block_join.specs.Joins.{spread};
ghost use Rattle.block_join.specs.Kept.{IsStart, holder};
ghost use Rattle.block_join.specs.Scores.{filled, padded};

use crate::up::hitting_parent;
use crate::{Builder, NoMemory, Scored};
use block_bits::{BitSet, ScopeBits, places_are_nearest};
use std::alloc::Global;

/// Each document of scope `to` inside a hit of `parent` at scope `from`, with the hit's score.
///
/// It costs the hits and the documents inside them.
pub fn to_child(
    alloc: Global,
    bits: &ScopeBits,
    parent: &Scored,
    from: u32,
    to: u32,
) -> Result<Scored, NoMemory>
    requires outer { from < length bits.now.parents }
    requires inner { to < length bits.now.parents }
    requires apart { from ≢ to }
    requires documents { length parent.now ≡ length bits.now.scopes }
    ensures scores { IfOk result (λ made. made ≡ spread from to (zip bits.now.scopes parent.now)) }
    ensures long { IfOk result (λ made. length made ≡ length bits.now.scopes) }
{
    join_down(alloc, bits.documents(from), bits.documents(to), parent)
}

/// The join down from the documents of a set to those of another: each of the latter behind a document of the former and
/// before the next one, if that one is a hit of `parent`, with the hit's score.
///
/// In blocks these are the documents inside the hit. It costs the hits and the documents inside them.
pub fn join_down(
    alloc: Global,
    parents: &BitSet,
    children: &BitSet,
    parent: &Scored,
) -> Result<Scored, NoMemory>
    requires documents { length parent.now ≡ length parents.now }
    requires inner { length children.now ≡ length parents.now }
    ensures scores { (scopes : List ℕ) (from to : ℕ) → from ≢ to → parents.now ≡ documents_of scopes from → children.now ≡ documents_of scopes to → IfOk result (λ made. made ≡ spread from to (zip scopes parent.now)) }
    ensures long { IfOk result (λ made. length made ≡ length parents.now) }
{
    match parent.shared() {
        Some(score) => Ok(Scored::same(held(alloc, parents, children, parent.set())?, score)),
        None => Ok(spread_each(alloc, parents, children, parent)?),
    }
}

/// The documents of the second set inside a hit of the first: those between the hits are taken out of it.
fn held(
    alloc: Global,
    parents: &BitSet,
    children: &BitSet,
    hits: &BitSet,
) -> Result<BitSet, NoMemory>
    requires documents { length hits.now ≡ length parents.now }
    requires inner { length children.now ≡ length parents.now }
    ensures held { (scopes : List ℕ) (from to score : ℕ) → from ≢ to → parents.now ≡ documents_of scopes from → children.now ≡ documents_of scopes to → IfOk result (λ set. filled (Some score) set ≡ spread from to (zip scopes (filled (Some score) hits.now))) }
    ensures long { IfOk result (λ set. length set ≡ length parents.now) }
{
    let len = parents.len();
    let mut set = children.copy(alloc)?;
    let mut from = 0;
    'hits: while let Some(at) = holder(parents, hits, from) {
        let inside = start_of(parents, at);
        let start = if hits.has(at) { inside } else { at };
        set.clear_range(from, start);
        set.clear(at);
        from = at + 1;
    }
    set.clear_range(from, len);
    Ok(set)
}

/// The first parent that is or follows the next hit.
fn holder(parents: &BitSet, hits: &BitSet, from: u32) -> Option<u32>
    requires { length hits.now ≡ length parents.now }
    ensures value { result ≡ holder parents.now hits.now from }
    ensures within { IfSome result (λ at. (from ≤ at) × (at < length parents.now)) }
{
    match hits.next_set(from) {
        Some(doc) => parents.next_set(doc),
        None => None,
    }
}

/// The join down of hits with scores of their own.
fn spread_each(
    alloc: Global,
    parents: &BitSet,
    children: &BitSet,
    parent: &Scored,
) -> Result<Scored, NoMemory>
    requires documents { length parent.now ≡ length parents.now }
    requires inner { length children.now ≡ length parents.now }
    ensures scores { (scopes : List ℕ) (from to : ℕ) → from ≢ to → parents.now ≡ documents_of scopes from → children.now ≡ documents_of scopes to → IfOk result (λ made. made ≡ spread from to (zip scopes parent.now)) }
    ensures long { IfOk result (λ made. length made ≡ length parents.now) }
{
    let len = parents.len();
    let mut hits = Builder::empty(alloc, len)?;
    let mut left = parent.cursor();
    'parents: while let Some(at) = hitting_parent(parents, &left) {
        let start = start_of(parents, at);
        left.skip(at);
        if let Some(score) = left.next_before(at + 1) {
            give(&mut hits, children, start, at, score)?;
        }
    }
    Ok(hits.finish())
}

/// Where the documents inside a parent begin: behind the parent before it.
fn start_of(parents: &BitSet, parent: u32) -> u32
    requires { parent < length parents.now }
    ensures { IsStart parents.now parent result }
{
    places_are_nearest::<bool>();
    match parents.prev_set(parent) {
        Some(previous) => previous + 1,
        None => 0,
    }
}

/// Gives a score to the children from `start` up to `end`.
fn give(
    hits: &mut Builder,
    children: &BitSet,
    start: u32,
    end: u32,
    score: u64,
) -> Result<(), NoMemory>
    requires later { length hits.old.done ≤ start }
    requires ordered { start ≤ end }
    requires within { end ≤ length children.now }
    requires long { hits.old.len ≡ length children.now }
    requires capped { score ≤ SCORE_CAP }
    ensures done { OnOk result (padded end hits.new.done ≡ padded start hits.old.done ++ filled (Some score) (drop start (take end children.now))) }
    ensures up_to { OnOk result (length hits.new.done ≤ end) }
    ensures len { hits.new.len ≡ hits.old.len }
{
    let mut inside = children.walk();
    inside.skip_to(start);
    'children: while let Some(child) = inside.next_before(end) {
        hits.push(child, score)?;
    }
    Ok(())
}
