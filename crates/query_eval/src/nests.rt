//! Joins of blocks over all entries of a view.

ghost use Rattle.std.specs.Prelude.{◌≡◌, ◌<◌, ◌≤◌, ℕ, List, Option, length, IfNone, IfOk, IfSome};
ghost use Rattle.block_bits.specs.Blocks.{documents_of};
ghost use Rattle.flattener.specs.StandsFor.{EntryStandsFor, Marked};
ghost use Rattle.mapping.specs.Mapping.{Mapping as Meaning, IsAbove};
ghost use Rattle.query_eval.specs.Folds.{scopes_in};
ghost use Rattle.query_eval.specs.Found.{AreLong, IsSeen};
ghost use Rattle.query_eval.specs.Nested.{below_by, around_by};
ghost use Rattle.score_math.specs.Scores.{mode_of};
ghost use Rattle.segment.specs.Live.{LiveState};
ghost use Rattle.tree_joins.specs.Seen.{at_scope, gathered, handed, seen};
ghost use Rattle.tree_objects.specs.Object.{Object};
ghost use Rattle.tree_objects.specs.Tree.{Tree};

use crate::NoMemory;
use block_bits::BitSet;
use block_join::{Matches, Scored, join_down, join_up};
use mapping::scopes_form_chains;
use score_math::ScoreMode;
use segment::{Segment, scopes_are_of_documents};
use segment_view::Entry;
use std::alloc::Global;
use tree_joins::joins_are_of_trees;

/// The objects of a scope that have hits inside them, each with the mode of their scores.
pub fn ups(
    alloc: Global,
    entries: &[Entry],
    hits: &Matches,
    to: u32,
    mode: ScoreMode,
) -> Result<Matches, NoMemory>
    requires { AreLong entries.now hits.now }
    ensures long { IfOk result (AreLong entries.now) }
    ensures seen { (m : Meaning) (from : ℕ) (given : List Tree → Object → Option ℕ) → IsAbove m to from → IsSeen m entries.now from given hits.now
        → IfOk result (IsSeen m entries.now to (below_by m (mode_of mode) from given)) }
{
    let hits = hits.as_slice();
    let mut made = Vec::with_capacity(alloc, entries.len())?;
    'entries: for at in 0..entries.len() {
        let scores = up_scores(alloc, entries[at].segment(), &hits[at], to, mode)?;
        made.push(scores)?;
    }
    Ok(Matches::of(made))
}

/// Those of one entry.
fn up_scores(
    alloc: Global,
    segment: &Segment,
    hits: &Scored,
    to: u32,
    mode: ScoreMode,
) -> Result<Scored, NoMemory>
    requires { length hits.now ≡ segment.now.documents }
    ensures long { IfOk result (λ made. length made ≡ segment.now.documents) }
    ensures seen { (m : Meaning) (bits : LiveState) (trees : List (Marked Tree)) (from : ℕ) (given : Object → Option ℕ) → EntryStandsFor m segment.now bits trees → IsAbove m to from → hits.now ≡ seen m (at_scope from given) trees
        → IfOk result (λ made. made ≡ seen m (at_scope to (gathered m (mode_of mode) from given)) trees) }
{
    joins_are_of_trees();
    match lent_set(segment, to) {
        Some(parents) => Ok(join_up(alloc, parents, hits, mode)?),
        None => {
            let parents = scope_set(alloc, segment, to)?;
            Ok(join_up(alloc, &parents, hits, mode)?)
        }
    }
}

/// The objects of a scope inside hits of one above it, each with the score of the hit around it.
pub fn downs(
    alloc: Global,
    entries: &[Entry],
    hits: &Matches,
    from: u32,
    to: u32,
) -> Result<Matches, NoMemory>
    requires { AreLong entries.now hits.now }
    ensures long { IfOk result (AreLong entries.now) }
    ensures seen { (m : Meaning) (given : List Tree → Object → Option ℕ) → IsAbove m from to → IsSeen m entries.now from given hits.now
        → IfOk result (IsSeen m entries.now to (around_by from given)) }
{
    let hits = hits.as_slice();
    let mut made = Vec::with_capacity(alloc, entries.len())?;
    'entries: for at in 0..entries.len() {
        let scores = down_scores(alloc, entries[at].segment(), &hits[at], from, to)?;
        made.push(scores)?;
    }
    Ok(Matches::of(made))
}

/// Those of one entry.
fn down_scores(
    alloc: Global,
    segment: &Segment,
    hits: &Scored,
    from: u32,
    to: u32,
) -> Result<Scored, NoMemory>
    requires { length hits.now ≡ segment.now.documents }
    ensures long { IfOk result (λ made. length made ≡ segment.now.documents) }
    ensures seen { (m : Meaning) (bits : LiveState) (trees : List (Marked Tree)) (given : Object → Option ℕ) → EntryStandsFor m segment.now bits trees → IsAbove m from to → hits.now ≡ seen m (at_scope from given) trees
        → IfOk result (λ made. made ≡ seen m (at_scope to (handed from given)) trees) }
{
    joins_are_of_trees();
    scopes_form_chains();
    match (lent_set(segment, from), lent_set(segment, to)) {
        (Some(parents), Some(children)) => Ok(join_down(alloc, parents, children, hits)?),
        _ => {
            let parents = scope_set(alloc, segment, from)?;
            let children = scope_set(alloc, segment, to)?;
            Ok(join_down(alloc, &parents, &children, hits)?)
        }
    }
}

/// The documents of a scope of a segment, if it has the scope.
pub(crate) fn lent_set(segment: &Segment, scope: u32) -> Option<&BitSet>
    ensures set { IfSome result (λ set. set.now ≡ documents_of (scopes_in segment.now) scope) }
    ensures long { IfSome result (λ set. length set.now ≡ segment.now.documents) }
    ensures none { IfNone result (length segment.now.scopes ≤ scope) }
{
    scopes_are_of_documents(segment);
    let _documents = segment.docs();
    let scopes = segment.scopes().as_slice();
    let place = scope as usize;
    if place >= scopes.len() {
        return None;
    }
    Some(&scopes[place])
}

/// The documents of a scope of a segment; a scope that the segment doesn't have has none.
pub(crate) fn scope_set(alloc: Global, segment: &Segment, scope: u32) -> Result<BitSet, NoMemory>
    ensures set { IfOk result (λ set. set ≡ documents_of (scopes_in segment.now) scope) }
    ensures long { IfOk result (λ set. length set ≡ segment.now.documents) }
{
    scopes_are_of_documents(segment);
    let documents = segment.docs();
    match lent_set(segment, scope) {
        Some(set) => Ok(set.copy(alloc)?),
        None => Ok(BitSet::empty(alloc, documents)?),
    }
}
