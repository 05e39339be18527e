//! Hits cut to those at which a leaf holds.

ghost use Rattle.std.specs.Prelude.{◌≡◌, ℕ, List, Option, Some, length, IsSome, IfOk};
ghost use Rattle.block_join.specs.Merge.{paired, put_together};
ghost use Rattle.block_join.specs.Scores.{filled};
ghost use Rattle.block_join.specs.declared.rule.Rule.{Rule};
ghost use Rattle.flattener.specs.StandsFor.{EntryStandsFor, Marked};
ghost use Rattle.leaf_search.specs.Found.{leaf_of};
ghost use Rattle.query_ast.specs.Clause.{Leaf};
ghost use Rattle.query_ast.specs.Clause.View.{clause_of};
ghost use Rattle.query_ast.specs.Resolved.{IsLeaf, IsResolved};
ghost use Rattle.query_eval.specs.Folds.{leaf_score, paired_by};
ghost use Rattle.query_eval.specs.Found.{AreLong, IsSeen, score_by};
ghost use Rattle.tree_joins.specs.Seen.{at_scope, seen};
ghost use Rattle.tree_objects.specs.Object.{Object};
ghost use Rattle.tree_objects.specs.Tree.{Tree};

use crate::NoMemory;
use block_bits::BitSet;
use block_join::{Matches, Rule, Scored, merged};
use leaf_search::leaf;
use mapping::Mapping;
use query_ast::Query;
use segment_view::Entry;
use std::alloc::Global;

/// Of hits those at which a leaf holds, with the scores that they had.
///
/// The leaf's own set is cut to the hits, so that no second set is made. The query is a leaf that was resolved under the mapping.
pub fn kept(
    alloc: Global,
    entries: &[Entry],
    mapping: &Mapping,
    query: &Query,
    scope: u32,
    hits: &Matches,
) -> Result<Matches, NoMemory>
    requires leaf { IsSome (leaf_of (clause_of query.now)) }
    requires resolved { IsResolved mapping.now scope (clause_of query.now) }
    requires long { AreLong entries.now hits.now }
    ensures long { IfOk result (AreLong entries.now) }
    ensures seen { (given : List Tree → Object → Option ℕ) → IsSeen mapping.now entries.now scope given hits.now → IfOk result (IsSeen mapping.now entries.now scope (paired_by Rule.Kept given (score_by mapping.now (clause_of query.now)))) }
{
    let hits = hits.as_slice();
    let mut made = Vec::with_capacity(alloc, entries.len())?;
    'entries: for at in 0..entries.len() {
        let scores = kept_scores(alloc, &entries[at], mapping, query, scope, &hits[at])?;
        made.push(scores)?;
    }
    Ok(Matches::of(made))
}

/// Those of one entry.
fn kept_scores(
    alloc: Global,
    entry: &Entry,
    mapping: &Mapping,
    query: &Query,
    scope: u32,
    hits: &Scored,
) -> Result<Scored, NoMemory>
    requires leaf { IsSome (leaf_of (clause_of query.now)) }
    requires long { length hits.now ≡ entry.now.columns.documents }
    ensures long { IfOk result (λ made. length made ≡ entry.now.columns.documents) }
    ensures kept { (l : Leaf) (trees : List (Marked Tree)) → leaf_of (clause_of query.now) ≡ Some l → IsLeaf mapping.now l → EntryStandsFor mapping.now entry.now.columns entry.now.live trees
        → IfOk result (λ made. made ≡ paired (put_together Rule.Kept) hits.now (seen mapping.now (at_scope scope (leaf_score mapping.now l 1)) trees)) }
{
    let live = entry.live();
    let set = leaf(alloc, mapping, entry.segment(), live, query, scope)?;
    Ok(cut_to(alloc, hits, set)?)
}

/// Of hits those that are in a set.
fn cut_to(alloc: Global, hits: &Scored, mut set: BitSet) -> Result<Scored, NoMemory>
    requires { length hits.now ≡ length set }
    ensures { IfOk result (λ made. made ≡ paired (put_together Rule.Kept) hits.now (filled (Some 1) set)) }
{
    match hits.shared() {
        Some(score) => {
            set.and(hits.set());
            Ok(Scored::same(set, score))
        }
        None => Ok(merged(alloc, hits, &Scored::same(set, 1), Rule::Kept)?),
    }
}
