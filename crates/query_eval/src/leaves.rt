//! Leaves over all entries of a view.

ghost use Rattle.std.specs.Prelude.{◌≡◌, ◌≤◌, List, Some, length, map, IsSome, IfOk};
ghost use Rattle.flattener.specs.StandsFor.{EntryStandsFor, Marked};
ghost use Rattle.leaf_search.specs.Found.{leaf_of};
ghost use Rattle.mapping.specs.Mapping.{Mapping as Meaning};
ghost use Rattle.query_ast.specs.Clause.{Leaf, leaf as leaf_clause, match_all};
ghost use Rattle.query_ast.specs.Clause.View.{clause_of};
ghost use Rattle.query_ast.specs.Resolved.{IsLeaf};
ghost use Rattle.query_eval.specs.Folds.{leaf_score, whatever};
ghost use Rattle.query_eval.specs.Found.{AreLong, IsFound, IsSeen};
ghost use Rattle.query_eval.specs.Lent.{lent_scores};
ghost use Rattle.score_math.specs.declared.score.TheConstants.{SCORE_CAP};
ghost use Rattle.tree_joins.specs.Seen.{at_scope, seen};
ghost use Rattle.tree_objects.specs.Tree.{Tree};

use crate::NoMemory;
use block_join::{Matches, Scored};
use leaf_search::{DocumentSet, all_documents, leaf};
use mapping::Mapping;
use query_ast::Query;
use segment_view::Entry;
use std::alloc::Global;

/// The live documents of a scope at which a leaf holds, all with one score.
pub(crate) fn leaves(
    alloc: Global,
    entries: &[Entry],
    mapping: &Mapping,
    query: &Query,
    scope: u32,
    score: u64,
) -> Result<Matches, NoMemory>
    requires leaf { IsSome (leaf_of (clause_of query.now)) }
    requires score { score ≤ SCORE_CAP }
    ensures long { IfOk result (AreLong entries.now) }
    ensures seen { (l : Leaf) → leaf_of (clause_of query.now) ≡ Some l → IsLeaf mapping.now l → IfOk result (IsSeen mapping.now entries.now scope (whatever (leaf_score mapping.now l score))) }
{
    let mut made = Vec::with_capacity(alloc, entries.len())?;
    'entries: for at in 0..entries.len() {
        let scores = leaf_scores(alloc, &entries[at], mapping, query, scope, score)?;
        made.push(scores)?;
    }
    Ok(Matches::of(made))
}

/// Those of one entry.
fn leaf_scores(
    alloc: Global,
    entry: &Entry,
    mapping: &Mapping,
    query: &Query,
    scope: u32,
    score: u64,
) -> Result<Scored, NoMemory>
    requires leaf { IsSome (leaf_of (clause_of query.now)) }
    requires score { score ≤ SCORE_CAP }
    ensures long { IfOk result (λ made. length made ≡ entry.now.columns.documents) }
    ensures seen { (l : Leaf) (trees : List (Marked Tree)) → leaf_of (clause_of query.now) ≡ Some l → IsLeaf mapping.now l → EntryStandsFor mapping.now entry.now.columns entry.now.live trees
        → IfOk result (λ made. made ≡ seen mapping.now (at_scope scope (leaf_score mapping.now l score)) trees) }
{
    let live = entry.live();
    let set = leaf(alloc, mapping, entry.segment(), live, query, scope)?;
    Ok(Scored::same(set, score))
}

/// All live objects of a scope, as `found` has them for `match_all`, each with the score 1: a set of documents for each entry.
/// Segments lend their own sets where all documents of the scope are live.
pub fn all_objects<'a>(
    alloc: Global,
    entries: &'a [Entry],
    scope: u32,
) -> Result<Vec<DocumentSet<'a>>, NoMemory>
    ensures { (m : Meaning) → IfOk result (λ sets. IsFound m entries.now scope (leaf_clause match_all 1) (map lent_scores sets.items)) }
{
    let mut sets = Vec::with_capacity(alloc, entries.len())?;
    'entries: for at in 0..entries.len() {
        let entry = &entries[at];
        let set = all_documents(alloc, entry.segment(), entry.live(), scope)?;
        sets.push(set)?;
    }
    Ok(sets)
}
