//! The buckets of a search.

ghost use Rattle.std.specs.Prelude.{◌≡◌, List, length, true, IfOk};
ghost use Rattle.flattener.specs.StandsFor.{Marked, ViewStandsFor};
ghost use Rattle.join_ordinals.specs.Ordinals.{AreOrdinals};
ghost use Rattle.query_ast.specs.Clause.{Clause};
ghost use Rattle.query_ast.specs.Hit.{those_hit};
ghost use Rattle.query_ast.specs.Joined.{roots};
ghost use Rattle.query_ast.specs.Joins.{search_joins};
ghost use Rattle.query_ast.specs.Resolved.{IsSearch};
ghost use Rattle.query_ast.specs.Search.{found_buckets};
ghost use Rattle.query_eval.specs.Found.{IsFound, live_trees};
ghost use Rattle.tree_objects.specs.Tree.{IsLiveList, Tree};

use crate::NoMemory;
use crate::answers::buckets;
use crate::objects::count_of;
use crate::sets::Objects;
use block_join::Matches;
use join_ordinals::JoinOrdinals;
use mapping::Mapping;
use query_ast::{AggReplies, SearchBody};
use segment_view::View;
use source_steps::Steps;
use std::alloc::Global;
use std::sync::ledger::Ledger;
use view_objects::hits_are_objects;

/// The answers to the buckets of a search, over all the trees that its query hits, whatever the page. No source is read.
///
/// The search was resolved under the mapping, and the hits are what its query found at roots. The ordinals are those of the
/// view, where the search joins trees.
pub fn found_buckets<L: Ledger>(
    alloc: Global,
    view: &View,
    mapping: &Mapping,
    ordinals: &JoinOrdinals,
    hits: &Matches,
    search: &SearchBody,
    steps: &mut Steps<L>,
) -> Result<AggReplies, NoMemory>
    requires resolved { IsSearch mapping.now search.now }
    requires joined { search_joins search.now ≡ true → AreOrdinals view.now ordinals.now }
    requires found { IsFound mapping.now view.now 0 search.now.query hits.now }
    ensures replies { (trees : List (List (Marked Tree))) → ViewStandsFor mapping.now view.now trees → IsLiveList (live_trees trees) → IfOk result (λ replies. replies ≡ found_buckets mapping.now (live_trees trees) search.now) }
    ensures steps { steps.new ≡ steps.old }
{
    hits_are_objects();
    let _scopes = mapping.scope_count();
    Ok(buckets(alloc, view, mapping, ordinals, hits, 0, &search.aggs, steps)?)
}

/// How many trees a query hits, whose hits at roots these are. It costs the bits of the hits, 64 documents at a time.
pub fn found_count(_view: &View, mapping: &Mapping, hits: &Matches) -> Result<u64, NoMemory>
    ensures { (query : Clause) (trees : List (List (Marked Tree))) → IsFound mapping.now _view.now 0 query hits.now → ViewStandsFor mapping.now _view.now trees
        → IfOk result (λ count. count ≡ length (those_hit mapping.now (live_trees trees) query (roots (live_trees trees)))) }
{
    hits_are_objects();
    let _scopes = mapping.scope_count();
    let objects = Objects::of(hits);
    Ok(count_of(&objects)?)
}
