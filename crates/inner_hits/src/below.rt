//! The hits that a definition finds from the document of its owner.
ghost use Rattle.std.specs.Prelude.{◌≡◌, ◌<◌, ℕ, true, List, Option, Some, map, filter_map, length, slice_get, get_or, IfOk};
ghost use Rattle.flattener.specs.StandsFor.{Marked, ViewStandsFor};
ghost use Rattle.std.specs.List.{All};
ghost use Rattle.nested_sort.specs.Listed.{AreDocs, AreHits, IsCapped, IsDocOf, IsHitAt};
ghost use Rattle.inner_hits.specs.Kinship.{AreKin};
ghost use Rattle.join_ordinals.specs.Ordinals.{AreOrdinals};
ghost use Rattle.mapping.specs.Mapping.{Mapping as Meaning, IsAbove};
ghost use Rattle.query_ast.specs.Joined.{child_trees, parent_trees, roots};
ghost use Rattle.query_ast.specs.Resolved.{IsChildRelation, IsParentRelation};
ghost use Rattle.query_eval.specs.Found.{AreLong, IsSeen};
ghost use Rattle.query_eval.specs.declared.side.Side.TheVariants.{Children as OnChildren, Parents as OnParents};
ghost use Rattle.tree_joins.specs.Seen.{scored};
ghost use Rattle.tree_objects.specs.Object.{Object, below};
ghost use Rattle.tree_objects.specs.Tree.{Tree};
ghost use Rattle.view_objects.specs.Hits.{hit_object, live_trees, object_at};

use crate::NoMemory;
use crate::joined::{Kin, joined};
use crate::walk::{add_hits, child_start};
use block_join::Matches;
use join_ordinals::JoinOrdinals;
use mapping::{Mapping, scopes_form_chains};
use query_eval::{Side, keys_join_trees};
use segment_view::View;
use std::alloc::Global;
use view_objects::{Hit, documents_are_of_objects, hits_are_objects};

/// The hits of a scope inside a document of a scope above it.
#[tactic(auto, using(crate::proofs::Between::inside, crate::proofs::Capped::capping))]
pub(crate) fn hits_below(
    alloc: Global,
    view: &View,
    matches: &Matches,
    scope: u32,
    place: usize,
    doc: u32,
) -> Result<Vec<Hit>, NoMemory>
    requires long { AreLong view.now matches.now }
    requires doc { IsDocOf view.now place doc }
    ensures docs { IfOk result (λ hits. AreDocs view.now hits.items) }
    ensures capped { IfOk result (λ hits. All IsCapped hits.items) }
    ensures objects { IfOk result (λ hits. (m : Meaning) (path : ℕ) (given : List Tree → Object → Option ℕ) (trees : List (List (Marked Tree))) → ViewStandsFor m view.now trees → IsAbove m scope path → IsHitAt m scope trees place doc → IsSeen m view.now path given matches.now
        → map (hit_object m trees) hits.items ≡ filter_map (scored (given (live_trees trees))) (below m (object_at m trees place doc) path)) }
    ensures hits { IfOk result (λ hits. (m : Meaning) (path : ℕ) (given : List Tree → Object → Option ℕ) (trees : List (List (Marked Tree))) → ViewStandsFor m view.now trees → IsSeen m view.now path given matches.now → AreHits m path trees hits.items) }
{
    hits_are_objects();
    documents_are_of_objects();
    let start = child_start(view.entries()[place].segment(), scope, doc);
    let mut hits = Vec::new(alloc);
    add_hits(
        &matches.as_slice()[place],
        place as u64,
        start,
        doc,
        &mut hits,
    )?;
    Ok(hits)
}

/// The child trees of a relation that the query hits, of the tree of a root's document.
pub(crate) fn children_of(
    alloc: Global,
    view: &View,
    mapping: &Mapping,
    ordinals: &JoinOrdinals,
    kin: &[Kin],
    relation: u32,
    place: usize,
    doc: u32,
) -> Result<Vec<Hit>, NoMemory>
    requires relation { IsChildRelation mapping.now relation }
    requires joined { AreOrdinals view.now ordinals.now }
    requires doc { IsDocOf view.now place doc }
    requires kin { (scores : List (List (Option ℕ))) × AreKin mapping.now ordinals.now (OnChildren relation) view.now scores kin.now × AreLong view.now scores }
    ensures docs { IfOk result (λ hits. AreDocs view.now hits.items) }
    ensures capped { IfOk result (λ hits. All IsCapped hits.items) }
    ensures objects { IfOk result (λ hits. (scores : List (List (Option ℕ))) (given : List Tree → Object → Option ℕ) (trees : List (List (Marked Tree))) → ViewStandsFor mapping.now view.now trees → AreKin mapping.now ordinals.now (OnChildren relation) view.now scores kin.now → IsHitAt mapping.now 0 trees place doc → IsSeen mapping.now view.now 0 given scores
        → map (hit_object mapping.now trees) hits.items ≡ filter_map (scored (given (live_trees trees))) (roots (child_trees mapping.now (live_trees trees) relation (object_at mapping.now trees place doc)))) }
    ensures hits { IfOk result (λ hits. (scores : List (List (Option ℕ))) (given : List Tree → Object → Option ℕ) (trees : List (List (Marked Tree))) → ViewStandsFor mapping.now view.now trees → AreKin mapping.now ordinals.now (OnChildren relation) view.now scores kin.now → IsSeen mapping.now view.now 0 given scores → AreHits mapping.now 0 trees hits.items) }
{
    hits_are_objects();
    documents_are_of_objects();
    keys_join_trees();
    let _scopes = mapping.scope_count();
    let Some(parent) = mapping.parent_relation(relation) else {
        unreachable!()
    };
    Ok(joined(
        alloc,
        view.entries(),
        mapping,
        ordinals,
        kin,
        Side::Parents(parent),
        place,
        doc,
    )?)
}

/// The parent tree of a relation, if the query hits it, of the tree of a root's document.
pub(crate) fn parents_of(
    alloc: Global,
    view: &View,
    mapping: &Mapping,
    ordinals: &JoinOrdinals,
    kin: &[Kin],
    relation: u32,
    place: usize,
    doc: u32,
) -> Result<Vec<Hit>, NoMemory>
    requires relation { IsParentRelation mapping.now relation }
    requires joined { AreOrdinals view.now ordinals.now }
    requires doc { IsDocOf view.now place doc }
    requires kin { (scores : List (List (Option ℕ))) × AreKin mapping.now ordinals.now (OnParents relation) view.now scores kin.now × AreLong view.now scores }
    ensures docs { IfOk result (λ hits. AreDocs view.now hits.items) }
    ensures capped { IfOk result (λ hits. All IsCapped hits.items) }
    ensures objects { IfOk result (λ hits. (scores : List (List (Option ℕ))) (given : List Tree → Object → Option ℕ) (trees : List (List (Marked Tree))) → ViewStandsFor mapping.now view.now trees → AreKin mapping.now ordinals.now (OnParents relation) view.now scores kin.now → IsHitAt mapping.now 0 trees place doc → IsSeen mapping.now view.now 0 given scores
        → map (hit_object mapping.now trees) hits.items ≡ filter_map (scored (given (live_trees trees))) (roots (parent_trees mapping.now (live_trees trees) relation (object_at mapping.now trees place doc)))) }
    ensures hits { IfOk result (λ hits. (scores : List (List (Option ℕ))) (given : List Tree → Object → Option ℕ) (trees : List (List (Marked Tree))) → ViewStandsFor mapping.now view.now trees → AreKin mapping.now ordinals.now (OnParents relation) view.now scores kin.now → IsSeen mapping.now view.now 0 given scores → AreHits mapping.now 0 trees hits.items) }
{
    hits_are_objects();
    documents_are_of_objects();
    keys_join_trees();
    let _scopes = mapping.scope_count();
    Ok(joined(
        alloc,
        view.entries(),
        mapping,
        ordinals,
        kin,
        Side::ChildrenOf(relation),
        place,
        doc,
    )?)
}
