//! The objects that are joined to objects of roots, across the trees of a view.

ghost use Rattle.std.specs.Prelude.{List, Option, IfOk, IfSome, ℕ};
ghost use Rattle.bucket_aggs.specs.Parents.{AreParents};
ghost use Rattle.join_ordinals.specs.Ordinals.{AreOrdinals};
ghost use Rattle.query_ast.specs.Resolved.{IsChildRelation};
ghost use Rattle.query_eval.specs.Found.{AreLong, IsSeen};
ghost use Rattle.query_eval.specs.Keyed.{AreChildRoots, AreParentRoots};
ghost use Rattle.query_eval.specs.Sides.{by_relation};
ghost use Rattle.tree_objects.specs.Object.{Object};
ghost use Rattle.tree_objects.specs.Tree.{Tree};

use crate::NoMemory;
use crate::sets::Objects;
use join_ordinals::JoinOrdinals;
use mapping::Mapping;
use query_eval::{KeyedRoots, children_led, parents_led, with_children, with_parent_by};
use score_math::ScoreMode;
use segment_view::Entry;
use std::alloc::Global;

/// The roots of the child trees of roots by a relation. Where all such children stand by their keys, no others are looked at.
pub(crate) fn children_across<'a>(
    alloc: Global,
    entries: &[Entry],
    mapping: &Mapping,
    ordinals: &JoinOrdinals,
    relation: u32,
    roots: Option<&KeyedRoots>,
    objects: &Objects<'_>,
) -> Result<Objects<'a>, NoMemory>
    requires relation { IsChildRelation mapping.now relation }
    requires roots { IfSome roots (λ roots. AreChildRoots mapping.now ordinals.now relation entries.now roots.now) }
    requires joined { AreOrdinals entries.now ordinals.now }
    requires long { AreLong entries.now objects.now }
    ensures long { IfOk result (AreLong entries.now) }
    ensures seen { (given : List Tree → Object → Option ℕ) → IsSeen mapping.now entries.now 0 given objects.now → IfOk result (IsSeen mapping.now entries.now 0 (by_relation mapping.now relation given)) }
{
    let kept = objects.hits(alloc)?;
    let own = kept.as_ref();
    match roots {
        Some(roots) => {
            let those = children_led(alloc, entries, mapping, ordinals, own, relation, roots)?;
            Ok(Objects::made(those))
        }
        None => {
            let those = with_parent_by(alloc, entries, mapping, ordinals, own, relation)?;
            Ok(Objects::made(those))
        }
    }
}

/// The roots of the parent trees of roots, each once; the relation is the children's. Where all such parents stand by their
/// keys, no others are looked at.
pub(crate) fn parents_across<'a>(
    alloc: Global,
    entries: &[Entry],
    mapping: &Mapping,
    ordinals: &JoinOrdinals,
    relation: u32,
    roots: Option<&KeyedRoots>,
    objects: &Objects<'_>,
) -> Result<Objects<'a>, NoMemory>
    requires relation { IsChildRelation mapping.now relation }
    requires roots { IfSome roots (λ roots. AreParentRoots mapping.now ordinals.now relation entries.now roots.now) }
    requires joined { AreOrdinals entries.now ordinals.now }
    requires long { AreLong entries.now objects.now }
    ensures long { IfOk result (AreLong entries.now) }
    ensures seen { (given : List Tree → Object → Option ℕ) → IsSeen mapping.now entries.now 0 given objects.now → IfOk result (AreParents mapping.now entries.now relation given) }
{
    let kept = objects.hits(alloc)?;
    let own = kept.as_ref();
    match roots {
        Some(roots) => {
            let those = parents_led(alloc, entries, mapping, ordinals, own, relation, roots)?;
            Ok(Objects::made(those))
        }
        None => {
            let those = with_children(
                alloc,
                entries,
                mapping,
                ordinals,
                own,
                relation,
                ScoreMode::Max,
                1,
                None,
            )?;
            Ok(Objects::made(those))
        }
    }
}
