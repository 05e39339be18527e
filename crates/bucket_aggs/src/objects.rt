//! The objects that the documents of a view stand for, as sets of documents.

ghost use Rattle.std.specs.Prelude.{◌≡◌, ℕ, true, List, Option, sum_by, IfOk, IfSome};
ghost use Rattle.block_join.specs.declared.rule.Rule.{Rule};
ghost use Rattle.bucket_aggs.specs.Counts.{marked_count};
ghost use Rattle.bucket_aggs.specs.Given.{AreAll, AreInside, as_ones};
ghost use Rattle.join_ordinals.specs.Ordinals.{AreOrdinals};
ghost use Rattle.mapping.specs.Mapping.{Mapping as Meaning, IsAbove};
ghost use Rattle.query_ast.specs.Clause.{leaf, match_all};
ghost use Rattle.query_ast.specs.Clause.View.{clause_of};
ghost use Rattle.query_ast.specs.Joins.{joins};
ghost use Rattle.query_ast.specs.Resolved.{IsResolved};
ghost use Rattle.query_eval.specs.Counted.{IsCount};
ghost use Rattle.query_eval.specs.Folds.{paired_by};
ghost use Rattle.query_eval.specs.Found.{AreLong, IsFound, IsSeen, score_by};
ghost use Rattle.query_eval.specs.Nested.{around_by, below_by};
ghost use Rattle.score_math.specs.Scores.{mode_of};
ghost use Rattle.tree_objects.specs.Object.{Object};
ghost use Rattle.tree_objects.specs.Tree.{Tree};

use crate::NoMemory;
use crate::sets::Objects;
use block_join::{Matches, Rule};
use join_ordinals::JoinOrdinals;
use mapping::Mapping;
use query_ast::Query;
use query_eval::{all_objects, downs, found, live_count, merged_hits, up_count, ups};
use score_math::ScoreMode;
use segment_view::Entry;
use std::alloc::Global;
use tree_joins::objects_are_parted;
use tree_objects::objects_nest;

/// Whether the documents of each entry are known to have one score: then they are a set of bits already.
pub(crate) fn have_one_score(hits: &Matches) -> bool {
    hits.as_slice()
        .iter()
        .all(|scores| scores.shared().is_some())
}

/// The same documents, all with one score: a set of bits for each entry.
pub(crate) fn alike(
    alloc: Global,
    entries: &[Entry],
    mapping: &Mapping,
    ordinals: &JoinOrdinals,
    scope: u32,
    hits: &Matches,
) -> Result<Matches, NoMemory>
    requires { AreLong entries.now hits.now }
    ensures long { IfOk result (AreLong entries.now) }
    ensures seen { (given : List Tree → Object → Option ℕ) → IsSeen mapping.now entries.now scope given hits.now → IfOk result (IsSeen mapping.now entries.now scope (as_ones mapping.now given)) }
{
    let query = Query::MatchAll { boost: 1 };
    let all = found(alloc, entries, mapping, ordinals, &query, scope)?;
    Ok(merged_hits(alloc, entries, &all, hits, Rule::Kept)?)
}

/// Whether these are all live objects of the scope: then there are as many.
fn are_all(entries: &[Entry], scope: u32, objects: &Objects<'_>) -> Result<bool, NoMemory>
    ensures { (m : Meaning) (given : List Tree → Object → Option ℕ) → IsSeen m entries.now scope given objects.now → IfOk result (λ all. all ≡ true → AreAll m entries.now scope given) }
{
    let all = live_count(entries, scope)?;
    let count = count_of(objects)?;
    Ok(count == all)
}

/// The objects of a path inside these. They are made to hits where that is asked, so that no later call makes them once more.
pub(crate) fn inside_of<'a>(
    alloc: Global,
    entries: &'a [Entry],
    mapping: &Mapping,
    scope: u32,
    path: u32,
    objects: &Objects<'_>,
    as_hits: bool,
) -> Result<Objects<'a>, NoMemory>
    requires path { IsAbove mapping.now scope path }
    requires long { AreLong entries.now objects.now }
    ensures long { IfOk result (AreLong entries.now) }
    ensures inside { (given : List Tree → Object → Option ℕ) → IsSeen mapping.now entries.now scope given objects.now → IfOk result (AreInside mapping.now entries.now scope path given) }
{
    let those = lent_inside(alloc, entries, mapping, scope, path, objects)?;
    if as_hits {
        Ok(those.into_hits(alloc)?)
    } else {
        Ok(those)
    }
}

/// The objects of a path inside these. Inside all live objects of a scope these are all of the path: segments lend their sets.
fn lent_inside<'a>(
    alloc: Global,
    entries: &'a [Entry],
    mapping: &Mapping,
    scope: u32,
    path: u32,
    objects: &Objects<'_>,
) -> Result<Objects<'a>, NoMemory>
    requires path { IsAbove mapping.now scope path }
    requires long { AreLong entries.now objects.now }
    ensures long { IfOk result (AreLong entries.now) }
    ensures inside { (given : List Tree → Object → Option ℕ) → IsSeen mapping.now entries.now scope given objects.now → IfOk result (AreInside mapping.now entries.now scope path given) }
{
    objects_nest();
    objects_are_parted();
    let _scopes = mapping.scope_count();
    if are_all(entries, scope, objects)? {
        Ok(every(alloc, entries, path)?)
    } else {
        Ok(below(alloc, entries, scope, path, objects)?)
    }
}

/// All live objects of a scope, in sets that segments lend.
fn every<'a>(alloc: Global, entries: &'a [Entry], scope: u32) -> Result<Objects<'a>, NoMemory>
    ensures { (m : Meaning) → IfOk result (IsFound m entries.now scope (leaf match_all 1)) }
{
    let sets = all_objects(alloc, entries, scope)?;
    Ok(Objects::of_sets(sets))
}

/// The objects of a path inside these, each with the score of the one around it.
fn below<'a>(
    alloc: Global,
    entries: &[Entry],
    scope: u32,
    path: u32,
    objects: &Objects<'_>,
) -> Result<Objects<'a>, NoMemory>
    requires { AreLong entries.now objects.now }
    ensures long { IfOk result (AreLong entries.now) }
    ensures seen { (m : Meaning) (given : List Tree → Object → Option ℕ) → IsAbove m scope path → IsSeen m entries.now scope given objects.now → IfOk result (IsSeen m entries.now path (around_by scope given)) }
{
    let kept = objects.hits(alloc)?;
    let those = downs(alloc, entries, kept.as_ref(), scope, path)?;
    Ok(Objects::made(those))
}

/// The objects of a path around these, each once.
pub(crate) fn around_of<'a>(
    alloc: Global,
    entries: &[Entry],
    objects: &Objects<'_>,
    path: u32,
) -> Result<Objects<'a>, NoMemory>
    requires { AreLong entries.now objects.now }
    ensures long { IfOk result (AreLong entries.now) }
    ensures seen { (m : Meaning) (from : ℕ) (given : List Tree → Object → Option ℕ) → IsAbove m path from → IsSeen m entries.now from given objects.now
        → IfOk result (IsSeen m entries.now path (below_by m (mode_of ScoreMode.Max) from given)) }
{
    let kept = objects.hits(alloc)?;
    let those = ups(alloc, entries, kept.as_ref(), path, ScoreMode::Max)?;
    Ok(Objects::made(those))
}

/// How many objects of a path are around these.
pub(crate) fn around_count(
    alloc: Global,
    entries: &[Entry],
    objects: &Objects<'_>,
    path: u32,
) -> Result<u64, NoMemory>
    requires { AreLong entries.now objects.now }
    ensures { (m : Meaning) (from : ℕ) (given : List Tree → Object → Option ℕ) → IsAbove m path from → IsSeen m entries.now from given objects.now
        → IfOk result (IsCount m entries.now path (below_by m (mode_of ScoreMode.Max) from given)) }
{
    let kept = objects.hits(alloc)?;
    Ok(up_count(alloc, entries, kept.as_ref(), path)?)
}

/// Of the objects those that hit; what the query finds is known where it was evaluated before.
pub(crate) fn filtered<'a>(
    alloc: Global,
    entries: &[Entry],
    mapping: &Mapping,
    ordinals: &JoinOrdinals,
    query: &Query,
    known: Option<&Matches>,
    scope: u32,
    objects: &Objects<'_>,
) -> Result<Objects<'a>, NoMemory>
    requires resolved { IsResolved mapping.now scope (clause_of query.now) }
    requires joined { joins (clause_of query.now) ≡ true → AreOrdinals entries.now ordinals.now }
    requires known { IfSome known (λ hits. IsFound mapping.now entries.now scope (clause_of query.now) hits.now) }
    requires long { AreLong entries.now objects.now }
    ensures long { IfOk result (AreLong entries.now) }
    ensures seen { (given : List Tree → Object → Option ℕ) → IsSeen mapping.now entries.now scope given objects.now → IfOk result (IsSeen mapping.now entries.now scope (paired_by Rule.Kept given (score_by mapping.now (clause_of query.now)))) }
{
    let kept = objects.hits(alloc)?;
    let own = kept.as_ref();
    match known {
        Some(hits) => {
            let those = merged_hits(alloc, entries, own, hits, Rule::Kept)?;
            Ok(Objects::made(those))
        }
        None => {
            let hits = found(alloc, entries, mapping, ordinals, query, scope)?;
            let those = merged_hits(alloc, entries, own, &hits, Rule::Kept)?;
            Ok(Objects::made(those))
        }
    }
}

/// How many objects there are.
pub(crate) fn count_of(objects: &Objects<'_>) -> Result<u64, NoMemory>
    ensures { IfOk result (λ count. count ≡ sum_by marked_count objects.now) }
{
    let mut count: u64 = 0;
    'entries: for at in 0..objects.len() {
        let Some(more) = count.checked_add(u64::from(objects.set(at).count())) else {
            return Err(NoMemory);
        };
        count = more;
    }
    Ok(count)
}
