//! The answers to definitions of buckets.

ghost use Rattle.std.specs.Prelude.{◌≡◌, ◌<◌, ℕ, true, List, [], Option, Some, None, map, IfOk, IfSome, OnOk};
ghost use Rattle.join_ordinals.specs.Ordinals.{AreOrdinals};
ghost use Rattle.query_ast.specs.Agg.View.{agg_of};
ghost use Rattle.query_ast.specs.Definition.{definitions_of, no_definitions};
ghost use Rattle.query_ast.specs.Joins.{agg_joins, form_joins, joins, some_agg_joins};
ghost use Rattle.query_ast.specs.Replies.{no_buckets as no_bucket, several};
ghost use Rattle.query_ast.specs.declared.agg.AggForm.{AggForm};
ghost use Rattle.query_ast.specs.Replies.View.{bucket_part, reply_part, value_of};
ghost use Rattle.query_ast.specs.Resolved.{AreAggDefinitions, IsAggDefinition, IsChildRelation, IsForm, IsResolved, IsUse, scope_of_form};
ghost use Rattle.query_ast.specs.Uses.{IsValueOf};
ghost use Rattle.mapping.specs.Mapping.{IsAbove, kind_at};
ghost use Rattle.query_eval.specs.Found.{AreLong, IsFound, IsSeen};
ghost use Rattle.query_eval.specs.Keyed.{AreChildRoots, AreParentRoots};
ghost use Rattle.tree_objects.specs.Object.{Object};
ghost use Rattle.tree_objects.specs.Tree.{Tree};
ghost use Rattle.bucket_aggs.specs.Counts.{AreKeys, AreKnown};
ghost use Rattle.bucket_aggs.specs.Given.{AreOfValue, AreReplies, IsAnswer, bucket_by, buckets_by, more_replies, reply_by, single_by, value_by};
ghost use Rattle.bucket_aggs.specs.Once.{IsKnown};
ghost use Rattle.bucket_aggs.specs.Once.Ready.{AreReady, IsReady};
ghost use Rattle.bucket_aggs.specs.Sums.{IsKept};

use crate::NoMemory;
use crate::across::{children_across, parents_across};
use crate::facets::{facets, lone_way_up};
use crate::metric_answers::{count, greatest, least, sum};
use crate::metrics::FieldSummary;
use crate::objects::{
    alike, around_count, around_of, count_of, filtered, have_one_score, inside_of,
};
use crate::once::{Evaluated, Known, evaluate, known_hits, known_roots, opened, parted};
use crate::posted::TermSet;
use crate::rows::{CountRow, copied, ordered, sum_of_counts};
use crate::sets::Objects;
use crate::showing::showing;
use crate::terms::counted;
use block_join::Matches;
use join_ordinals::JoinOrdinals;
use mapping::Mapping;
use query_ast::{
    AggDef, AggForm, AggList, AggReplies, AggReply, AggValue, Bucket, BucketList, Query, QueryBox,
};
use query_eval::{KeyedRoots, kept_hits};
use segment_view::{Entry, View};
use source_steps::Steps;
use std::alloc::Global;
use std::sync::ledger::Ledger;
use tree_joins::objects_are_parted;
use tree_objects::{Bytes, FieldValue, objects_nest};
use view_objects::{documents_show_values, hits_are_objects};

/// From so many buckets on it costs less to bring the roots that they join into the order of their keys than to look at each root
/// of the view for every bucket.
const MANY_BUCKETS: usize = 16;

/// The answers to definitions of buckets over the objects of a scope that the documents of hits stand for, in the order of the
/// definitions. No source is read.
///
/// The definitions were resolved under the mapping in that scope. The ordinals are those of the view, where a definition joins
/// trees.
pub fn buckets<L: Ledger>(
    alloc: Global,
    view: &View,
    mapping: &Mapping,
    ordinals: &JoinOrdinals,
    hits: &Matches,
    scope: u32,
    aggs: &AggList,
    steps: &mut Steps<L>,
) -> Result<AggReplies, NoMemory>
    requires resolved { AreAggDefinitions mapping.now scope (definitions_of aggs.now) }
    requires joined { some_agg_joins (definitions_of aggs.now) ≡ true → AreOrdinals view.now ordinals.now }
    requires long { AreLong view.now hits.now }
    ensures replies { (given : List Tree → Object → Option ℕ) → IsSeen mapping.now view.now scope given hits.now → IfOk result (AreReplies mapping.now view.now scope (definitions_of aggs.now) given) }
    ensures steps { steps.new ≡ steps.old }
{
    let entries = view.entries();
    if have_one_score(hits) {
        let objects = Objects::of(hits);
        let replies = replies(
            alloc,
            entries,
            mapping,
            ordinals,
            aggs.as_slice(),
            None,
            scope,
            &objects,
        )?;
        return Ok(AggReplies::of(replies));
    }
    let ones = alike(alloc, entries, mapping, ordinals, scope, hits)?;
    let objects = Objects::of(&ones);
    let replies = replies(
        alloc,
        entries,
        mapping,
        ordinals,
        aggs.as_slice(),
        None,
        scope,
        &objects,
    )?;
    Ok(AggReplies::of(replies))
}

/// The answers to a list of definitions.
#[cycle(answers)]
fn replies(
    alloc: Global,
    entries: &[Entry],
    mapping: &Mapping,
    ordinals: &JoinOrdinals,
    aggs: &[AggDef],
    once: Option<&[Evaluated]>,
    scope: u32,
    objects: &Objects<'_>,
) -> Result<Vec<AggReply>, NoMemory>
    requires resolved { AreAggDefinitions mapping.now scope (definitions_of (map agg_of aggs.now)) }
    requires joined { some_agg_joins (definitions_of (map agg_of aggs.now)) ≡ true → AreOrdinals entries.now ordinals.now }
    requires once { IfSome once (λ made. AreReady mapping.now entries.now ordinals.now scope (definitions_of (map agg_of aggs.now)) made.now) }
    requires long { AreLong entries.now objects.now }
    ensures { (given : List Tree → Object → Option ℕ) → IsSeen mapping.now entries.now scope given objects.now → IfOk result (λ made. AreReplies mapping.now entries.now scope (definitions_of (map agg_of aggs.now)) given (map reply_part made.items)) }
{
    let none = Vec::new(alloc);
    let mut kept = None;
    Ok(further(
        alloc, entries, mapping, ordinals, aggs, once, scope, objects, none, &mut kept,
    )?)
}

/// The answers to a list of definitions, behind others.
#[cycle(answers)]
#[tactic(auto, using(crate::proofs::Formed::definition_some, crate::proofs::Formed::replies_none))]
fn further(
    alloc: Global,
    entries: &[Entry],
    mapping: &Mapping,
    ordinals: &JoinOrdinals,
    aggs: &[AggDef],
    once: Option<&[Evaluated]>,
    scope: u32,
    objects: &Objects<'_>,
    mut made: Vec<AggReply>,
    kept: &mut Option<FieldSummary>,
) -> Result<Vec<AggReply>, NoMemory>
    requires resolved { AreAggDefinitions mapping.now scope (definitions_of (map agg_of aggs.now)) }
    requires joined { some_agg_joins (definitions_of (map agg_of aggs.now)) ≡ true → AreOrdinals entries.now ordinals.now }
    requires once { IfSome once (λ made. AreReady mapping.now entries.now ordinals.now scope (definitions_of (map agg_of aggs.now)) made.now) }
    requires long { AreLong entries.now objects.now }
    requires kept { IsKept entries.now objects.now kept.old }
    ensures { (given : List Tree → Object → Option ℕ) → IsSeen mapping.now entries.now scope given objects.now → IfOk result (λ all. IsAnswer mapping.now entries.now scope (more_replies mapping.now (definitions_of (map agg_of aggs.now)) (map reply_part made.items)) given (map reply_part all.items)) }
{
    match aggs {
        [] => Ok(made),
        [def, rest @ ..] => {
            let (known, others) = parted(once);
            let own = reply(
                alloc, entries, mapping, ordinals, def, known, scope, objects, kept,
            )?;
            made.push(own)?;
            Ok(further(
                alloc, entries, mapping, ordinals, rest, others, scope, objects, made, kept,
            )?)
        }
    }
}

/// The answer to one definition.
#[cycle(answers)]
fn reply(
    alloc: Global,
    entries: &[Entry],
    mapping: &Mapping,
    ordinals: &JoinOrdinals,
    def: &AggDef,
    known: Option<&Evaluated>,
    scope: u32,
    objects: &Objects<'_>,
    kept: &mut Option<FieldSummary>,
) -> Result<AggReply, NoMemory>
    requires resolved { IsAggDefinition mapping.now scope (agg_of def.now) }
    requires joined { agg_joins (agg_of def.now) ≡ true → AreOrdinals entries.now ordinals.now }
    requires known { IfSome known (λ own. IsReady mapping.now entries.now ordinals.now scope (agg_of def.now) own.now) }
    requires long { AreLong entries.now objects.now }
    requires kept { IsKept entries.now objects.now kept.old }
    ensures reply { (given : List Tree → Object → Option ℕ) → IsSeen mapping.now entries.now scope given objects.now → IfOk result (λ reply. IsAnswer mapping.now entries.now scope (reply_by mapping.now (agg_of def.now)) given (reply_part reply)) }
    ensures kept { OnOk result (IsKept entries.now objects.now kept.new) }
{
    let (own, once) = opened(known);
    let answer = value(
        alloc, entries, mapping, ordinals, &def.form, own, &def.inner, once, scope, objects, kept,
    )?;
    let name = Bytes::of(Vec::from_slice(alloc, def.name.as_slice())?);
    Ok(AggReply {
        name,
        value: answer,
    })
}

/// The answer to one definition, but for its name.
#[cycle(answers)]
fn value(
    alloc: Global,
    entries: &[Entry],
    mapping: &Mapping,
    ordinals: &JoinOrdinals,
    form: &AggForm,
    known: Option<&Known>,
    inner: &AggList,
    once: Option<&[Evaluated]>,
    scope: u32,
    objects: &Objects<'_>,
    kept: &mut Option<FieldSummary>,
) -> Result<AggValue, NoMemory>
    requires form { IsForm mapping.now scope form.now (definitions_of inner.now) }
    requires inner { AreAggDefinitions mapping.now (scope_of_form scope form.now) (definitions_of inner.now) }
    requires joined { form_joins form.now ≡ true → AreOrdinals entries.now ordinals.now }
    requires joined_inside { some_agg_joins (definitions_of inner.now) ≡ true → AreOrdinals entries.now ordinals.now }
    requires known { IfSome known (λ known. IsKnown mapping.now entries.now ordinals.now scope form.now known.now) }
    requires once { IfSome once (λ made. AreReady mapping.now entries.now ordinals.now (scope_of_form scope form.now) (definitions_of inner.now) made.now) }
    requires long { AreLong entries.now objects.now }
    requires kept { IsKept entries.now objects.now kept.old }
    ensures value { (given : List Tree → Object → Option ℕ) → IsSeen mapping.now entries.now scope given objects.now → IfOk result (λ value. IsAnswer mapping.now entries.now scope (value_by mapping.now form.now (definitions_of inner.now)) given (value_of value)) }
    ensures kept { OnOk result (IsKept entries.now objects.now kept.new) }
{
    match form {
        AggForm::Filter(query) => {
            let hits = known_hits(known);
            Ok(hitting(
                alloc, entries, mapping, ordinals, query, hits, inner, once, scope, objects,
            )?)
        }
        AggForm::Nested(path) => Ok(inside(
            alloc, entries, mapping, ordinals, *path, inner, once, scope, objects,
        )?),
        AggForm::ReverseNested(path) => Ok(around(
            alloc, entries, mapping, ordinals, *path, inner, once, scope, objects,
        )?),
        AggForm::Children(relation) => {
            let roots = known_roots(known);
            Ok(children(
                alloc, entries, mapping, ordinals, *relation, roots, inner, once, scope, objects,
            )?)
        }
        AggForm::Parent(relation) => {
            let roots = known_roots(known);
            Ok(parents(
                alloc, entries, mapping, ordinals, *relation, roots, inner, once, scope, objects,
            )?)
        }
        AggForm::Terms {
            field,
            size,
            by_key,
            descending,
        } => Ok(terms(
            alloc,
            entries,
            mapping,
            ordinals,
            *field,
            *size,
            *by_key,
            *descending,
            inner,
            once,
            scope,
            objects,
        )?),
        AggForm::Min(field) => Ok(AggValue::Metric(least(alloc, entries, *field, objects, kept)?)),
        AggForm::Max(field) => Ok(AggValue::Metric(greatest(
            alloc, entries, *field, objects, kept,
        )?)),
        AggForm::Sum(field) => Ok(AggValue::Metric(Some(sum(
            alloc, entries, *field, objects, kept,
        )?))),
        AggForm::ValueCount(field) => Ok(AggValue::Metric(Some(count(
            alloc, entries, mapping, *field, objects, kept,
        )?))),
    }
}

/// `filter`: those that a query hits.
#[cycle(answers)]
fn hitting(
    alloc: Global,
    entries: &[Entry],
    mapping: &Mapping,
    ordinals: &JoinOrdinals,
    query: &QueryBox,
    hits: Option<&Matches>,
    inner: &AggList,
    once: Option<&[Evaluated]>,
    scope: u32,
    objects: &Objects<'_>,
) -> Result<AggValue, NoMemory>
    requires query { IsResolved mapping.now scope query.now }
    requires joins { joins query.now ≡ true → AreOrdinals entries.now ordinals.now }
    requires inner { AreAggDefinitions mapping.now scope (definitions_of inner.now) }
    requires joined_inside { some_agg_joins (definitions_of inner.now) ≡ true → AreOrdinals entries.now ordinals.now }
    requires hits { IfSome hits (λ hits. IsFound mapping.now entries.now scope query.now hits.now) }
    requires once { IfSome once (λ made. AreReady mapping.now entries.now ordinals.now scope (definitions_of inner.now) made.now) }
    requires long { AreLong entries.now objects.now }
    ensures { (given : List Tree → Object → Option ℕ) → IsSeen mapping.now entries.now scope given objects.now → IfOk result (λ value. IsAnswer mapping.now entries.now scope (value_by mapping.now (AggForm.Filter query.now) (definitions_of inner.now)) given (value_of value)) }
{
    let those = filtered(
        alloc,
        entries,
        mapping,
        ordinals,
        query.get(),
        hits,
        scope,
        objects,
    )?;
    Ok(single(
        alloc, entries, mapping, ordinals, inner, once, scope, &those,
    )?)
}

/// `nested`: the objects of a path inside them. What stands inside may ask for their hits several times: they are made once then.
#[cycle(answers)]
fn inside(
    alloc: Global,
    entries: &[Entry],
    mapping: &Mapping,
    ordinals: &JoinOrdinals,
    path: u32,
    inner: &AggList,
    once: Option<&[Evaluated]>,
    scope: u32,
    objects: &Objects<'_>,
) -> Result<AggValue, NoMemory>
    requires path { IsAbove mapping.now scope path }
    requires inner { AreAggDefinitions mapping.now path (definitions_of inner.now) }
    requires joined_inside { some_agg_joins (definitions_of inner.now) ≡ true → AreOrdinals entries.now ordinals.now }
    requires once { IfSome once (λ made. AreReady mapping.now entries.now ordinals.now path (definitions_of inner.now) made.now) }
    requires long { AreLong entries.now objects.now }
    ensures { (given : List Tree → Object → Option ℕ) → IsSeen mapping.now entries.now scope given objects.now → IfOk result (λ value. IsAnswer mapping.now entries.now scope (value_by mapping.now (AggForm.Nested path) (definitions_of inner.now)) given (value_of value)) }
{
    let as_hits = inner.as_slice().iter().any(asks_for_hits);
    let those = inside_of(alloc, entries, mapping, scope, path, objects, as_hits)?;
    Ok(single(alloc, entries, mapping, ordinals, inner, once, path, &those)?)
}

/// Whether a definition asks for the hits of the objects that it looks at, and not for their documents alone.
fn asks_for_hits(def: &AggDef) -> bool {
    match &def.form {
        AggForm::Filter(_) | AggForm::ReverseNested(_) => true,
        AggForm::Terms { .. } => {
            !def.inner.as_slice().is_empty() && lone_way_up(&def.inner).is_none()
        }
        AggForm::Nested(_)
        | AggForm::Children(_)
        | AggForm::Parent(_)
        | AggForm::Min(_)
        | AggForm::Max(_)
        | AggForm::Sum(_)
        | AggForm::ValueCount(_) => false,
    }
}

/// `reverse_nested`: the objects of a path around them, each once.
#[cycle(answers)]
fn around(
    alloc: Global,
    entries: &[Entry],
    mapping: &Mapping,
    ordinals: &JoinOrdinals,
    path: u32,
    inner: &AggList,
    once: Option<&[Evaluated]>,
    scope: u32,
    objects: &Objects<'_>,
) -> Result<AggValue, NoMemory>
    requires path { IsAbove mapping.now path scope }
    requires inner { AreAggDefinitions mapping.now path (definitions_of inner.now) }
    requires joined_inside { some_agg_joins (definitions_of inner.now) ≡ true → AreOrdinals entries.now ordinals.now }
    requires once { IfSome once (λ made. AreReady mapping.now entries.now ordinals.now path (definitions_of inner.now) made.now) }
    requires long { AreLong entries.now objects.now }
    ensures { (given : List Tree → Object → Option ℕ) → IsSeen mapping.now entries.now scope given objects.now → IfOk result (λ value. IsAnswer mapping.now entries.now scope (value_by mapping.now (AggForm.ReverseNested path) (definitions_of inner.now)) given (value_of value)) }
{
    if inner.as_slice().is_empty() {
        return Ok(around_alone(alloc, entries, mapping, path, scope, objects)?);
    }
    objects_nest();
    objects_are_parted();
    let _scopes = mapping.scope_count();
    let those = around_of(alloc, entries, objects, path)?;
    Ok(single(alloc, entries, mapping, ordinals, inner, once, path, &those)?)
}

/// `reverse_nested` with nothing inside: it is counted alone.
fn around_alone(
    alloc: Global,
    entries: &[Entry],
    mapping: &Mapping,
    path: u32,
    scope: u32,
    objects: &Objects<'_>,
) -> Result<AggValue, NoMemory>
    requires path { IsAbove mapping.now path scope }
    requires long { AreLong entries.now objects.now }
    ensures { (given : List Tree → Object → Option ℕ) → IsSeen mapping.now entries.now scope given objects.now → IfOk result (λ value. IsAnswer mapping.now entries.now scope (value_by mapping.now (AggForm.ReverseNested path) no_definitions) given (value_of value)) }
{
    objects_nest();
    objects_are_parted();
    let _scopes = mapping.scope_count();
    let count = around_count(alloc, entries, objects, path)?;
    Ok(AggValue::Single {
        count,
        inner: AggReplies::of(Vec::new(alloc)),
    })
}

/// `children`: the child trees of the roots, by this relation.
#[cycle(answers)]
fn children(
    alloc: Global,
    entries: &[Entry],
    mapping: &Mapping,
    ordinals: &JoinOrdinals,
    relation: u32,
    roots: Option<&KeyedRoots>,
    inner: &AggList,
    once: Option<&[Evaluated]>,
    scope: u32,
    objects: &Objects<'_>,
) -> Result<AggValue, NoMemory>
    requires root { scope ≡ 0 }
    requires relation { IsChildRelation mapping.now relation }
    requires roots { IfSome roots (λ roots. AreChildRoots mapping.now ordinals.now relation entries.now roots.now) }
    requires joined { AreOrdinals entries.now ordinals.now }
    requires inner { AreAggDefinitions mapping.now 0 (definitions_of inner.now) }
    requires once { IfSome once (λ made. AreReady mapping.now entries.now ordinals.now 0 (definitions_of inner.now) made.now) }
    requires long { AreLong entries.now objects.now }
    ensures { (given : List Tree → Object → Option ℕ) → IsSeen mapping.now entries.now scope given objects.now → IfOk result (λ value. IsAnswer mapping.now entries.now scope (value_by mapping.now (AggForm.Children relation) (definitions_of inner.now)) given (value_of value)) }
{
    hits_are_objects();
    let _scopes = mapping.scope_count();
    let those = children_across(alloc, entries, mapping, ordinals, relation, roots, objects)?;
    Ok(single(alloc, entries, mapping, ordinals, inner, once, 0, &those)?)
}

/// `parent`: the parent trees of the roots, each once; the relation is the children's.
#[cycle(answers)]
fn parents(
    alloc: Global,
    entries: &[Entry],
    mapping: &Mapping,
    ordinals: &JoinOrdinals,
    relation: u32,
    roots: Option<&KeyedRoots>,
    inner: &AggList,
    once: Option<&[Evaluated]>,
    scope: u32,
    objects: &Objects<'_>,
) -> Result<AggValue, NoMemory>
    requires root { scope ≡ 0 }
    requires relation { IsChildRelation mapping.now relation }
    requires roots { IfSome roots (λ roots. AreParentRoots mapping.now ordinals.now relation entries.now roots.now) }
    requires joined { AreOrdinals entries.now ordinals.now }
    requires inner { AreAggDefinitions mapping.now 0 (definitions_of inner.now) }
    requires once { IfSome once (λ made. AreReady mapping.now entries.now ordinals.now 0 (definitions_of inner.now) made.now) }
    requires long { AreLong entries.now objects.now }
    ensures { (given : List Tree → Object → Option ℕ) → IsSeen mapping.now entries.now scope given objects.now → IfOk result (λ value. IsAnswer mapping.now entries.now scope (value_by mapping.now (AggForm.Parent relation) (definitions_of inner.now)) given (value_of value)) }
{
    hits_are_objects();
    let _scopes = mapping.scope_count();
    let those = parents_across(alloc, entries, mapping, ordinals, relation, roots, objects)?;
    Ok(single(alloc, entries, mapping, ordinals, inner, once, 0, &those)?)
}

/// One bucket of all the objects.
#[cycle(answers)]
fn single(
    alloc: Global,
    entries: &[Entry],
    mapping: &Mapping,
    ordinals: &JoinOrdinals,
    inner: &AggList,
    once: Option<&[Evaluated]>,
    scope: u32,
    objects: &Objects<'_>,
) -> Result<AggValue, NoMemory>
    requires resolved { AreAggDefinitions mapping.now scope (definitions_of inner.now) }
    requires joined { some_agg_joins (definitions_of inner.now) ≡ true → AreOrdinals entries.now ordinals.now }
    requires once { IfSome once (λ made. AreReady mapping.now entries.now ordinals.now scope (definitions_of inner.now) made.now) }
    requires long { AreLong entries.now objects.now }
    ensures { (given : List Tree → Object → Option ℕ) → IsSeen mapping.now entries.now scope given objects.now → IfOk result (λ value. IsAnswer mapping.now entries.now scope (single_by mapping.now (definitions_of inner.now)) given (value_of value)) }
{
    let count = count_of(objects)?;
    let replies = replies(
        alloc,
        entries,
        mapping,
        ordinals,
        inner.as_slice(),
        once,
        scope,
        objects,
    )?;
    Ok(AggValue::Single {
        count,
        inner: AggReplies::of(replies),
    })
}

/// `terms`: a bucket for each of the first values of a field; an unmapped field has none.
#[cycle(answers)]
fn terms(
    alloc: Global,
    entries: &[Entry],
    mapping: &Mapping,
    ordinals: &JoinOrdinals,
    field: Option<u32>,
    size: u32,
    by_key: bool,
    descending: bool,
    inner: &AggList,
    once: Option<&[Evaluated]>,
    scope: u32,
    objects: &Objects<'_>,
) -> Result<AggValue, NoMemory>
    requires field { IsUse (λ u. u.sorted) mapping.now field }
    requires resolved { AreAggDefinitions mapping.now scope (definitions_of inner.now) }
    requires joined { some_agg_joins (definitions_of inner.now) ≡ true → AreOrdinals entries.now ordinals.now }
    requires once { IfSome once (λ made. AreReady mapping.now entries.now ordinals.now scope (definitions_of inner.now) made.now) }
    requires long { AreLong entries.now objects.now }
    ensures { (given : List Tree → Object → Option ℕ) → IsSeen mapping.now entries.now scope given objects.now → IfOk result (λ value. IsAnswer mapping.now entries.now scope (value_by mapping.now (AggForm.Terms field size by_key descending) (definitions_of inner.now)) given (value_of value)) }
{
    match field {
        Some(field) => Ok(field_terms(
            alloc, entries, mapping, ordinals, field, size, by_key, descending, inner, once, scope,
            objects,
        )?),
        None => Ok(no_buckets(alloc)),
    }
}

/// `terms` of a field that is mapped. Where all that is asked of the buckets is the number of objects of a path around theirs,
/// both are counted at once.
#[cycle(answers)]
fn field_terms(
    alloc: Global,
    entries: &[Entry],
    mapping: &Mapping,
    ordinals: &JoinOrdinals,
    field: u32,
    size: u32,
    by_key: bool,
    descending: bool,
    inner: &AggList,
    once: Option<&[Evaluated]>,
    scope: u32,
    objects: &Objects<'_>,
) -> Result<AggValue, NoMemory>
    requires field { IsUse (λ u. u.sorted) mapping.now (Some field) }
    requires resolved { AreAggDefinitions mapping.now scope (definitions_of inner.now) }
    requires joined { some_agg_joins (definitions_of inner.now) ≡ true → AreOrdinals entries.now ordinals.now }
    requires once { IfSome once (λ made. AreReady mapping.now entries.now ordinals.now scope (definitions_of inner.now) made.now) }
    requires long { AreLong entries.now objects.now }
    ensures { (given : List Tree → Object → Option ℕ) → IsSeen mapping.now entries.now scope given objects.now → IfOk result (λ value. IsAnswer mapping.now entries.now scope (value_by mapping.now (AggForm.Terms (Some field) size by_key descending) (definitions_of inner.now)) given (value_of value)) }
{
    let facets = facets(
        alloc, entries, mapping, field, size, by_key, descending, inner, scope, objects,
    )?;
    match facets {
        Some(value) => Ok(value),
        None => Ok(mapped_terms(
            alloc, entries, mapping, ordinals, field, size, by_key, descending, inner, once, scope,
            objects,
        )?),
    }
}

/// No buckets, as an unmapped field has.
fn no_buckets(alloc: Global) -> AggValue
    ensures { value_of result ≡ several no_bucket 0 }
{
    AggValue::Buckets {
        buckets: BucketList::of(Vec::new(alloc)),
        other: 0,
    }
}

/// A bucket for each of the first values of a field that is mapped, and the sum of the counts of the others.
#[cycle(answers)]
fn mapped_terms(
    alloc: Global,
    entries: &[Entry],
    mapping: &Mapping,
    ordinals: &JoinOrdinals,
    field: u32,
    size: u32,
    by_key: bool,
    descending: bool,
    inner: &AggList,
    once: Option<&[Evaluated]>,
    scope: u32,
    objects: &Objects<'_>,
) -> Result<AggValue, NoMemory>
    requires field { IsUse (λ u. u.sorted) mapping.now (Some field) }
    requires resolved { AreAggDefinitions mapping.now scope (definitions_of inner.now) }
    requires joined { some_agg_joins (definitions_of inner.now) ≡ true → AreOrdinals entries.now ordinals.now }
    requires once { IfSome once (λ made. AreReady mapping.now entries.now ordinals.now scope (definitions_of inner.now) made.now) }
    requires long { AreLong entries.now objects.now }
    ensures { (given : List Tree → Object → Option ℕ) → IsSeen mapping.now entries.now scope given objects.now → IfOk result (λ value. IsAnswer mapping.now entries.now scope (value_by mapping.now (AggForm.Terms (Some field) size by_key descending) (definitions_of inner.now)) given (value_of value)) }
{
    documents_show_values();
    let inside = !inner.as_slice().is_empty();
    let mut found = Vec::new(alloc);
    let rows = counted(
        alloc,
        entries,
        mapping.kind(field),
        field,
        objects,
        inside,
        &mut found,
    )?;
    let sorted = ordered(rows, by_key, descending)?;
    let end = sorted.len().min(size as usize);
    let (first, others) = sorted.as_slice().split_at(end);
    let other = sum_of_counts(others)?;
    let found = found.as_slice();
    let buckets = ready_shown(
        alloc, entries, mapping, ordinals, field, first, inner, once, scope, objects, found,
    )?;
    Ok(AggValue::Buckets {
        buckets: BucketList::of(buckets),
        other,
    })
}

/// The buckets of values, in their order. What they all ask for is evaluated before the first of several, if it was not yet.
#[cycle(answers)]
fn ready_shown(
    alloc: Global,
    entries: &[Entry],
    mapping: &Mapping,
    ordinals: &JoinOrdinals,
    field: u32,
    rows: &[CountRow],
    inner: &AggList,
    once: Option<&[Evaluated]>,
    scope: u32,
    objects: &Objects<'_>,
    found: &[TermSet],
) -> Result<Vec<Bucket>, NoMemory>
    requires field { IsUse (λ u. u.sorted) mapping.now (Some field) }
    requires found { AreKnown entries.now objects.now found.now }
    requires keys { AreKeys (kind_at mapping.now field) rows.now }
    requires resolved { AreAggDefinitions mapping.now scope (definitions_of inner.now) }
    requires joined { some_agg_joins (definitions_of inner.now) ≡ true → AreOrdinals entries.now ordinals.now }
    requires once { IfSome once (λ made. AreReady mapping.now entries.now ordinals.now scope (definitions_of inner.now) made.now) }
    requires long { AreLong entries.now objects.now }
    ensures { (given : List Tree → Object → Option ℕ) → IsSeen mapping.now entries.now scope given objects.now → IfOk result (λ buckets. IsAnswer mapping.now entries.now scope (buckets_by mapping.now field (definitions_of inner.now) rows.now) given (map bucket_part buckets.items)) }
{
    if once.is_some() || rows.len() < 2 {
        return Ok(shown(
            alloc, entries, mapping, ordinals, field, rows, inner, once, scope, objects, found,
        )?);
    }
    let many = rows.len() >= MANY_BUCKETS;
    let made = evaluate(alloc, entries, mapping, ordinals, inner, many, scope)?;
    let once = Some(made.as_slice());
    Ok(shown(
        alloc, entries, mapping, ordinals, field, rows, inner, once, scope, objects, found,
    )?)
}

/// The buckets of values, in their order.
#[cycle(answers)]
fn shown(
    alloc: Global,
    entries: &[Entry],
    mapping: &Mapping,
    ordinals: &JoinOrdinals,
    field: u32,
    rows: &[CountRow],
    inner: &AggList,
    once: Option<&[Evaluated]>,
    scope: u32,
    objects: &Objects<'_>,
    found: &[TermSet],
) -> Result<Vec<Bucket>, NoMemory>
    requires field { IsUse (λ u. u.sorted) mapping.now (Some field) }
    requires found { AreKnown entries.now objects.now found.now }
    requires keys { AreKeys (kind_at mapping.now field) rows.now }
    requires resolved { AreAggDefinitions mapping.now scope (definitions_of inner.now) }
    requires joined { some_agg_joins (definitions_of inner.now) ≡ true → AreOrdinals entries.now ordinals.now }
    requires once { IfSome once (λ made. AreReady mapping.now entries.now ordinals.now scope (definitions_of inner.now) made.now) }
    requires long { AreLong entries.now objects.now }
    ensures { (given : List Tree → Object → Option ℕ) → IsSeen mapping.now entries.now scope given objects.now → IfOk result (λ buckets. IsAnswer mapping.now entries.now scope (buckets_by mapping.now field (definitions_of inner.now) rows.now) given (map bucket_part buckets.items)) }
{
    let mut buckets = Vec::with_capacity(alloc, rows.len())?;
    'rows: for at in 0..rows.len() {
        let bucket = bucket(
            alloc, entries, mapping, ordinals, field, &rows[at], inner, once, scope, objects, found,
        )?;
        buckets.push(bucket)?;
    }
    Ok(buckets)
}

/// The bucket of a value: the definitions inside are answered over the objects that show it.
#[cycle(answers)]
fn bucket(
    alloc: Global,
    entries: &[Entry],
    mapping: &Mapping,
    ordinals: &JoinOrdinals,
    field: u32,
    row: &CountRow,
    inner: &AggList,
    once: Option<&[Evaluated]>,
    scope: u32,
    objects: &Objects<'_>,
    found: &[TermSet],
) -> Result<Bucket, NoMemory>
    requires field { IsUse (λ u. u.sorted) mapping.now (Some field) }
    requires found { AreKnown entries.now objects.now found.now }
    requires key { IsValueOf (kind_at mapping.now field) row.now.key }
    requires resolved { AreAggDefinitions mapping.now scope (definitions_of inner.now) }
    requires joined { some_agg_joins (definitions_of inner.now) ≡ true → AreOrdinals entries.now ordinals.now }
    requires once { IfSome once (λ made. AreReady mapping.now entries.now ordinals.now scope (definitions_of inner.now) made.now) }
    requires long { AreLong entries.now objects.now }
    ensures { (given : List Tree → Object → Option ℕ) → IsSeen mapping.now entries.now scope given objects.now → IfOk result (λ bucket. IsAnswer mapping.now entries.now scope (bucket_by mapping.now field (definitions_of inner.now) row.now) given (bucket_part bucket)) }
{
    let key = copied(alloc, &row.key)?;
    let count = row.count;
    if inner.as_slice().is_empty() {
        return Ok(Bucket {
            key,
            count,
            inner: AggReplies::of(Vec::new(alloc)),
        });
    }
    let those = of_value(
        alloc, entries, mapping, field, &row.key, scope, objects, found,
    )?;
    let replies = replies(
        alloc,
        entries,
        mapping,
        ordinals,
        inner.as_slice(),
        once,
        scope,
        &those,
    )?;
    Ok(Bucket {
        key,
        count,
        inner: AggReplies::of(replies),
    })
}

/// Of the objects those that show a value of a field.
fn of_value<'a>(
    alloc: Global,
    entries: &[Entry],
    mapping: &Mapping,
    field: u32,
    key: &FieldValue,
    scope: u32,
    objects: &Objects<'_>,
    found: &[TermSet],
) -> Result<Objects<'a>, NoMemory>
    requires field { IsUse (λ u. u.sorted) mapping.now (Some field) }
    requires key { IsValueOf (kind_at mapping.now field) key.now }
    requires long { AreLong entries.now objects.now }
    requires found { AreKnown entries.now objects.now found.now }
    ensures long { IfOk result (AreLong entries.now) }
    ensures those { (given : List Tree → Object → Option ℕ) → IsSeen mapping.now entries.now scope given objects.now → IfOk result (AreOfValue mapping.now entries.now scope field key.now given) }
{
    documents_show_values();
    let kept = objects.hits(alloc)?;
    let own = kept.as_ref();
    match key {
        FieldValue::Written(text) => {
            let kind = mapping.kind(field);
            let those = showing(alloc, entries, kind, field, text.as_slice(), own, found)?;
            Ok(Objects::made(those))
        }
        FieldValue::Number(number) => {
            let query = Query::Term {
                field: Some(field),
                value: FieldValue::Number(*number),
                boost: 1,
            };
            let those = kept_hits(alloc, entries, mapping, &query, scope, own)?;
            Ok(Objects::made(those))
        }
    }
}
