//! The buckets of a keyword field of which the number of objects of a path around theirs is all that is asked.

ghost use Rattle.std.specs.Prelude.{◌≡◌, ℕ, List, [], ◌∷◌, Option, Some, map, IfOk, IfSome};
ghost use Rattle.query_ast.specs.Definition.{definition, definitions_of, no_definitions};
ghost use Rattle.query_ast.specs.Replies.View.{bucket_part, value_of};
ghost use Rattle.query_ast.specs.Resolved.{AreAggDefinitions, IsUse};
ghost use Rattle.query_ast.specs.declared.agg.AggForm.{AggForm};
ghost use Rattle.query_eval.specs.Found.{AreLong, IsSeen};
ghost use Rattle.tree_objects.specs.Object.{Object};
ghost use Rattle.tree_objects.specs.Tree.{Tree};
ghost use Rattle.bucket_aggs.specs.Counts.{KeysAscend, facet_of};
ghost use Rattle.bucket_aggs.specs.Given.{IsAnswer, value_by};

use crate::NoMemory;
use crate::at_once::{count_of_key, counted_at_once};
use crate::columns::is_text;
use crate::rows::{CountRow, copied, merged, ordered, sum_of_counts};
use crate::sets::Objects;
use mapping::Mapping;
use query_ast::{AggForm, AggList, AggReplies, AggReply, AggValue, Bucket, BucketList};
use query_eval::ups_are_counted;
use segment_view::Entry;
use std::alloc::Global;
use tree_joins::objects_are_parted;
use tree_objects::{Bytes, objects_nest};
use view_objects::documents_show_values;

/// The name and the path of the only one of some definitions, if it is a `reverse_nested` with nothing inside.
#[tactic(auto, using(crate::proofs::Faceted::lone_way))]
pub(crate) fn lone_way_up(inner: &AggList) -> Option<(&Bytes, u32)>
    ensures { IfSome result (λ both. inner.now ≡ definition (record { name = both.0.now; form = AggForm.ReverseNested both.1 }) no_definitions ∷ []) }
{
    match inner.as_slice() {
        [def] => match &def.form {
            AggForm::ReverseNested(path) => {
                if def.inner.as_slice().is_empty() {
                    return Some((&def.name, *path));
                }
                None
            }
            _ => None,
        },
        _ => None,
    }
}

/// A bucket for each of the first values of a field, with the number of objects of a path around those that show it. None where
/// something else is asked of the buckets than that number alone, or the field is no keyword field that is counted at once with it.
pub(crate) fn facets(
    alloc: Global,
    entries: &[Entry],
    mapping: &Mapping,
    field: u32,
    size: u32,
    by_key: bool,
    descending: bool,
    inner: &AggList,
    scope: u32,
    objects: &Objects<'_>,
) -> Result<Option<AggValue>, NoMemory>
    requires field { IsUse (λ u. u.sorted) mapping.now (Some field) }
    requires resolved { AreAggDefinitions mapping.now scope (definitions_of inner.now) }
    requires long { AreLong entries.now objects.now }
    ensures { (given : List Tree → Object → Option ℕ) → IsSeen mapping.now entries.now scope given objects.now
        → IfOk result (λ found. IfSome found (λ value. IsAnswer mapping.now entries.now scope (value_by mapping.now (AggForm.Terms (Some field) size by_key descending) (definitions_of inner.now)) given (value_of value))) }
{
    documents_show_values();
    objects_nest();
    objects_are_parted();
    ups_are_counted();
    let _scopes = mapping.scope_count();
    let kind = mapping.kind(field);
    if !is_text(kind) {
        return Ok(None);
    }
    let Some((name, path)) = lone_way_up(inner) else {
        return Ok(None);
    };
    let mut ups = Vec::new(alloc);
    let counted = counted_at_once(alloc, entries, kind, field, size, objects, path, &mut ups)?;
    let Some(rows) = counted else {
        return Ok(None);
    };
    let ups = merged(alloc, ups)?;
    let sorted = ordered(rows, by_key, descending)?;
    let end = sorted.len().min(size as usize);
    let (first, others) = sorted.as_slice().split_at(end);
    let other = sum_of_counts(others)?;
    let buckets = shown_facets(alloc, first, name, ups.as_slice())?;
    Ok(Some(AggValue::Buckets {
        buckets: BucketList::of(buckets),
        other,
    }))
}

/// The buckets of values, in their order, each with the count that rows by ascending key have of it.
fn shown_facets(
    alloc: Global,
    rows: &[CountRow],
    name: &Bytes,
    ups: &[CountRow],
) -> Result<Vec<Bucket>, NoMemory>
    requires { KeysAscend ups.now }
    ensures { IfOk result (λ buckets. map bucket_part buckets.items ≡ map (facet_of name.now ups.now) rows.now) }
{
    let mut buckets = Vec::with_capacity(alloc, rows.len())?;
    'rows: for at in 0..rows.len() {
        let bucket = facet(alloc, &rows[at], name, ups)?;
        buckets.push(bucket)?;
    }
    Ok(buckets)
}

/// The bucket of a value, with the count that rows by ascending key have of it.
fn facet(alloc: Global, row: &CountRow, name: &Bytes, ups: &[CountRow]) -> Result<Bucket, NoMemory>
    requires { KeysAscend ups.now }
    ensures { IfOk result (λ bucket. bucket_part bucket ≡ facet_of name.now ups.now row.now) }
{
    let key = copied(alloc, &row.key)?;
    let count = count_of_key(ups, &row.key);
    let name = Bytes::of(Vec::from_slice(alloc, name.as_slice())?);
    let none = AggReplies::of(Vec::new(alloc));
    let value = AggValue::Single { count, inner: none };
    let mut replies = Vec::with_capacity(alloc, 1)?;
    replies.push(AggReply { name, value })?;
    let inner = AggReplies::of(replies);
    Ok(Bucket {
        key,
        count: row.count,
        inner,
    })
}
