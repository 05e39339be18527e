//! The buckets that a body says.
ghost use Rattle.std.specs.Prelude.{◌≡◌, ◌++◌, ◌∷◌, [], map, codes, Option, Some, IfOk, OnOk, option_map};
ghost use Rattle.tree_json.specs.Value.{members_of, member_of, object as object_value};
ghost use Rattle.tree_json.specs.View.{view, entries};
ghost use Rattle.query_ast.specs.Agg.View.{agg_of as seen};
ghost use Rattle.query_ast.specs.Clause.View.{clause_of};
ghost use Rattle.search_form.specs.Form.{chosen};
ghost use Rattle.search_form.specs.declared.form.Form.TheVariants.{Bucket};
ghost use Rattle.query_parser.specs.Buckets.{or_root, key_order_if, descends_if, order_choice, field_under, terms_form, metric_form, join_form, object_form, form_in, form_of, buckets_name, buckets_at, buckets_among, bucket_at, buckets_under, buckets_inside};

use crate::queries::clause_at;
use crate::readings::{child_in, copied, field_in, number_under};
use mapping::Mapping;
use query_ast::{AggDef, AggForm, AggList, NoMemory, Query, QueryBox};
use search_form::{ChosenName, Form, chosen};
use search_walk::{KnownNames, scope_inside, text_of, text_under};
use std::alloc::Global;
use tree_json::{Json, JsonObject, JsonText};

fn or_root(scope: Option<u32>) -> u32
    ensures { result ≡ or_root scope }
{
    match scope {
        Some(scope) => scope,
        None => 0,
    }
}

fn order_choice(terms: &JsonObject) -> Option<ChosenName<'_>>
    ensures { option_map (λ c. (c.name.now, c.form, view c.value.now)) result ≡ order_choice (member_of (members_of terms.now) (codes "order")) }
{
    match terms.member(b"order") {
        Some(Json::Object(order)) => chosen(Form::BucketOrder, order),
        _ => None,
    }
}

fn is_by_key(terms: &JsonObject) -> bool
    ensures { result ≡ key_order_if (order_choice (member_of (members_of terms.now) (codes "order"))) }
{
    match order_choice(terms) {
        Some(ChosenName { name, .. }) => name == b"_key".as_slice(),
        None => false,
    }
}

fn descends(terms: &JsonObject) -> bool
    ensures { result ≡ descends_if (order_choice (member_of (members_of terms.now) (codes "order"))) }
{
    match order_choice(terms) {
        Some(ChosenName { value, .. }) => text_of(value) == b"desc".as_slice(),
        None => true,
    }
}

fn field_under(mapping: &Mapping, scope: Option<u32>, bucket: &JsonObject) -> Option<u32>
    ensures { result ≡ field_under mapping.now scope (members_of bucket.now) }
{
    field_in(mapping, scope, text_under(bucket, b"field"))
}

fn terms_form(mapping: &Mapping, scope: Option<u32>, terms: &JsonObject) -> AggForm
    ensures { result ≡ terms_form mapping.now scope (members_of terms.now) }
{
    AggForm::Terms {
        field: field_under(mapping, scope, terms),
        size: number_under(10_000, 10, terms, b"size"),
        by_key: is_by_key(terms),
        descending: descends(terms),
    }
}

fn metric_form(name: &[u8], field: Option<u32>) -> AggForm
    ensures { result ≡ metric_form name.now field }
{
    if name == b"min".as_slice() {
        AggForm::Min(field)
    } else if name == b"max".as_slice() {
        AggForm::Max(field)
    } else {
        AggForm::Sum(field)
    }
}

fn join_form(name: &[u8], relation: u32) -> AggForm
    ensures { result ≡ join_form name.now relation }
{
    if name == b"children".as_slice() {
        AggForm::Children(relation)
    } else {
        AggForm::Parent(relation)
    }
}

fn filter_form(alloc: Global, query: Query) -> Result<AggForm, NoMemory>
    ensures { IfOk result (λ form. form ≡ AggForm.Filter (clause_of query)) }
{
    Ok(AggForm::Filter(QueryBox::of(alloc, query)?))
}

fn object_form(
    alloc: Global,
    mapping: &Mapping,
    scope: Option<u32>,
    inside: Option<u32>,
    name: &[u8],
    form: Form,
    value: &Json,
    bucket: &JsonObject,
) -> Result<AggForm, NoMemory>
    requires { view value.now ≡ object_value (members_of bucket.now) }
    ensures { IfOk result (λ made. made ≡ object_form mapping.now scope inside name.now form (members_of bucket.now)) }
{
    match form {
        Form::NestedBucket => Ok(AggForm::Nested(or_root(inside))),
        Form::ReverseNestedBucket => Ok(AggForm::ReverseNested(or_root(inside))),
        Form::TermsBucket => Ok(terms_form(mapping, scope, bucket)),
        Form::Metric => Ok(metric_form(name, field_under(mapping, scope, bucket))),
        Form::ValueCount => Ok(AggForm::ValueCount(field_under(mapping, scope, bucket))),
        Form::JoinBucket => Ok(join_form(name, or_root(child_in(mapping, scope, bucket)))),
        _ => {
            let mut known = KnownNames::new();
            let query = clause_at(alloc, mapping, &mut known, scope, value)?;
            Ok(filter_form(alloc, query)?)
        }
    }
}

fn form_in(
    alloc: Global,
    mapping: &Mapping,
    scope: Option<u32>,
    inside: Option<u32>,
    name: &[u8],
    form: Form,
    value: &Json,
) -> Result<AggForm, NoMemory>
    ensures { IfOk result (λ made. made ≡ form_in mapping.now scope inside name.now form (view value.now)) }
{
    match value {
        Json::Object(bucket) => Ok(object_form(
            alloc, mapping, scope, inside, name, form, value, bucket,
        )?),
        Json::Null | Json::Bool(_) | Json::Whole(_) | Json::Text(_) | Json::List(_) => Ok(
            filter_form(alloc, Query::MatchAll { boost: 1 })?,
        ),
    }
}

fn form_of(
    alloc: Global,
    mapping: &Mapping,
    scope: Option<u32>,
    inside: Option<u32>,
    bucket: &JsonObject,
) -> Result<AggForm, NoMemory>
    ensures { IfOk result (λ made. made ≡ form_of mapping.now scope inside (chosen Bucket (members_of bucket.now))) }
{
    match chosen(Form::Bucket, bucket) {
        Some(ChosenName { name, form, value }) => {
            Ok(form_in(alloc, mapping, scope, inside, name, form, value)?)
        }
        None => Ok(filter_form(alloc, Query::MatchAll { boost: 1 })?),
    }
}

// Of the two names of buckets, the one that an object has.
#[tactic(auto, unfolding(crate::specs::Buckets::buckets_name))]
fn buckets_name(object: &JsonObject) -> &'static [u8]
    ensures { result.now ≡ buckets_name (members_of object.now) }
{
    match object.member(b"aggs") {
        Some(_) => b"aggs",
        None => b"aggregations",
    }
}

#[cycle(buckets)]
#[tactic(auto, using(search_form::specs::Sizes::sizes, crate::proofs::Members::bucket_members))]
fn buckets_at(
    alloc: Global,
    mapping: &Mapping,
    scope: Option<u32>,
    value: &Json,
) -> Result<AggList, NoMemory>
    ensures { IfOk result (λ defs. defs ≡ buckets_at mapping.now scope (view value.now)) }
{
    match value {
        Json::Object(buckets) => Ok(buckets_among(alloc, mapping, scope, buckets.as_slice())?),
        Json::Null | Json::Bool(_) | Json::Whole(_) | Json::Text(_) | Json::List(_) => Ok(
            AggList::of(Vec::new(alloc)),
        ),
    }
}

#[cycle(buckets)]
#[tactic(auto, using(search_form::specs::Sizes::sizes, crate::proofs::Members::bucket_members))]
fn buckets_among(
    alloc: Global,
    mapping: &Mapping,
    scope: Option<u32>,
    members: &[(JsonText, Json)],
) -> Result<AggList, NoMemory>
    ensures { IfOk result (λ defs. defs ≡ buckets_among mapping.now scope (members_of (entries members.now))) }
{
    let mut found = Vec::with_capacity(alloc, members.len())?;
    'members: for (name, value) in members {
        found.push(bucket_at(alloc, mapping, scope, name.as_slice(), value)?)?;
    }
    Ok(AggList::of(found))
}

#[cycle(buckets)]
#[tactic(auto, using(search_form::specs::Sizes::sizes, crate::proofs::Members::bucket_members))]
fn bucket_at(
    alloc: Global,
    mapping: &Mapping,
    scope: Option<u32>,
    name: &[u8],
    value: &Json,
) -> Result<AggDef, NoMemory>
    ensures { IfOk result (λ def. seen def ≡ bucket_at mapping.now scope name.now (view value.now)) }
{
    match value {
        Json::Object(bucket) => {
            let inside = scope_inside(mapping, scope, Form::Bucket, bucket);
            Ok(AggDef {
                name: copied(alloc, name)?,
                form: form_of(alloc, mapping, scope, inside, bucket)?,
                inner: buckets_inside(alloc, mapping, inside, bucket)?,
            })
        }
        Json::Null | Json::Bool(_) | Json::Whole(_) | Json::Text(_) | Json::List(_) => Ok(AggDef {
            name: copied(alloc, name)?,
            form: filter_form(alloc, Query::MatchAll { boost: 1 })?,
            inner: AggList::of(Vec::new(alloc)),
        }),
    }
}

#[cycle(buckets)]
#[tactic(auto, using(search_form::specs::Sizes::sizes, crate::proofs::Members::bucket_members))]
fn buckets_under(
    alloc: Global,
    mapping: &Mapping,
    scope: Option<u32>,
    name: &[u8],
    object: &JsonObject,
) -> Result<AggList, NoMemory>
    ensures { IfOk result (λ defs. defs ≡ buckets_under mapping.now scope name.now (members_of object.now)) }
{
    match object.member(name) {
        Some(value) => Ok(buckets_at(alloc, mapping, scope, value)?),
        None => Ok(AggList::of(Vec::new(alloc))),
    }
}

/// The buckets of a body or inside a bucket, under the name that it has of the two.
#[cycle(buckets)]
#[tactic(auto, using(search_form::specs::Sizes::sizes, crate::proofs::Members::bucket_members))]
pub(crate) fn buckets_inside(
    alloc: Global,
    mapping: &Mapping,
    scope: Option<u32>,
    object: &JsonObject,
) -> Result<AggList, NoMemory>
    ensures { IfOk result (λ defs. defs ≡ buckets_inside mapping.now scope (members_of object.now)) }
{
    Ok(buckets_under(alloc, mapping, scope, buckets_name(object), object)?)
}
