//! What a bucket is refused for.
ghost use Rattle.std.specs.Prelude.{◌≡◌};
ghost use Rattle.tree_json.specs.Value.{members_of};
ghost use Rattle.tree_json.specs.View.{view};
ghost use Rattle.search_form.specs.Form.{chosen};
ghost use Rattle.search_form.specs.declared.form.Form.TheVariants.{Bucket};
ghost use Rattle.search_walk.specs.Fault.{field_fault, at_root, join_fault, bucket_fault_in, bucket_fault, object_in_bucket};

use crate::fault::{above_fault, below_fault, relation_fault};
use crate::kinds::may_ask;
use crate::leaf_fault::bad_value_unless;
use crate::names::{child_under, kind_named, nested_under, path_or_root, text_under};
use crate::refusal::SearchRefusal;
use mapping::Mapping;
use search_form::{ChosenName, Form, chosen};
use tree_json::{Json, JsonObject};

fn field_fault(mapping: &Mapping, form: Form, bucket: &JsonObject) -> Option<SearchRefusal>
    ensures { result ≡ field_fault mapping.now form (members_of bucket.now) }
{
    match kind_named(mapping, text_under(bucket, b"field")) {
        Some(kind) => bad_value_unless(may_ask(form, kind)),
        None => None,
    }
}

fn at_root(scope: u32) -> Option<SearchRefusal>
    ensures { result ≡ at_root scope }
{
    if scope == 0 {
        None
    } else {
        Some(SearchRefusal::PathOutOfScope)
    }
}

fn join_fault(mapping: &Mapping, scope: u32, bucket: &JsonObject) -> Option<SearchRefusal>
    ensures { result ≡ join_fault mapping.now scope (members_of bucket.now) }
{
    match relation_fault(false, child_under(mapping, bucket)) {
        Some(refusal) => Some(refusal),
        None => at_root(scope),
    }
}

fn object_in_bucket(
    mapping: &Mapping,
    scope: u32,
    form: Form,
    bucket: &JsonObject,
) -> Option<SearchRefusal>
    ensures { result ≡ object_in_bucket mapping.now scope form (members_of bucket.now) }
{
    match form {
        Form::NestedBucket => { below_fault(mapping, scope, false, nested_under(mapping, bucket)) }
        Form::ReverseNestedBucket => above_fault(mapping, scope, path_or_root(mapping, bucket)),
        Form::TermsBucket | Form::Metric | Form::ValueCount => field_fault(mapping, form, bucket),
        Form::JoinBucket => join_fault(mapping, scope, bucket),
        _ => None,
    }
}

fn bucket_fault_in(mapping: &Mapping, scope: u32, form: Form, value: &Json) -> Option<SearchRefusal>
    ensures { result ≡ bucket_fault_in mapping.now scope form (view value.now) }
{
    match value {
        Json::Object(bucket) => object_in_bucket(mapping, scope, form, bucket),
        _ => None,
    }
}

/// What a bucket is refused for, before its parts are judged.
pub(crate) fn bucket_fault(
    mapping: &Mapping,
    scope: u32,
    bucket: &JsonObject,
) -> Option<SearchRefusal>
    ensures { result ≡ bucket_fault mapping.now scope (chosen Bucket (members_of bucket.now)) }
{
    match chosen(Form::Bucket, bucket) {
        Some(ChosenName { form, value, .. }) => bucket_fault_in(mapping, scope, form, value),
        None => None,
    }
}
