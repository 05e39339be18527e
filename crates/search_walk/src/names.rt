//! What the names in a search body mean under a mapping.
ghost use Rattle.std.specs.Prelude.{◌≡◌, Option, option_map, codes};
ghost use Rattle.tree_json.specs.Value.{members_of, member_of};
ghost use Rattle.tree_json.specs.View.{view, entries};
ghost use Rattle.search_form.specs.Form.{chosen};
ghost use Rattle.search_form.specs.declared.form.Form.TheVariants.{Bucket};
ghost use Rattle.search_walk.specs.Names.{text_of, text_under, flag_under, nested_scope, kind_named, child_if, child_named, parent_if, parent_named, nested_under, child_under, parent_under, buckets_in, root_if, path_or_root, bucket_scope_in, bucket_scope, scope_in, scope_inside};

use mapping::{Kind, Mapping};
use search_form::{ChosenName, Form, chosen};
use tree_json::{Json, JsonObject, JsonText};

/// The most members among which a name is sought one by one: that takes less time than halving them.
const FEW: usize = 8;

/// The value under a name.
pub fn member<'a>(object: &'a JsonObject, name: &[u8]) -> Option<&'a Json>
    ensures { option_map (λ j. view j.now) result ≡ member_of (members_of object.now) name.now }
{
    let members = object.as_slice();
    if members.len() <= FEW {
        member_among(members, name)
    } else {
        object.member(name)
    }
}

fn member_among<'a>(members: &'a [(JsonText, Json)], name: &[u8]) -> Option<&'a Json>
    ensures { option_map (λ j. view j.now) result ≡ member_of (members_of (entries members.now)) name.now }
{
    'members: for (key, value) in members {
        if key.as_slice() == name {
            return Some(value);
        }
    }
    None
}

/// The text of a value, and the empty one of what is no text.
pub fn text_of(value: &Json) -> &[u8]
    ensures { result.now ≡ text_of (Some (view value.now)) }
{
    match value {
        Json::Text(text) => text.as_slice(),
        _ => b"",
    }
}

/// The text under a name, and the empty one where none stands there.
pub fn text_under<'a>(object: &'a JsonObject, name: &[u8]) -> &'a [u8]
    ensures { result.now ≡ text_under (members_of object.now) name.now }
{
    match member(object, name) {
        Some(value) => text_of(value),
        None => b"",
    }
}

/// Whether true stands under a name.
pub fn flag_under(object: &JsonObject, name: &[u8]) -> bool
    ensures { result ≡ flag_under (members_of object.now) name.now }
{
    match member(object, name) {
        Some(Json::Bool(flag)) => *flag,
        _ => false,
    }
}

/// The number of a nested path. The empty path is the root's, which is no nested one.
pub(crate) fn nested_scope(mapping: &Mapping, path: &[u8]) -> Option<u32>
    ensures { result ≡ nested_scope mapping.now path.now }
{
    if path.is_empty() {
        None
    } else {
        mapping.scope(path)
    }
}

/// The kind of the field at a path, and none where the path is unmapped.
pub(crate) fn kind_named(mapping: &Mapping, path: &[u8]) -> Option<Kind>
    ensures { result ≡ kind_named mapping.now path.now }
{
    match mapping.field(path) {
        Some(field) => Some(mapping.kind(field)),
        None => None,
    }
}

/// The number of a relation that has a parent.
fn child_named(mapping: &Mapping, name: &[u8]) -> Option<u32>
    ensures { result ≡ child_named mapping.now name.now }
{
    match mapping.relation(name) {
        Some(relation) => {
            if mapping.parent_relation(relation).is_some() {
                Some(relation)
            } else {
                None
            }
        }
        None => None,
    }
}

/// The number of a relation that is a parent.
fn parent_named(mapping: &Mapping, name: &[u8]) -> Option<u32>
    ensures { result ≡ parent_named mapping.now name.now }
{
    match mapping.relation(name) {
        Some(relation) => {
            if mapping.is_parent_relation(relation) {
                Some(relation)
            } else {
                None
            }
        }
        None => None,
    }
}

/// The nested path that an object names.
pub fn nested_under(mapping: &Mapping, object: &JsonObject) -> Option<u32>
    ensures { result ≡ nested_under mapping.now (members_of object.now) }
{
    nested_scope(mapping, text_under(object, b"path"))
}

/// The relation with a parent that an object names.
pub fn child_under(mapping: &Mapping, object: &JsonObject) -> Option<u32>
    ensures { result ≡ child_under mapping.now (members_of object.now) }
{
    child_named(mapping, text_under(object, b"type"))
}

/// The relation with children that an object names.
pub fn parent_under(mapping: &Mapping, object: &JsonObject) -> Option<u32>
    ensures { result ≡ parent_under mapping.now (members_of object.now) }
{
    parent_named(mapping, text_under(object, b"parent_type"))
}

/// The buckets that a body or a bucket has, under either name.
pub fn buckets_in(object: &JsonObject) -> Option<&Json>
    ensures { option_map (λ j. view j.now) result ≡ buckets_in (members_of object.now) }
{
    match object.member(b"aggs") {
        Some(buckets) => Some(buckets),
        None => object.member(b"aggregations"),
    }
}

/// The scope of roots, where a relation leads to some.
pub fn root_if(relation: Option<u32>) -> Option<u32>
    ensures { result ≡ root_if relation }
{
    match relation {
        Some(_) => Some(0),
        None => None,
    }
}

/// The scope to which `reverse_nested` goes up.
pub fn path_or_root(mapping: &Mapping, bucket: &JsonObject) -> Option<u32>
    ensures { result ≡ path_or_root mapping.now (member_of (members_of bucket.now) (codes "path")) }
{
    match bucket.member(b"path") {
        Some(path) => nested_scope(mapping, text_of(path)),
        None => Some(0),
    }
}

fn bucket_scope_in(mapping: &Mapping, scope: u32, form: Form, value: &Json) -> Option<u32>
    ensures { result ≡ bucket_scope_in mapping.now scope form (view value.now) }
{
    match form {
        Form::NestedBucket => match value {
            Json::Object(bucket) => nested_under(mapping, bucket),
            _ => Some(scope),
        },
        Form::ReverseNestedBucket => match value {
            Json::Object(bucket) => path_or_root(mapping, bucket),
            _ => Some(scope),
        },
        Form::JoinBucket => Some(0),
        _ => Some(scope),
    }
}

fn bucket_scope(mapping: &Mapping, scope: u32, bucket: &JsonObject) -> Option<u32>
    ensures { result ≡ bucket_scope mapping.now scope (chosen Bucket (members_of bucket.now)) }
{
    match chosen(Form::Bucket, bucket) {
        Some(ChosenName { form, value, .. }) => bucket_scope_in(mapping, scope, form, value),
        None => Some(scope),
    }
}

fn scope_in(mapping: &Mapping, scope: u32, form: Form, object: &JsonObject) -> Option<u32>
    ensures { result ≡ scope_in mapping.now scope form (members_of object.now) }
{
    match form {
        Form::Nested | Form::SortNested => nested_under(mapping, object),
        Form::ToChild => mapping.scope(text_under(object, b"path")),
        Form::HasChild => root_if(child_under(mapping, object)),
        Form::HasParent => root_if(parent_under(mapping, object)),
        Form::Bucket => bucket_scope(mapping, scope, object),
        _ => Some(scope),
    }
}

/// The scope in which the parts of an object stand; none inside an ignored clause.
pub fn scope_inside(
    mapping: &Mapping,
    scope: Option<u32>,
    form: Form,
    object: &JsonObject,
) -> Option<u32>
    ensures { result ≡ scope_inside mapping.now scope form (members_of object.now) }
{
    match scope {
        Some(scope) => scope_in(mapping, scope, form, object),
        None => None,
    }
}
