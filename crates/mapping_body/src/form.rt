//! The form of a mapping body.
ghost use Rattle.std.specs.Prelude.{◌≡◌, ◌&&◌, ℕ, List, codes, Option, option_map};
ghost use Rattle.std.specs.List.{list_all, list_any};
ghost use Rattle.std.specs.Str.{bytes_eq};
ghost use Rattle.tree_json.specs.Value.{members_of, elements_of, member_of};
ghost use Rattle.tree_json.specs.View.{view, values, entries};
ghost use Rattle.mapping_body.specs.Names.{is_name, is_property_name};
ghost use Rattle.mapping_body.specs.Body.{kind_named, kind_in, kind_of, is_child, are_children, are_relations, are_properties, property_takes, takes_type, are_taken, has, has_needed, is_property, is_flag, is_index_name, body_takes, is_body_alone, member_named, is_true, is_nested, is_join, index_of};

use crate::kind::Kind;
use crate::names::{is_name, is_property_name};
use tree_json::{Json, JsonObject, JsonText};

/// The kind that the name of a type stands for.
fn kind_named(word: &[u8]) -> Option<Kind>
    ensures { result ≡ kind_named word.now }
{
    match word {
        b"text" => Some(Kind::Text),
        b"keyword" => Some(Kind::Keyword),
        b"boolean" => Some(Kind::Boolean),
        b"date" => Some(Kind::Date),
        b"long" | b"integer" | b"short" | b"byte" => Some(Kind::Long),
        b"object" => Some(Kind::Object),
        b"nested" => Some(Kind::Nested),
        b"join" => Some(Kind::Join),
        _ => None,
    }
}

/// The kind of a property: that of its type, and without a type a plain object.
fn kind_in(form: &JsonObject) -> Option<Kind>
    ensures { result ≡ kind_in (members_of form.now) }
{
    match form.member(b"type") {
        None => Some(Kind::Object),
        Some(Json::Text(word)) => kind_named(word.as_slice()),
        Some(_) => None,
    }
}

/// The kind of a property whose form is right.
pub fn kind_of(form: &Json) -> Kind
    ensures { result ≡ kind_of (view form.now) }
{
    match form {
        Json::Object(object) => kind_in(object).unwrap_or(Kind::Object),
        _ => Kind::Object,
    }
}

fn is_child(value: &Json) -> bool
    ensures { result ≡ is_child (view value.now) }
{
    match value {
        Json::Text(name) => is_name(name.as_slice()),
        _ => false,
    }
}

fn are_child_names(elements: &[Json]) -> bool
    ensures { result ≡ list_all (λ e. is_child (view e)) elements.now }
{
    elements.iter().all(|element| is_child(element))
}

/// Whether a value is one name of a child, or a list of some.
#[tactic(auto, using(crate::proofs::Members::each))]
fn are_children(value: &Json) -> bool
    ensures { result ≡ are_children (view value.now) }
{
    match value {
        Json::Text(name) => is_name(name.as_slice()),
        Json::List(list) => {
            let elements = list.as_slice();
            !elements.is_empty() && are_child_names(elements)
        }
        _ => false,
    }
}

fn are_parents(members: &[(JsonText, Json)]) -> bool
    ensures { result ≡ list_all (λ m. is_name m.0 && are_children (view m.1)) members.now }
{
    members.iter().all(|(name, children)| is_name(name.as_slice()) && are_children(children))
}

#[tactic(auto, using(crate::proofs::Members::each))]
fn are_relations(value: &Json) -> bool
    ensures { result ≡ are_relations (view value.now) }
{
    match value {
        Json::Object(object) => are_parents(object.as_slice()),
        _ => false,
    }
}

fn are_property_names(members: &[(JsonText, Json)]) -> bool
    ensures { result ≡ list_all (λ m. is_property_name m.0) members.now }
{
    members
        .iter()
        .all(|(name, _)| is_property_name(name.as_slice()))
}

#[tactic(auto, using(crate::proofs::Members::each))]
fn are_properties(value: &Json) -> bool
    ensures { result ≡ are_properties (view value.now) }
{
    match value {
        Json::Object(object) => are_property_names(object.as_slice()),
        _ => false,
    }
}

fn is_flag(value: &Json) -> bool
    ensures { result ≡ is_flag (view value.now) }
{
    match value {
        Json::Bool(_) => true,
        _ => false,
    }
}

/// Whether a property of a kind takes a member besides its type.
#[tactic(auto, using(crate::proofs::Booleans::tests))]
fn may_have(kind: Kind, name: &[u8], value: &Json) -> bool
    ensures { result ≡ list_any (λ t. bytes_eq name.now t.0 && t.1 (view value.now)) (property_takes kind) }
{
    match kind {
        Kind::Object => name == b"properties".as_slice() && are_properties(value),
        Kind::Nested => {
            (name == b"properties".as_slice() && are_properties(value))
                || (name == b"include_in_parent".as_slice() && is_flag(value))
                || (name == b"include_in_root".as_slice() && is_flag(value))
        }
        Kind::Join => name == b"relations".as_slice() && are_relations(value),
        _ => false,
    }
}

/// Whether a property of a kind takes a member.
#[tactic(auto, using(crate::proofs::Booleans::tests))]
fn takes(kind: Kind, name: &[u8], value: &Json) -> bool
    ensures { result ≡ list_any (λ t. bytes_eq name.now t.0 && t.1 (view value.now)) (takes_type (property_takes kind)) }
{
    name == b"type".as_slice() || may_have(kind, name, value)
}

fn each_taken(kind: Kind, members: &[(JsonText, Json)]) -> bool
    ensures { result ≡ list_all (λ m. list_any (λ t. bytes_eq m.0 t.0 && t.1 (view m.1)) (takes_type (property_takes kind))) members.now }
{
    members
        .iter()
        .all(|(name, value)| takes(kind, name.as_slice(), value))
}

fn has(object: &JsonObject, name: &[u8]) -> bool
    ensures { result ≡ has (members_of object.now) name.now }
{
    object.member(name).is_some()
}

fn has_needed(kind: Kind, form: &JsonObject) -> bool
    ensures { result ≡ has_needed kind (members_of form.now) }
{
    match kind {
        Kind::Object => has(form, b"type") || has(form, b"properties"),
        Kind::Join => has(form, b"relations"),
        _ => true,
    }
}

/// Whether a value has the form of a property, what stands below it left aside.
#[tactic(auto, using(crate::proofs::Members::each))]
pub fn is_property(form: &Json) -> bool
    ensures { result ≡ is_property (view form.now) }
{
    match form {
        Json::Object(object) => match kind_in(object) {
            Some(kind) => each_taken(kind, object.as_slice()) && has_needed(kind, object),
            None => false,
        },
        _ => false,
    }
}

fn is_index_name(value: &Json) -> bool
    ensures { result ≡ is_index_name (view value.now) }
{
    match value {
        Json::Text(name) => !name.as_slice().is_empty(),
        _ => false,
    }
}

/// Whether a body takes a member.
#[tactic(auto, using(crate::proofs::Booleans::tests))]
fn body_takes(name: &[u8], value: &Json) -> bool
    ensures { result ≡ list_any (λ t. bytes_eq name.now t.0 && t.1 (view value.now)) body_takes }
{
    (name == b"properties".as_slice() && are_properties(value))
        || (name == b"index".as_slice() && is_index_name(value))
        || (name == b"dynamic".as_slice() && is_flag(value))
}

fn each_taken_in_body(members: &[(JsonText, Json)]) -> bool
    ensures { result ≡ list_all (λ m. list_any (λ t. bytes_eq m.0 t.0 && t.1 (view m.1)) body_takes) members.now }
{
    members
        .iter()
        .all(|(name, value)| body_takes(name.as_slice(), value))
}

/// Whether a value has the form of a mapping body, its properties left aside.
#[tactic(auto, using(crate::proofs::Members::each))]
pub fn is_body_alone(body: &Json) -> bool
    ensures { result ≡ is_body_alone (view body.now) }
{
    match body {
        Json::Object(object) => each_taken_in_body(object.as_slice()) && has(object, b"properties"),
        _ => false,
    }
}

/// The member of a value, if it is an object that has one of that name.
pub fn member_named<'a>(value: &'a Json, name: &[u8]) -> Option<&'a Json>
    ensures { option_map (λ j. view j.now) result ≡ member_named (view value.now) name.now }
{
    match value {
        Json::Object(object) => object.member(name),
        _ => None,
    }
}

/// Whether a property has a flag that is true.
pub fn has_flag(form: &Json, name: &[u8]) -> bool
    ensures { result ≡ is_true (member_named (view form.now) name.now) }
{
    match member_named(form, name) {
        Some(Json::Bool(holds)) => *holds,
        _ => false,
    }
}

/// The index's name that a body gives, by default `main`.
pub fn index_of(body: &Json) -> &[u8]
    ensures { result.now ≡ index_of (view body.now) }
{
    match member_named(body, b"index") {
        Some(Json::Text(name)) => name.as_slice(),
        _ => b"main",
    }
}

/// Whether it is the kind of nested fields.
pub fn is_nested(kind: Kind) -> bool
    ensures { result ≡ is_nested kind }
{
    matches!(kind, Kind::Nested)
}

/// Whether it is the kind of join fields.
pub fn is_join(kind: Kind) -> bool
    ensures { result ≡ is_join kind }
{
    matches!(kind, Kind::Join)
}
