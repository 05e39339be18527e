//! What a leaf is refused for: its field's kind, or a value that isn't one of the kind.
ghost use Rattle.std.specs.Prelude.{◌≡◌, Option, Some, option_map};
ghost use Rattle.tree_json.specs.Value.{members_of, member_of, elements_of};
ghost use Rattle.tree_json.specs.View.{view, values};
ghost use Rattle.search_form.specs.Form.{chosen};
ghost use Rattle.search_walk.specs.Kinds.{is_taken};
ghost use Rattle.search_walk.specs.Fault.{bad_value_unless, asked_value, all_taken, elements_taken, bound_taken, bounds_taken, asked_taken, fits_field, leaf_fault};

use crate::kinds::{is_taken, may_ask};
use crate::known::KnownNames;
use crate::names::member;
use crate::refusal::SearchRefusal;
use mapping::{Kind, Mapping};
use search_form::{ChosenName, Form, chosen};
use tree_json::{Json, JsonObject};

/// Bad value, unless all is fine.
pub(crate) fn bad_value_unless(fine: bool) -> Option<SearchRefusal>
    ensures { result ≡ bad_value_unless fine }
{
    if fine {
        None
    } else {
        Some(SearchRefusal::BadValue)
    }
}

fn asked_value_taken(kind: Kind, name: &[u8], value: &Json) -> bool
    ensures { result ≡ is_taken kind (asked_value name.now (view value.now)) }
{
    match value {
        Json::Object(object) => match member(object, name) {
            Some(value) => is_taken(kind, value),
            None => true,
        },
        Json::Null | Json::Bool(_) | Json::Whole(_) | Json::Text(_) | Json::List(_) => {
            is_taken(kind, value)
        }
    }
}

fn all_taken(kind: Kind, elements: &[Json]) -> bool
    ensures { result ≡ all_taken kind (elements_of (values elements.now)) }
{
    'elements: for element in elements {
        if !is_taken(kind, element) {
            return false;
        }
    }
    true
}

fn elements_taken(kind: Kind, value: &Json) -> bool
    ensures { result ≡ elements_taken kind (view value.now) }
{
    match value {
        Json::List(list) => all_taken(kind, list.as_slice()),
        _ => true,
    }
}

fn bound_taken(kind: Kind, bounds: &JsonObject, name: &[u8]) -> bool
    ensures { result ≡ bound_taken kind (member_of (members_of bounds.now) name.now) }
{
    match member(bounds, name) {
        Some(bound) => matches!(bound, Json::Null) || is_taken(kind, bound),
        None => true,
    }
}

fn bounds_taken(kind: Kind, value: &Json) -> bool
    ensures { result ≡ bounds_taken kind (view value.now) }
{
    match value {
        Json::Object(bounds) => {
            bound_taken(kind, bounds, b"gt")
                && bound_taken(kind, bounds, b"gte")
                && bound_taken(kind, bounds, b"lt")
                && bound_taken(kind, bounds, b"lte")
        }
        _ => true,
    }
}

fn asked_taken(kind: Kind, form: Form, value: &Json) -> bool
    ensures { result ≡ asked_taken kind form (view value.now) }
{
    match form {
        Form::Term => asked_value_taken(kind, b"value", value),
        Form::Match | Form::MatchPhrase => asked_value_taken(kind, b"query", value),
        Form::Terms => elements_taken(kind, value),
        Form::Range => bounds_taken(kind, value),
        _ => true,
    }
}

/// Whether what a leaf asks goes with the kind of its field.
pub(crate) fn fits_field(kind: Option<Kind>, form: Form, value: &Json) -> bool
    ensures { result ≡ fits_field kind form (view value.now) }
{
    match kind {
        Some(kind) => may_ask(form, kind) && asked_taken(kind, form, value),
        None => true,
    }
}

/// What a leaf is refused for.
pub(crate) fn leaf_fault(
    mapping: &Mapping,
    form: Form,
    leaf: &JsonObject,
    known: &mut KnownNames,
) -> Option<SearchRefusal>
    ensures { result ≡ leaf_fault mapping.now form (chosen form (members_of leaf.now)) }
{
    match chosen(form, leaf) {
        Some(ChosenName { name, value, .. }) => {
            bad_value_unless(fits_field(known.kind(mapping, name), form, value))
        }
        None => None,
    }
}
