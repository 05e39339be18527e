//! Objects: whether one has the names of a table, and what stands under its names.
ghost use Rattle.std.specs.Prelude.{◌≡◌, map, option_map, option_and_then, codes, IfOk};
ghost use Rattle.tree_json.specs.Value.{members_of, member_of, object};
ghost use Rattle.tree_json.specs.View.{view, entries};
ghost use Rattle.request_form.specs.Form.{is_taken, are_taken, has_required, has_lines, single_of, members_in};
ghost use Rattle.request_form.specs.Command.{id_in, id_by, text_under, number_under, number_or, flag_in};

use crate::form::{Form, Presence};
use crate::value::takes;
use itoa::Buffer;
use std::alloc::Global;
use tree_json::{Json, JsonObject, JsonText, NoMemory};

/// A name of an object, whether it has to be there, and what stands under it.
pub(crate) type Line = (&'static [u8], Presence, Form);

/// Whether an object has the names of a table.
pub(crate) fn has_lines(lines: &[Line], object: &JsonObject) -> bool
    ensures { result ≡ has_lines (map (λ l. (l.0.now, l.1, l.2)) lines.now) (members_of object.now) }
{
    has_required(lines, object) && are_taken(lines, object.as_slice())
}

fn has_required(lines: &[Line], object: &JsonObject) -> bool
    ensures { result ≡ has_required (map (λ l. (l.0.now, l.1, l.2)) lines.now) (members_of object.now) }
{
    'lines: for (name, presence, _) in lines {
        if matches!(presence, Presence::Required) && object.member(name).is_none() {
            return false;
        }
    }
    true
}

fn are_taken(lines: &[Line], members: &[(JsonText, Json)]) -> bool
    ensures { result ≡ are_taken (map (λ l. (l.0.now, l.1, l.2)) lines.now) (members_of (entries members.now)) }
{
    'members: for (name, value) in members {
        if !is_taken(lines, name.as_slice(), value) {
            return false;
        }
    }
    true
}

fn is_taken(lines: &[Line], name: &[u8], value: &Json) -> bool
    ensures { result ≡ is_taken (map (λ l. (l.0.now, l.1, l.2)) lines.now) name.now (view value.now) }
{
    'lines: for (known, _, form) in lines {
        if name == *known {
            return takes(*form, value);
        }
    }
    false
}

/// The members of an object.
pub(crate) fn object_of(value: Json) -> Option<JsonObject>
    ensures { option_map (λ ms. members_of ms) result ≡ members_in (view value) }
{
    match value {
        Json::Object(members) => Some(members),
        Json::Null => None,
        Json::Bool(_) => None,
        Json::Whole(_) => None,
        Json::Text(_text) => None,
        Json::List(_list) => None,
    }
}

/// The one member of an object.
#[tactic(auto, using(crate::proofs::Members::single_popped, crate::proofs::Members::single_none))]
pub(crate) fn single(members: JsonObject) -> Option<(JsonText, Json)>
    ensures { option_map (λ it. (it.0, view it.1)) result ≡ single_of (members_of members) }
{
    let mut members = members.into_vec();
    let last = members.pop()?;
    if members.is_empty() { Some(last) } else { None }
}

/// The id under `_id`: its text, or the digits of its number.
pub(crate) fn id_under(alloc: Global, object: &JsonObject) -> Result<JsonText, NoMemory>
    ensures { IfOk result (λ id. id ≡ id_in (member_of (members_of object.now) (codes "_id"))) }
{
    match object.member(b"_id") {
        Some(Json::Text(text)) => JsonText::of_str(alloc, text.as_str()),
        Some(Json::Whole(number)) => JsonText::of_str(alloc, Buffer::new().format(*number)),
        _ => JsonText::of_str(alloc, ""),
    }
}

/// The text under a name.
pub(crate) fn text_under(
    alloc: Global,
    object: &JsonObject,
    name: &[u8],
) -> Result<Option<JsonText>, NoMemory>
    ensures { IfOk result (λ text. text ≡ text_under (members_of object.now) name.now) }
{
    match object.member(name) {
        Some(Json::Text(text)) => Ok(Some(JsonText::of_str(alloc, text.as_str())?)),
        _ => Ok(None),
    }
}

/// The whole number under a name.
pub(crate) fn number_under(object: &JsonObject, name: &[u8]) -> Option<u64>
    ensures { result ≡ number_under (members_of object.now) name.now }
{
    match object.member(name) {
        Some(Json::Whole(number)) => Some(number.unsigned_abs()),
        _ => None,
    }
}

/// The whole number under a name, or a default.
pub(crate) fn number_or(default: u64, object: &JsonObject, name: &[u8]) -> u64
    ensures { result ≡ number_or default (members_of object.now) name.now }
{
    number_under(object, name).unwrap_or(default)
}

/// Whether true stands under a name.
pub(crate) fn flag_under(object: &JsonObject, name: &[u8]) -> bool
    ensures { result ≡ flag_in (member_of (members_of object.now) name.now) }
{
    match object.member(name) {
        Some(Json::Bool(flag)) => *flag,
        _ => false,
    }
}
