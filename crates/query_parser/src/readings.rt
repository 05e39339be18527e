//! What single values of a search body say: numbers, words, and values under a field's kind.
ghost use Rattle.std.specs.Prelude.{◌≡◌, ◌≤◌, ◌<◌, ◌^◌, ◌++◌, map, codes, Option, Some, IfOk, IfSome, OnOk, IsTrue, length};
ghost use Rattle.tree_json.specs.Value.{members_of, member_of, elements_of};
ghost use Rattle.tree_json.specs.View.{view, values};
ghost use Rattle.tree_objects.specs.Values.{convert, has_values};
ghost use Rattle.search_walk.specs.Fault.{asked_value};
ghost use Rattle.query_parser.specs.Readings.{natural_of, natural_under, up_to, number_under, boost_in, boost_of, mode_named, mode_in, unless_false, field_in, kind_of_field, child_in, parent_in, value_if, value_by, value_by_if, values_by, values_of, texts_in, texts_of};

use mapping::{Kind, Mapping};
use query_ast::{BytesList, NoMemory, ValueList};
use score_math::ScoreMode;
use search_walk::{KnownNames, child_under, member, parent_under, text_of, text_under};
use std::alloc::Global;
use tree_json::{Json, JsonObject};
use tree_objects::{Bytes, FieldValue, ValueRefusal, value_of};

/// The whole number from 0 on under a name.
pub(crate) fn natural_under(object: &JsonObject, name: &[u8]) -> Option<u64>
    ensures number { result ≡ natural_under (members_of object.now) name.now }
{
    match member(object, name) {
        Some(Json::Whole(number)) => {
            if *number < 0 {
                None
            } else {
                Some(*number as u64)
            }
        }
        _ => None,
    }
}

fn up_to(most: u32, default: u32, number: Option<u64>) -> u32
    ensures { result ≡ up_to most default number }
{
    match number {
        Some(number) => {
            if number <= u64::from(most) {
                number as u32
            } else {
                default
            }
        }
        None => default,
    }
}

/// A number up to the most that there is, and the default where none stands there.
pub(crate) fn number_under(most: u32, default: u32, object: &JsonObject, name: &[u8]) -> u32
    ensures { result ≡ number_under most default (members_of object.now) name.now }
{
    up_to(most, default, natural_under(object, name))
}

pub(crate) fn boost_in(object: &JsonObject) -> u32
    ensures { result ≡ boost_in (members_of object.now) }
{
    number_under(10_000, 1, object, b"boost")
}

/// The boost of what stands under a field, where that is an object.
pub(crate) fn boost_of(value: &Json) -> u32
    ensures { result ≡ boost_of (view value.now) }
{
    match value {
        Json::Object(object) => boost_in(object),
        _ => 1,
    }
}

fn mode_named(default: ScoreMode, word: &[u8]) -> ScoreMode
    ensures { result ≡ mode_named default word.now }
{
    if word == b"avg".as_slice() {
        ScoreMode::Avg
    } else if word == b"max".as_slice() {
        ScoreMode::Max
    } else if word == b"min".as_slice() {
        ScoreMode::Min
    } else if word == b"none".as_slice() {
        ScoreMode::Zero
    } else if word == b"sum".as_slice() {
        ScoreMode::Sum
    } else {
        default
    }
}

pub(crate) fn mode_in(default: ScoreMode, object: &JsonObject) -> ScoreMode
    ensures { result ≡ mode_in default (members_of object.now) }
{
    mode_named(default, text_under(object, b"score_mode"))
}

/// Whether true stands under a name, or nothing.
pub(crate) fn unless_false(object: &JsonObject, name: &[u8]) -> bool
    ensures { result ≡ unless_false (member_of (members_of object.now) name.now) }
{
    match member(object, name) {
        Some(Json::Bool(flag)) => *flag,
        _ => true,
    }
}

/// The field at a path; nothing is looked up inside an ignored clause.
pub(crate) fn field_in(mapping: &Mapping, scope: Option<u32>, path: &[u8]) -> Option<u32>
    ensures field { result ≡ field_in mapping.now scope path.now }
    ensures bound { IfSome result (λ field. field < length mapping.now.fields) }
{
    match scope {
        Some(_) => mapping.field(path),
        None => None,
    }
}

/// The same, of fields some of which were looked up before.
pub(crate) fn known_field_in(
    mapping: &Mapping,
    known: &mut KnownNames,
    scope: Option<u32>,
    path: &[u8],
) -> Option<u32>
    ensures field { result ≡ field_in mapping.now scope path.now }
    ensures bound { IfSome result (λ field. field < length mapping.now.fields) }
{
    match scope {
        Some(_) => known.field(mapping, path),
        None => None,
    }
}

pub(crate) fn kind_of_field(mapping: &Mapping, field: Option<u32>) -> Option<Kind>
    requires { IfSome field (λ f. f < length mapping.now.fields) }
    ensures { result ≡ kind_of_field mapping.now field }
{
    match field {
        Some(field) => Some(mapping.kind(field)),
        None => None,
    }
}

pub(crate) fn child_in(mapping: &Mapping, scope: Option<u32>, object: &JsonObject) -> Option<u32>
    ensures { result ≡ child_in mapping.now scope (members_of object.now) }
{
    match scope {
        Some(_) => child_under(mapping, object),
        None => None,
    }
}

pub(crate) fn parent_in(mapping: &Mapping, scope: Option<u32>, object: &JsonObject) -> Option<u32>
    ensures { result ≡ parent_in mapping.now scope (members_of object.now) }
{
    match scope {
        Some(_) => parent_under(mapping, object),
        None => None,
    }
}

/// A value under a field's kind, and 0 where none is asked.
#[tactic(auto, unfolding(tree_objects::specs::Values::convert))]
pub(crate) fn value_by(
    alloc: Global,
    kind: Option<Kind>,
    value: &Json,
) -> Result<FieldValue, NoMemory>
    ensures { IfOk result (λ v. v ≡ value_by kind (view value.now)) }
{
    match kind {
        None => Ok(FieldValue::Number(0)),
        Some(Kind::Object | Kind::Nested | Kind::Join) => Ok(FieldValue::Number(0)),
        Some(Kind::Text) => value_of_kind(alloc, Kind::Text, value),
        Some(Kind::Keyword) => value_of_kind(alloc, Kind::Keyword, value),
        Some(Kind::Long) => value_of_kind(alloc, Kind::Long, value),
        Some(Kind::Boolean) => value_of_kind(alloc, Kind::Boolean, value),
        Some(Kind::Date) => value_of_kind(alloc, Kind::Date, value),
    }
}

fn value_of_kind(alloc: Global, kind: Kind, value: &Json) -> Result<FieldValue, NoMemory>
    requires { IsTrue (has_values kind) }
    ensures { IfOk result (λ v. v ≡ value_if (convert kind (view value.now))) }
{
    match value_of(alloc, kind, value) {
        Ok(value) => Ok(value),
        Err(ValueRefusal::NotOfKind) => Ok(FieldValue::Number(0)),
        Err(ValueRefusal::NoMemory) => Err(NoMemory),
    }
}

/// The value that is asked under a field: the value itself, or what an object has under a name.
pub(crate) fn asked_by(
    alloc: Global,
    kind: Option<Kind>,
    name: &[u8],
    value: &Json,
) -> Result<FieldValue, NoMemory>
    ensures { IfOk result (λ v. v ≡ value_by_if kind (asked_value name.now (view value.now))) }
{
    match value {
        Json::Object(object) => match member(object, name) {
            Some(value) => value_by(alloc, kind, value),
            None => Ok(FieldValue::Number(0)),
        },
        Json::Null | Json::Bool(_) | Json::Whole(_) | Json::Text(_) | Json::List(_) => {
            value_by(alloc, kind, value)
        }
    }
}

fn values_by(
    alloc: Global,
    kind: Option<Kind>,
    elements: &[Json],
) -> Result<Vec<FieldValue>, NoMemory>
    ensures { IfOk result (λ vs. vs.items ≡ values_by kind (elements_of (values elements.now))) }
{
    let mut found = Vec::with_capacity(alloc, elements.len())?;
    'elements: for element in elements {
        found.push(value_by(alloc, kind, element)?)?;
    }
    Ok(found)
}

/// The values of a list under a field's kind.
pub(crate) fn values_of(
    alloc: Global,
    kind: Option<Kind>,
    value: &Json,
) -> Result<ValueList, NoMemory>
    ensures { IfOk result (λ vs. vs ≡ values_of kind (view value.now)) }
{
    match value {
        Json::List(list) => Ok(ValueList::of(values_by(alloc, kind, list.as_slice())?)),
        _ => Ok(ValueList::of(Vec::new(alloc))),
    }
}

/// A copy of some bytes.
pub(crate) fn copied(alloc: Global, bytes: &[u8]) -> Result<Bytes, NoMemory>
    ensures { IfOk result (λ copy. copy ≡ bytes.now) }
{
    let mut copy = Vec::with_capacity(alloc, bytes.len())?;
    copy.extend_from_slice(bytes)?;
    Ok(Bytes::of(copy))
}

fn texts_in(alloc: Global, elements: &[Json]) -> Result<Vec<Bytes>, NoMemory>
    ensures { IfOk result (λ texts. texts.items ≡ texts_in (elements_of (values elements.now))) }
{
    let mut found = Vec::with_capacity(alloc, elements.len())?;
    'elements: for element in elements {
        found.push(copied(alloc, text_of(element))?)?;
    }
    Ok(found)
}

/// The texts of a list under a name.
pub(crate) fn texts_under(
    alloc: Global,
    object: &JsonObject,
    name: &[u8],
) -> Result<BytesList, NoMemory>
    ensures { IfOk result (λ texts. texts ≡ texts_of (member_of (members_of object.now) name.now)) }
{
    match member(object, name) {
        Some(Json::List(list)) => Ok(BytesList::of(texts_in(alloc, list.as_slice())?)),
        _ => Ok(BytesList::of(Vec::new(alloc))),
    }
}
