//! The relation of a tree, as it is kept.
ghost use Rattle.std.specs.Prelude.{◌≡◌, ℕ, List, ◌<◌, ◌&&◌, ◌||◌, codes, length, Some, None, Option, option_map, if◌then◌else◌, IfOk, IfSome};
ghost use Rattle.tree_json.specs.Value.{members_of, member_of};
ghost use Rattle.tree_json.specs.View.{view, entries};
ghost use Rattle.mapping_body.specs.Body.{is_join};
ghost use Rattle.mapping.specs.Mapping.{field_at, relation_known};
ghost use Rattle.tree_objects.specs.Values.{bad_join, checked_id, id_written, has_join_names, join_at, join_field, join_reading, join_by_name, join_by_parent, joined_as_root, joined_as_child, relation_read};
ghost use Rattle.flattener.specs.Block.{kept_join};
ghost use Rattle.tree_objects.specs.Values.{Joined};

use crate::refusal::NoMemory;
use itoa::Buffer;
use mapping::{Kind, Mapping};
use segment::{Bytes, Join};
use std::alloc::Global;
use tree_json::{Json, JsonObject, JsonText};

const MOST_ID_BYTES: usize = 512;

/// How a source's relation is kept, by the join field and the relations of a generation.
pub(crate) fn join_of(
    alloc: Global,
    mapping: &Mapping,
    generation: u32,
    source: &Json,
) -> Result<Join, NoMemory>
    ensures { IfOk result (λ j. j ≡ kept_join (join_at mapping.now generation (view source.now) (join_field mapping.now generation))) }
{
    match join_field(mapping, generation) {
        Some(field) => join_at(alloc, mapping, generation, field, source),
        None => Ok(Join::Unjoined),
    }
}

/// The join field of a generation, if it has one.
#[tactic(auto, using(crate::proofs::Joins::joins))]
fn join_field(mapping: &Mapping, generation: u32) -> Option<u32>
    ensures field { option_map (λ f. field_at mapping.now f) result ≡ join_field mapping.now generation }
    ensures bound { IfSome result (λ f. f < length mapping.now.fields) }
{
    let count = mapping.field_count();
    let mut field = 0;
    'fields: while field < count {
        if is_join(mapping.kind(field)) && mapping.knows(generation, field) {
            return Some(field);
        }
        field += 1;
    }
    None
}

fn is_join(kind: Kind) -> bool
    ensures { result ≡ is_join kind }
{
    match kind {
        Kind::Join => true,
        _ => false,
    }
}

fn join_at(
    alloc: Global,
    mapping: &Mapping,
    generation: u32,
    field: u32,
    source: &Json,
) -> Result<Join, NoMemory>
    requires { field < length mapping.now.fields }
    ensures { IfOk result (λ j. j ≡ kept_join (join_at mapping.now generation (view source.now) (Some (field_at mapping.now field)))) }
{
    match source {
        Json::Object(object) => match object.member(mapping.path(field)) {
            Some(value) => join_value(alloc, mapping, generation, value),
            None => Ok(Join::Unjoined),
        },
        _ => Ok(Join::Unjoined),
    }
}

/// What a value of the join field says (Elasticsearch reference, join field type).
fn join_value(
    alloc: Global,
    mapping: &Mapping,
    generation: u32,
    value: &Json,
) -> Result<Join, NoMemory>
    ensures { IfOk result (λ j. j ≡ kept_join (relation_read (join_reading mapping.now generation (view value.now)))) }
{
    match value {
        Json::Text(name) => Ok(root_join(mapping, generation, name.as_slice())),
        Json::Object(object) => object_join(alloc, mapping, generation, object),
        _ => Ok(Join::Unjoined),
    }
}

fn object_join(
    alloc: Global,
    mapping: &Mapping,
    generation: u32,
    object: &JsonObject,
) -> Result<Join, NoMemory>
    ensures { IfOk result (λ j. j ≡ kept_join (relation_read (if has_join_names (members_of object.now) then join_by_name mapping.now generation (member_of (members_of object.now) (codes "name")) (member_of (members_of object.now) (codes "parent")) else bad_join))) }
{
    if !has_join_names(object.as_slice()) {
        return Ok(Join::Unjoined);
    }
    match object.member(b"name") {
        Some(Json::Text(name)) => named_join(
            alloc,
            mapping,
            generation,
            name.as_slice(),
            object.member(b"parent"),
        ),
        _ => Ok(Join::Unjoined),
    }
}

fn named_join(
    alloc: Global,
    mapping: &Mapping,
    generation: u32,
    name: &[u8],
    parent: Option<&Json>,
) -> Result<Join, NoMemory>
    ensures { IfOk result (λ j. j ≡ kept_join (relation_read (join_by_parent mapping.now generation name.now (option_map (λ v. view v.now) parent.entry)))) }
{
    match parent {
        None => Ok(root_join(mapping, generation, name)),
        Some(parent) => child_join(alloc, mapping, generation, name, parent),
    }
}

/// The relation of a name that stands without a parent.
fn root_join(mapping: &Mapping, generation: u32, name: &[u8]) -> Join
    ensures { result ≡ kept_join (relation_read (joined_as_root mapping.now (relation_known mapping.now generation name.now))) }
{
    match mapping.relation_known(generation, name) {
        Some(relation) => match mapping.parent_relation(relation) {
            None => Join::Named(relation),
            Some(_) => Join::Unjoined,
        },
        None => Join::Unjoined,
    }
}

/// The relation of a name that stands with a parent's id.
fn child_join(
    alloc: Global,
    mapping: &Mapping,
    generation: u32,
    name: &[u8],
    parent: &Json,
) -> Result<Join, NoMemory>
    ensures { IfOk result (λ j. j ≡ kept_join (relation_read (joined_as_child mapping.now (relation_known mapping.now generation name.now) (id_written (view parent.now))))) }
{
    match mapping.relation_known(generation, name) {
        Some(relation) => match mapping.parent_relation(relation) {
            Some(_) => Ok(child_of(relation, id_written(alloc, parent)?)),
            None => Ok(Join::Unjoined),
        },
        None => Ok(Join::Unjoined),
    }
}

fn child_of(relation: u32, id: Option<Bytes>) -> Join
    ensures { result ≡ kept_join (option_map (λ (parent : List ℕ). record { relation = relation; parent = Some parent }) id) }
{
    match id {
        Some(id) => Join::Child(relation, id),
        None => Join::Unjoined,
    }
}

/// The id of a parent that a value is, if it is one.
fn id_written(alloc: Global, value: &Json) -> Result<Option<Bytes>, NoMemory>
    ensures { IfOk result (λ id. id ≡ id_written (view value.now)) }
{
    match value {
        Json::Text(id) => checked_id(alloc, id.as_slice()),
        Json::Whole(number) => checked_id(alloc, Buffer::new().format(*number).as_bytes()),
        _ => Ok(None),
    }
}

fn checked_id(alloc: Global, id: &[u8]) -> Result<Option<Bytes>, NoMemory>
    ensures { IfOk result (λ checked. checked ≡ checked_id id.now) }
{
    if !id.is_empty() && id.len() <= MOST_ID_BYTES {
        Ok(Some(Bytes::of(id.to_vec(alloc)?)))
    } else {
        Ok(None)
    }
}

/// Whether the members are named `name` and `parent` alone.
fn has_join_names(members: &[(JsonText, Json)]) -> bool
    ensures { result ≡ has_join_names (members_of (entries members.now)) }
{
    'members: for (name, _) in members {
        if name.as_slice() != b"name".as_slice() && name.as_slice() != b"parent".as_slice() {
            return false;
        }
    }
    true
}
