//! The values of the join field.
ghost use Rattle.std.specs.Prelude.{◌≡◌, ◌&&◌, ◌||◌, nat_le, nat_lt, length, codes, IsTrue, IsSome, ◌↔◌, Some, None, Option, is_none, is_some, option_map, if◌then◌else◌};
ghost use Rattle.std.specs.Str.{bytes_eq};
ghost use Rattle.tree_json.specs.Value.{members_of, member_of};
ghost use Rattle.tree_json.specs.View.{view, entries};
ghost use Rattle.tree_objects.specs.Fault.{fault_joined};
ghost use Rattle.mapping.specs.Mapping.{relation_known, relation_at};
ghost use Rattle.tree_objects.specs.Values.{bad_join, checked_id, id_written, has_join_names, join_reading, join_by_name, join_by_parent, joined_as_root, joined_as_child};

use crate::fault::Fault;
use itoa::Buffer;
use mapping::Mapping;
use tree_json::{Json, JsonObject, JsonText};

const MOST_ID_BYTES: usize = 512;

/// The fault of a value of the join field (Elasticsearch reference, join field type): a root relation is a text or an
/// object with a `name`, a child relation an object with a `name` and a `parent`, and null is none.
pub(crate) fn fault_of_join(mapping: &Mapping, generation: u32, value: &Json) -> Option<Fault>
    ensures { result ≡ fault_joined (join_reading mapping.now generation (view value.now)) }
{
    match value {
        Json::Null => None,
        Json::Text(name) => fault_of_root(mapping, generation, name.as_slice()),
        Json::Object(object) => fault_of_object(mapping, generation, object),
        _ => Some(Fault::BadJoin),
    }
}

fn fault_of_object(mapping: &Mapping, generation: u32, object: &JsonObject) -> Option<Fault>
    ensures { result ≡ fault_joined (if has_join_names (members_of object.now) then join_by_name mapping.now generation (member_of (members_of object.now) (codes "name")) (member_of (members_of object.now) (codes "parent")) else bad_join) }
{
    if !has_join_names(object.as_slice()) {
        return Some(Fault::BadJoin);
    }
    match object.member(b"name") {
        Some(Json::Text(name)) => fault_of_name(
            mapping,
            generation,
            name.as_slice(),
            object.member(b"parent"),
        ),
        _ => Some(Fault::BadJoin),
    }
}

fn fault_of_name(
    mapping: &Mapping,
    generation: u32,
    name: &[u8],
    parent: Option<&Json>,
) -> Option<Fault>
    ensures { result ≡ fault_joined (join_by_parent mapping.now generation name.now (option_map (λ j. view j.now) parent.entry)) }
{
    match parent {
        None => fault_of_root(mapping, generation, name),
        Some(parent) => fault_of_child(mapping, generation, name, parent),
    }
}

/// The fault of a name that stands without a parent.
fn fault_of_root(mapping: &Mapping, generation: u32, name: &[u8]) -> Option<Fault>
    ensures { result ≡ fault_joined (joined_as_root mapping.now (relation_known mapping.now generation name.now)) }
{
    match mapping.relation_known(generation, name) {
        Some(relation) => match mapping.parent_relation(relation) {
            None => None,
            Some(_) => Some(Fault::BadJoin),
        },
        None => Some(Fault::BadJoin),
    }
}

/// The fault of a name that stands with a parent's id.
fn fault_of_child(mapping: &Mapping, generation: u32, name: &[u8], parent: &Json) -> Option<Fault>
    ensures { result ≡ fault_joined (joined_as_child mapping.now (relation_known mapping.now generation name.now) (id_written (view parent.now))) }
{
    match mapping.relation_known(generation, name) {
        Some(relation) => match mapping.parent_relation(relation) {
            Some(_) => fault_unless(is_id(parent)),
            None => Some(Fault::BadJoin),
        },
        None => Some(Fault::BadJoin),
    }
}

fn fault_unless(holds: bool) -> Option<Fault>
    ensures { result ≡ (if holds then None else Some Fault.BadJoin) }
{
    if holds { None } else { Some(Fault::BadJoin) }
}

/// Whether a value is the id of a parent.
fn is_id(value: &Json) -> bool
    ensures { result ≡ is_some (id_written (view value.now)) }
{
    match value {
        Json::Text(id) => has_id_length(id.as_slice()),
        Json::Whole(number) => has_id_length(Buffer::new().format(*number).as_bytes()),
        _ => false,
    }
}

/// Whether an id has 1 to 512 bytes.
fn has_id_length(id: &[u8]) -> bool
    ensures { result ≡ is_some (checked_id id.now) }
{
    !id.is_empty() && id.len() <= MOST_ID_BYTES
}

/// Whether the members are named `name` and `parent` alone.
fn has_join_names(members: &[(JsonText, Json)]) -> bool
    ensures { result ≡ has_join_names (members_of (entries members.now)) }
{
    'members: for (name, _) in members {
        if name.as_slice() != b"name".as_slice() && name.as_slice() != b"parent".as_slice() {
            return false;
        }
    }
    true
}
