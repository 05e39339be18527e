//! The fields that the names of a source lead to.
ghost use Rattle.std.specs.Prelude.{◌≡◌, length};
ghost use Rattle.tree_json.specs.Value.{elements_of, members_of};
ghost use Rattle.tree_json.specs.View.{entries, values, view};
ghost use Rattle.mapping.specs.Mapping.{field_at, field_below};
ghost use Rattle.flattener.specs.Named.{Marks, field_and, fields_among, fields_below, fields_in};

use block_bits::BitSet;
use mapping::Mapping;
use tree_json::{Json, JsonText};

/// Puts the fields that a value has below a path into a set: under each name the field of that name, with those below it.
#[cycle(marks)]
#[tactic(auto, using(crate::proofs::Marking::marking, crate::proofs::Gathers::gathers))]
pub(crate) fn mark_below(
    mapping: &Mapping,
    generation: u32,
    path: &[u8],
    value: &Json,
    marks: &mut BitSet,
)
    requires { length marks.old ≡ length mapping.now.fields }
    ensures long { length marks.new ≡ length marks.old }
    ensures marked { Marks marks.old marks.new (fields_below mapping.now generation path.now (view value.now)) }
{
    match value {
        Json::List(list) => mark_in(mapping, generation, path, list.as_slice(), marks),
        Json::Object(object) => mark_among(mapping, generation, path, object.as_slice(), marks),
        _ => {}
    }
}

#[cycle(marks)]
#[tactic(auto, using(crate::proofs::Marking::marking, crate::proofs::Gathers::gathers))]
fn mark_in(mapping: &Mapping, generation: u32, path: &[u8], elements: &[Json], marks: &mut BitSet)
    requires { length marks.old ≡ length mapping.now.fields }
    ensures long { length marks.new ≡ length marks.old }
    ensures marked { Marks marks.old marks.new (fields_in mapping.now generation path.now (elements_of (values elements.now))) }
{
    'elements: for element in elements {
        mark_below(mapping, generation, path, element, marks);
    }
}

#[cycle(marks)]
#[tactic(auto, using(crate::proofs::Marking::marking, crate::proofs::Gathers::gathers))]
fn mark_among(
    mapping: &Mapping,
    generation: u32,
    path: &[u8],
    members: &[(JsonText, Json)],
    marks: &mut BitSet,
)
    requires { length marks.old ≡ length mapping.now.fields }
    ensures long { length marks.new ≡ length marks.old }
    ensures marked { Marks marks.old marks.new (fields_among mapping.now generation path.now (members_of (entries members.now))) }
{
    'members: for (name, value) in members {
        mark_member(mapping, generation, path, name.as_slice(), value, marks);
    }
}

/// The field of one name, with those that its value has below it.
#[cycle(marks)]
#[tactic(auto, using(crate::proofs::Marking::marking, crate::proofs::Gathers::gathers))]
fn mark_member(
    mapping: &Mapping,
    generation: u32,
    path: &[u8],
    name: &[u8],
    value: &Json,
    marks: &mut BitSet,
)
    requires { length marks.old ≡ length mapping.now.fields }
    ensures long { length marks.new ≡ length marks.old }
    ensures marked { Marks marks.old marks.new (field_and (field_below mapping.now generation path.now name.now) (λ f. fields_below mapping.now generation (field_at mapping.now f).path (view value.now))) }
{
    match mapping.field_below(generation, path, name) {
        Some(field) => {
            marks.set(field);
            mark_below(mapping, generation, mapping.path(field), value, marks);
        }
        None => {}
    }
}
