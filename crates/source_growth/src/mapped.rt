//! What a source adds below the paths that are mapped, and so to the mapping.
ghost use Rattle.std.specs.Prelude.{◌≡◌, ◌<◌, IfOk, OnOk, option_map, length};
ghost use Rattle.tree_json.specs.Value.{elements_of, member_of, members_of};
ghost use Rattle.tree_json.specs.View.{view, values, entries};
ghost use Rattle.mapping.specs.Mapping.{field_at, field_below, generation_of, kind_at};
ghost use Rattle.mapping_body.specs.Names.{is_property_name, joined};
ghost use Rattle.source_growth.specs.Growth.{body_with, form_above, found_below, growth, holds_objects, mapped_among, mapped_below, mapped_in, with_form, with_member};

use crate::form::{holding, holds_objects, plain};
use crate::found::Found;
use crate::unmapped::add_unmapped;
use mapping::{Mapping, NoMemory};
use mapping_body::is_property_name;
use std::alloc::Global;
use tree_json::{Json, JsonText};

/// The body that a source adds to a mapping, or none where it adds nothing. For an unmapped path the first value there that
/// is neither a list nor null decides: a text gives `text`, a whole number `long`, a boolean `boolean`, an object a plain
/// object. Where all is mapped no memory is taken.
#[tactic(auto, unfolding(crate::specs::Growth::growth))]
pub fn seen(alloc: Global, mapping: &Mapping, source: &Json) -> Result<Option<Json>, NoMemory>
    ensures { IfOk result (λ body. option_map view body ≡ growth mapping.now (view source.now)) }
{
    match source {
        Json::Object(object) => {
            let mut found = Found::new(alloc);
            add_among(alloc, mapping, b"", object.as_slice(), &mut found)?;
            Ok(body_with(alloc, found)?)
        }
        _ => Ok(None),
    }
}

fn body_with(alloc: Global, found: Found) -> Result<Option<Json>, NoMemory>
    ensures { IfOk result (λ body. option_map view body ≡ body_with found) }
{
    if found.is_empty() {
        Ok(None)
    } else {
        Ok(Some(plain(alloc, found)?))
    }
}

/// Adds what the members of an object have below the path of a mapped field or of the root.
#[cycle(mapped)]
#[tactic(auto, using(crate::proofs::Sizes::sizes))]
fn add_among(
    alloc: Global,
    mapping: &Mapping,
    path: &[u8],
    members: &[(JsonText, Json)],
    found: &mut Found,
) -> Result<(), NoMemory>
    ensures { OnOk result (found.new ≡ mapped_among mapping.now path.now (members_of (entries members.now)) found.old) }
{
    'members: for (name, value) in members {
        if is_property_name(name.as_slice()) {
            add_member(alloc, mapping, path, name, value, found)?;
        }
    }
    Ok(())
}

/// Adds what a member has, by the field at its path if there is one.
#[cycle(mapped)]
fn add_member(
    alloc: Global,
    mapping: &Mapping,
    path: &[u8],
    name: &JsonText,
    value: &Json,
    found: &mut Found,
) -> Result<(), NoMemory>
    ensures { OnOk result (found.new ≡ with_member mapping.now name.now (view value.now) (mapped_below mapping.now (joined path.now name.now) (view value.now)) (field_below mapping.now (generation_of mapping.now) path.now name.now) found.old) }
{
    match mapping.field_below(mapping.generation(), path, name.as_slice()) {
        None => add_unmapped(alloc, name, value, found),
        Some(field) => if holds_objects(mapping.kind(field)) {
            add_under(alloc, mapping, field, name, value, found)
        } else {
            Ok(())
        },
    }
}

/// Adds what the objects in a value have below a mapped field, and names the field where that is something.
#[cycle(mapped)]
#[tactic(auto, using(crate::proofs::Puts::puts))]
fn add_under(
    alloc: Global,
    mapping: &Mapping,
    field: u32,
    name: &JsonText,
    value: &Json,
    found: &mut Found,
) -> Result<(), NoMemory>
    requires { field < length mapping.now.fields }
    ensures { OnOk result (found.new ≡ with_form name.now (form_above (kind_at mapping.now field) (member_of found.old name.now) (mapped_below mapping.now (field_at mapping.now field).path (view value.now) (found_below (member_of found.old name.now)))) found.old) }
{
    match found.take(name.as_str()) {
        Some(form) => {
            let mut below = form.into_properties(alloc);
            add_below(alloc, mapping, field, value, &mut below)?;
            found.put(alloc, name, holding(mapping.kind(field), below))
        }
        None => {
            let mut below = Found::new(alloc);
            add_below(alloc, mapping, field, value, &mut below)?;
            if below.is_empty() {
                return Ok(());
            }
            found.put(alloc, name, holding(mapping.kind(field), below))
        }
    }
}

/// Adds what the objects in a value have below a mapped field.
#[cycle(mapped)]
fn add_below(
    alloc: Global,
    mapping: &Mapping,
    field: u32,
    value: &Json,
    found: &mut Found,
) -> Result<(), NoMemory>
    requires { field < length mapping.now.fields }
    ensures { OnOk result (found.new ≡ mapped_below mapping.now (field_at mapping.now field).path (view value.now) found.old) }
{
    match value {
        Json::List(list) => add_in(alloc, mapping, field, list.as_slice(), found),
        Json::Object(object) => add_among(
            alloc,
            mapping,
            mapping.path(field),
            object.as_slice(),
            found,
        ),
        _ => Ok(()),
    }
}

#[cycle(mapped)]
#[tactic(auto, using(crate::proofs::Sizes::sizes))]
fn add_in(
    alloc: Global,
    mapping: &Mapping,
    field: u32,
    elements: &[Json],
    found: &mut Found,
) -> Result<(), NoMemory>
    requires { field < length mapping.now.fields }
    ensures { OnOk result (found.new ≡ mapped_in mapping.now (field_at mapping.now field).path (elements_of (values elements.now)) found.old) }
{
    'elements: for element in elements {
        add_below(alloc, mapping, field, element, found)?;
    }
    Ok(())
}
