//! The items of a field that an object shows.
ghost use Rattle.std.specs.Prelude.{◌≡◌, ◌++◌, ◌<◌, ◌==◌, ◌||◌, length, map, filter, option_map, nat_le, reverse, IfOk, OnOk};
ghost use Rattle.std.specs.List.{All, flat_map, list_all};
ghost use Rattle.std.specs.Option.{option_to_list};
ghost use Rattle.tree_json.specs.Value.{is_object};
ghost use Rattle.tree_json.specs.View.{view};
ghost use Rattle.mapping.specs.Mapping.{outer, home_of, included, scope_at};
ghost use Rattle.tree_objects.specs.Object.{items, way};
ghost use Rattle.flattener.specs.Walked.{names_left, children_at, along, own_items, shown_items};

use crate::gather::{MaybeSeveral, alone, gather};
use crate::names::below;
use crate::refusal::NoMemory;
use mapping::Mapping;
use std::alloc::Global;
use tree_json::Json;

/// Whether the objects of a scope show a field: at its home, or where a nested path includes it. Only scopes around its home, which
/// have smaller numbers, can include it.
#[tactic(auto, using(crate::proofs::Unshown::never_beyond))]
pub(crate) fn is_shown(mapping: &Mapping, field: u32, scope: u32) -> bool
    requires field { field < length mapping.now.fields }
    requires scope { scope < length mapping.now.scopes }
    ensures { result ≡ ((home_of mapping.now field == scope) || included mapping.now field scope) }
{
    let _ = mapping.scope_count();
    let home = mapping.home(field);
    if home < scope {
        return false;
    }
    home == scope || mapping.included(field, scope)
}

/// The item of a field that an object of a scope shows, or none, where that is its home and no list stands on the way: most
/// fields are such.
pub(crate) fn shown_alone<'a>(
    mapping: &Mapping,
    generation: u32,
    field: u32,
    scope: u32,
    content: &'a Json,
) -> Result<Option<&'a Json>, MaybeSeveral>
    requires field { field < length mapping.now.fields }
    requires scope { scope < length mapping.now.scopes }
    ensures { IfOk result (λ item. shown_items mapping.now generation field scope (view content.now) ≡ option_to_list (option_map (λ j. view j.now) item)) }
{
    if mapping.home(field) != scope {
        Err(MaybeSeveral)
    } else if mapping.knows(generation, field) {
        let _ = mapping.scope_count();
        let above = mapping.scope_path(scope);
        alone(content, below(above, mapping.path(field)))
    } else {
        Ok(None)
    }
}

/// Finds the items of a field that an object of a scope shows, in document order, in place of what was found before.
pub(crate) fn find_shown<'a>(
    alloc: Global,
    mapping: &Mapping,
    generation: u32,
    field: u32,
    scope: u32,
    content: &'a Json,
    found: &mut Vec<&'a Json>,
) -> Result<(), NoMemory>
    requires field { field < length mapping.now.fields }
    requires scope { scope < length mapping.now.scopes }
    ensures { OnOk result (map (λ j. view j.now) found.new.items ≡ shown_items mapping.now generation field scope (view content.now)) }
{
    found.clear();
    if mapping.home(field) == scope {
        push_own(mapping, generation, field, content, found)?;
    } else if mapping.knows(generation, field) && mapping.included(field, scope) {
        push_included(alloc, mapping, generation, field, scope, content, found)?;
    }
    Ok(())
}

/// Adds the items of a field at an object of its home.
fn push_own<'a>(
    mapping: &Mapping,
    generation: u32,
    field: u32,
    content: &'a Json,
    found: &mut Vec<&'a Json>,
) -> Result<(), NoMemory>
    requires { field < length mapping.now.fields }
    ensures { OnOk result (map (λ j. view j.now) found.new.items ≡ map (λ j. view j.now) found.old.items ++ own_items mapping.now generation field (view content.now)) }
{
    if !mapping.knows(generation, field) {
        return Ok(());
    }
    let _ = mapping.scope_count();
    let above = mapping.scope_path(mapping.home(field));
    gather(content, below(above, mapping.path(field)), found)
}

/// Adds the items of a field at the objects of its home inside an object of a scope.
#[tactic(auto, using(crate::proofs::Ways::homes))]
fn push_included<'a>(
    alloc: Global,
    mapping: &Mapping,
    generation: u32,
    field: u32,
    scope: u32,
    content: &'a Json,
    found: &mut Vec<&'a Json>,
) -> Result<(), NoMemory>
    requires { field < length mapping.now.fields }
    ensures { OnOk result (map (λ j. view j.now) found.new.items ≡ map (λ j. view j.now) found.old.items ++ flat_map (own_items mapping.now generation field) (along mapping.now generation (way mapping.now scope (home_of mapping.now field)) (view content.now))) }
{
    let _ = mapping.scope_count();
    let way = way_up(alloc, mapping, scope, mapping.home(field))?;
    push_below(
        alloc,
        mapping,
        generation,
        field,
        way.as_slice(),
        content,
        found,
    )
}

/// The nested paths from below a scope down to another, the deepest first.
#[tactic(auto, using(crate::proofs::Ways::climbing), unfolding(tree_objects::specs::Object::way))]
fn way_up(alloc: Global, mapping: &Mapping, scope: u32, deepest: u32) -> Result<Vec<u32>, NoMemory>
    requires { deepest < length mapping.now.scopes }
    ensures way { IfOk result (λ v. reverse v.items ≡ way mapping.now scope deepest) }
    ensures in_range { IfOk result (λ v. All (λ n. n < length mapping.now.scopes) v.items) }
{
    let _ = mapping.scope_count();
    let mut way = Vec::new(alloc);
    let mut at = deepest;
    let mut left = deepest;
    'way: while left > 0 && at != scope {
        way.push(at)?;
        at = outer(mapping, at);
        left -= 1;
    }
    Ok(way)
}

/// The scope around a scope; the root stands in itself.
pub(crate) fn outer(mapping: &Mapping, scope: u32) -> u32
    requires { scope < length mapping.now.scopes }
    ensures outer { result ≡ outer mapping.now scope }
    ensures in_range { result < length mapping.now.scopes }
{
    let _ = mapping.scope_count();
    match mapping.around(scope) {
        Some(around) => around,
        None => 0,
    }
}

/// Adds the items of a field at the objects along a way, of which the last is the first step.
#[cycle(ways)]
#[tactic(auto, using(crate::proofs::Ways::going))]
fn push_below<'a>(
    alloc: Global,
    mapping: &Mapping,
    generation: u32,
    field: u32,
    way: &[u32],
    content: &'a Json,
    found: &mut Vec<&'a Json>,
) -> Result<(), NoMemory>
    requires field { field < length mapping.now.fields }
    requires way { All (λ n. n < length mapping.now.scopes) way.now }
    ensures { OnOk result (map (λ j. view j.now) found.new.items ≡ map (λ j. view j.now) found.old.items ++ flat_map (own_items mapping.now generation field) (along mapping.now generation (reverse way.now) (view content.now))) }
{
    match way {
        [] => push_own(mapping, generation, field, content, found),
        [rest @ .., next] => push_step(
            alloc, mapping, generation, field, *next, rest, content, found,
        ),
    }
}

/// The same by its first step.
#[cycle(ways)]
#[tactic(auto, using(crate::proofs::Ways::going))]
fn push_step<'a>(
    alloc: Global,
    mapping: &Mapping,
    generation: u32,
    field: u32,
    next: u32,
    rest: &[u32],
    content: &'a Json,
    found: &mut Vec<&'a Json>,
) -> Result<(), NoMemory>
    requires field { field < length mapping.now.fields }
    requires next { next < length mapping.now.scopes }
    requires way { All (λ n. n < length mapping.now.scopes) rest.now }
    ensures { OnOk result (map (λ j. view j.now) found.new.items ≡ map (λ j. view j.now) found.old.items ++ flat_map (own_items mapping.now generation field) (flat_map (along mapping.now generation (reverse rest.now)) (children_at mapping.now generation next (view content.now)))) }
{
    let children = children(alloc, mapping, generation, next, content)?;
    'children: for child in children.as_slice() {
        push_below(alloc, mapping, generation, field, rest, *child, found)?;
    }
    Ok(())
}

/// The objects at a nested path in the content of an object of the scope around it, in document order.
fn children<'a>(
    alloc: Global,
    mapping: &Mapping,
    generation: u32,
    scope: u32,
    content: &'a Json,
) -> Result<Vec<&'a Json>, NoMemory>
    requires { scope < length mapping.now.scopes }
    ensures { IfOk result (λ v. map (λ j. view j.now) v.items ≡ children_at mapping.now generation scope (view content.now)) }
{
    if !mapping.knows_scope(generation, scope) {
        return Ok(Vec::new(alloc));
    }
    Ok(objects_at(alloc, mapping, scope, content)?)
}

/// The objects along the names of a scope.
#[tactic(auto, using(crate::proofs::Ways::all_kept))]
fn objects_at<'a>(
    alloc: Global,
    mapping: &Mapping,
    scope: u32,
    content: &'a Json,
) -> Result<Vec<&'a Json>, NoMemory>
    requires { scope < length mapping.now.scopes }
    ensures { IfOk result (λ v. map (λ j. view j.now) v.items ≡ filter is_object (items (view content.now) (scope_at mapping.now scope).names)) }
{
    let mut found = Vec::new(alloc);
    gather(content, path_of(mapping, scope), &mut found)?;
    if are_objects(found.as_slice()) {
        return Ok(found);
    }
    Ok(objects_among(alloc, found.as_slice())?)
}

/// Whether all items are objects, as those of a source without a fault are.
fn are_objects(found: &[&Json]) -> bool
    ensures { result ≡ list_all (λ j. is_object (view j.now)) found.now }
{
    found.iter().all(|item| is_object(*item))
}

/// The path of a scope below the scope around it.
#[tactic(auto, using(crate::proofs::Ways::homes))]
pub(crate) fn path_of(mapping: &Mapping, scope: u32) -> Option<&[u8]>
    requires { scope < length mapping.now.scopes }
    ensures { names_left (option_map (λ p. p.now) result) ≡ (scope_at mapping.now scope).names }
{
    let _ = mapping.scope_count();
    let above = mapping.scope_path(outer(mapping, scope));
    below(above, mapping.scope_path(scope))
}

/// Those items that are objects.
fn objects_among<'a>(alloc: Global, found: &[&'a Json]) -> Result<Vec<&'a Json>, NoMemory>
    ensures { IfOk result (λ v. map (λ j. view j.now) v.items ≡ filter is_object (map (λ j. view j.now) found.now)) }
{
    let mut objects = Vec::new(alloc);
    'items: for item in found {
        if is_object(*item) {
            objects.push(*item)?;
        }
    }
    Ok(objects)
}

fn is_object(value: &Json) -> bool
    ensures { result ≡ is_object (view value.now) }
{
    match value {
        Json::Object(_) => true,
        _ => false,
    }
}
