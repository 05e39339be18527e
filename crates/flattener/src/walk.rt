//! One walk over the objects of a source.
ghost use Rattle.std.specs.Prelude.{◌≡◌, ◌++◌, ◌+◌, ◌<◌, ◌≤◌, ◌∷◌, [], length, map, option_map, IsErrOf, OnOk};
ghost use Rattle.std.specs.List.{flat_map};
ghost use Rattle.tree_json.specs.Text.{compact};
ghost use Rattle.tree_json.specs.Value.{list, object, members_of, elements_of};
ghost use Rattle.tree_json.specs.View.{view, values};
ghost use Rattle.tree_objects.specs.Object.{items, items_in};
ghost use Rattle.flattener.specs.Block.{most_documents};
ghost use Rattle.flattener.specs.Fits.{most_source};
ghost use Rattle.flattener.specs.Seen.{document_seen};
ghost use Rattle.flattener.specs.Walked.{children_at, inner, kid_part, names_behind, names_left, walked, walked_of, flat_pair, flat_at};

use crate::document::Document;
use crate::fields::{begun, fill};
use crate::gather::member;
use crate::names::first_name;
use crate::refusal::{NoMemory, WalkRefusal};
use crate::shown::{outer, path_of};
use mapping::Mapping;
use std::alloc::Global;
use tree_json::{Json, JsonObject};

/// The nested objects that a tree may have.
const MOST_NESTED: usize = 10_000;

/// Adds the documents of an object and of those inside it, its own last. `left` is how many levels may lie below, and
/// `found` is for items, so that all documents share its memory.
#[cycle(walks)]
#[tactic(auto, using(crate::proofs::Blocks::blocks))]
pub(crate) fn walk<'a>(
    alloc: Global,
    mapping: &Mapping,
    generation: u32,
    left: u32,
    scope: u32,
    content: &'a Json,
    found: &mut Vec<&'a Json>,
    into: &mut Vec<Document>,
) -> Result<(), WalkRefusal>
    requires scope { scope < length mapping.now.scopes }
    requires light { length (compact (view content.now)) ≤ most_source }
    ensures ok { OnOk result (map document_seen into.new.items ≡ map document_seen into.old.items ++ map (flat_pair mapping.now generation) (walked mapping.now generation left scope (view content.now))) }
    ensures long { OnOk result (length into.new.items ≡ length into.old.items + length (walked mapping.now generation left scope (view content.now))) }
    ensures few { OnOk result (length into.new.items ≤ most_documents) }
    ensures many { IsErrOf result WalkRefusal.TooManyObjects → most_documents < length into.old.items + length (walked mapping.now generation left scope (view content.now)) }
{
    walk_inside(
        alloc, mapping, generation, left, scope, content, found, into,
    )?;
    push_document(alloc, mapping, generation, scope, content, found, into)
}

/// Adds the documents of the objects inside an object.
#[cycle(walks)]
#[tactic(auto, using(crate::proofs::Blocks::blocks))]
fn walk_inside<'a>(
    alloc: Global,
    mapping: &Mapping,
    generation: u32,
    left: u32,
    scope: u32,
    content: &'a Json,
    found: &mut Vec<&'a Json>,
    into: &mut Vec<Document>,
) -> Result<(), WalkRefusal>
    requires scope { scope < length mapping.now.scopes }
    requires light { length (compact (view content.now)) ≤ most_source }
    ensures ok { OnOk result (map document_seen into.new.items ≡ map document_seen into.old.items ++ map (flat_pair mapping.now generation) (inner mapping.now generation left scope (view content.now))) }
    ensures long { OnOk result (length into.new.items ≡ length into.old.items + length (inner mapping.now generation left scope (view content.now))) }
    ensures many { IsErrOf result WalkRefusal.TooManyObjects → most_documents < length into.old.items + length (inner mapping.now generation left scope (view content.now)) }
{
    if left == 0 {
        return Ok(());
    }
    let _ = mapping.scope_count();
    'kids: for kid in mapping.order() {
        walk_if_kid(
            alloc,
            mapping,
            generation,
            left - 1,
            scope,
            *kid,
            content,
            found,
            into,
        )?;
    }
    Ok(())
}

/// Adds the documents of the objects at one nested path, if the scope around it is an object's.
#[cycle(walks)]
#[tactic(auto, using(crate::proofs::Blocks::blocks))]
fn walk_if_kid<'a>(
    alloc: Global,
    mapping: &Mapping,
    generation: u32,
    left: u32,
    scope: u32,
    kid: u32,
    content: &'a Json,
    found: &mut Vec<&'a Json>,
    into: &mut Vec<Document>,
) -> Result<(), WalkRefusal>
    requires kid { kid < length mapping.now.scopes }
    requires light { length (compact (view content.now)) ≤ most_source }
    ensures ok { OnOk result (map document_seen into.new.items ≡ map document_seen into.old.items ++ map (flat_pair mapping.now generation) (kid_part mapping.now generation left scope (view content.now) kid)) }
    ensures long { OnOk result (length into.new.items ≡ length into.old.items + length (kid_part mapping.now generation left scope (view content.now) kid)) }
    ensures many { IsErrOf result WalkRefusal.TooManyObjects → most_documents < length into.old.items + length (kid_part mapping.now generation left scope (view content.now) kid) }
{
    if outer(mapping, kid) == scope {
        walk_kid(alloc, mapping, generation, left, kid, content, found, into)
    } else {
        Ok(())
    }
}

/// Adds the documents of the objects at one nested path in an object, and of those inside them.
#[cycle(walks)]
#[tactic(auto, using(crate::proofs::Blocks::blocks))]
fn walk_kid<'a>(
    alloc: Global,
    mapping: &Mapping,
    generation: u32,
    left: u32,
    kid: u32,
    content: &'a Json,
    found: &mut Vec<&'a Json>,
    into: &mut Vec<Document>,
) -> Result<(), WalkRefusal>
    requires kid { kid < length mapping.now.scopes }
    requires light { length (compact (view content.now)) ≤ most_source }
    ensures ok { OnOk result (map document_seen into.new.items ≡ map document_seen into.old.items ++ map (flat_pair mapping.now generation) (flat_map (walked mapping.now generation left kid) (children_at mapping.now generation kid (view content.now)))) }
    ensures long { OnOk result (length into.new.items ≡ length into.old.items + length (flat_map (walked mapping.now generation left kid) (children_at mapping.now generation kid (view content.now)))) }
    ensures many { IsErrOf result WalkRefusal.TooManyObjects → most_documents < length into.old.items + length (flat_map (walked mapping.now generation left kid) (children_at mapping.now generation kid (view content.now))) }
{
    if !mapping.knows_scope(generation, kid) {
        return Ok(());
    }
    let path = path_of(mapping, kid);
    walk_items(
        alloc, mapping, generation, left, kid, content, path, found, into,
    )
}

/// Adds the documents of the objects that a value has along the names of a path, and of those inside them. No list of the
/// objects is made: a list stands for its elements, and what is no object there has no document.
#[cycle(walks)]
#[tactic(auto, using(crate::proofs::Blocks::blocks))]
fn walk_items<'a>(
    alloc: Global,
    mapping: &Mapping,
    generation: u32,
    left: u32,
    kid: u32,
    value: &'a Json,
    path: Option<&[u8]>,
    found: &mut Vec<&'a Json>,
    into: &mut Vec<Document>,
) -> Result<(), WalkRefusal>
    requires kid { kid < length mapping.now.scopes }
    requires light { length (compact (view value.now)) ≤ most_source }
    ensures ok { OnOk result (map document_seen into.new.items ≡ map document_seen into.old.items ++ map (flat_pair mapping.now generation) (walked_of mapping.now generation left kid (items (view value.now) (names_left (option_map (λ p. p.now) path.entry))))) }
    ensures long { OnOk result (length into.new.items ≡ length into.old.items + length (walked_of mapping.now generation left kid (items (view value.now) (names_left (option_map (λ p. p.now) path.entry))))) }
    ensures many { IsErrOf result WalkRefusal.TooManyObjects → most_documents < length into.old.items + length (walked_of mapping.now generation left kid (items (view value.now) (names_left (option_map (λ p. p.now) path.entry)))) }
{
    match value {
        Json::List(list) => walk_elements(
            alloc,
            mapping,
            generation,
            left,
            kid,
            list.as_slice(),
            path,
            found,
            into,
        ),
        Json::Object(object) => match path {
            None => walk(alloc, mapping, generation, left, kid, value, found, into),
            Some(path) => walk_member(
                alloc, mapping, generation, left, kid, object, path, found, into,
            ),
        },
        _ => Ok(()),
    }
}

#[cycle(walks)]
#[tactic(auto, using(crate::proofs::Blocks::blocks))]
fn walk_elements<'a>(
    alloc: Global,
    mapping: &Mapping,
    generation: u32,
    left: u32,
    kid: u32,
    elements: &'a [Json],
    path: Option<&[u8]>,
    found: &mut Vec<&'a Json>,
    into: &mut Vec<Document>,
) -> Result<(), WalkRefusal>
    requires kid { kid < length mapping.now.scopes }
    requires light { length (compact (list (elements_of (values elements.now)))) ≤ most_source }
    ensures ok { OnOk result (map document_seen into.new.items ≡ map document_seen into.old.items ++ map (flat_pair mapping.now generation) (walked_of mapping.now generation left kid (items_in (elements_of (values elements.now)) (names_left (option_map (λ p. p.now) path.entry))))) }
    ensures long { OnOk result (length into.new.items ≡ length into.old.items + length (walked_of mapping.now generation left kid (items_in (elements_of (values elements.now)) (names_left (option_map (λ p. p.now) path.entry))))) }
    ensures many { IsErrOf result WalkRefusal.TooManyObjects → most_documents < length into.old.items + length (walked_of mapping.now generation left kid (items_in (elements_of (values elements.now)) (names_left (option_map (λ p. p.now) path.entry)))) }
{
    'elements: for element in elements {
        walk_items(
            alloc, mapping, generation, left, kid, element, path, found, into,
        )?;
    }
    Ok(())
}

/// Adds what the member of the first name has along the others.
#[cycle(walks)]
#[tactic(auto, using(crate::proofs::Blocks::blocks))]
fn walk_member<'a>(
    alloc: Global,
    mapping: &Mapping,
    generation: u32,
    left: u32,
    kid: u32,
    within: &'a JsonObject,
    path: &[u8],
    found: &mut Vec<&'a Json>,
    into: &mut Vec<Document>,
) -> Result<(), WalkRefusal>
    requires kid { kid < length mapping.now.scopes }
    requires light { length (compact (object (members_of within.now))) ≤ most_source }
    ensures ok { OnOk result (map document_seen into.new.items ≡ map document_seen into.old.items ++ map (flat_pair mapping.now generation) (walked_of mapping.now generation left kid (items (object (members_of within.now)) (names_behind path.now)))) }
    ensures long { OnOk result (length into.new.items ≡ length into.old.items + length (walked_of mapping.now generation left kid (items (object (members_of within.now)) (names_behind path.now)))) }
    ensures many { IsErrOf result WalkRefusal.TooManyObjects → most_documents < length into.old.items + length (walked_of mapping.now generation left kid (items (object (members_of within.now)) (names_behind path.now))) }
{
    let (name, rest) = first_name(path);
    match member(within, name) {
        Some(value) => walk_items(
            alloc, mapping, generation, left, kid, value, rest, found, into,
        ),
        None => Ok(()),
    }
}

/// Adds the document of an object, if there is room in a block.
fn push_document<'a>(
    alloc: Global,
    mapping: &Mapping,
    generation: u32,
    scope: u32,
    content: &'a Json,
    found: &mut Vec<&'a Json>,
    into: &mut Vec<Document>,
) -> Result<(), WalkRefusal>
    requires scope { scope < length mapping.now.scopes }
    requires light { length (compact (view content.now)) ≤ most_source }
    ensures ok { OnOk result (map document_seen into.new.items ≡ map document_seen into.old.items ++ flat_at mapping.now generation scope (view content.now) ∷ []) }
    ensures long { OnOk result (length into.new.items ≡ length into.old.items + 1) }
    ensures few { OnOk result (length into.new.items ≤ most_documents) }
    ensures many { IsErrOf result WalkRefusal.TooManyObjects → most_documents ≤ length into.old.items }
{
    if into.len() > MOST_NESTED {
        return Err(WalkRefusal::TooManyObjects);
    }
    let place = into.len();
    push(begun(alloc, scope), into)?;
    let last = &mut into[place];
    fill(alloc, mapping, generation, scope, content, found, last)?;
    Ok(())
}

fn push(document: Document, into: &mut Vec<Document>) -> Result<(), NoMemory>
    ensures { OnOk result (into.new.items ≡ into.old.items ++ document ∷ []) }
{
    into.push(document)?;
    Ok(())
}
