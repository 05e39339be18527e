//! The content of a nested object, from the source of its root, and its place.
ghost use Rattle.std.specs.Prelude.{◌≡◌, ◌<◌, List, get_or, length, option_map, IfOk, IfSome, Some, None, if◌then◌else◌};
ghost use Rattle.std.specs.List.{join_with_byte};
ghost use Rattle.flattener.specs.StandsFor.{EntryStandsFor, Marked};
ghost use Rattle.flattener.specs.Walked.{names_left, start_below};
ghost use Rattle.inner_hits.specs.Along.{objects_along};
ghost use Rattle.inner_hits.specs.Contents.{ChildIs, IsChildDoc, IsLocated};
ghost use Rattle.mapping.specs.Mapping.{outer, scope_at};
ghost use Rattle.mapping_body.specs.Names.{dot};
ghost use Rattle.segment.specs.Live.{LiveState};
ghost use Rattle.tree_json.specs.Text.{compact};
ghost use Rattle.tree_json.specs.Value.{null};
ghost use Rattle.tree_json.specs.View.{view};
ghost use Rattle.tree_objects.specs.Object.{Object, scope as scope_of, tree_of};
ghost use Rattle.tree_objects.specs.Tree.{Tree};
ghost use Rattle.view_objects.specs.Hits.{document_object};

use crate::NoMemory;
use crate::along::object_along;
use crate::walk::{child_start, count_between, scope_docs};
use mapping::Mapping;
use query_ast::Level;
use segment::Segment;
use std::alloc::Global;
use tree_json::{Json, OutText, print};
use tree_objects::Bytes;
use view_objects::documents_are_of_objects;

/// Where an object stands in its tree, and its content.
#[derive(Drop)]
pub(crate) struct ObjectAt<'a> {
    pub(crate) levels: Vec<Level>,
    pub(crate) content: &'a Json,
}

/// The place and the content of the object of a document, from the source of its tree's root.
#[cycle(located)]
#[tactic(auto, using(crate::proofs::Contents::arounds))]
pub(crate) fn located<'a>(
    alloc: Global,
    segment: &Segment,
    mapping: &Mapping,
    source: &'a Json,
    scope: u32,
    doc: u32,
) -> Result<ObjectAt<'a>, NoMemory>
    requires scope { scope < length mapping.now.scopes }
    requires doc { doc < segment.now.documents }
    ensures { IfOk result (λ it. (bits : LiveState) (trees : List (Marked Tree)) → EntryStandsFor mapping.now segment.now bits trees → scope_of (document_object mapping.now trees doc) ≡ scope
        → view source.now ≡ (tree_of (document_object mapping.now trees doc)).source → IsLocated mapping.now (document_object mapping.now trees doc) it) }
{
    documents_are_of_objects();
    let _scopes = mapping.scope_count();
    match mapping.around(scope) {
        None => Ok(ObjectAt {
            levels: Vec::new(alloc),
            content: source,
        }),
        Some(around) => Ok(located_inside(alloc, segment, mapping, source, around, scope, doc)?),
    }
}

/// The same for a nested path, inside the object of the scope around it.
#[cycle(located)]
fn located_inside<'a>(
    alloc: Global,
    segment: &Segment,
    mapping: &Mapping,
    source: &'a Json,
    around: u32,
    scope: u32,
    doc: u32,
) -> Result<ObjectAt<'a>, NoMemory>
    requires nested { 0 < scope }
    requires scope { scope < length mapping.now.scopes }
    requires outer { outer mapping.now scope ≡ around }
    requires doc { doc < segment.now.documents }
    ensures { IfOk result (λ it. (bits : LiveState) (trees : List (Marked Tree)) → EntryStandsFor mapping.now segment.now bits trees → scope_of (document_object mapping.now trees doc) ≡ scope
        → view source.now ≡ (tree_of (document_object mapping.now trees doc)).source → IsLocated mapping.now (document_object mapping.now trees doc) it) }
{
    documents_are_of_objects();
    let _scopes = mapping.scope_count();
    match child_doc(segment, around, scope, doc) {
        None => Ok(ObjectAt {
            levels: Vec::new(alloc),
            content: source,
        }),
        Some(child) => {
            let enclosing = located(alloc, segment, mapping, source, around, child.parent)?;
            Ok(inside(alloc, mapping, around, scope, enclosing, child.offset)?)
        }
    }
}

/// A step further in.
#[tactic(auto, using(crate::proofs::Contents::steps))]
fn inside<'a>(
    alloc: Global,
    mapping: &Mapping,
    around: u32,
    scope: u32,
    enclosing: ObjectAt<'a>,
    offset: u32,
) -> Result<ObjectAt<'a>, NoMemory>
    requires around { around < length mapping.now.scopes }
    requires scope { scope < length mapping.now.scopes }
    requires outer { outer mapping.now scope ≡ around }
    ensures { IfOk result (λ it. (o child : Object) → IsLocated mapping.now o enclosing.entry → ChildIs mapping.now o scope offset child → IsLocated mapping.now child it) }
{
    let path = path_between(mapping, around, scope);
    let content = content_along(enclosing.content, path, offset);
    let mut levels = enclosing.levels;
    levels.push(level(alloc, path, offset)?)?;
    Ok(ObjectAt { levels, content })
}

/// The object with this number along the names of a path; past the last the value itself.
#[tactic(auto, using(crate::proofs::Contents::reading))]
fn content_along<'a>(value: &'a Json, path: Option<&[u8]>, at: u32) -> &'a Json
    ensures { at < length (objects_along (view value.now) (names_left (option_map (λ p. p.now) path.entry))) → view result.now ≡ get_or (objects_along (view value.now) (names_left (option_map (λ p. p.now) path.entry))) at null }
{
    match object_along(value, path, at) {
        Some(content) => content,
        None => value,
    }
}

/// The names from a scope to a nested path inside it, joined by dots; None for the root.
#[tactic(auto, using(flattener::proofs::Gathers::below, flattener::proofs::Ways::homes))]
fn path_between(mapping: &Mapping, around: u32, scope: u32) -> Option<&[u8]>
    requires around { around < length mapping.now.scopes }
    requires scope { scope < length mapping.now.scopes }
    requires outer { outer mapping.now scope ≡ around }
    ensures { names_left (option_map (λ p. p.now) result) ≡ (scope_at mapping.now scope).names }
{
    let _mapping = mapping.scope_count();
    let from = start_below(mapping.scope_path(around));
    let path = mapping.scope_path(scope);
    if from < path.len() {
        Some(path.split_at(from).1)
    } else {
        None
    }
}

/// The byte at which the names below a path begin in the path of what stands there.
fn start_below(above: &[u8]) -> usize
    ensures { result ≡ start_below above.now }
{
    match above {
        [] => 0,
        _ => above.len() + 1,
    }
}

/// A document of a nested path, as a child of the document around it.
#[derive(Clone, Copy, Debug, PartialEq, Eq)]
pub(crate) struct ChildDoc {
    pub(crate) parent: u32,
    pub(crate) offset: u32,
}

/// The document of the scope around a document of a nested path, and the offset there.
#[tactic(auto, using(crate::proofs::Ranges::nexts))]
fn child_doc(segment: &Segment, around: u32, scope: u32, doc: u32) -> Option<ChildDoc>
    requires { doc < segment.now.documents }
    ensures within { IfSome result (λ child. child.parent < segment.now.documents) }
    ensures child { IsChildDoc around scope doc segment.now result }
{
    let _documents = segment.docs();
    let parents = scope_docs(segment, around)?;
    let parent = parents.next_set(doc + 1)?;
    let start = child_start(segment, around, parent);
    Some(ChildDoc {
        parent,
        offset: count_between(segment, scope, start, doc),
    })
}

/// A step of a place.
#[tactic(auto, using(crate::proofs::Namings::namings))]
fn level(alloc: Global, path: Option<&[u8]>, offset: u32) -> Result<Level, NoMemory>
    ensures field { IfOk result (λ level. level.field ≡ join_with_byte dot (names_left (option_map (λ p. p.now) path.entry))) }
    ensures offset { IfOk result (λ level. level.offset ≡ offset) }
{
    let name: &[u8] = match path {
        Some(path) => path,
        None => &[],
    };
    Ok(Level {
        field: Bytes::of(Vec::from_slice(alloc, name)?),
        offset: u64::from(offset),
    })
}

/// The text of a content, where it is asked for.
pub(crate) fn text_of(alloc: Global, asked: bool, content: &Json) -> Result<Option<Bytes>, NoMemory>
    ensures { IfOk result (λ text. text ≡ (if asked then Some (compact (view content.now)) else None)) }
{
    if !asked {
        return Ok(None);
    }
    let mut text = OutText::empty(alloc);
    print(content, &mut text)?;
    Ok(Some(Bytes::of(text.into_vec())))
}
