//! Conflicts of a body with what is kept.
ghost use Rattle.std.specs.Prelude.{◌≡◌, ◌<◌, length, map, IfOk, IfSome, option_map, option_and_then, slice_get};
ghost use Rattle.std.specs.List.{list_any};
ghost use Rattle.tree_json.specs.View.{view};
ghost use Rattle.mapping_growth.specs.Bodies.{differs, is_other_flag, parent_is, has_new_parent, has_children, becomes_parent, relation_place, clashes, is_otherwise, conflict_of};
ghost use Rattle.mapping_body.specs.Body.{member_named};
ghost use Rattle.mapping_growth.specs.Fields.{drafts_of};
ghost use Rattle.mapping_growth.specs.Judged.{AreKept, ArePassed, otherwise_at};
ghost use Rattle.mapping_body.specs.Kept.{pair_of};
ghost use Rattle.mapping_growth.specs.Kept.{IsCandidate, made_of, relation_of};
ghost use Rattle.mapping_growth.specs.Outline.{outline_of};
ghost use Rattle.mapping_growth.specs.Relations.{relations_of};

use crate::candidate::Candidate;
use crate::draft::Draft;
use crate::property::Outline;
use crate::relation::Relation;
use crate::said::Said;
use mapping_body::{Bytes, NoMemory, Pair, is_same_kind, kind_of, member_named, pairs_of_said};
use std::alloc::Global;
use tree_json::Json;

/// The path of the first property that says otherwise than a kept field.
pub(crate) fn conflict_of(
    alloc: Global,
    said: &Said,
    candidate: &Candidate<'_>,
) -> Result<Option<Bytes>, NoMemory>
    requires { IsCandidate said.now candidate.now }
    ensures { IfOk result (λ path. path ≡ conflict_of said.now (view candidate.now.body.now)) }
{
    let parents = parents_of(alloc, said.relations.as_slice())?;
    match conflict_at(
        alloc,
        said,
        parents.as_slice(),
        candidate.outlines.as_slice(),
    )? {
        Some(field) => Ok(Some(copy_of(alloc, said.fields[field as usize].path.as_slice())?)),
        None => Ok(None),
    }
}

fn copy_of(alloc: Global, bytes: &[u8]) -> Result<Bytes, NoMemory>
    ensures { IfOk result (λ copy. copy ≡ bytes.now) }
{
    Ok(Bytes::of(bytes.to_vec(alloc)?))
}

/// The number of the kept field at the first property that says otherwise.
fn conflict_at(
    alloc: Global,
    said: &Said,
    parents: &[bool],
    outlines: &[Outline<'_>],
) -> Result<Option<u32>, NoMemory>
    requires outlines { AreKept (drafts_of said.now) (map outline_of outlines.now) }
    requires parents { ArePassed parents.now (has_children (relations_of said.now)) (length (relations_of said.now)) }
    ensures number { IfOk result (λ field. field ≡ otherwise_at (relations_of said.now) (drafts_of said.now) (map outline_of outlines.now)) }
    ensures bound { IfOk result (λ field. IfSome field (λ f. f < length (drafts_of said.now))) }
{
    'outlines: for outline in outlines {
        if let Some(field) = outline.kept {
            if is_otherwise(alloc, said, parents, field, outline.form)? {
                return Ok(Some(field));
            }
        }
    }
    Ok(None)
}

/// Whether a form says otherwise than a kept field.
fn is_otherwise(
    alloc: Global,
    said: &Said,
    parents: &[bool],
    field: u32,
    form: &Json,
) -> Result<bool, NoMemory>
    requires field { field < length (drafts_of said.now) }
    requires parents { ArePassed parents.now (has_children (relations_of said.now)) (length (relations_of said.now)) }
    ensures { IfOk result (λ otherwise. otherwise ≡ is_otherwise (relations_of said.now) (view form.now) (slice_get (drafts_of said.now) field)) }
{
    if differs(&said.fields[field as usize], form) {
        return Ok(true);
    }
    let mut pairs = Vec::new(alloc);
    pairs_of_said(form, &mut pairs)?;
    Ok(some_clashes(said, parents, pairs.as_slice()))
}

/// Whether a form gives a kept field another kind or another flag.
fn differs(kept: &Draft, form: &Json) -> bool
    ensures { result ≡ differs (made_of kept.now) (view form.now) }
{
    !is_same_kind(kept.kind, kind_of(form))
        || (is_other_flag(kept.in_parent, form, b"include_in_parent")
            || is_other_flag(kept.in_root, form, b"include_in_root"))
}

/// Whether a form gives a flag that isn't the kept one.
fn is_other_flag(kept: bool, form: &Json, name: &[u8]) -> bool
    ensures { result ≡ is_other_flag kept (member_named (view form.now) name.now) }
{
    match member_named(form, name) {
        Some(Json::Bool(given)) => if kept { !*given } else { *given },
        _ => false,
    }
}

fn some_clashes(said: &Said, parents: &[bool], pairs: &[Pair<'_>]) -> bool
    requires { ArePassed parents.now (has_children (relations_of said.now)) (length (relations_of said.now)) }
    ensures { result ≡ list_any (clashes (relations_of said.now)) (map pair_of pairs.now) }
{
    'pairs: for pair in pairs {
        if clashes(said, parents, pair) {
            return true;
        }
    }
    false
}

/// Whether a pair gives a kept name a parent that it didn't have, or its first child.
fn clashes(said: &Said, parents: &[bool], pair: &Pair<'_>) -> bool
    requires { ArePassed parents.now (has_children (relations_of said.now)) (length (relations_of said.now)) }
    ensures { result ≡ clashes (relations_of said.now) (pair_of pair.now) }
{
    has_new_parent(said, pair) || becomes_parent(said, parents, pair.parent)
}

fn has_new_parent(said: &Said, pair: &Pair<'_>) -> bool
    ensures { result ≡ has_new_parent (relations_of said.now) pair.now.parent.now (option_and_then (slice_get (relations_of said.now)) (relation_place (relations_of said.now) pair.now.child.now)) }
{
    match said.relation(pair.child) {
        Some(child) => !has_parent(
            said.relations.as_slice(),
            &said.relations[child as usize],
            pair.parent,
        ),
        None => false,
    }
}

/// Whether the parent of a relation has a name.
fn has_parent(relations: &[Relation], relation: &Relation, name: &[u8]) -> bool
    ensures { result ≡ parent_is (map relation_of relations.now) name.now (relation_of relation.now) }
{
    match relation_at(relations, relation.parent) {
        Some(parent) => parent.name.as_slice() == name,
        None => false,
    }
}

fn relation_at(relations: &[Relation], at: Option<u32>) -> Option<&Relation>
    ensures { option_map (λ r. relation_of r.now) result ≡ option_and_then (slice_get (map relation_of relations.now)) at }
{
    relations.get(at? as usize)
}

fn becomes_parent(said: &Said, parents: &[bool], name: &[u8]) -> bool
    requires { ArePassed parents.now (has_children (relations_of said.now)) (length (relations_of said.now)) }
    ensures { result ≡ becomes_parent (relations_of said.now) (relation_place (relations_of said.now) name.now) }
{
    match said.relation(name) {
        Some(number) => !parents[number as usize],
        None => false,
    }
}

/// For each relation, whether it has children.
fn parents_of(alloc: Global, relations: &[Relation]) -> Result<Vec<bool>, NoMemory>
    ensures { IfOk result (λ parents. ArePassed parents.items (has_children (map relation_of relations.now)) (length relations.now)) }
{
    let mut parents = vec![in alloc; false; relations.len()]?;
    'relations: for relation in relations {
        if let Some(parent) = relation.parent {
            if (parent as usize) < parents.len() {
                parents[parent as usize] = true;
            }
        }
    }
    Ok(parents)
}
