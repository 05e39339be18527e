//! The parts of a search body that are judged, in the order of the walk.
ghost use Rattle.std.specs.Prelude.{◌≡◌, ◌∷◌, ◌++◌, ◌+◌, [], ℕ, Option, false, if◌then◌else◌, length, map, OnOk, IfOk, Some, codes};
ghost use Rattle.std.specs.List.{list_any, filter};
ghost use Rattle.std.specs.Option.{option_or};
ghost use Rattle.tree_json.specs.Value.{Members, elements_of, members_of, object, object as object_value};
ghost use Rattle.mapping.specs.Mapping.{Mapping};
ghost use Rattle.tree_json.specs.View.{view, values, entries};
ghost use Rattle.search_form.specs.declared.form.Form.TheVariants.{Query, Sort, Buckets, SearchAfter};
ghost use Rattle.search_walk.specs.Node.{is_judged, node_here, deeper, level_under, nodes_at, nodes_in, nodes_among, nodes_under, after_nodes, hit_nodes, bucket_nodes, nodes_of};
ghost use Rattle.search_walk.specs.Names.{scope_inside};
ghost use Rattle.search_walk.specs.Parts.{has_parts};
ghost use Rattle.search_walk.specs.Fault.{fault_of, first_fault};
ghost use Rattle.search_walk.specs.Refusal.{inner_names, has_large_window, is_clause, is_deep, has_many_terms};
ghost use Rattle.search_walk.specs.View.{node_of};
ghost use Rattle.search_walk.specs.Walk.{walk_of, walked, inside_at};

use crate::fault::fault_of;
use crate::known::KnownNames;
use crate::limit::{has_large_window, has_many_terms, inner_name_at, is_clause, is_deep};
use crate::names::buckets_in;
use crate::node::{Node, Walk};
use crate::refusal::SearchRefusal;
use mapping::{Mapping, NoMemory};
use search_form::{Form, element_of, form_at, single_of};
use std::alloc::Global;
use tree_json::{Json, JsonObject, JsonText};

fn is_judged(form: Form) -> bool
    ensures { result ≡ is_judged form }
{
    matches!(
        form,
        Form::Query
            | Form::Term
            | Form::Terms
            | Form::Range
            | Form::Prefix
            | Form::Match
            | Form::MatchPhrase
            | Form::Nested
            | Form::ToChild
            | Form::HasChild
            | Form::HasParent
            | Form::ParentId
            | Form::SortClause
            | Form::SearchAfter
            | Form::SortNested
            | Form::InnerHits
            | Form::Bucket
    )
}

/// Whether something inside an object of a form is judged, at some depth. Nothing inside a leaf is, so a walk ends there.
#[tactic(auto, using(crate::proofs::Partless::partless))]
pub fn has_parts(form: Form) -> bool
    ensures parts { result ≡ has_parts form }
    ensures none { result ≡ false → (m : Mapping) (scope : Option ℕ) (level : ℕ) (ms : Members) → nodes_among m scope level form ms ≡ [] }
{
    matches!(
        form,
        Form::Body
            | Form::Query
            | Form::BoolQuery
            | Form::ConstantScore
            | Form::DisMax
            | Form::Nested
            | Form::ToChild
            | Form::HasChild
            | Form::HasParent
            | Form::SortClause
            | Form::FieldSort
            | Form::SortNested
            | Form::InnerHits
            | Form::Buckets
            | Form::Bucket
            | Form::Queries
            | Form::QueryList
            | Form::Sort
    )
}

fn deeper(level: u32) -> u32
    ensures { result ≡ deeper level }
{
    if level < 31 { level + 1 } else { 31 }
}

fn level_under(form: Form, part: Form, level: u32) -> u32
    ensures { result ≡ level_under form part level }
{
    match form {
        Form::Query => deeper(level),
        Form::Bucket => match part {
            Form::Buckets => deeper(level),
            Form::Query => 1,
            _ => level,
        },
        Form::SortNested => match part {
            Form::Query => 1,
            _ => level,
        },
        _ => level,
    }
}

// The first fault, with one part more.
fn fault_with(
    mapping: &Mapping,
    node: &Node<'_>,
    fault: Option<SearchRefusal>,
    known: &mut KnownNames,
) -> Option<SearchRefusal>
    requires { node.now.inside ≡ inside_at mapping.now node.now.scope node.now.form (view node.now.value.now) }
    ensures { result ≡ option_or fault (fault_of mapping.now (node_of node.now)) }
{
    match fault {
        Some(refusal) => Some(refusal),
        None => fault_of(mapping, node, known),
    }
}

// Appends the name of a part's inner hits, if it has some.
fn put_name<'a>(node: &Node<'a>, names: &mut Vec<&'a [u8]>) -> Result<(), NoMemory>
    ensures { OnOk result (map (λ n. n.now) names.new.items ≡ map (λ n. n.now) names.old.items ++ inner_names (node_of node.now ∷ [])) }
{
    if let Some(name) = inner_name_at(node.form, node.value) {
        names.push(name)?;
    }
    Ok(())
}

// How many clauses there are with a part more; a number that doesn't fit has no memory here.
fn clauses_with(form: Form, clauses: usize) -> Result<usize, NoMemory>
    ensures { IfOk result (λ count. count ≡ clauses + (if is_clause form then 1 else 0)) }
{
    if is_clause(form) {
        match clauses.checked_add(1) {
            Some(count) => Ok(count),
            None => Err(NoMemory),
        }
    } else {
        Ok(clauses)
    }
}

// Takes one part more.
#[inline(never)]
fn meet<'a>(mapping: &Mapping, node: &Node<'a>, walk: &mut Walk<'a>) -> Result<(), NoMemory>
    requires { node.now.inside ≡ inside_at mapping.now node.now.scope node.now.form (view node.now.value.now) }
    ensures { OnOk result (walk_of walk.new ≡ walked mapping.now (walk_of walk.old) (node_of node.now ∷ [])) }
{
    walk.fault = fault_with(mapping, node, walk.fault, &mut walk.known);
    put_name(node, &mut walk.names)?;
    walk.clauses = clauses_with(node.form, walk.clauses)?;
    walk.has_large_window = walk.has_large_window | has_large_window(node);
    walk.is_deep = walk.is_deep | is_deep(node);
    walk.has_many_terms = walk.has_many_terms | has_many_terms(node);
    Ok(())
}

// Takes what stands here, if it is judged.
#[tactic(auto, using(crate::proofs::Walked::walks))]
#[inline]
fn meet_here<'a>(
    mapping: &Mapping,
    scope: Option<u32>,
    inside: Option<u32>,
    level: u32,
    form: Form,
    value: &'a Json,
    walk: &mut Walk<'a>,
) -> Result<(), NoMemory>
    requires { inside ≡ inside_at mapping.now scope form (view value.now) }
    ensures { OnOk result (walk_of walk.new ≡ walked mapping.now (walk_of walk.old) (node_here scope level form (view value.now))) }
{
    if is_judged(form) {
        let node = Node {
            scope,
            inside,
            level,
            form,
            value,
        };
        meet(mapping, &node, walk)?;
    }
    Ok(())
}

/// Takes the parts that a value has. A single value is looked at where it stands.
#[cycle(nodes)]
#[tactic(auto, using(search_form::specs::Sizes::sizes, crate::proofs::Walked::walks))]
#[inline]
fn nodes_at<'a>(
    mapping: &Mapping,
    scope: Option<u32>,
    level: u32,
    form: Form,
    value: &'a Json,
    walk: &mut Walk<'a>,
) -> Result<(), NoMemory>
    ensures { OnOk result (walk_of walk.new ≡ walked mapping.now (walk_of walk.old) (nodes_at mapping.now scope level form (view value.now))) }
{
    match value {
        Json::List(list) => nodes_in(
            mapping,
            scope,
            level,
            element_of(form),
            list.as_slice(),
            walk,
        ),
        Json::Object(object) => object_nodes(
            mapping,
            scope,
            level,
            single_of(form),
            object,
            value,
            walk,
        ),
        Json::Null | Json::Bool(_) | Json::Whole(_) | Json::Text(_) => {
            meet_here(mapping, scope, None, level, single_of(form), value, walk)
        }
    }
}

#[cycle(nodes)]
#[tactic(auto, using(search_form::specs::Sizes::sizes, crate::proofs::Partless::partless, crate::proofs::Walked::walks))]
#[inline(never)]
fn object_nodes<'a>(
    mapping: &Mapping,
    scope: Option<u32>,
    level: u32,
    form: Form,
    object: &'a JsonObject,
    value: &'a Json,
    walk: &mut Walk<'a>,
) -> Result<(), NoMemory>
    requires { view value.now ≡ object_value (members_of object.now) }
    ensures { OnOk result (walk_of walk.new ≡ walked mapping.now (walk_of walk.old) (node_here scope level form (object_value (members_of object.now)) ++ nodes_among mapping.now (scope_inside mapping.now scope form (members_of object.now)) level form (members_of object.now))) }
{
    let inside = walk.known.scope_inside(mapping, scope, form, object);
    meet_here(mapping, scope, inside, level, form, value, walk)?;
    if !has_parts(form) {
        return Ok(());
    }
    Ok(nodes_among(mapping, inside, level, form, object.as_slice(), walk)?)
}

#[cycle(nodes)]
#[tactic(auto, using(search_form::specs::Sizes::sizes, crate::proofs::Walked::walks))]
#[inline(never)]
fn nodes_in<'a>(
    mapping: &Mapping,
    scope: Option<u32>,
    level: u32,
    form: Form,
    elements: &'a [Json],
    walk: &mut Walk<'a>,
) -> Result<(), NoMemory>
    ensures { OnOk result (walk_of walk.new ≡ walked mapping.now (walk_of walk.old) (nodes_in mapping.now scope level form (elements_of (values elements.now)))) }
{
    'elements: for element in elements {
        nodes_at(mapping, scope, level, form, element, walk)?;
    }
    Ok(())
}

#[cycle(nodes)]
#[tactic(auto, using(search_form::specs::Sizes::sizes, crate::proofs::Walked::walks))]
fn nodes_among<'a>(
    mapping: &Mapping,
    scope: Option<u32>,
    level: u32,
    form: Form,
    members: &'a [(JsonText, Json)],
    walk: &mut Walk<'a>,
) -> Result<(), NoMemory>
    ensures { OnOk result (walk_of walk.new ≡ walked mapping.now (walk_of walk.old) (nodes_among mapping.now scope level form (members_of (entries members.now)))) }
{
    'members: for (name, value) in members {
        let part = form_at(form, name.as_slice());
        nodes_at(
            mapping,
            scope,
            level_under(form, part, level),
            part,
            value,
            walk,
        )?;
    }
    Ok(())
}

#[tactic(auto, using(crate::proofs::Walked::walks))]
fn nodes_under<'a>(
    mapping: &Mapping,
    form: Form,
    name: &[u8],
    body: &'a JsonObject,
    walk: &mut Walk<'a>,
) -> Result<(), NoMemory>
    ensures { OnOk result (walk_of walk.new ≡ walked mapping.now (walk_of walk.old) (nodes_under mapping.now form name.now (members_of body.now))) }
{
    match body.member(name) {
        Some(value) => Ok(nodes_at(mapping, Some(0), 1, form, value, walk)?),
        None => Ok(()),
    }
}

#[tactic(auto, using(crate::proofs::Walked::walks))]
fn after_nodes<'a>(
    mapping: &Mapping,
    body: &'a Json,
    members: &JsonObject,
    walk: &mut Walk<'a>,
) -> Result<(), NoMemory>
    requires { view body.now ≡ object (members_of members.now) }
    ensures { OnOk result (walk_of walk.new ≡ walked mapping.now (walk_of walk.old) (after_nodes (members_of members.now))) }
{
    match members.member(b"search_after") {
        Some(_) => Ok(meet_here(mapping, Some(0), Some(0), 1, Form::SearchAfter, body, walk)?),
        None => Ok(()),
    }
}

#[tactic(auto, using(crate::proofs::Walked::walks))]
fn hit_nodes<'a>(
    mapping: &Mapping,
    body: &'a Json,
    members: &'a JsonObject,
    walk: &mut Walk<'a>,
) -> Result<(), NoMemory>
    requires { view body.now ≡ object (members_of members.now) }
    ensures { OnOk result (walk_of walk.new ≡ walked mapping.now (walk_of walk.old) (hit_nodes mapping.now (members_of members.now))) }
{
    nodes_under(mapping, Form::Query, b"query", members, walk)?;
    nodes_under(mapping, Form::Sort, b"sort", members, walk)?;
    after_nodes(mapping, body, members, walk)?;
    Ok(())
}

#[tactic(auto, using(crate::proofs::Walked::walks))]
fn bucket_nodes<'a>(
    mapping: &Mapping,
    body: &'a JsonObject,
    walk: &mut Walk<'a>,
) -> Result<(), NoMemory>
    ensures { OnOk result (walk_of walk.new ≡ walked mapping.now (walk_of walk.old) (bucket_nodes mapping.now (members_of body.now))) }
{
    match buckets_in(body) {
        Some(buckets) => Ok(nodes_at(mapping, Some(0), 1, Form::Buckets, buckets, walk)?),
        None => Ok(()),
    }
}

// Takes the parts of a body, in the order of the walk.
#[tactic(auto, using(crate::proofs::Walked::walks), unfolding(crate::specs::Node::nodes_of))]
fn body_nodes<'a>(
    mapping: &Mapping,
    body: &'a Json,
    members: &'a JsonObject,
    walk: &mut Walk<'a>,
) -> Result<(), NoMemory>
    requires { view body.now ≡ object (members_of members.now) }
    ensures { OnOk result (walk_of walk.new ≡ walked mapping.now (walk_of walk.old) (nodes_of mapping.now (members_of members.now))) }
{
    hit_nodes(mapping, body, members, walk)?;
    bucket_nodes(mapping, members, walk)?;
    Ok(())
}

/// The walk over the parts of a body.
pub(crate) fn walk_over<'a>(
    alloc: Global,
    mapping: &Mapping,
    body: &'a Json,
    members: &'a JsonObject,
) -> Result<Walk<'a>, NoMemory>
    requires { view body.now ≡ object (members_of members.now) }
    ensures fault { IfOk result (λ w. w.fault ≡ first_fault mapping.now (nodes_of mapping.now (members_of members.now))) }
    ensures names { IfOk result (λ w. map (λ n. n.now) w.names.items ≡ inner_names (nodes_of mapping.now (members_of members.now))) }
    ensures clauses { IfOk result (λ w. w.clauses ≡ length (filter (λ n. is_clause n.form) (nodes_of mapping.now (members_of members.now)))) }
    ensures large { IfOk result (λ w. w.has_large_window ≡ list_any has_large_window (nodes_of mapping.now (members_of members.now))) }
    ensures deep { IfOk result (λ w. w.is_deep ≡ list_any is_deep (nodes_of mapping.now (members_of members.now))) }
    ensures terms { IfOk result (λ w. w.has_many_terms ≡ list_any has_many_terms (nodes_of mapping.now (members_of members.now))) }
{
    let mut walk = Walk::new(alloc);
    body_nodes(mapping, body, members, &mut walk)?;
    Ok(walk)
}
