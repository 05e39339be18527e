//! The definitions of inner hits that a body has.
ghost use Rattle.std.specs.Prelude.{◌≡◌, ◌++◌, ◌∷◌, [], ℕ, List, false, map, codes, Option, Some, IfOk, IfSome, IsTrue, OnOk};
ghost use Rattle.mapping.specs.Mapping.{Mapping};
ghost use Rattle.tree_json.specs.Value.{JsonValue, members_of, member_of, elements_of, object as object_value};
ghost use Rattle.tree_json.specs.View.{view, values, entries};
ghost use Rattle.query_ast.specs.Clause.View.{clause_of};
ghost use Rattle.query_ast.specs.Definition.{Definition, definition, definitions_of};
ghost use Rattle.query_ast.specs.Inner.{Inner};
ghost use Rattle.query_ast.specs.Inner.View.{inner_of as seen};
ghost use Rattle.search_walk.specs.Names.{buckets_in as buckets_value, scope_inside, text_under as text_value};
ghost use Rattle.search_walk.specs.Refusal.{name_or, inner_count};
ghost use Rattle.search_form.specs.Form.{form_at};
ghost use Rattle.search_form.specs.declared.form.Form.{Form};
ghost use Rattle.search_form.specs.declared.form.Form.TheVariants.{Buckets};
ghost use Rattle.query_parser.specs.Known.{known_of, known_under, IsOf, IsOfObject, IsOfElements, IsOfMembers};
ghost use Rattle.query_parser.specs.Queries.{clause_under};
ghost use Rattle.query_parser.specs.Flat.{is_flat};
ghost use Rattle.query_parser.specs.InnerHits.{below_if, children_if, parents_if, inner_of, held_by, owned_by, inner_at, inner_in, inner_among, inner_if, inner_of_body};

use crate::built::{Built, built_at, built_in, built_under, own_query};
use crate::queries::clause_under;
use crate::readings::{child_in, copied, number_under, parent_in, unless_false};
use crate::sorts::sorts_under;
use mapping::Mapping;
use query_ast::{InnerDef, InnerList, InnerOver, NoMemory, Query, QueryBox};
use search_form::{Form, element_of, form_at, single_of};
use search_walk::{KnownNames, buckets_in, has_parts, member, text_of, text_under};
use std::alloc::Global;
use tree_json::{Json, JsonObject, JsonText};

fn below_if(scope: Option<u32>) -> InnerOver
    ensures { result ≡ below_if scope }
{
    match scope {
        Some(scope) => InnerOver::Below(scope),
        None => InnerOver::Ignored,
    }
}

fn children_if(relation: Option<u32>) -> InnerOver
    ensures { result ≡ children_if relation }
{
    match relation {
        Some(relation) => InnerOver::Children(relation),
        None => InnerOver::Ignored,
    }
}

fn parents_if(relation: Option<u32>) -> InnerOver
    ensures { result ≡ parents_if relation }
{
    match relation {
        Some(relation) => InnerOver::Parents(relation),
        None => InnerOver::Ignored,
    }
}

// The name that inner hits give, or that which stands under a name of their clause.
fn name_or<'a>(default: &[u8], clause: &'a JsonObject, inner: &'a JsonObject) -> &'a [u8]
    ensures { result.now ≡ name_or (text_value (members_of clause.now) default.now) (member_of (members_of inner.now) (codes "name")) }
{
    match member(inner, b"name") {
        Some(name) => text_of(name),
        None => text_under(clause, default),
    }
}

// The query of a clause, shared with what was built of the clause where that is known.
fn query_of(
    alloc: Global,
    mapping: &Mapping,
    known: &mut KnownNames,
    inside: Option<u32>,
    clause: &JsonObject,
    shared: Option<&QueryBox>,
) -> Result<QueryBox, NoMemory>
    requires { IfSome shared (λ q. q.now ≡ clause_under mapping.now inside (codes "query") (members_of clause.now)) }
    ensures { IfOk result (λ q. q ≡ clause_under mapping.now inside (codes "query") (members_of clause.now)) }
{
    match shared {
        Some(query) => Ok(query.again()?),
        None => Ok(clause_under(alloc, mapping, known, inside, b"query", clause)?),
    }
}

// A definition with those that it owns: the scope of its hits, what they are looked for in, and where its name by default
// stands in its clause.
fn defined(
    alloc: Global,
    mapping: &Mapping,
    known: &mut KnownNames,
    inside: Option<u32>,
    over: InnerOver,
    default: &[u8],
    clause: &JsonObject,
    shared: Option<&QueryBox>,
    inner: &JsonObject,
    owned: Vec<InnerDef>,
) -> Result<InnerDef, NoMemory>
    requires { IfSome shared (λ q. q.now ≡ clause_under mapping.now inside (codes "query") (members_of clause.now)) }
    ensures { IfOk result (λ def. seen def ≡ definition (inner_of mapping.now inside over (text_value (members_of clause.now) default.now) (members_of clause.now) (members_of inner.now)) (definitions_of (map seen owned.items))) }
{
    Ok(InnerDef {
        name: copied(alloc, name_or(default, clause, inner))?,
        over,
        query: query_of(alloc, mapping, known, inside, clause, shared)?,
        from: number_under(100, 0, inner, b"from"),
        size: number_under(100, 3, inner, b"size"),
        sort: sorts_under(alloc, mapping, inside, inner)?,
        source: unless_false(inner, b"_source"),
        owned: InnerList::of(owned),
    })
}

// Appends the definition of a clause that has inner hits, and else those inside it.
fn held_by(
    alloc: Global,
    mapping: &Mapping,
    known: &mut KnownNames,
    inside: Option<u32>,
    over: InnerOver,
    default: &[u8],
    clause: &JsonObject,
    shared: Option<&QueryBox>,
    owned: Vec<InnerDef>,
    found: &mut Vec<InnerDef>,
) -> Result<(), NoMemory>
    requires { IfSome shared (λ q. q.now ≡ clause_under mapping.now inside (codes "query") (members_of clause.now)) }
    ensures { OnOk result (map seen found.new.items ≡ map seen found.old.items ++ held_by mapping.now inside over (text_value (members_of clause.now) default.now) (members_of clause.now) (member_of (members_of clause.now) (codes "inner_hits")) (map seen owned.items)) }
{
    match member(clause, b"inner_hits") {
        Some(Json::Object(inner)) => {
            found.push(defined(
                alloc, mapping, known, inside, over, default, clause, shared, inner, owned,
            )?)?;
            Ok(())
        }
        _ => Ok(append(found, owned)?),
    }
}

// The same for an object of a form.
fn owned_by(
    alloc: Global,
    mapping: &Mapping,
    known: &mut KnownNames,
    scope: Option<u32>,
    inside: Option<u32>,
    form: Form,
    object: &JsonObject,
    shared: Option<&QueryBox>,
    owned: Vec<InnerDef>,
    found: &mut Vec<InnerDef>,
) -> Result<(), NoMemory>
    requires inside { inside ≡ scope_inside mapping.now scope form (members_of object.now) }
    requires shared { IfSome shared (λ q. q.now ≡ clause_under mapping.now inside (codes "query") (members_of object.now)) }
    ensures { OnOk result (map seen found.new.items ≡ map seen found.old.items ++ owned_by mapping.now scope form (members_of object.now) (map seen owned.items)) }
{
    match form {
        Form::Nested => {
            let over = below_if(inside);
            Ok(held_by(
                alloc, mapping, known, inside, over, b"path", object, shared, owned, found,
            )?)
        }
        Form::HasChild => {
            let over = children_if(child_in(mapping, scope, object));
            Ok(held_by(
                alloc, mapping, known, inside, over, b"type", object, shared, owned, found,
            )?)
        }
        Form::HasParent => {
            let over = parents_if(parent_in(mapping, scope, object));
            let name = b"parent_type";
            Ok(held_by(
                alloc, mapping, known, inside, over, name, object, shared, owned, found,
            )?)
        }
        _ => Ok(append(found, owned)?),
    }
}

// Whether an object of a form may have inner hits; one that doesn't owns nothing.
#[tactic(auto, using(crate::proofs::NoInner::no_inner))]
fn may_own(form: Form, object: &JsonObject) -> bool
    ensures { result ≡ false → (m : Mapping) (scope : Option ℕ) (owned : List (Definition Inner)) → owned_by m scope form (members_of object.now) owned ≡ owned }
{
    match form {
        Form::Nested | Form::HasChild | Form::HasParent => member(object, b"inner_hits").is_some(),
        _ => false,
    }
}

fn append(found: &mut Vec<InnerDef>, mut more: Vec<InnerDef>) -> Result<(), NoMemory>
    ensures { OnOk result (map seen found.new.items ≡ map seen found.old.items ++ map seen more.items) }
{
    found.append(&mut more)?;
    Ok(())
}

// Whether no object and no list stands in an object.
fn is_flat(object: &JsonObject) -> bool
    ensures { result ≡ is_flat (members_of object.now) }
{
    'members: for (_, value) in object.as_slice() {
        if matches!(value, Json::List(_) | Json::Object(_)) {
            return false;
        }
    }
    true
}

// Whether a value has no definitions, whatever its form: so it is with single values, and with objects of these.
#[tactic(auto, using(crate::proofs::NoInner::flat))]
fn has_no_inner(value: &Json) -> bool
    ensures { IsTrue result → (m : Mapping) (scope : Option ℕ) (form : Form) → inner_at m scope form (view value.now) ≡ [] }
{
    match value {
        Json::Object(object) => is_flat(object),
        Json::List(_) => false,
        Json::Null | Json::Bool(_) | Json::Whole(_) | Json::Text(_) => true,
    }
}

/// Appends the definitions that a value has.
#[cycle(inner)]
#[tactic(auto, using(search_form::specs::Sizes::sizes, crate::proofs::Known::built_walks))]
fn inner_at(
    alloc: Global,
    mapping: &Mapping,
    known: &mut KnownNames,
    scope: Option<u32>,
    form: Form,
    value: &Json,
    built: Built<'_>,
    found: &mut Vec<InnerDef>,
) -> Result<(), NoMemory>
    requires { IsOf mapping.now scope form (view value.now) (known_of built) }
    ensures { OnOk result (map seen found.new.items ≡ map seen found.old.items ++ inner_at mapping.now scope form (view value.now)) }
{
    match value {
        Json::List(list) => Ok(inner_in(
            alloc,
            mapping,
            known,
            scope,
            element_of(form),
            list.as_slice(),
            built,
            found,
        )?),
        Json::Object(object) => Ok(inner_inside(
            alloc,
            mapping,
            known,
            scope,
            single_of(form),
            object,
            built_in(built, object),
            found,
        )?),
        Json::Null | Json::Bool(_) | Json::Whole(_) | Json::Text(_) => Ok(()),
    }
}

#[cycle(inner)]
#[tactic(auto, using(search_form::specs::Sizes::sizes, crate::proofs::NoInner::no_inner, crate::proofs::Known::built_walks))]
fn inner_inside(
    alloc: Global,
    mapping: &Mapping,
    known: &mut KnownNames,
    scope: Option<u32>,
    form: Form,
    object: &JsonObject,
    built: Built<'_>,
    found: &mut Vec<InnerDef>,
) -> Result<(), NoMemory>
    requires { IsOfObject mapping.now scope form (members_of object.now) (known_of built) }
    ensures { OnOk result (map seen found.new.items ≡ map seen found.old.items ++ owned_by mapping.now scope form (members_of object.now) (inner_among mapping.now (scope_inside mapping.now scope form (members_of object.now)) form (members_of object.now))) }
{
    if !may_own(form, object) {
        if !has_parts(form) {
            return Ok(());
        }
        let inside = known.scope_inside(mapping, scope, form, object);
        inner_among(
            alloc,
            mapping,
            known,
            inside,
            form,
            object.as_slice(),
            built,
            found,
        )?;
        return Ok(());
    }
    let inside = known.scope_inside(mapping, scope, form, object);
    let mut owned = Vec::new(alloc);
    inner_among(
        alloc,
        mapping,
        known,
        inside,
        form,
        object.as_slice(),
        built,
        &mut owned,
    )?;
    owned_by(
        alloc,
        mapping,
        known,
        scope,
        inside,
        form,
        object,
        own_query(built),
        owned,
        found,
    )?;
    Ok(())
}

#[cycle(inner)]
#[tactic(auto, using(search_form::specs::Sizes::sizes, crate::proofs::Known::built_walks))]
fn inner_in(
    alloc: Global,
    mapping: &Mapping,
    known: &mut KnownNames,
    scope: Option<u32>,
    form: Form,
    elements: &[Json],
    built: Built<'_>,
    found: &mut Vec<InnerDef>,
) -> Result<(), NoMemory>
    requires { IsOfElements mapping.now scope form elements.now (known_of built) }
    ensures { OnOk result (map seen found.new.items ≡ map seen found.old.items ++ inner_in mapping.now scope form (elements_of (values elements.now))) }
{
    'elements: for index in 0..elements.len() {
        inner_at(
            alloc,
            mapping,
            known,
            scope,
            form,
            &elements[index],
            built_at(built, index),
            found,
        )?;
    }
    Ok(())
}

#[cycle(inner)]
#[tactic(auto, using(search_form::specs::Sizes::sizes, crate::proofs::Known::built_walks))]
fn inner_among(
    alloc: Global,
    mapping: &Mapping,
    known: &mut KnownNames,
    scope: Option<u32>,
    form: Form,
    members: &[(JsonText, Json)],
    built: Built<'_>,
    found: &mut Vec<InnerDef>,
) -> Result<(), NoMemory>
    requires { IsOfMembers mapping.now scope form members.now (known_of built) }
    ensures { OnOk result (map seen found.new.items ≡ map seen found.old.items ++ inner_among mapping.now scope form (members_of (entries members.now))) }
{
    'members: for (name, value) in members {
        inner_part(
            alloc,
            mapping,
            known,
            scope,
            form,
            name.as_slice(),
            value,
            built,
            found,
        )?;
    }
    Ok(())
}

// Appends those that stand under a name, which isn't looked up where there are none.
#[cycle(inner)]
#[tactic(auto, using(search_form::specs::Sizes::sizes, crate::proofs::Known::built_walks))]
fn inner_part(
    alloc: Global,
    mapping: &Mapping,
    known: &mut KnownNames,
    scope: Option<u32>,
    form: Form,
    name: &[u8],
    value: &Json,
    built: Built<'_>,
    found: &mut Vec<InnerDef>,
) -> Result<(), NoMemory>
    requires { IsOf mapping.now scope (form_at form name.now) (view value.now) (known_under (known_of built) name.now) }
    ensures { OnOk result (map seen found.new.items ≡ map seen found.old.items ++ inner_at mapping.now scope (form_at form name.now) (view value.now)) }
{
    if has_no_inner(value) {
        return Ok(());
    }
    inner_at(
        alloc,
        mapping,
        known,
        scope,
        form_at(form, name),
        value,
        built_under(built, name),
        found,
    )
}

fn inner_under(
    alloc: Global,
    mapping: &Mapping,
    known: &mut KnownNames,
    form: Form,
    name: &[u8],
    body: &JsonObject,
    built: Built<'_>,
    found: &mut Vec<InnerDef>,
) -> Result<(), NoMemory>
    requires { (v : JsonValue) → member_of (members_of body.now) name.now ≡ Some v → IsOf mapping.now (Some 0) form v (known_of built) }
    ensures { OnOk result (map seen found.new.items ≡ map seen found.old.items ++ inner_if mapping.now form (member_of (members_of body.now) name.now)) }
{
    match body.member(name) {
        Some(value) => Ok(inner_at(alloc, mapping, known, Some(0), form, value, built, found)?),
        None => Ok(()),
    }
}

fn inner_of_buckets(
    alloc: Global,
    mapping: &Mapping,
    known: &mut KnownNames,
    body: &JsonObject,
    found: &mut Vec<InnerDef>,
) -> Result<(), NoMemory>
    ensures { OnOk result (map seen found.new.items ≡ map seen found.old.items ++ inner_if mapping.now Buckets (buckets_value (members_of body.now))) }
{
    match buckets_in(body) {
        Some(value) => Ok(inner_at(
            alloc,
            mapping,
            known,
            Some(0),
            Form::Buckets,
            value,
            Built::Unknown,
            found,
        )?),
        None => Ok(()),
    }
}

/// The definitions that the search hit owns. So many clauses have inner hits; where none has, nothing is walked.
#[tactic(auto, using(crate::proofs::NoInner::no_inner, crate::proofs::Known::built_body))]
pub(crate) fn inner_of_body(
    alloc: Global,
    mapping: &Mapping,
    known: &mut KnownNames,
    body: &JsonObject,
    query: &Query,
    count: usize,
) -> Result<InnerList, NoMemory>
    requires count { count ≡ inner_count mapping.now (object_value (members_of body.now)) }
    requires query { clause_of query.now ≡ clause_under mapping.now (Some 0) (codes "query") (members_of body.now) }
    ensures { IfOk result (λ defs. defs ≡ inner_of_body mapping.now (members_of body.now)) }
{
    let mut found = Vec::with_capacity(alloc, count)?;
    if count == 0 {
        return Ok(InnerList::of(found));
    }
    inner_under(
        alloc,
        mapping,
        known,
        Form::Query,
        b"query",
        body,
        Built::Query(query),
        &mut found,
    )?;
    inner_under(
        alloc,
        mapping,
        known,
        Form::Sort,
        b"sort",
        body,
        Built::Unknown,
        &mut found,
    )?;
    inner_of_buckets(alloc, mapping, known, body, &mut found)?;
    Ok(InnerList::of(found))
}
