//! The query that a body says.
ghost use Rattle.std.specs.Prelude.{◌≡◌, ◌++◌, ◌∷◌, [], map, codes, IfOk};
ghost use Rattle.tree_json.specs.Value.{members_of, member_of, elements_of, object as object_value};
ghost use Rattle.tree_json.specs.View.{view, values};
ghost use Rattle.search_form.specs.Form.{chosen};
ghost use Rattle.query_ast.specs.Clause.{leaf, is_between, on_field, clauses_of};
ghost use Rattle.query_ast.specs.Clause.View.{clause_of};
ghost use Rattle.search_walk.specs.Fault.{asked_value};
ghost use Rattle.search_walk.specs.Names.{text_of as text_value};
ghost use Rattle.query_parser.specs.Readings.{boost_of as boost_value};
ghost use Rattle.query_parser.specs.Queries.{closed_of, past_of, end_of, range_of, is_and_of, test_of, leaf_boost, field_leaf, leaf_named, least_of, form_named, clause_at, clause_among, clause_named, clause_under, clauses_under, clauses_at, clauses_in};

use crate::readings::{
    asked_by, boost_in, boost_of, child_in, copied, kind_of_field, known_field_in, mode_in,
    natural_under, parent_in, texts_under, value_by, values_of,
};
use mapping::{Kind, Mapping};
use query_ast::{NoMemory, Query, QueryBox, QueryList, RangeEnd};
use score_math::ScoreMode;
use search_form::{ChosenName, Form, chosen, form_at};
use search_walk::{KnownNames, flag_under, member, root_if, scope_inside, text_of, text_under};
use std::alloc::Global;
use tree_json::{Json, JsonObject};

fn closed_of(
    alloc: Global,
    kind: Option<Kind>,
    bounds: &JsonObject,
    name: &[u8],
) -> Result<RangeEnd, NoMemory>
    ensures { IfOk result (λ end. end ≡ closed_of kind (member_of (members_of bounds.now) name.now)) }
{
    match member(bounds, name) {
        None => Ok(RangeEnd::Free),
        Some(bound) => match bound {
            Json::Null => Ok(RangeEnd::Free),
            Json::Bool(_) | Json::Whole(_) | Json::Text(_) | Json::List(_) | Json::Object(_) => {
                Ok(RangeEnd::Closed(value_by(alloc, kind, bound)?))
            }
        },
    }
}

fn past_of(alloc: Global, kind: Option<Kind>, bound: &Json) -> Result<RangeEnd, NoMemory>
    ensures { IfOk result (λ end. end ≡ past_of kind (view bound.now)) }
{
    match bound {
        Json::Null => Ok(RangeEnd::Free),
        Json::Bool(_) | Json::Whole(_) | Json::Text(_) | Json::List(_) | Json::Object(_) => {
            Ok(RangeEnd::Past(value_by(alloc, kind, bound)?))
        }
    }
}

fn end_of(
    alloc: Global,
    kind: Option<Kind>,
    bounds: &JsonObject,
    past: &[u8],
    closed: &[u8],
) -> Result<RangeEnd, NoMemory>
    ensures { IfOk result (λ end. end ≡ end_of kind (member_of (members_of bounds.now) past.now) (member_of (members_of bounds.now) closed.now)) }
{
    match member(bounds, past) {
        Some(bound) => Ok(past_of(alloc, kind, bound)?),
        None => Ok(closed_of(alloc, kind, bounds, closed)?),
    }
}

fn is_and_of(value: &Json) -> bool
    ensures { result ≡ is_and_of (view value.now) }
{
    match value {
        Json::Object(object) => text_under(object, b"operator") == b"and".as_slice(),
        _ => false,
    }
}

// What `prefix` begins with.
fn start_of<'a>(value: &'a Json) -> &'a [u8]
    ensures { result.now ≡ text_value (asked_value (codes "value") (view value.now)) }
{
    match value {
        Json::Object(object) => text_under(object, b"value"),
        Json::Null | Json::Bool(_) | Json::Whole(_) | Json::Text(_) | Json::List(_) => text_of(
            value,
        ),
    }
}

fn range_leaf(
    alloc: Global,
    kind: Option<Kind>,
    field: Option<u32>,
    value: &Json,
) -> Result<Query, NoMemory>
    ensures { IfOk result (λ q. clause_of q ≡ leaf (on_field field (range_of kind (view value.now))) (boost_value (view value.now))) }
{
    match value {
        Json::Object(bounds) => {
            let low = end_of(alloc, kind, bounds, b"gt", b"gte")?;
            let high = end_of(alloc, kind, bounds, b"lt", b"lte")?;
            Ok(Query::Range {
                field,
                low,
                high,
                boost: boost_in(bounds),
            })
        }
        _ => Ok(Query::Range {
            field,
            low: RangeEnd::Free,
            high: RangeEnd::Free,
            boost: 1,
        }),
    }
}

fn tested_leaf(
    alloc: Global,
    kind: Option<Kind>,
    field: Option<u32>,
    form: Form,
    object: &JsonObject,
    value: &Json,
) -> Result<Query, NoMemory>
    ensures { IfOk result (λ q. clause_of q ≡ leaf (on_field field (test_of kind form (view value.now))) (leaf_boost form (members_of object.now) (view value.now))) }
{
    match form {
        Form::Term => Ok(Query::Term {
            field,
            value: asked_by(alloc, kind, b"value", value)?,
            boost: boost_of(value),
        }),
        Form::Terms => Ok(Query::Terms {
            field,
            values: values_of(alloc, kind, value)?,
            boost: boost_in(object),
        }),
        Form::Range => range_leaf(alloc, kind, field, value),
        Form::Prefix => Ok(Query::Prefix {
            field,
            start: copied(alloc, start_of(value))?,
            boost: boost_of(value),
        }),
        Form::Match => Ok(Query::MatchWords {
            field,
            value: asked_by(alloc, kind, b"query", value)?,
            all: is_and_of(value),
            boost: boost_of(value),
        }),
        Form::MatchPhrase => Ok(Query::MatchPhrase {
            field,
            value: asked_by(alloc, kind, b"query", value)?,
            boost: boost_of(value),
        }),
        _ => Ok(Query::Exists {
            field,
            boost: boost_of(value),
        }),
    }
}

fn field_leaf(
    alloc: Global,
    mapping: &Mapping,
    known: &mut KnownNames,
    scope: Option<u32>,
    form: Form,
    object: &JsonObject,
) -> Result<Query, NoMemory>
    ensures { IfOk result (λ q. clause_of q ≡ field_leaf mapping.now scope form (members_of object.now) (chosen form (members_of object.now))) }
{
    match chosen(form, object) {
        Some(ChosenName { name, value, .. }) => {
            let field = known_field_in(mapping, known, scope, name);
            tested_leaf(
                alloc,
                kind_of_field(mapping, field),
                field,
                form,
                object,
                value,
            )
        }
        None => Ok(Query::MatchAll { boost: 1 }),
    }
}

fn leaf_named(
    alloc: Global,
    mapping: &Mapping,
    known: &mut KnownNames,
    scope: Option<u32>,
    form: Form,
    object: &JsonObject,
) -> Result<Query, NoMemory>
    ensures { IfOk result (λ q. clause_of q ≡ leaf_named mapping.now scope form (members_of object.now)) }
{
    match form {
        Form::MatchAll => Ok(Query::MatchAll {
            boost: boost_in(object),
        }),
        Form::MatchNone => Ok(Query::MatchNone),
        Form::Ids => Ok(Query::Ids {
            ids: texts_under(alloc, object, b"values")?,
            boost: boost_in(object),
        }),
        Form::Exists => Ok(Query::Exists {
            field: known_field_in(mapping, known, scope, text_under(object, b"field")),
            boost: boost_in(object),
        }),
        Form::ParentId => Ok(Query::ParentId {
            child: child_in(mapping, scope, object),
            id: copied(alloc, text_under(object, b"id"))?,
            boost: boost_in(object),
        }),
        _ => field_leaf(alloc, mapping, known, scope, form, object),
    }
}

fn least_of(least: Option<u64>) -> u64
    ensures { result ≡ least_of least }
{
    match least {
        Some(least) => least,
        None => 1,
    }
}

#[tactic(auto, unfolding(crate::specs::Queries::form_named))]
fn form_named(name: &[u8]) -> Form
    ensures { result ≡ form_named name.now }
{
    form_at(Form::Query, name)
}

/// A query, which is an object with one name.
#[cycle(clauses)]
#[tactic(auto, using(search_form::specs::Sizes::sizes, crate::proofs::Members::members))]
pub(crate) fn clause_at(
    alloc: Global,
    mapping: &Mapping,
    known: &mut KnownNames,
    scope: Option<u32>,
    value: &Json,
) -> Result<Query, NoMemory>
    ensures { IfOk result (λ q. clause_of q ≡ clause_at mapping.now scope (view value.now)) }
{
    match value {
        Json::Object(object) => match object.as_slice() {
            [] => Ok(Query::MatchAll { boost: 1 }),
            [(name, value), ..] => {
                clause_named(
                    alloc,
                    mapping,
                    known,
                    scope,
                    form_named(name.as_slice()),
                    value,
                )
            }
        },
        Json::Null | Json::Bool(_) | Json::Whole(_) | Json::Text(_) | Json::List(_) => Ok(
            Query::MatchAll { boost: 1 },
        ),
    }
}

#[cycle(clauses)]
#[tactic(auto, using(search_form::specs::Sizes::sizes, crate::proofs::Members::members))]
fn clause_named(
    alloc: Global,
    mapping: &Mapping,
    known: &mut KnownNames,
    scope: Option<u32>,
    form: Form,
    value: &Json,
) -> Result<Query, NoMemory>
    ensures { IfOk result (λ q. clause_of q ≡ clause_named mapping.now scope form (view value.now)) }
{
    match value {
        Json::Object(object) => clause_in(alloc, mapping, known, scope, form, object),
        Json::Null | Json::Bool(_) | Json::Whole(_) | Json::Text(_) | Json::List(_) => Ok(
            Query::MatchAll { boost: 1 },
        ),
    }
}

#[cycle(clauses)]
#[tactic(auto, using(search_form::specs::Sizes::sizes, crate::proofs::Members::members, crate::proofs::Joined::joined), unfolding(crate::specs::Queries::clause_by))]
fn clause_in(
    alloc: Global,
    mapping: &Mapping,
    known: &mut KnownNames,
    scope: Option<u32>,
    form: Form,
    object: &JsonObject,
) -> Result<Query, NoMemory>
    ensures { IfOk result (λ q. clause_of q ≡ clause_named mapping.now scope form (object_value (members_of object.now))) }
{
    match form {
        Form::BoolQuery => Ok(Query::Bool {
            must: clauses_under(alloc, mapping, known, scope, b"must", object)?,
            filter: clauses_under(alloc, mapping, known, scope, b"filter", object)?,
            should: clauses_under(alloc, mapping, known, scope, b"should", object)?,
            must_not: clauses_under(alloc, mapping, known, scope, b"must_not", object)?,
            least: natural_under(object, b"minimum_should_match"),
        }),
        Form::ConstantScore => Ok(Query::ConstantScore {
            filter: clause_under(alloc, mapping, known, scope, b"filter", object)?,
            boost: boost_in(object),
        }),
        Form::DisMax => Ok(Query::DisMax {
            queries: clauses_under(alloc, mapping, known, scope, b"queries", object)?,
        }),
        Form::Nested => {
            let inside = known.scope_inside(mapping, scope, form, object);
            Ok(Query::Nested {
                scope: inside,
                query: clause_under(alloc, mapping, known, inside, b"query", object)?,
                mode: mode_in(ScoreMode::Avg, object),
            })
        }
        Form::ToChild => {
            let inside = scope_inside(mapping, scope, form, object);
            Ok(Query::ToChild {
                scope: inside,
                query: clause_under(alloc, mapping, known, inside, b"query", object)?,
            })
        }
        Form::HasChild => {
            let child = child_in(mapping, scope, object);
            Ok(Query::HasChild {
                child,
                query: clause_under(alloc, mapping, known, root_if(child), b"query", object)?,
                mode: mode_in(ScoreMode::Zero, object),
                least: least_of(natural_under(object, b"min_children")),
                most: natural_under(object, b"max_children"),
            })
        }
        Form::HasParent => {
            let parent = parent_in(mapping, scope, object);
            Ok(Query::HasParent {
                parent,
                query: clause_under(alloc, mapping, known, root_if(parent), b"query", object)?,
                score: flag_under(object, b"score"),
                boost: boost_in(object),
            })
        }
        _ => leaf_named(alloc, mapping, known, scope, form, object),
    }
}

/// The query under a name; one that is left out is `match_all`.
#[cycle(clauses)]
#[tactic(auto, using(search_form::specs::Sizes::sizes, crate::proofs::Members::members))]
pub(crate) fn clause_under(
    alloc: Global,
    mapping: &Mapping,
    known: &mut KnownNames,
    scope: Option<u32>,
    name: &[u8],
    object: &JsonObject,
) -> Result<QueryBox, NoMemory>
    ensures { IfOk result (λ q. q ≡ clause_under mapping.now scope name.now (members_of object.now)) }
{
    match member(object, name) {
        Some(value) => Ok(QueryBox::of(alloc, clause_at(alloc, mapping, known, scope, value)?)?),
        None => Ok(QueryBox::of(alloc, Query::MatchAll { boost: 1 })?),
    }
}

#[cycle(clauses)]
#[tactic(auto, using(search_form::specs::Sizes::sizes, crate::proofs::Members::members))]
fn clauses_under(
    alloc: Global,
    mapping: &Mapping,
    known: &mut KnownNames,
    scope: Option<u32>,
    name: &[u8],
    object: &JsonObject,
) -> Result<QueryList, NoMemory>
    ensures { IfOk result (λ qs. qs ≡ clauses_under mapping.now scope name.now (members_of object.now)) }
{
    match member(object, name) {
        Some(value) => Ok(QueryList::of(clauses_at(alloc, mapping, known, scope, value)?)),
        None => Ok(QueryList::of(Vec::new(alloc))),
    }
}

#[cycle(clauses)]
#[tactic(auto, using(search_form::specs::Sizes::sizes, crate::proofs::Members::members))]
fn clauses_at(
    alloc: Global,
    mapping: &Mapping,
    known: &mut KnownNames,
    scope: Option<u32>,
    value: &Json,
) -> Result<Vec<Query>, NoMemory>
    ensures { IfOk result (λ qs. map clause_of qs.items ≡ clauses_at mapping.now scope (view value.now)) }
{
    match value {
        Json::List(list) => clauses_in(alloc, mapping, known, scope, list.as_slice()),
        Json::Null | Json::Bool(_) | Json::Whole(_) | Json::Text(_) | Json::Object(_) => {
            let mut found = Vec::with_capacity(alloc, 1)?;
            found.push(clause_at(alloc, mapping, known, scope, value)?)?;
            Ok(found)
        }
    }
}

#[cycle(clauses)]
#[tactic(auto, using(search_form::specs::Sizes::sizes, crate::proofs::Members::members))]
fn clauses_in(
    alloc: Global,
    mapping: &Mapping,
    known: &mut KnownNames,
    scope: Option<u32>,
    elements: &[Json],
) -> Result<Vec<Query>, NoMemory>
    ensures { IfOk result (λ qs. map clause_of qs.items ≡ clauses_in mapping.now scope (elements_of (values elements.now))) }
{
    let mut found = Vec::with_capacity(alloc, elements.len())?;
    'elements: for element in elements {
        found.push(clause_at(alloc, mapping, known, scope, element)?)?;
    }
    Ok(found)
}
