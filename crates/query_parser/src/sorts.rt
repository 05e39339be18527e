//! The sort that a body or inner hits say.
ghost use Rattle.std.specs.Prelude.{◌≡◌, ◌++◌, ◌∷◌, [], ◌<◌, map, length, codes, Option, Some, IfOk, IfSome, OnOk};
ghost use Rattle.tree_json.specs.Value.{members_of, member_of, elements_of};
ghost use Rattle.tree_json.specs.View.{view, values};
ghost use Rattle.search_walk.specs.Names.{text_of as text_value};
ghost use Rattle.search_walk.specs.Sorts.{sort_part};
ghost use Rattle.query_parser.specs.Sorts.{filter_if, step_to, chain_at, chain_under, chain_if, order_of, order_in, descends, mode_named, mode_of, missing_word, missing_of, by_score_in, field_sort, sort_at, sorts_in, sorts_of, sorts_under};

use crate::queries::clause_at;
use crate::readings::{field_in, kind_of_field, value_by};
use mapping::{Kind, Mapping};
use query_ast::{Chain, ChainList, Missing, NoMemory, QueryBox, Sort, SortKey, SortList, SortMode};
use search_form::{ChosenName, Form, chosen};
use search_walk::{
    KnownNames, given_missing, is_score, member, scope_inside, sort_name, sort_part, text_of,
    text_under,
};
use std::alloc::Global;
use tree_json::{Json, JsonObject};

fn filter_of(
    alloc: Global,
    mapping: &Mapping,
    scope: u32,
    nested: &JsonObject,
) -> Result<Option<QueryBox>, NoMemory>
    ensures { IfOk result (λ q. q ≡ filter_if mapping.now scope (member_of (members_of nested.now) (codes "filter"))) }
{
    match nested.member(b"filter") {
        Some(filter) => {
            let mut known = KnownNames::new();
            let query = clause_at(alloc, mapping, &mut known, Some(scope), filter)?;
            Ok(Some(QueryBox::of(alloc, query)?))
        }
        None => Ok(None),
    }
}

fn step_to(
    alloc: Global,
    mapping: &Mapping,
    scope: u32,
    nested: &JsonObject,
) -> Result<Chain, NoMemory>
    ensures { IfOk result (λ step. step ≡ step_to mapping.now scope (members_of nested.now)) }
{
    Ok(Chain {
        scope,
        filter: filter_of(alloc, mapping, scope, nested)?,
    })
}

// Appends the chain of nested paths that begins with a value.
#[cycle(chain)]
#[tactic(auto, using(search_form::specs::Sizes::sizes, crate::proofs::Members::members))]
fn chain_at(
    alloc: Global,
    mapping: &Mapping,
    scope: Option<u32>,
    value: &Json,
    found: &mut Vec<Chain>,
) -> Result<(), NoMemory>
    ensures { OnOk result (found.new.items ≡ found.old.items ++ chain_at mapping.now scope (view value.now)) }
{
    match value {
        Json::Object(nested) => match scope_inside(mapping, scope, Form::SortNested, nested) {
            Some(inside) => {
                found.push(step_to(alloc, mapping, inside, nested)?)?;
                Ok(chain_under(alloc, mapping, Some(inside), nested, found)?)
            }
            None => Ok(()),
        },
        Json::Null | Json::Bool(_) | Json::Whole(_) | Json::Text(_) | Json::List(_) => Ok(()),
    }
}

#[cycle(chain)]
#[tactic(auto, using(search_form::specs::Sizes::sizes, crate::proofs::Members::members))]
fn chain_under(
    alloc: Global,
    mapping: &Mapping,
    scope: Option<u32>,
    nested: &JsonObject,
    found: &mut Vec<Chain>,
) -> Result<(), NoMemory>
    ensures { OnOk result (found.new.items ≡ found.old.items ++ chain_under mapping.now scope (members_of nested.now)) }
{
    match nested.member(b"nested") {
        Some(value) => Ok(chain_at(alloc, mapping, scope, value, found)?),
        None => Ok(()),
    }
}

fn chain_of(
    alloc: Global,
    mapping: &Mapping,
    scope: Option<u32>,
    clause: &Json,
) -> Result<ChainList, NoMemory>
    ensures { IfOk result (λ chain. chain ≡ chain_if mapping.now scope (sort_part (view clause.now) (codes "nested"))) }
{
    let mut found = Vec::new(alloc);
    match sort_part(clause, b"nested") {
        Some(nested) => {
            chain_at(alloc, mapping, scope, nested, &mut found)?;
            Ok(ChainList::of(found))
        }
        None => Ok(ChainList::of(found)),
    }
}

fn order_of(value: &Json) -> &[u8]
    ensures { result.now ≡ order_of (view value.now) }
{
    match value {
        Json::Text(order) => order.as_slice(),
        Json::Object(object) => text_under(object, b"order"),
        _ => b"",
    }
}

fn order_in(clause: &Json) -> &[u8]
    ensures { result.now ≡ order_in (view clause.now) }
{
    match clause {
        Json::Object(object) => match chosen(Form::SortClause, object) {
            Some(ChosenName { value, .. }) => order_of(value),
            None => b"",
        },
        _ => b"",
    }
}

fn descends(clause: &Json) -> bool
    ensures { result ≡ descends (view clause.now) }
{
    let order = order_in(clause);
    if order == b"desc".as_slice() {
        true
    } else if order == b"asc".as_slice() {
        false
    } else {
        is_score(sort_name(clause))
    }
}

fn mode_named(descending: bool, word: &[u8]) -> SortMode
    ensures { result ≡ mode_named descending word.now }
{
    if word == b"min".as_slice() {
        SortMode::Min
    } else if word == b"max".as_slice() {
        SortMode::Max
    } else if word == b"sum".as_slice() {
        SortMode::Sum
    } else if word == b"avg".as_slice() {
        SortMode::Avg
    } else if word == b"median".as_slice() {
        SortMode::Median
    } else if descending {
        SortMode::Max
    } else {
        SortMode::Min
    }
}

// The text of a part of a clause, and the empty one where there is none.
fn part_text<'a>(clause: &'a Json, name: &[u8]) -> &'a [u8]
    ensures { result.now ≡ text_value (sort_part (view clause.now) name.now) }
{
    match sort_part(clause, name) {
        Some(value) => text_of(value),
        None => b"",
    }
}

fn missing_of(alloc: Global, kind: Option<Kind>, clause: &Json) -> Result<Missing, NoMemory>
    ensures { IfOk result (λ missing. missing ≡ missing_of kind (view clause.now)) }
{
    match given_missing(clause) {
        Some(value) => Ok(Missing::Given(value_by(alloc, kind, value)?)),
        None => Ok(missing_word(clause)),
    }
}

fn missing_word(clause: &Json) -> Missing
    ensures { result ≡ missing_word (view clause.now) }
{
    if part_text(clause, b"missing") == b"_first".as_slice() {
        Missing::First
    } else {
        Missing::Last
    }
}

fn by_score_in(descending: bool) -> Sort
    ensures { result ≡ by_score_in descending }
{
    Sort {
        key: SortKey::Score,
        descending,
        missing: Missing::Last,
    }
}

fn field_sort(
    alloc: Global,
    mapping: &Mapping,
    scope: Option<u32>,
    clause: &Json,
    field: Option<u32>,
) -> Result<Sort, NoMemory>
    requires { IfSome field (λ f. f < length mapping.now.fields) }
    ensures { IfOk result (λ sort. sort ≡ field_sort mapping.now scope (view clause.now) field) }
{
    match field {
        Some(number) => Ok(Sort {
            key: SortKey::Field {
                field: number,
                mode: mode_named(descends(clause), part_text(clause, b"mode")),
                chain: chain_of(alloc, mapping, scope, clause)?,
            },
            descending: descends(clause),
            missing: missing_of(alloc, Some(mapping.kind(number)), clause)?,
        }),
        None => Ok(by_score_in(descends(clause))),
    }
}

fn sort_at(
    alloc: Global,
    mapping: &Mapping,
    scope: Option<u32>,
    clause: &Json,
) -> Result<Sort, NoMemory>
    ensures { IfOk result (λ sort. sort ≡ sort_at mapping.now scope (view clause.now)) }
{
    let name = sort_name(clause);
    if is_score(name) {
        Ok(by_score_in(descends(clause)))
    } else {
        Ok(field_sort(
            alloc,
            mapping,
            scope,
            clause,
            field_in(mapping, scope, name),
        )?)
    }
}

fn sorts_in(
    alloc: Global,
    mapping: &Mapping,
    scope: Option<u32>,
    clauses: &[Json],
) -> Result<Vec<Sort>, NoMemory>
    ensures { IfOk result (λ sorts. sorts.items ≡ sorts_in mapping.now scope (elements_of (values clauses.now))) }
{
    let mut found = Vec::with_capacity(alloc, clauses.len())?;
    'clauses: for clause in clauses {
        found.push(sort_at(alloc, mapping, scope, clause)?)?;
    }
    Ok(found)
}

fn one_sort(alloc: Global, sort: Sort) -> Result<SortList, NoMemory>
    ensures { IfOk result (λ sorts. sorts ≡ sort ∷ []) }
{
    let mut found = Vec::with_capacity(alloc, 1)?;
    found.push(sort)?;
    Ok(SortList::of(found))
}

fn sort_list(
    alloc: Global,
    mapping: &Mapping,
    scope: Option<u32>,
    sort: &Json,
) -> Result<SortList, NoMemory>
    ensures { IfOk result (λ sorts. sorts ≡ sorts_of mapping.now scope (Some (view sort.now))) }
{
    match sort {
        Json::List(list) => match list.as_slice() {
            [] => Ok(one_sort(alloc, by_score_in(true))?),
            [_clause, _more @ ..] => {
                Ok(SortList::of(sorts_in(alloc, mapping, scope, list.as_slice())?))
            }
        },
        Json::Null | Json::Bool(_) | Json::Whole(_) | Json::Text(_) | Json::Object(_) => {
            Ok(one_sort(alloc, sort_at(alloc, mapping, scope, sort)?)?)
        }
    }
}

/// The sort of a body or of inner hits, in the scope of the objects that it orders.
pub(crate) fn sorts_under(
    alloc: Global,
    mapping: &Mapping,
    scope: Option<u32>,
    object: &JsonObject,
) -> Result<SortList, NoMemory>
    ensures { IfOk result (λ sorts. sorts ≡ sorts_under mapping.now scope (members_of object.now)) }
{
    match scope {
        None => Ok(SortList::of(Vec::new(alloc))),
        Some(_) => match member(object, b"sort") {
            Some(sort) => Ok(sort_list(alloc, mapping, scope, sort)?),
            None => Ok(one_sort(alloc, by_score_in(true))?),
        },
    }
}
