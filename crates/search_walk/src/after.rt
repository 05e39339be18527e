//! Whether the keys of `search_after` are such as the clauses of the sort give.
ghost use Rattle.std.specs.Prelude.{◌≡◌, false, codes, Some};
ghost use Rattle.tree_json.specs.Value.{members_of, member_of, elements_of, element, no_elements};
ghost use Rattle.tree_json.specs.View.{view, values};
ghost use Rattle.search_walk.specs.After.{key_is_taken, has_texts, has_nulls, clause_takes, clauses_take, score_takes, list_takes, sort_takes, keys_are_taken};

use crate::kinds::is_keyword;
use crate::names::kind_named;
use crate::sorts::{given_missing, is_score, sort_name};
use mapping::Mapping;
use tree_json::{Json, JsonObject};

fn key_is_taken(texts: bool, nulls: bool, key: &Json) -> bool
    ensures { result ≡ key_is_taken texts nulls (view key.now) }
{
    match key {
        Json::Null => nulls,
        Json::Whole(_) => !texts,
        Json::Text(_) => texts,
        Json::Bool(_) | Json::List(_) | Json::Object(_) => false,
    }
}

fn has_texts(mapping: &Mapping, clause: &Json) -> bool
    ensures { result ≡ has_texts mapping.now (view clause.now) }
{
    let name = sort_name(clause);
    if is_score(name) {
        return false;
    }
    match kind_named(mapping, name) {
        Some(kind) => is_keyword(kind),
        None => false,
    }
}

fn has_nulls(clause: &Json) -> bool
    ensures { result ≡ has_nulls (view clause.now) }
{
    if is_score(sort_name(clause)) {
        false
    } else {
        given_missing(clause).is_none()
    }
}

fn clause_takes(mapping: &Mapping, clause: &Json, key: &Json) -> bool
    ensures { result ≡ clause_takes mapping.now (view clause.now) (view key.now) }
{
    key_is_taken(has_texts(mapping, clause), has_nulls(clause), key)
}

// A sort has 16 clauses at most.
fn clauses_take(mapping: &Mapping, clauses: &[Json], keys: &[Json]) -> bool
    ensures { result ≡ clauses_take mapping.now (elements_of (values clauses.now)) (elements_of (values keys.now)) }
{
    match clauses {
        [] => true,
        [clause, more @ ..] => match keys {
            [] => true,
            [key, behind @ ..] => {
                clause_takes(mapping, clause, key) && clauses_take(mapping, more, behind)
            }
        },
    }
}

fn score_takes(keys: &[Json]) -> bool
    ensures { result ≡ score_takes (elements_of (values keys.now)) }
{
    match keys {
        [] => true,
        [key, ..] => key_is_taken(false, false, key),
    }
}

fn one_takes(mapping: &Mapping, clause: &Json, keys: &[Json]) -> bool
    ensures { result ≡ clauses_take mapping.now (element (view clause.now) no_elements) (elements_of (values keys.now)) }
{
    match keys {
        [] => true,
        [key, ..] => clause_takes(mapping, clause, key),
    }
}

fn list_takes(mapping: &Mapping, clauses: &[Json], keys: &[Json]) -> bool
    ensures { result ≡ list_takes mapping.now (elements_of (values clauses.now)) (elements_of (values keys.now)) }
{
    match clauses {
        [] => score_takes(keys),
        [_clause, _more @ ..] => clauses_take(mapping, clauses, keys),
    }
}

fn sort_takes(mapping: &Mapping, body: &JsonObject, keys: &[Json]) -> bool
    ensures { result ≡ sort_takes mapping.now (member_of (members_of body.now) (codes "sort")) (elements_of (values keys.now)) }
{
    match body.member(b"sort") {
        None => score_takes(keys),
        Some(sort) => clause_or_list_takes(mapping, sort, keys),
    }
}

fn clause_or_list_takes(mapping: &Mapping, sort: &Json, keys: &[Json]) -> bool
    ensures { result ≡ sort_takes mapping.now (Some (view sort.now)) (elements_of (values keys.now)) }
{
    match sort {
        Json::List(clauses) => list_takes(mapping, clauses.as_slice(), keys),
        Json::Null | Json::Bool(_) | Json::Whole(_) | Json::Text(_) | Json::Object(_) => {
            one_takes(mapping, sort, keys)
        }
    }
}

/// Whether the keys of a body's `search_after` go with its sort.
pub(crate) fn keys_are_taken(mapping: &Mapping, body: &JsonObject) -> bool
    ensures { result ≡ keys_are_taken mapping.now (member_of (members_of body.now) (codes "sort")) (member_of (members_of body.now) (codes "search_after")) }
{
    match body.member(b"search_after") {
        Some(Json::List(keys)) => sort_takes(mapping, body, keys.as_slice()),
        _ => true,
    }
}
