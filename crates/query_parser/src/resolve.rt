//! The search that a body says, or its refusal.
ghost use Rattle.std.specs.Prelude.{◌≡◌, ◌++◌, map, codes, Some, None, IfOk, IsOk, IsErrOf, pos};
ghost use Rattle.tree_json.specs.Value.{members_of, member_of, elements_of, object};
ghost use Rattle.tree_json.specs.View.{view, values};
ghost use Rattle.query_ast.specs.Resolved.{IsSearch};
ghost use Rattle.search_walk.specs.Refusal.{first_refusal, inner_count as count_of};
ghost use Rattle.query_parser.specs.Search.{key_of, number_of, keys_before, keys_in, last_number, row_of, after_of, pit_of, search_by, search_of};

use crate::buckets::buckets_inside;
use crate::inner::inner_of_body;
use crate::queries::clause_under;
use crate::readings::{copied, natural_under, number_under, unless_false};
use crate::sorts::sorts_under;
use mapping::{Mapping, scopes_form_chains};
use query_ast::{Key, KeyList, KeyRow, NoMemory, SearchBody};
use search_form::Shape;
use search_walk::{KnownNames, SearchRefusal, judged};
use std::alloc::Global;
use tree_json::{Json, JsonObject};

fn key_of(alloc: Global, key: &Json) -> Result<Key, NoMemory>
    ensures { IfOk result (λ k. k ≡ key_of (view key.now)) }
{
    match key {
        Json::Whole(number) => Ok(Key::Number(*number)),
        Json::Text(text) => Ok(Key::Written(copied(alloc, text.as_slice())?)),
        Json::Null | Json::Bool(_) | Json::List(_) | Json::Object(_) => Ok(Key::Null),
    }
}

fn keys_in(alloc: Global, keys: &[Json]) -> Result<Vec<Key>, NoMemory>
    ensures { IfOk result (λ found. found.items ≡ keys_in (elements_of (values keys.now))) }
{
    let mut found = Vec::with_capacity(alloc, keys.len())?;
    'keys: for key in keys {
        found.push(key_of(alloc, key)?)?;
    }
    Ok(found)
}

// All keys but the last.
#[tactic(auto, using(crate::proofs::Keys::keys))]
fn keys_before(alloc: Global, keys: &[Json]) -> Result<Vec<Key>, NoMemory>
    ensures { IfOk result (λ found. found.items ≡ keys_before (elements_of (values keys.now))) }
{
    if keys.is_empty() {
        Ok(Vec::new(alloc))
    } else {
        Ok(keys_in(alloc, keys.split_at(keys.len() - 1).0)?)
    }
}

fn number_of(key: &Json) -> i64
    ensures { result ≡ number_of (view key.now) }
{
    match key {
        Json::Whole(number) => *number,
        _ => 0,
    }
}

fn last_number(keys: &[Json]) -> i64
    ensures { result ≡ last_number (pos 0) (elements_of (values keys.now)) }
{
    let mut number = 0;
    'keys: for key in keys {
        number = number_of(key);
    }
    number
}

fn after_of(alloc: Global, body: &JsonObject) -> Result<Option<KeyRow>, NoMemory>
    ensures { IfOk result (λ row. row ≡ after_of (member_of (members_of body.now) (codes "search_after"))) }
{
    match body.member(b"search_after") {
        Some(Json::List(keys)) => {
            let keys = keys.as_slice();
            Ok(Some(KeyRow {
                keys: KeyList::of(keys_before(alloc, keys)?),
                place: 0,
                doc: 0,
                number: last_number(keys),
            }))
        }
        _ => Ok(None),
    }
}

fn pit_of(body: &JsonObject) -> Option<u64>
    ensures { result ≡ pit_of (member_of (members_of body.now) (codes "pit")) }
{
    match body.member(b"pit") {
        Some(Json::Object(pit)) => natural_under(pit, b"id"),
        _ => None,
    }
}

// The search of a body, so many of whose clauses have inner hits.
fn search_by(
    alloc: Global,
    mapping: &Mapping,
    body: &JsonObject,
    inner_count: usize,
) -> Result<SearchBody, NoMemory>
    requires { inner_count ≡ count_of mapping.now (object (members_of body.now)) }
    ensures { IfOk result (λ search. search ≡ search_by mapping.now (members_of body.now)) }
{
    let mut known = KnownNames::new();
    let query = clause_under(alloc, mapping, &mut known, Some(0), b"query", body)?;
    let inner = inner_of_body(alloc, mapping, &mut known, body, query.get(), inner_count)?;
    Ok(SearchBody {
        query,
        sort: sorts_under(alloc, mapping, Some(0), body)?,
        after: after_of(alloc, body)?,
        from: number_under(10_000, 0, body, b"from"),
        size: number_under(10_000, 10, body, b"size"),
        aggs: buckets_inside(alloc, mapping, Some(0), body)?,
        inner,
        pit: pit_of(body),
        source: unless_false(body, b"_source"),
    })
}

// What isn't refused is resolved: the law that `resolved` hands on.
fn is_resolved(shape: &Shape<'_>, mapping: &Mapping)
    ensures { first_refusal mapping.now shape.now ≡ None → IsSearch mapping.now (search_of mapping.now shape.now) }
{
    shape.members();
    mapping.scope_count();
    scopes_form_chains();
}

/// The search that a body says under a mapping, or its first refusal.
#[tactic(auto, unfolding(crate::specs::Search::search_of))]
pub fn resolved(
    alloc: Global,
    shape: Shape<'_>,
    mapping: &Mapping,
) -> Result<SearchBody, SearchRefusal>
    ensures search { IfOk result (λ s. s ≡ search_of mapping.now shape.entry) }
    ensures is_search { IfOk result (λ s. IsSearch mapping.now s) }
    ensures accepted { IsOk result → first_refusal mapping.now shape.entry ≡ None }
    ensures unknown_path { IsErrOf result SearchRefusal.UnknownPath → first_refusal mapping.now shape.entry ≡ Some SearchRefusal.UnknownPath }
    ensures path_out_of_scope { IsErrOf result SearchRefusal.PathOutOfScope → first_refusal mapping.now shape.entry ≡ Some SearchRefusal.PathOutOfScope }
    ensures unknown_relation { IsErrOf result SearchRefusal.UnknownRelation → first_refusal mapping.now shape.entry ≡ Some SearchRefusal.UnknownRelation }
    ensures bad_value { IsErrOf result SearchRefusal.BadValue → first_refusal mapping.now shape.entry ≡ Some SearchRefusal.BadValue }
    ensures sort_field_unmapped { IsErrOf result SearchRefusal.SortFieldUnmapped → first_refusal mapping.now shape.entry ≡ Some SearchRefusal.SortFieldUnmapped }
    ensures bad_sort { IsErrOf result SearchRefusal.BadSort → first_refusal mapping.now shape.entry ≡ Some SearchRefusal.BadSort }
    ensures duplicate_inner_name { IsErrOf result SearchRefusal.DuplicateInnerName → first_refusal mapping.now shape.entry ≡ Some SearchRefusal.DuplicateInnerName }
    ensures window_too_large { IsErrOf result SearchRefusal.WindowTooLarge → first_refusal mapping.now shape.entry ≡ Some SearchRefusal.WindowTooLarge }
    ensures inner_window_too_large { IsErrOf result SearchRefusal.InnerWindowTooLarge → first_refusal mapping.now shape.entry ≡ Some SearchRefusal.InnerWindowTooLarge }
    ensures too_many_clauses { IsErrOf result SearchRefusal.TooManyClauses → first_refusal mapping.now shape.entry ≡ Some SearchRefusal.TooManyClauses }
    ensures query_too_deep { IsErrOf result SearchRefusal.QueryTooDeep → first_refusal mapping.now shape.entry ≡ Some SearchRefusal.QueryTooDeep }
    ensures too_many_terms { IsErrOf result SearchRefusal.TooManyTerms → first_refusal mapping.now shape.entry ≡ Some SearchRefusal.TooManyTerms }
{
    let inner_count = judged(alloc, &shape, mapping)?;
    is_resolved(&shape, mapping);
    let members = shape.members();
    match search_by(alloc, mapping, members, inner_count) {
        Ok(search) => Ok(search),
        Err(NoMemory) => Err(SearchRefusal::NoMemory),
    }
}
