//! The limits of a search body: names of inner hits, windows, clauses, depth and terms.
ghost use Rattle.std.specs.Prelude.{◌≡◌, nat_lt, ◌+◌, ◌<◌, ◌^◌, if◌then◌else◌, IsTrue, false, Option, Some, option_map, map, length, codes, IfOk};
ghost use Rattle.std.specs.Cmp.Lexicographic.{slice_cmp};
ghost use Rattle.std.specs.List.{list_any, filter};
ghost use Rattle.std.specs.Ordering.{ordering_then, nat_cmp};
ghost use Rattle.tree_json.specs.Value.{members_of, member_of};
ghost use Rattle.tree_json.specs.View.{view};
ghost use Rattle.search_form.specs.Form.{chosen, has};
ghost use Rattle.search_form.specs.declared.form.Form.TheVariants.{Terms};
ghost use Rattle.search_walk.specs.Refusal.{name_or, inner_name_in, inner_name_of, inner_name_at, inner_names, has_twice, natural_or, window, has_large_window_at, has_large_window, is_clause, most_clauses, is_deep, are_many, are_many_if, has_many_terms_at, has_many_terms, limit_refusal};
ghost use Rattle.search_walk.specs.Names.{text_under};
ghost use Rattle.search_walk.specs.Node.{nodes_of};
ghost use Rattle.search_walk.specs.View.{node_of};

use crate::names::{member, text_of, text_under};
use crate::node::{Node, Walk};
use crate::refusal::SearchRefusal;
use mapping::{Mapping, NoMemory};
use search_form::{ChosenName, Form, chosen};
use std::alloc::Global;
use std::cmp::Ordering;
use tree_json::{Json, JsonObject};

/// The largest `from` and `size` together, of a search and of inner hits.
const LARGEST_WINDOW: u64 = 10_000;

const LARGEST_INNER_WINDOW: u64 = 100;

/// The most queries and buckets of a search, and how deep they may lie.
const MOST_CLAUSES: usize = 1_024;

const DEEPEST: u32 = 30;

/// The most values of one `terms`.
const MOST_TERMS: usize = 65_536;

// ---- names of inner hits

// The name that the inner hits of a clause have, if it has some: their own, or that which stands under a name of the clause.
fn inner_name_in<'a>(default: &[u8], clause: &'a JsonObject) -> Option<&'a [u8]>
    ensures { option_map (λ n. n.now) result ≡ inner_name_in (text_under (members_of clause.now) default.now) (member_of (members_of clause.now) (codes "inner_hits")) }
{
    match member(clause, b"inner_hits") {
        Some(Json::Object(inner)) => Some(name_or(default, clause, inner)),
        _ => None,
    }
}

fn name_or<'a>(default: &[u8], clause: &'a JsonObject, inner: &'a JsonObject) -> &'a [u8]
    ensures { result.now ≡ name_or (text_under (members_of clause.now) default.now) (member_of (members_of inner.now) (codes "name")) }
{
    match member(inner, b"name") {
        Some(name) => text_of(name),
        None => text_under(clause, default),
    }
}

fn inner_name_of<'a>(form: Form, clause: &'a JsonObject) -> Option<&'a [u8]>
    ensures { option_map (λ n. n.now) result ≡ inner_name_of form (members_of clause.now) }
{
    match form {
        Form::Nested => inner_name_in(b"path", clause),
        Form::HasChild => inner_name_in(b"type", clause),
        Form::HasParent => inner_name_in(b"parent_type", clause),
        _ => None,
    }
}

/// The name that the inner hits of a part have, if it has some.
pub(crate) fn inner_name_at<'a>(form: Form, value: &'a Json) -> Option<&'a [u8]>
    ensures { option_map (λ n. n.now) result ≡ inner_name_at form (view value.now) }
{
    match value {
        Json::Object(clause) => inner_name_of(form, clause),
        _ => None,
    }
}

// The order of names by their lengths, and by their bytes where they are as long.
fn by_length(one: &[u8], other: &[u8]) -> Ordering
    ensures { result ≡ ordering_then (nat_cmp (length one.now) (length other.now)) (slice_cmp nat_cmp one.now other.now) }
{
    match one.len().cmp(&other.len()) {
        Ordering::Equal => one.cmp(other),
        Ordering::Less => Ordering::Less,
        Ordering::Greater => Ordering::Greater,
    }
}

// Whether names ascend by their lengths and bytes, as names do that are numbered. Then none comes twice.
#[tactic(auto, using(crate::proofs::Rising::rising))]
fn are_rising(names: &[&[u8]]) -> bool
    ensures { IsTrue result → has_twice (map (λ n. n.now) names.now) ≡ false }
{
    'names: for index in 1..names.len() {
        if !by_length(names[index - 1], names[index]).is_lt() {
            return false;
        }
    }
    true
}

// Whether some name comes twice: of the names in order, one of each is kept.
fn some_twice(alloc: Global, names: &[&[u8]]) -> Result<bool, NoMemory>
    ensures { IfOk result (λ twice. twice ≡ has_twice (map (λ n. n.now) names.now)) }
{
    let mut kept = Vec::with_capacity(alloc, names.len())?;
    kept.extend_from_slice(names)?;
    kept.sort_unstable();
    kept.dedup();
    Ok(kept.as_slice().len() < names.len())
}

fn has_twice(alloc: Global, names: &[&[u8]]) -> Result<bool, NoMemory>
    ensures { IfOk result (λ twice. twice ≡ has_twice (map (λ n. n.now) names.now)) }
{
    if are_rising(names) {
        Ok(false)
    } else {
        Ok(some_twice(alloc, names)?)
    }
}

// ---- windows

fn natural_or(default: u64, object: &JsonObject, name: &[u8]) -> u64
    requires { default < 2 ^ 63 }
    ensures natural { result ≡ natural_or default (member_of (members_of object.now) name.now) }
    ensures small { result < 2 ^ 63 }
{
    match member(object, name) {
        Some(Json::Whole(number)) => { if *number < 0 { default } else { *number as u64 } }
        _ => default,
    }
}

fn window(size: u64, object: &JsonObject) -> u64
    requires { size < 2 ^ 63 }
    ensures { result ≡ window size (members_of object.now) }
{
    natural_or(0, object, b"from") + natural_or(size, object, b"size")
}

/// Whether inner hits want more hits than they may.
pub(crate) fn has_large_window(node: &Node<'_>) -> bool
    ensures { result ≡ has_large_window (node_of node.now) }
{
    match node.form {
        Form::InnerHits => match node.value {
            Json::Object(inner) => LARGEST_INNER_WINDOW < window(3, inner),
            _ => false,
        },
        _ => false,
    }
}

// ---- clauses, depth and terms

/// Whether a part counts as a clause, and has a depth.
pub(crate) fn is_clause(form: Form) -> bool
    ensures { result ≡ is_clause form }
{
    matches!(form, Form::Query | Form::Bucket)
}

fn are_many_clauses(count: usize, body: &JsonObject) -> bool
    ensures { result ≡ nat_lt most_clauses (count + (if has (members_of body.now) (codes "query") then 0 else 1)) }
{
    if body.member(b"query").is_some() {
        MOST_CLAUSES < count
    } else {
        MOST_CLAUSES <= count
    }
}

/// Whether a clause lies deeper than it may.
pub(crate) fn is_deep(node: &Node<'_>) -> bool
    ensures { result ≡ is_deep (node_of node.now) }
{
    is_clause(node.form) && DEEPEST < node.level
}

#[tactic(auto, using(search_form::specs::Lengths::lengths))]
fn are_many(value: &Json) -> bool
    ensures { result ≡ are_many (view value.now) }
{
    match value {
        Json::List(list) => MOST_TERMS < list.as_slice().len(),
        _ => false,
    }
}

fn are_many_in(terms: &JsonObject) -> bool
    ensures { result ≡ are_many_if (chosen Terms (members_of terms.now)) }
{
    match chosen(Form::Terms, terms) {
        Some(ChosenName { value, .. }) => are_many(value),
        None => false,
    }
}

/// Whether `terms` has more values than it may.
pub(crate) fn has_many_terms(node: &Node<'_>) -> bool
    ensures { result ≡ has_many_terms (node_of node.now) }
{
    match node.form {
        Form::Terms => match node.value {
            Json::Object(terms) => are_many_in(terms),
            _ => false,
        },
        _ => false,
    }
}

/// The first limit that a body passes, by what was met of its parts under the mapping.
pub(crate) fn limit_refusal(
    alloc: Global,
    _mapping: &Mapping,
    body: &JsonObject,
    walk: &Walk<'_>,
) -> Result<Option<SearchRefusal>, NoMemory>
    requires names { map (λ n. n.now) walk.now.names.items ≡ inner_names (nodes_of _mapping.now (members_of body.now)) }
    requires clauses { walk.now.clauses ≡ length (filter (λ n. is_clause n.form) (nodes_of _mapping.now (members_of body.now))) }
    requires large { walk.now.has_large_window ≡ list_any has_large_window (nodes_of _mapping.now (members_of body.now)) }
    requires deep { walk.now.is_deep ≡ list_any is_deep (nodes_of _mapping.now (members_of body.now)) }
    requires terms { walk.now.has_many_terms ≡ list_any has_many_terms (nodes_of _mapping.now (members_of body.now)) }
    ensures { IfOk result (λ refusal. refusal ≡ limit_refusal (members_of body.now) (nodes_of _mapping.now (members_of body.now))) }
{
    let twice = has_twice(alloc, walk.names.as_slice())?;
    Ok(if twice {
        Some(SearchRefusal::DuplicateInnerName)
    } else if LARGEST_WINDOW < window(10, body) {
        Some(SearchRefusal::WindowTooLarge)
    } else if walk.has_large_window {
        Some(SearchRefusal::InnerWindowTooLarge)
    } else if are_many_clauses(walk.clauses, body) {
        Some(SearchRefusal::TooManyClauses)
    } else if walk.is_deep {
        Some(SearchRefusal::QueryTooDeep)
    } else if walk.has_many_terms {
        Some(SearchRefusal::TooManyTerms)
    } else {
        None
    })
}
