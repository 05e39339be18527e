//! What was built of a value, where that is known: a definition of inner hits shares the query of its clause.
ghost use Rattle.std.specs.Prelude.{◌≡◌, Some, IfSome};
ghost use Rattle.tree_json.specs.Value.{members_of};
ghost use Rattle.query_ast.specs.Clause.View.{clause_of};
ghost use Rattle.query_parser.specs.Known.{known_of, known_at, known_in, known_under, part_under, one_if, own_query, own_query_of};

use query_ast::{Query, QueryBox};
use tree_json::JsonObject;

/// What was built of a value.
#[derive(Clone, Copy, Drop)]
pub(crate) enum Built<'a> {
    Unknown,
    /// Of what stands under a query's name.
    Clause(&'a Query),
    Query(&'a Query),
    /// Of a list of queries.
    Queries(&'a [Query]),
}

/// What was built of an element of a list.
#[tactic(auto, using(crate::proofs::Known::built_parts))]
pub(crate) fn built_at<'a>(built: Built<'a>, index: usize) -> Built<'a>
    ensures { known_of result ≡ known_at (known_of built.entry) index }
{
    match built {
        Built::Queries(queries) => {
            if index < queries.len() {
                Built::Query(&queries[index])
            } else {
                Built::Unknown
            }
        }
        Built::Unknown | Built::Clause(_) | Built::Query(_) => Built::Unknown,
    }
}

/// What was built of an object, for its members: of a query the only one.
pub(crate) fn built_in<'a>(built: Built<'a>, object: &JsonObject) -> Built<'a>
    ensures { known_of result ≡ known_in (known_of built.entry) (members_of object.now) }
{
    match built {
        Built::Clause(query) => Built::Clause(query),
        Built::Query(query) => match object.as_slice() {
            [] => Built::Unknown,
            [_] => Built::Query(query),
            [_, _, ..] => Built::Unknown,
        },
        Built::Unknown | Built::Queries(_) => Built::Unknown,
    }
}

/// What was built of a member under a name.
pub(crate) fn built_under<'a>(built: Built<'a>, name: &[u8]) -> Built<'a>
    ensures { known_of result ≡ known_under (known_of built.entry) name.now }
{
    match built {
        Built::Clause(query) => part_under(query, name),
        Built::Query(query) => Built::Clause(query),
        Built::Unknown | Built::Queries(_) => Built::Unknown,
    }
}

fn part_under<'a>(query: &'a Query, name: &[u8]) -> Built<'a>
    ensures { known_of result ≡ part_under (clause_of query.now) name.now }
{
    match query {
        Query::Bool {
            must,
            filter,
            should,
            must_not,
            ..
        } => {
            if name == b"must".as_slice() {
                Built::Queries(must.as_slice())
            } else if name == b"filter".as_slice() {
                Built::Queries(filter.as_slice())
            } else if name == b"should".as_slice() {
                Built::Queries(should.as_slice())
            } else if name == b"must_not".as_slice() {
                Built::Queries(must_not.as_slice())
            } else {
                Built::Unknown
            }
        }
        Query::ConstantScore { filter, .. } => one_if(name == b"filter".as_slice(), filter),
        Query::DisMax { queries } => {
            if name == b"queries".as_slice() {
                Built::Queries(queries.as_slice())
            } else {
                Built::Unknown
            }
        }
        Query::Nested { query, .. }
        | Query::ToChild { query, .. }
        | Query::HasChild { query, .. }
        | Query::HasParent { query, .. } => one_if(name == b"query".as_slice(), query),
        Query::MatchAll { .. }
        | Query::MatchNone
        | Query::Ids { .. }
        | Query::Term { .. }
        | Query::Terms { .. }
        | Query::Range { .. }
        | Query::Exists { .. }
        | Query::Prefix { .. }
        | Query::MatchWords { .. }
        | Query::MatchPhrase { .. }
        | Query::ParentId { .. } => Built::Unknown,
    }
}

fn one_if<'a>(is_under: bool, query: &'a QueryBox) -> Built<'a>
    ensures { known_of result ≡ one_if is_under query.now }
{
    if is_under {
        Built::Query(query.get())
    } else {
        Built::Unknown
    }
}

/// The query of a clause that may have inner hits.
pub(crate) fn own_query<'a>(built: Built<'a>) -> Option<&'a QueryBox>
    ensures { IfSome result (λ q. own_query (known_of built.entry) ≡ Some q.now) }
{
    match built {
        Built::Clause(query) => own_query_of(query),
        Built::Unknown | Built::Query(_) | Built::Queries(_) => None,
    }
}

fn own_query_of<'a>(query: &'a Query) -> Option<&'a QueryBox>
    ensures { IfSome result (λ q. own_query_of (clause_of query.now) ≡ Some q.now) }
{
    match query {
        Query::Nested { query, .. }
        | Query::HasChild { query, .. }
        | Query::HasParent { query, .. } => Some(query),
        _ => None,
    }
}
