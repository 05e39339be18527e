//! Leaves: queries that look at one document alone.

ghost use Rattle.std.specs.Prelude.{◌≡◌, Some, IsSome, IfOk};
ghost use Rattle.query_ast.specs.Clause.{Leaf};
ghost use Rattle.query_ast.specs.Clause.View.{clause_of};
ghost use Rattle.segment.specs.Live.{IsLiveOver};
ghost use Rattle.leaf_search.specs.Found.{Finds, leaf_of};

use crate::NoMemory;
use crate::on_field::{prefix, range, term, terms};
use crate::on_kind::{existing, phrase, words};
use crate::on_roots::{all, children, none, with_ids};
use block_bits::BitSet;
use mapping::Mapping;
use query_ast::Query;
use segment::{LiveBits, Segment};
use std::alloc::Global;

/// The live documents of a scope at which a leaf holds.
///
/// It costs the postings of the terms that are asked for and some passes over the documents' bits, 64 at a time; a leaf on
/// roots looks at each root. `live` is of the segment, and the query is a leaf that was resolved under the mapping.
pub fn leaf(
    alloc: Global,
    mapping: &Mapping,
    segment: &Segment,
    live: &LiveBits,
    query: &Query,
    scope: u32,
) -> Result<BitSet, NoMemory>
    requires leaf { IsSome (leaf_of (clause_of query.now)) }
    requires live { IsLiveOver segment.now live.now }
    ensures { (l : Leaf) → leaf_of (clause_of query.now) ≡ Some l → IfOk result (Finds mapping.now segment.now live.now scope l) }
{
    match query {
        Query::MatchAll { .. } => Ok(all(alloc, segment, live, scope)?),
        Query::MatchNone => Ok(none(alloc, segment, live, scope)?),
        Query::Ids { ids, .. } => Ok(with_ids(alloc, segment, live, scope, ids.as_slice())?),
        Query::Term { field, value, .. } => {
            Ok(term(alloc, segment, live, scope, *field, value)?)
        }
        Query::Terms { field, values, .. } => {
            Ok(terms(alloc, segment, live, scope, *field, values.as_slice())?)
        }
        Query::Range {
            field,
            low,
            high,
            ..
        } => { Ok(range(alloc, segment, live, scope, *field, low, high)?) }
        Query::Exists { field, .. } => {
            Ok(existing(alloc, mapping, segment, live, scope, *field)?)
        }
        Query::Prefix { field, start, .. } => {
            Ok(prefix(alloc, segment, live, scope, *field, start.as_slice())?)
        }
        Query::MatchWords {
            field,
            value,
            all,
            ..
        } => { Ok(words(alloc, mapping, segment, live, scope, *field, value, *all)?) }
        Query::MatchPhrase { field, value, .. } => {
            Ok(phrase(alloc, mapping, segment, live, scope, *field, value)?)
        }
        Query::ParentId { child, id, .. } => {
            Ok(children(alloc, segment, live, scope, *child, id.as_slice())?)
        }
        _ => Ok(none(alloc, segment, live, scope)?),
    }
}
