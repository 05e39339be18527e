//! Searches.
ghost use Rattle.std.specs.Prelude.{◌≡◌, IfOk};
ghost use Rattle.query_ast.specs.Search.{everything};

use crate::agg::AggList;
use crate::inner::InnerList;
use crate::no_memory::NoMemory;
use crate::query::{Query, QueryBox};
use crate::sort::{KeyRow, Missing, Sort, SortKey, SortList};
use std::alloc::Global;

/// The body of a search, with its names looked up and its defaults filled in (Elasticsearch reference, search API).
#[derive(Drop)]
pub struct SearchBody {
    pub query: QueryBox,
    /// Without one in the body, `_score` with the greatest first.
    pub sort: SortList,
    /// `search_after`: the hits strictly after this row.
    pub after: Option<KeyRow>,
    pub from: u32,
    pub size: u32,
    pub aggs: AggList,
    /// The definitions of inner hits that the search hit owns.
    pub inner: InnerList,
    /// The point in time whose trees are searched; without one those of now.
    pub pit: Option<u64>,
    /// Whether the hits show their sources.
    pub source: bool,
}

impl SearchBody {
    /// The search for everything: `size` hits with the boost as their score, in order of their sequence numbers.
    pub fn everything(
        alloc: Global,
        boost: u32,
        size: u32,
        source: bool,
    ) -> Result<SearchBody, NoMemory>
        ensures { IfOk result (λ body. body ≡ everything boost size source) }
    {
        let mut sort = Vec::with_capacity(alloc, 1)?;
        sort.push(Sort {
            key: SortKey::Score,
            descending: true,
            missing: Missing::Last,
        })?;
        Ok(SearchBody {
            query: QueryBox::of(alloc, Query::MatchAll { boost })?,
            sort: SortList::of(sort),
            after: None,
            from: 0,
            size,
            aggs: AggList::of(Vec::new(alloc)),
            inner: InnerList::of(Vec::new(alloc)),
            pit: None,
            source,
        })
    }
}
