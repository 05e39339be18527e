//! Hits in the order of a sort, and a page of them.
ghost use Rattle.std.specs.Prelude.{◌≡◌, List, None, length, map, get_or, IfOk};
ghost use Rattle.std.specs.List.{All, Contains};
ghost use Rattle.flattener.specs.Fits.{ViewFits};
ghost use Rattle.flattener.specs.StandsFor.{Marked, ViewStandsFor};
ghost use Rattle.inner_hits.specs.Hits.{row_at};
ghost use Rattle.inner_hits.specs.Rows.{ArePlaces, IsPlaceOf};
ghost use Rattle.mapping.specs.Mapping.{Mapping as Meaning};
ghost use Rattle.nested_sort.specs.Filters.{AreFound, filters_of};
ghost use Rattle.nested_sort.specs.Listed.{AreDocs, AreHits, IsCapped, IsDocOf, no_hit};
ghost use Rattle.query_ast.specs.Resolved.{AreSorts};
ghost use Rattle.query_ast.specs.Rows.{paged};
ghost use Rattle.tree_objects.specs.Tree.{Tree};

use crate::NoMemory;
use crate::trees::root_of;
use block_join::Matches;
use hit_order::{KeyRows, RowPlace, top};
use mapping::Mapping;
use nested_sort::columns;
use query_ast::SortList;
use segment_view::View;
use std::alloc::Global;
use view_objects::Hit;

/// The page of hits of a scope in the order of a sort.
pub(crate) fn chosen(
    alloc: Global,
    view: &View,
    mapping: &Mapping,
    hits: &[Hit],
    filters: &[Matches],
    scope: u32,
    sorts: &SortList,
    from: u32,
    size: u32,
) -> Result<Vec<Hit>, NoMemory>
    requires fits { ViewFits mapping.now view.now }
    requires sorts { AreSorts mapping.now scope sorts.now }
    requires filters { AreFound mapping.now view.now (filters_of sorts.now) filters.now }
    requires docs { AreDocs view.now hits.now }
    requires capped { All IsCapped hits.now }
    ensures among { IfOk result (λ page. All (Contains hits.now) page.items) }
    ensures docs { IfOk result (λ page. AreDocs view.now page.items) }
    ensures page { IfOk result (λ page. (trees : List (List (Marked Tree))) → ViewStandsFor mapping.now view.now trees → AreHits mapping.now scope trees hits.now
        → map (row_at mapping.now trees sorts.now) page.items ≡ paged sorts.now None from size (map (row_at mapping.now trees sorts.now) hits.now)) }
{
    let columns = columns(alloc, view, mapping, hits, filters, scope, sorts)?;
    let places = places(alloc, view, hits)?;
    let page = top(alloc, KeyRows::of(columns, places), None, from, size)?;
    Ok(picked(alloc, hits, &page)?)
}

/// The hits of rows, each by the index that stands for its place.
fn picked(alloc: Global, hits: &[Hit], page: &KeyRows) -> Result<Vec<Hit>, NoMemory>
    ensures { IfOk result (λ picked. picked.items ≡ map (λ row. get_or hits.now row.place no_hit) page.now.rows) }
{
    let mut picked = Vec::with_capacity(alloc, page.len())?;
    'rows: for at in 0..page.len() {
        picked.push(hit_at(hits, page.place(at).place))?;
    }
    Ok(picked)
}

/// The hit of a row.
fn hit_at(hits: &[Hit], at: u64) -> Hit
    ensures { result ≡ get_or hits.now at no_hit }
{
    match hits.get(at as usize) {
        Some(hit) => *hit,
        None => Hit {
            place: 0,
            doc: 0,
            score: 0,
        },
    }
}

/// The places of rows: each is the index of its hit.
#[tactic(auto, using(crate::proofs::Numbers::placing))]
fn places(alloc: Global, view: &View, hits: &[Hit]) -> Result<Vec<RowPlace>, NoMemory>
    requires fits { (m : Meaning) × ViewFits m view.now }
    requires docs { AreDocs view.now hits.now }
    ensures { IfOk result (λ places. ArePlaces view.now hits.now (length hits.now) places.items) }
{
    let mut places = Vec::with_capacity(alloc, hits.len())?;
    'hits: for at in 0..hits.len() {
        places.push(place(view, at as u64, hits[at]))?;
    }
    Ok(places)
}

/// The place of one row, with the sequence number of its tree.
#[tactic(auto, using(crate::proofs::Between::inside))]
fn place(view: &View, at: u64, hit: Hit) -> RowPlace
    requires fits { (m : Meaning) × ViewFits m view.now }
    requires doc { IsDocOf view.now hit.place hit.doc }
    ensures { IsPlaceOf view.now at hit result }
{
    let entry = hit.place as usize;
    let segment = view.entries()[entry].segment();
    RowPlace {
        place: at,
        doc: hit.doc,
        number: segment.root_number(root_of(segment, hit.doc)) as i64,
    }
}
