//! The rows of hits.
ghost use Rattle.std.specs.Prelude.{◌≡◌, ◌+◌, ◌<◌, ◌≤◌, ℕ, List, map, option_map, pos, Option, IfOk};
ghost use Rattle.std.specs.List.{All};
ghost use Rattle.flattener.specs.Fits.{EntryFits, SegmentFits, ViewFits};
ghost use Rattle.flattener.specs.StandsFor.{Marked, ViewStandsFor};
ghost use Rattle.hit_order.specs.Table.{directions_of, keys_of_row, number_of_row};
ghost use Rattle.nested_sort.specs.Documents.{number_in, place_of_hit};
ghost use Rattle.nested_sort.specs.Filters.{AreFound, filters_of};
ghost use Rattle.nested_sort.specs.Keyed.{keyed_rows};
ghost use Rattle.nested_sort.specs.Listed.{AreDocs, AreHits, AreKeyed, IsCapped, IsDocOf};
ghost use Rattle.query_ast.specs.Page.{direction_of, page_of};
ghost use Rattle.query_ast.specs.Resolved.{AreSorts};
ghost use Rattle.query_eval.specs.Found.{AreLong, IsSeen};
ghost use Rattle.tree_objects.specs.Object.{Object};
ghost use Rattle.tree_objects.specs.Tree.{Tree};

use crate::NoMemory;
use crate::clauses::clause_columns;
use crate::reached::hits_within;
use block_join::Matches;
use hit_order::{Column, KeyRows, RowPlace};
use mapping::Mapping;
use query_ast::{KeyRow, SortList};
use segment::{Segment, scopes_are_of_documents};
use segment_view::{Entry, View};
use source_steps::Steps;
use std::alloc::Global;
use std::sync::ledger::Ledger;
use view_objects::{Hit, documents_are_of_objects, hits_are_objects};

/// The rows of the documents that were found, in the order of the view, for a page that ends at so many rows behind one, if
/// it is named: for each sort clause the key of each document. Those that no such page can show are left out.
///
/// The clauses were resolved under the mapping in the scope of what was found. `filters` holds, for each `nested` of a
/// clause that has a filter, what that filter finds in the scope of its path: clauses in order, each from the outermost in.
pub fn keys<L: Ledger>(
    alloc: Global,
    view: &View,
    mapping: &Mapping,
    found: &Matches,
    filters: &[Matches],
    scope: u32,
    sorts: &SortList,
    after: Option<&KeyRow>,
    most: usize,
    steps: &mut Steps<L>,
) -> Result<KeyRows, NoMemory>
    requires fits { ViewFits mapping.now view.now }
    requires sorts { AreSorts mapping.now scope sorts.now }
    requires found { AreLong view.now found.now }
    requires filters { AreFound mapping.now view.now (filters_of sorts.now) filters.now }
    ensures rows { IfOk result (λ rows. (given : List Tree → Object → Option ℕ) (trees : List (List (Marked Tree))) (from size : ℕ) → IsSeen mapping.now view.now scope given found.now → ViewStandsFor mapping.now view.now trees → from + size ≤ most
        → page_of keys_of_row number_of_row (map direction_of sorts.now) (option_map (λ row. row.now) after.entry) from size rows.rows ≡ page_of keys_of_row number_of_row (map direction_of sorts.now) (option_map (λ row. row.now) after.entry) from size (keyed_rows mapping.now scope sorts.now given trees)) }
    ensures directions { IfOk result (λ rows. rows.directions ≡ map direction_of sorts.now) }
    ensures steps { steps.new ≡ steps.old }
{
    Ok(rows_of(
        alloc, view, mapping, found, filters, scope, sorts, after, most,
    )?)
}

/// The same without a counter.
fn rows_of(
    alloc: Global,
    view: &View,
    mapping: &Mapping,
    found: &Matches,
    filters: &[Matches],
    scope: u32,
    sorts: &SortList,
    after: Option<&KeyRow>,
    most: usize,
) -> Result<KeyRows, NoMemory>
    requires fits { ViewFits mapping.now view.now }
    requires sorts { AreSorts mapping.now scope sorts.now }
    requires found { AreLong view.now found.now }
    requires filters { AreFound mapping.now view.now (filters_of sorts.now) filters.now }
    ensures rows { IfOk result (λ rows. (given : List Tree → Object → Option ℕ) (trees : List (List (Marked Tree))) (from size : ℕ) → IsSeen mapping.now view.now scope given found.now → ViewStandsFor mapping.now view.now trees → from + size ≤ most
        → page_of keys_of_row number_of_row (map direction_of sorts.now) (option_map (λ row. row.now) after.entry) from size rows.rows ≡ page_of keys_of_row number_of_row (map direction_of sorts.now) (option_map (λ row. row.now) after.entry) from size (keyed_rows mapping.now scope sorts.now given trees)) }
    ensures directions { IfOk result (λ rows. rows.directions ≡ map direction_of sorts.now) }
{
    documents_are_of_objects();
    hits_are_objects();
    let hits = hits_within(
        alloc,
        view.entries(),
        mapping,
        found.as_slice(),
        filters,
        scope,
        sorts.as_slice(),
        after,
        most,
    )?;
    let listed = hits.as_slice();
    let columns = columns(alloc, view, mapping, listed, filters, scope, sorts)?;
    let places = places(alloc, view.entries(), mapping, listed)?;
    Ok(KeyRows::of(columns, places))
}

/// The keys of documents of a scope, in any order: a column for each sort clause, with a key for each document.
///
/// The clauses were resolved under the mapping in the scope of the documents. `filters` is as for `keys`.
pub fn columns(
    alloc: Global,
    view: &View,
    mapping: &Mapping,
    hits: &[Hit],
    filters: &[Matches],
    scope: u32,
    sorts: &SortList,
) -> Result<Vec<Column>, NoMemory>
    requires sorts { AreSorts mapping.now scope sorts.now }
    requires filters { AreFound mapping.now view.now (filters_of sorts.now) filters.now }
    requires hits { AreDocs view.now hits.now }
    requires capped { All IsCapped hits.now }
    ensures directions { IfOk result (λ columns. directions_of columns.items ≡ map direction_of sorts.now) }
    ensures keys { IfOk result (λ columns. (trees : List (List (Marked Tree))) → ViewStandsFor mapping.now view.now trees → AreHits mapping.now scope trees hits.now → AreKeyed mapping.now trees sorts.now hits.now columns.items) }
{
    hits_are_objects();
    documents_are_of_objects();
    Ok(clause_columns(
        alloc,
        view.entries(),
        mapping,
        hits,
        filters,
        scope,
        sorts.as_slice(),
    )?)
}

/// Where hits were found, each with the sequence number of its tree.
fn places(
    alloc: Global,
    entries: &[Entry],
    mapping: &Mapping,
    hits: &[Hit],
) -> Result<Vec<RowPlace>, NoMemory>
    requires fits { All (EntryFits mapping.now) entries.now }
    requires docs { AreDocs entries.now hits.now }
    ensures { IfOk result (λ places. places.items ≡ map (place_of_hit entries.now) hits.now) }
{
    let mut places = Vec::with_capacity(alloc, hits.len())?;
    'hits: for hit in hits {
        places.push(place(entries, mapping, *hit))?;
    }
    Ok(places)
}

/// Where one was found.
fn place(entries: &[Entry], mapping: &Mapping, hit: Hit) -> RowPlace
    requires fits { All (EntryFits mapping.now) entries.now }
    requires doc { IsDocOf entries.now hit.place hit.doc }
    ensures { result ≡ place_of_hit entries.now hit }
{
    let number = tree_number(entries[hit.place as usize].segment(), mapping, hit.doc);
    RowPlace {
        place: hit.place,
        doc: hit.doc,
        number,
    }
}

/// The sequence number of a document's tree.
fn tree_number(segment: &Segment, _mapping: &Mapping, doc: u32) -> i64
    requires fits { SegmentFits _mapping.now segment.now }
    requires within { doc < segment.now.documents }
    ensures { result ≡ pos (number_in segment.now doc) }
{
    scopes_are_of_documents(segment);
    let _documents = segment.docs();
    let root = segment.root_of_doc(doc);
    let number = segment.root_number(root);
    number as i64
}
