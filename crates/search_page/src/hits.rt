//! The hits of rows.
ghost use Rattle.std.specs.Prelude.{◌≡◌, ◌≤◌, ◌+◌, ◌<◌, List, [], None, true, false, length, get_or, IfOk, IfSome, IsErrOf};
ghost use Rattle.std.specs.List.{filter_map, sum_by};
ghost use Rattle.std.specs.Option.{option_map};
ghost use Rattle.flattener.specs.Fits.{ViewFits};
ghost use Rattle.flattener.specs.StandsFor.{Marked};
ghost use Rattle.inner_hits.specs.Prepared.{ArePrepared};
ghost use Rattle.join_ordinals.specs.Ordinals.{AreOrdinals};
ghost use Rattle.nested_sort.specs.Listed.{IsHitAt};
ghost use Rattle.query_ast.specs.Definition.{definitions_of};
ghost use Rattle.query_ast.specs.InnerHits.{source_of};
ghost use Rattle.query_ast.specs.Joins.{some_inner_joins};
ghost use Rattle.query_ast.specs.Resolved.{AreInnerDefinitions};
ghost use Rattle.reply_text.specs.Weight.{whole_weight};
ghost use Rattle.search_page.specs.Hits.{AreRootRows, bare_of, hit_at, root_marks, row_object, row_pages, row_reads, score_or_zero, shown_at, weight_or_zero};
ghost use Rattle.search_page.specs.Searched.{AreSearched};
ghost use Rattle.segment.specs.Live.{root_of as block_root};
ghost use Rattle.tree_objects.specs.Tree.{Tree};

use crate::found_refusal::FoundRefusal;
use block_join::{Matches, Scored};
use hit_order::KeyRows;
use inner_hits::{PreparedList, shown};
use join_ordinals::JoinOrdinals;
use mapping::Mapping;
use query_ast::{Hit, KeyRow, SearchBody};
use reply_text::take_hit;
use segment::{Segment, scopes_are_of_documents};
use segment_view::View;
use source_steps::Steps;
use std::alloc::Global;
use std::sync::ledger::Ledger;
use tree_objects::Bytes;

/// The hits of rows that were found at roots, in their order: the stored id and number of each root, its score, its source
/// where it is asked for, and its inner hits. They are too large where they weigh more than the limit.
pub(crate) fn hits_of<L: Ledger>(
    alloc: Global,
    view: &View,
    mapping: &Mapping,
    ordinals: &JoinOrdinals,
    search: &SearchBody,
    prepared: &PreparedList,
    found: &Matches,
    rows: &KeyRows,
    limit: u64,
    steps: &mut Steps<L>,
) -> Result<Vec<Hit>, FoundRefusal>
    requires fits { ViewFits mapping.now view.now }
    requires resolved { AreInnerDefinitions mapping.now 0 (definitions_of search.now.inner) }
    requires prepared { ArePrepared mapping.now view.now ordinals.now (definitions_of search.now.inner) (definitions_of prepared.now) }
    requires joined { some_inner_joins (definitions_of search.now.inner) ≡ true → AreOrdinals view.now ordinals.now }
    ensures hits { IfOk result (λ hits. (trees : List (List (Marked Tree))) → AreSearched mapping.now view.now trees → AreRootRows mapping.now trees rows.now.rows
        → hits.items ≡ filter_map (shown_at mapping.now view.now found.now trees search.now) rows.now.rows) }
    ensures reads { (trees : List (List (Marked Tree))) → AreSearched mapping.now view.now trees → AreRootRows mapping.now trees rows.now.rows
        → steps.new ≤ steps.old + sum_by (row_reads mapping.now trees search.now) rows.now.rows }
    ensures unread { search.now.source ≡ false → search.now.inner ≡ [] → steps.new ≡ steps.old }
    ensures within { IfOk result (λ hits. sum_by whole_weight hits.items ≤ limit) }
    ensures too_large { IsErrOf result FoundRefusal.TooLarge → (trees : List (List (Marked Tree))) → AreSearched mapping.now view.now trees → AreRootRows mapping.now trees rows.now.rows
        → limit < sum_by whole_weight (filter_map (shown_at mapping.now view.now found.now trees search.now) rows.now.rows) }
{
    let mut hits = Vec::with_capacity(alloc, rows.len())?;
    let mut room = limit;
    'rows: for at in 0..rows.len() {
        let row = rows.row(alloc, at)?;
        let hit = hit(
            alloc, view, mapping, ordinals, search, prepared, found, row, &mut room, steps,
        )?;
        if let Some(hit) = hit {
            hits.push(hit)?;
        }
    }
    Ok(hits)
}

/// The hit of a row; None where there is no such document.
#[tactic(auto, unfolding(crate::specs::Hits::hit_at))]
fn hit<L: Ledger>(
    alloc: Global,
    view: &View,
    mapping: &Mapping,
    ordinals: &JoinOrdinals,
    search: &SearchBody,
    prepared: &PreparedList,
    found: &Matches,
    row: KeyRow,
    room: &mut u64,
    steps: &mut Steps<L>,
) -> Result<Option<Hit>, FoundRefusal>
    requires fits { ViewFits mapping.now view.now }
    requires resolved { AreInnerDefinitions mapping.now 0 (definitions_of search.now.inner) }
    requires prepared { ArePrepared mapping.now view.now ordinals.now (definitions_of search.now.inner) (definitions_of prepared.now) }
    requires joined { some_inner_joins (definitions_of search.now.inner) ≡ true → AreOrdinals view.now ordinals.now }
    ensures hit { IfOk result (λ hit. option_map bare_of hit ≡ hit_at view.now found.now row) }
    ensures shown { IfOk result (λ hit. (trees : List (List (Marked Tree))) → AreSearched mapping.now view.now trees → IsHitAt mapping.now 0 trees row.place row.doc
        → IfSome hit (λ hit. (hit.source ≡ source_of search.now.source (row_object mapping.now trees row)) × (hit.inner ≡ row_pages mapping.now trees search.now row))) }
    ensures reads { (trees : List (List (Marked Tree))) → AreSearched mapping.now view.now trees → IsHitAt mapping.now 0 trees row.place row.doc
        → steps.new ≤ steps.old + row_reads mapping.now trees search.now row }
    ensures unread { search.now.source ≡ false → search.now.inner ≡ [] → steps.new ≡ steps.old }
    ensures room { IfOk result (λ hit. room.old ≡ room.new + weight_or_zero hit) }
    ensures too_large { IsErrOf result FoundRefusal.TooLarge → (trees : List (List (Marked Tree))) → AreSearched mapping.now view.now trees → IsHitAt mapping.now 0 trees row.place row.doc
        → room.old < weight_or_zero (shown_at mapping.now view.now found.now trees search.now row) }
{
    let KeyRow {
        keys,
        place,
        doc,
        ..
    } = row;
    let Some(entry) = view.entry(place) else {
        return Ok(None);
    };
    let segment = entry.segment();
    if doc >= segment.docs() {
        return Ok(None);
    }
    let shown = shown(
        alloc,
        view,
        mapping,
        ordinals,
        &search.inner,
        prepared,
        place,
        doc,
        search.source,
        room,
        steps,
    )?;
    take_hit(&shown.source, room)?;
    let root = root_of(segment, doc);
    Ok(Some(Hit {
        id: Bytes::of(Vec::from_slice(alloc, segment.root_id(root))?),
        number: segment.root_number(root),
        score: score_at(found.as_slice(), place, doc),
        keys,
        source: shown.source,
        inner: shown.inner,
    }))
}

/// The score that was found at a document of the entry at a place; 0 where there is none.
fn score_at(found: &[Scored], place: u64, doc: u32) -> u64
    ensures { result ≡ score_or_zero (get_or (get_or found.now place []) doc None) }
{
    match found.get(place as usize) {
        Some(scores) => score_of(scores, doc),
        None => 0,
    }
}

/// The score of a document; 0 where it has none.
fn score_of(scores: &Scored, doc: u32) -> u64
    ensures { result ≡ score_or_zero (get_or scores.now doc None) }
{
    if doc >= scores.len() {
        return 0;
    }
    let mut left = scores.cursor();
    left.skip(doc);
    match left.next_before(doc + 1) {
        Some(score) => score,
        None => 0,
    }
}

/// The root of a document's block, by its index.
fn root_of(segment: &Segment, doc: u32) -> u32
    requires { doc < segment.now.documents }
    ensures within { result < length segment.now.roots }
    ensures root { result ≡ block_root (root_marks segment.now) doc }
{
    scopes_are_of_documents(segment);
    let _documents = segment.docs();
    segment.root_of_doc(doc)
}
