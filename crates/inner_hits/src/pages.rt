//! The pages of inner hits.
ghost use Rattle.std.specs.Prelude.{◌≡◌, ◌++◌, ◌+◌, ◌<◌, ◌≤◌, ◌∷◌, [], true, false, List, get_or, length, map, Some, None, if◌then◌else◌, IfOk, IsErrOf, OnOk};
ghost use Rattle.flattener.specs.StandsFor.{EntryStandsFor, Marked, ViewStandsFor};
ghost use Rattle.flattener.specs.Fits.{ViewFits};
ghost use Rattle.inner_hits.specs.Hits.{AllReadBack, HaveSource, IsAsked, IsOwner, is_below, page_in, row_at, shown_as, some_below};
ghost use Rattle.nested_sort.specs.Filters.{AreFound, filters_of};
ghost use Rattle.std.specs.List.{All};
ghost use Rattle.nested_sort.specs.Listed.{AreDocs, AreHits, IsCapped, IsDocOf, IsHitAt};
ghost use Rattle.inner_hits.specs.Prepared.{ArePrepared, IsPrepared};
ghost use Rattle.inner_hits.specs.Prepared.View.{prepared_of};
ghost use Rattle.inner_hits.specs.Steps.{joined_among, joined_in, is_tree};
ghost use Rattle.join_ordinals.specs.Ordinals.{AreOrdinals};
ghost use Rattle.query_ast.specs.Definition.{definitions_of};
ghost use Rattle.query_ast.specs.Inner.View.{inner_of};
ghost use Rattle.query_ast.specs.InnerHits.{inner_page, inner_pages};
ghost use Rattle.query_ast.specs.Joins.{inner_joins, some_inner_joins};
ghost use Rattle.query_ast.specs.Pages.{hits_of, pages_of};
ghost use Rattle.query_ast.specs.Pages.View.{hit_part, page_part};
ghost use Rattle.query_ast.specs.Resolved.{AreInnerDefinitions, AreSorts, IsInnerDefinition};
ghost use Rattle.query_ast.specs.declared.inner.InnerOver.TheVariants.{Below as OverBelow, Children as OverChildren, Parents as OverParents};
ghost use Rattle.mapping.specs.Mapping.{Mapping as Meaning};
ghost use Rattle.segment.specs.Live.{LiveState};
ghost use Rattle.reply_text.specs.Weight.{hits_weight, pages_weight};
ghost use Rattle.tree_json.specs.Reading.{reading, value};
ghost use Rattle.tree_json.specs.Text.{compact};
ghost use Rattle.tree_json.specs.Value.{JsonValue};
ghost use Rattle.tree_json.specs.View.{view as seen_as};
ghost use Rattle.tree_objects.specs.Object.{root, tree_of};
ghost use Rattle.tree_objects.specs.Tree.{Tree};
ghost use Rattle.view_objects.specs.Hits.{document_object, live_trees, object_at};

use crate::NoMemory;
use crate::below::{children_of, hits_below, parents_of};
use crate::content::{located, text_of};
use crate::page_refusal::PageRefusal;
use crate::prepared::{PreparedDef, PreparedList};
use crate::rows::chosen;
use crate::trees::root_of;
use join_ordinals::JoinOrdinals;
use mapping::{Mapping, scopes_form_chains};
use query_ast::{
    InnerDef, InnerHit, InnerHitList, InnerList, InnerOver, InnerPage, InnerPageList, LevelList,
};
use reply_text::{take_hit, take_page};
use segment::Segment;
use segment_view::View;
use source_steps::Steps;
use std::alloc::Global;
use std::sync::ledger::Ledger;
use tree_json::{Json, JsonRefusal, read};
use tree_objects::Bytes;
use view_objects::{Hit, documents_are_of_objects};

/// The pages of inner hits of the object that a document of the entry at a place stands for, one for each definition.
///
/// What was prepared is that of the definitions over this view, and the definitions were resolved in the scope of the object.
/// `source` is the source of the root of its tree, as it was read. Of a page of joined trees only those that are shown are
/// read, one step each; contents of nested objects are taken from the source of their root.
///
/// `room` is how many bytes a reply has left for them. What they weigh is taken off it, page by page and hit by hit, and where
/// there isn't as much they are too large.
pub fn inner<L: Ledger>(
    alloc: Global,
    view: &View,
    mapping: &Mapping,
    ordinals: &JoinOrdinals,
    definitions: &InnerList,
    prepared: &PreparedList,
    scope: u32,
    place: u64,
    doc: u32,
    source: &Json,
    room: &mut u64,
    steps: &mut Steps<L>,
) -> Result<InnerPageList, PageRefusal>
    requires fits { ViewFits mapping.now view.now }
    requires scope { scope < length mapping.now.scopes }
    requires resolved { AreInnerDefinitions mapping.now scope (definitions_of definitions.now) }
    requires prepared { ArePrepared mapping.now view.now ordinals.now (definitions_of definitions.now) (definitions_of prepared.now) }
    requires joined { some_inner_joins (definitions_of definitions.now) ≡ true → AreOrdinals view.now ordinals.now }
    requires doc { IsDocOf view.now place doc }
    ensures pages { IfOk result (λ pages. (trees : List (List (Marked Tree))) → IsAsked mapping.now view.now trees scope place doc (seen_as source.now)
        → pages ≡ inner_pages mapping.now (live_trees trees) (definitions_of definitions.now) (object_at mapping.now trees place doc)) }
    ensures steps { (trees : List (List (Marked Tree))) → IsAsked mapping.now view.now trees scope place doc (seen_as source.now)
        → steps.new ≤ steps.old + joined_in (pages_of (inner_pages mapping.now (live_trees trees) (definitions_of definitions.now) (object_at mapping.now trees place doc))) }
    ensures room { IfOk result (λ pages. room.old ≡ room.new + pages_weight (pages_of pages)) }
    ensures too_large { IsErrOf result PageRefusal.TooLarge → (trees : List (List (Marked Tree))) → IsAsked mapping.now view.now trees scope place doc (seen_as source.now)
        → room.old < pages_weight (pages_of (inner_pages mapping.now (live_trees trees) (definitions_of definitions.now) (object_at mapping.now trees place doc))) }
{
    Ok(pages_for(
        alloc,
        view,
        mapping,
        ordinals,
        definitions,
        prepared,
        scope,
        place,
        doc,
        source,
        room,
        steps,
    )?)
}

/// The same, where `source` is that of the tree only if some definition is over a nested path.
pub(crate) fn pages_for<L: Ledger>(
    alloc: Global,
    view: &View,
    mapping: &Mapping,
    ordinals: &JoinOrdinals,
    definitions: &InnerList,
    prepared: &PreparedList,
    scope: u32,
    place: u64,
    doc: u32,
    source: &Json,
    room: &mut u64,
    steps: &mut Steps<L>,
) -> Result<InnerPageList, PageRefusal>
    requires fits { ViewFits mapping.now view.now }
    requires scope { scope < length mapping.now.scopes }
    requires resolved { AreInnerDefinitions mapping.now scope (definitions_of definitions.now) }
    requires prepared { ArePrepared mapping.now view.now ordinals.now (definitions_of definitions.now) (definitions_of prepared.now) }
    requires joined { some_inner_joins (definitions_of definitions.now) ≡ true → AreOrdinals view.now ordinals.now }
    requires doc { IsDocOf view.now place doc }
    ensures pages { IfOk result (λ pages. (trees : List (List (Marked Tree))) → IsOwner mapping.now view.now trees scope place doc (some_below (definitions_of definitions.now)) (seen_as source.now)
        → pages ≡ inner_pages mapping.now (live_trees trees) (definitions_of definitions.now) (object_at mapping.now trees place doc)) }
    ensures steps { (trees : List (List (Marked Tree))) → IsOwner mapping.now view.now trees scope place doc (some_below (definitions_of definitions.now)) (seen_as source.now)
        → steps.new ≤ steps.old + joined_in (pages_of (inner_pages mapping.now (live_trees trees) (definitions_of definitions.now) (object_at mapping.now trees place doc))) }
    ensures room { IfOk result (λ pages. room.old ≡ room.new + pages_weight (pages_of pages)) }
    ensures too_large { IsErrOf result PageRefusal.TooLarge → (trees : List (List (Marked Tree))) → IsOwner mapping.now view.now trees scope place doc (some_below (definitions_of definitions.now)) (seen_as source.now)
        → room.old < pages_weight (pages_of (inner_pages mapping.now (live_trees trees) (definitions_of definitions.now) (object_at mapping.now trees place doc))) }
{
    let mut pages = Vec::new(alloc);
    add_pages(
        alloc,
        view,
        mapping,
        ordinals,
        definitions.as_slice(),
        prepared.as_slice(),
        scope,
        place as usize,
        doc,
        source,
        &mut pages,
        room,
        steps,
    )?;
    Ok(InnerPageList::of(pages))
}

/// Adds a page for each definition.
#[cycle(pages)]
#[tactic(auto, using(crate::proofs::Arms::needs, crate::proofs::Arms::owners))]
fn add_pages<L: Ledger>(
    alloc: Global,
    view: &View,
    mapping: &Mapping,
    ordinals: &JoinOrdinals,
    definitions: &[InnerDef],
    prepared: &[PreparedDef],
    scope: u32,
    place: usize,
    doc: u32,
    source: &Json,
    pages: &mut Vec<InnerPage>,
    room: &mut u64,
    steps: &mut Steps<L>,
) -> Result<(), PageRefusal>
    requires fits { ViewFits mapping.now view.now }
    requires scope { scope < length mapping.now.scopes }
    requires resolved { AreInnerDefinitions mapping.now scope (definitions_of (map inner_of definitions.now)) }
    requires prepared { ArePrepared mapping.now view.now ordinals.now (definitions_of (map inner_of definitions.now)) (definitions_of (map prepared_of prepared.now)) }
    requires joined { some_inner_joins (definitions_of (map inner_of definitions.now)) ≡ true → AreOrdinals view.now ordinals.now }
    requires doc { IsDocOf view.now place doc }
    ensures pages { OnOk result ((trees : List (List (Marked Tree))) → IsOwner mapping.now view.now trees scope place doc (some_below (definitions_of (map inner_of definitions.now))) (seen_as source.now)
        → map page_part pages.new.items ≡ map page_part pages.old.items ++ inner_pages mapping.now (live_trees trees) (definitions_of (map inner_of definitions.now)) (object_at mapping.now trees place doc)) }
    ensures steps { (trees : List (List (Marked Tree))) → IsOwner mapping.now view.now trees scope place doc (some_below (definitions_of (map inner_of definitions.now))) (seen_as source.now)
        → steps.new ≤ steps.old + joined_in (pages_of (inner_pages mapping.now (live_trees trees) (definitions_of (map inner_of definitions.now)) (object_at mapping.now trees place doc))) }
    ensures room { OnOk result (room.old + pages_weight (pages_of (map page_part pages.old.items)) ≡ room.new + pages_weight (pages_of (map page_part pages.new.items))) }
    ensures too_large { IsErrOf result PageRefusal.TooLarge → (trees : List (List (Marked Tree))) → IsOwner mapping.now view.now trees scope place doc (some_below (definitions_of (map inner_of definitions.now))) (seen_as source.now)
        → room.old < pages_weight (pages_of (inner_pages mapping.now (live_trees trees) (definitions_of (map inner_of definitions.now)) (object_at mapping.now trees place doc))) }
{
    match definitions {
        [] => Ok(()),
        [def, rest @ ..] => match prepared {
            [] => unreachable!(),
            [own, others @ ..] => {
                take_page(room)?;
                let page = page(
                    alloc, view, mapping, ordinals, def, own, scope, place, doc, source, room,
                    steps,
                )?;
                pages.push(page)?;
                add_pages(
                    alloc, view, mapping, ordinals, rest, others, scope, place, doc, source, pages,
                    room, steps,
                )
            }
        },
    }
}

/// The page of a definition.
#[cycle(pages)]
#[tactic(auto, using(crate::proofs::Arms::needs, crate::proofs::Arms::evaluated, crate::proofs::Arms::resolved))]
fn page<L: Ledger>(
    alloc: Global,
    view: &View,
    mapping: &Mapping,
    ordinals: &JoinOrdinals,
    def: &InnerDef,
    prepared: &PreparedDef,
    scope: u32,
    place: usize,
    doc: u32,
    source: &Json,
    room: &mut u64,
    steps: &mut Steps<L>,
) -> Result<InnerPage, PageRefusal>
    requires fits { ViewFits mapping.now view.now }
    requires scope { scope < length mapping.now.scopes }
    requires resolved { IsInnerDefinition mapping.now scope (inner_of def.now) }
    requires prepared { IsPrepared mapping.now view.now ordinals.now (inner_of def.now) (prepared_of prepared.now) }
    requires joined { inner_joins (inner_of def.now) ≡ true → AreOrdinals view.now ordinals.now }
    requires doc { IsDocOf view.now place doc }
    ensures page { IfOk result (λ page. (trees : List (List (Marked Tree))) → IsOwner mapping.now view.now trees scope place doc (is_below (inner_of def.now)) (seen_as source.now)
        → page_part page ≡ inner_page mapping.now (live_trees trees) (inner_of def.now) (object_at mapping.now trees place doc)) }
    ensures steps { (trees : List (List (Marked Tree))) → IsOwner mapping.now view.now trees scope place doc (is_below (inner_of def.now)) (seen_as source.now)
        → steps.new ≤ steps.old + joined_among (inner_page mapping.now (live_trees trees) (inner_of def.now) (object_at mapping.now trees place doc)).hits }
    ensures room { IfOk result (λ page. room.old ≡ room.new + hits_weight (page_part page).hits) }
    ensures too_large { IsErrOf result PageRefusal.TooLarge → (trees : List (List (Marked Tree))) → IsOwner mapping.now view.now trees scope place doc (is_below (inner_of def.now)) (seen_as source.now)
        → room.old < hits_weight (inner_page mapping.now (live_trees trees) (inner_of def.now) (object_at mapping.now trees place doc)).hits }
{
    match def.over {
        InnerOver::Below(path) => Ok(below_page(
            alloc, view, mapping, ordinals, def, prepared, path, scope, place, doc, source, room,
            steps,
        )?),
        InnerOver::Children(relation) => Ok(children_page(
            alloc, view, mapping, ordinals, def, prepared, relation, scope, place, doc, source,
            room, steps,
        )?),
        InnerOver::Parents(relation) => Ok(parents_page(
            alloc, view, mapping, ordinals, def, prepared, relation, scope, place, doc, source,
            room, steps,
        )?),
        InnerOver::Ignored => Ok(empty_page(alloc, def)?),
    }
}

/// The page of a definition over the objects at a nested path.
#[cycle(pages)]
#[tactic(auto, using(crate::proofs::Arms::needs, crate::proofs::Arms::evaluated, crate::proofs::Arms::resolved))]
fn below_page<L: Ledger>(
    alloc: Global,
    view: &View,
    mapping: &Mapping,
    ordinals: &JoinOrdinals,
    def: &InnerDef,
    prepared: &PreparedDef,
    path: u32,
    scope: u32,
    place: usize,
    doc: u32,
    source: &Json,
    room: &mut u64,
    steps: &mut Steps<L>,
) -> Result<InnerPage, PageRefusal>
    requires fits { ViewFits mapping.now view.now }
    requires scope { scope < length mapping.now.scopes }
    requires over { def.now.over ≡ OverBelow path }
    requires resolved { IsInnerDefinition mapping.now scope (inner_of def.now) }
    requires prepared { IsPrepared mapping.now view.now ordinals.now (inner_of def.now) (prepared_of prepared.now) }
    requires joined { inner_joins (inner_of def.now) ≡ true → AreOrdinals view.now ordinals.now }
    requires doc { IsDocOf view.now place doc }
    ensures page { IfOk result (λ page. (trees : List (List (Marked Tree))) → IsOwner mapping.now view.now trees scope place doc (is_below (inner_of def.now)) (seen_as source.now)
        → page_part page ≡ inner_page mapping.now (live_trees trees) (inner_of def.now) (object_at mapping.now trees place doc)) }
    ensures steps { (trees : List (List (Marked Tree))) → IsOwner mapping.now view.now trees scope place doc (is_below (inner_of def.now)) (seen_as source.now)
        → steps.new ≤ steps.old + joined_among (inner_page mapping.now (live_trees trees) (inner_of def.now) (object_at mapping.now trees place doc)).hits }
    ensures room { IfOk result (λ page. room.old ≡ room.new + hits_weight (page_part page).hits) }
    ensures too_large { IsErrOf result PageRefusal.TooLarge → (trees : List (List (Marked Tree))) → IsOwner mapping.now view.now trees scope place doc (is_below (inner_of def.now)) (seen_as source.now)
        → room.old < hits_weight (inner_page mapping.now (live_trees trees) (inner_of def.now) (object_at mapping.now trees place doc)).hits }
{
    scopes_form_chains();
    let _scopes = mapping.scope_count();
    let hits = hits_below(alloc, view, &prepared.hits, scope, place, doc)?;
    shown_page(
        alloc, view, mapping, ordinals, def, prepared, path, hits, source, room, steps,
    )
}

/// The page of a definition over the child trees of a relation.
#[cycle(pages)]
#[tactic(auto, using(crate::proofs::Arms::needs, crate::proofs::Arms::evaluated, crate::proofs::Arms::resolved))]
fn children_page<L: Ledger>(
    alloc: Global,
    view: &View,
    mapping: &Mapping,
    ordinals: &JoinOrdinals,
    def: &InnerDef,
    prepared: &PreparedDef,
    relation: u32,
    scope: u32,
    place: usize,
    doc: u32,
    source: &Json,
    room: &mut u64,
    steps: &mut Steps<L>,
) -> Result<InnerPage, PageRefusal>
    requires fits { ViewFits mapping.now view.now }
    requires scope { scope < length mapping.now.scopes }
    requires over { def.now.over ≡ OverChildren relation }
    requires resolved { IsInnerDefinition mapping.now scope (inner_of def.now) }
    requires prepared { IsPrepared mapping.now view.now ordinals.now (inner_of def.now) (prepared_of prepared.now) }
    requires joined { inner_joins (inner_of def.now) ≡ true → AreOrdinals view.now ordinals.now }
    requires doc { IsDocOf view.now place doc }
    ensures page { IfOk result (λ page. (trees : List (List (Marked Tree))) → IsOwner mapping.now view.now trees scope place doc (is_below (inner_of def.now)) (seen_as source.now)
        → page_part page ≡ inner_page mapping.now (live_trees trees) (inner_of def.now) (object_at mapping.now trees place doc)) }
    ensures steps { (trees : List (List (Marked Tree))) → IsOwner mapping.now view.now trees scope place doc (is_below (inner_of def.now)) (seen_as source.now)
        → steps.new ≤ steps.old + joined_among (inner_page mapping.now (live_trees trees) (inner_of def.now) (object_at mapping.now trees place doc)).hits }
    ensures room { IfOk result (λ page. room.old ≡ room.new + hits_weight (page_part page).hits) }
    ensures too_large { IsErrOf result PageRefusal.TooLarge → (trees : List (List (Marked Tree))) → IsOwner mapping.now view.now trees scope place doc (is_below (inner_of def.now)) (seen_as source.now)
        → room.old < hits_weight (inner_page mapping.now (live_trees trees) (inner_of def.now) (object_at mapping.now trees place doc)).hits }
{
    if scope != 0 {
        return Ok(empty_page(alloc, def)?);
    }
    let kin = prepared.kin.as_slice();
    let hits = children_of(alloc, view, mapping, ordinals, kin, relation, place, doc)?;
    shown_page(
        alloc, view, mapping, ordinals, def, prepared, 0, hits, source, room, steps,
    )
}

/// The page of a definition over the parent tree of a relation.
#[cycle(pages)]
#[tactic(auto, using(crate::proofs::Arms::needs, crate::proofs::Arms::evaluated, crate::proofs::Arms::resolved))]
fn parents_page<L: Ledger>(
    alloc: Global,
    view: &View,
    mapping: &Mapping,
    ordinals: &JoinOrdinals,
    def: &InnerDef,
    prepared: &PreparedDef,
    relation: u32,
    scope: u32,
    place: usize,
    doc: u32,
    source: &Json,
    room: &mut u64,
    steps: &mut Steps<L>,
) -> Result<InnerPage, PageRefusal>
    requires fits { ViewFits mapping.now view.now }
    requires scope { scope < length mapping.now.scopes }
    requires over { def.now.over ≡ OverParents relation }
    requires resolved { IsInnerDefinition mapping.now scope (inner_of def.now) }
    requires prepared { IsPrepared mapping.now view.now ordinals.now (inner_of def.now) (prepared_of prepared.now) }
    requires joined { inner_joins (inner_of def.now) ≡ true → AreOrdinals view.now ordinals.now }
    requires doc { IsDocOf view.now place doc }
    ensures page { IfOk result (λ page. (trees : List (List (Marked Tree))) → IsOwner mapping.now view.now trees scope place doc (is_below (inner_of def.now)) (seen_as source.now)
        → page_part page ≡ inner_page mapping.now (live_trees trees) (inner_of def.now) (object_at mapping.now trees place doc)) }
    ensures steps { (trees : List (List (Marked Tree))) → IsOwner mapping.now view.now trees scope place doc (is_below (inner_of def.now)) (seen_as source.now)
        → steps.new ≤ steps.old + joined_among (inner_page mapping.now (live_trees trees) (inner_of def.now) (object_at mapping.now trees place doc)).hits }
    ensures room { IfOk result (λ page. room.old ≡ room.new + hits_weight (page_part page).hits) }
    ensures too_large { IsErrOf result PageRefusal.TooLarge → (trees : List (List (Marked Tree))) → IsOwner mapping.now view.now trees scope place doc (is_below (inner_of def.now)) (seen_as source.now)
        → room.old < hits_weight (inner_page mapping.now (live_trees trees) (inner_of def.now) (object_at mapping.now trees place doc)).hits }
{
    if scope != 0 {
        return Ok(empty_page(alloc, def)?);
    }
    let kin = prepared.kin.as_slice();
    let hits = parents_of(alloc, view, mapping, ordinals, kin, relation, place, doc)?;
    shown_page(
        alloc, view, mapping, ordinals, def, prepared, 0, hits, source, room, steps,
    )
}

/// A page without hits.
fn empty_page(alloc: Global, def: &InnerDef) -> Result<InnerPage, NoMemory>
    ensures { IfOk result (λ page. page_part page ≡ record { name = def.now.name; hits = hits_of []; total = 0 }) }
{
    Ok(InnerPage {
        name: copied(alloc, &def.name)?,
        hits: InnerHitList::of(Vec::new(alloc)),
        total: 0,
    })
}

/// The same bytes once more.
fn copied(alloc: Global, bytes: &Bytes) -> Result<Bytes, NoMemory>
    ensures { IfOk result (λ copy. copy ≡ bytes.now) }
{
    Ok(Bytes::of(Vec::from_slice(alloc, bytes.as_slice())?))
}

/// The page of a definition among hits of a scope. `source` is that of their tree, where they are nested objects.
#[cycle(pages)]
fn shown_page<L: Ledger>(
    alloc: Global,
    view: &View,
    mapping: &Mapping,
    ordinals: &JoinOrdinals,
    def: &InnerDef,
    prepared: &PreparedDef,
    scope: u32,
    hits: Vec<Hit>,
    source: &Json,
    room: &mut u64,
    steps: &mut Steps<L>,
) -> Result<InnerPage, PageRefusal>
    requires fits { ViewFits mapping.now view.now }
    requires scope { scope < length mapping.now.scopes }
    requires sorts { AreSorts mapping.now scope def.now.sort }
    requires filters { AreFound mapping.now view.now (filters_of def.now.sort) prepared.now.filters.items }
    requires resolved { AreInnerDefinitions mapping.now scope (definitions_of def.now.owned) }
    requires prepared { ArePrepared mapping.now view.now ordinals.now (definitions_of def.now.owned) (definitions_of prepared.now.owned) }
    requires joined { some_inner_joins (definitions_of def.now.owned) ≡ true → AreOrdinals view.now ordinals.now }
    requires docs { AreDocs view.now hits.items }
    requires capped { All IsCapped hits.items }
    ensures page { IfOk result (λ page. (trees : List (List (Marked Tree))) → ViewStandsFor mapping.now view.now trees → AllReadBack (live_trees trees) → AreHits mapping.now scope trees hits.items → HaveSource mapping.now trees scope hits.items (seen_as source.now)
        → page_part page ≡ page_in mapping.now (live_trees trees) (inner_of def.now) (map (row_at mapping.now trees def.now.sort) hits.items)) }
    ensures steps { (trees : List (List (Marked Tree))) → ViewStandsFor mapping.now view.now trees → AllReadBack (live_trees trees) → AreHits mapping.now scope trees hits.items → HaveSource mapping.now trees scope hits.items (seen_as source.now)
        → steps.new ≤ steps.old + joined_among (page_in mapping.now (live_trees trees) (inner_of def.now) (map (row_at mapping.now trees def.now.sort) hits.items)).hits }
    ensures room { IfOk result (λ page. room.old ≡ room.new + hits_weight (page_part page).hits) }
    ensures too_large { IsErrOf result PageRefusal.TooLarge → (trees : List (List (Marked Tree))) → ViewStandsFor mapping.now view.now trees → AllReadBack (live_trees trees) → AreHits mapping.now scope trees hits.items → HaveSource mapping.now trees scope hits.items (seen_as source.now)
        → room.old < hits_weight (page_in mapping.now (live_trees trees) (inner_of def.now) (map (row_at mapping.now trees def.now.sort) hits.items)).hits }
{
    let found = hits.as_slice();
    let filters = prepared.filters.as_slice();
    let page = chosen(
        alloc, view, mapping, found, filters, scope, &def.sort, def.from, def.size,
    )?;
    let listed = page.as_slice();
    let shown = shown_hits(
        alloc, view, mapping, ordinals, def, prepared, scope, listed, source, room, steps,
    )?;
    Ok(InnerPage {
        name: copied(alloc, &def.name)?,
        hits: InnerHitList::of(shown),
        total: hits.len() as u64,
    })
}

/// Hits as they are shown, each with its own pages.
#[cycle(pages)]
fn shown_hits<L: Ledger>(
    alloc: Global,
    view: &View,
    mapping: &Mapping,
    ordinals: &JoinOrdinals,
    def: &InnerDef,
    prepared: &PreparedDef,
    scope: u32,
    hits: &[Hit],
    source: &Json,
    room: &mut u64,
    steps: &mut Steps<L>,
) -> Result<Vec<InnerHit>, PageRefusal>
    requires fits { ViewFits mapping.now view.now }
    requires scope { scope < length mapping.now.scopes }
    requires resolved { AreInnerDefinitions mapping.now scope (definitions_of def.now.owned) }
    requires prepared { ArePrepared mapping.now view.now ordinals.now (definitions_of def.now.owned) (definitions_of prepared.now.owned) }
    requires joined { some_inner_joins (definitions_of def.now.owned) ≡ true → AreOrdinals view.now ordinals.now }
    requires docs { AreDocs view.now hits.now }
    ensures hits { IfOk result (λ shown. (trees : List (List (Marked Tree))) → ViewStandsFor mapping.now view.now trees → AllReadBack (live_trees trees) → AreHits mapping.now scope trees hits.now → HaveSource mapping.now trees scope hits.now (seen_as source.now)
        → map hit_part shown.items ≡ map (shown_as mapping.now trees (inner_of def.now)) hits.now) }
    ensures steps { (trees : List (List (Marked Tree))) → ViewStandsFor mapping.now view.now trees → AllReadBack (live_trees trees) → AreHits mapping.now scope trees hits.now → HaveSource mapping.now trees scope hits.now (seen_as source.now)
        → steps.new ≤ steps.old + joined_among (hits_of (map (shown_as mapping.now trees (inner_of def.now)) hits.now)) }
    ensures room { IfOk result (λ shown. room.old ≡ room.new + hits_weight (hits_of (map hit_part shown.items))) }
    ensures too_large { IsErrOf result PageRefusal.TooLarge → (trees : List (List (Marked Tree))) → ViewStandsFor mapping.now view.now trees → AllReadBack (live_trees trees) → AreHits mapping.now scope trees hits.now → HaveSource mapping.now trees scope hits.now (seen_as source.now)
        → room.old < hits_weight (hits_of (map (shown_as mapping.now trees (inner_of def.now)) hits.now)) }
{
    let mut shown = Vec::with_capacity(alloc, hits.len())?;
    'hits: for hit in hits {
        let one = shown_hit(
            alloc, view, mapping, ordinals, def, prepared, scope, *hit, source, room, steps,
        )?;
        take_hit(&one.source, room)?;
        shown.push(one)?;
    }
    Ok(shown)
}

/// A hit as it is shown: at the scope of roots a tree, else an object inside one.
#[cycle(pages)]
fn shown_hit<L: Ledger>(
    alloc: Global,
    view: &View,
    mapping: &Mapping,
    ordinals: &JoinOrdinals,
    def: &InnerDef,
    prepared: &PreparedDef,
    scope: u32,
    hit: Hit,
    source: &Json,
    room: &mut u64,
    steps: &mut Steps<L>,
) -> Result<InnerHit, PageRefusal>
    requires fits { ViewFits mapping.now view.now }
    requires scope { scope < length mapping.now.scopes }
    requires resolved { AreInnerDefinitions mapping.now scope (definitions_of def.now.owned) }
    requires prepared { ArePrepared mapping.now view.now ordinals.now (definitions_of def.now.owned) (definitions_of prepared.now.owned) }
    requires joined { some_inner_joins (definitions_of def.now.owned) ≡ true → AreOrdinals view.now ordinals.now }
    requires doc { IsDocOf view.now hit.place hit.doc }
    ensures hit { IfOk result (λ shown. (trees : List (List (Marked Tree))) → ViewStandsFor mapping.now view.now trees → AllReadBack (live_trees trees) → IsHitAt mapping.now scope trees hit.place hit.doc
        → (0 < scope → seen_as source.now ≡ (tree_of (object_at mapping.now trees hit.place hit.doc)).source) → hit_part shown ≡ shown_as mapping.now trees (inner_of def.now) hit) }
    ensures steps { (trees : List (List (Marked Tree))) → ViewStandsFor mapping.now view.now trees → AllReadBack (live_trees trees) → IsHitAt mapping.now scope trees hit.place hit.doc
        → (0 < scope → seen_as source.now ≡ (tree_of (object_at mapping.now trees hit.place hit.doc)).source) → steps.new ≤ steps.old + joined_among (hits_of (shown_as mapping.now trees (inner_of def.now) hit ∷ [])) }
    ensures room { IfOk result (λ shown. room.old ≡ room.new + pages_weight (hit_part shown).inner) }
    ensures too_large { IsErrOf result PageRefusal.TooLarge → (trees : List (List (Marked Tree))) → ViewStandsFor mapping.now view.now trees → AllReadBack (live_trees trees) → IsHitAt mapping.now scope trees hit.place hit.doc
        → (0 < scope → seen_as source.now ≡ (tree_of (object_at mapping.now trees hit.place hit.doc)).source) → room.old < pages_weight (shown_as mapping.now trees (inner_of def.now) hit).inner }
{
    if scope == 0 {
        return Ok(tree_hit(
            alloc, view, mapping, ordinals, def, prepared, hit, room, steps,
        )?);
    }
    Ok(nested_hit(
        alloc, view, mapping, ordinals, def, prepared, scope, hit, source, room, steps,
    )?)
}

/// A nested object as it is shown.
#[cycle(pages)]
fn nested_hit<L: Ledger>(
    alloc: Global,
    view: &View,
    mapping: &Mapping,
    ordinals: &JoinOrdinals,
    def: &InnerDef,
    prepared: &PreparedDef,
    scope: u32,
    hit: Hit,
    source: &Json,
    room: &mut u64,
    steps: &mut Steps<L>,
) -> Result<InnerHit, PageRefusal>
    requires nested { 0 < scope }
    requires fits { ViewFits mapping.now view.now }
    requires scope { scope < length mapping.now.scopes }
    requires resolved { AreInnerDefinitions mapping.now scope (definitions_of def.now.owned) }
    requires prepared { ArePrepared mapping.now view.now ordinals.now (definitions_of def.now.owned) (definitions_of prepared.now.owned) }
    requires joined { some_inner_joins (definitions_of def.now.owned) ≡ true → AreOrdinals view.now ordinals.now }
    requires doc { IsDocOf view.now hit.place hit.doc }
    ensures hit { IfOk result (λ shown. (trees : List (List (Marked Tree))) → IsAsked mapping.now view.now trees scope hit.place hit.doc (seen_as source.now)
        → hit_part shown ≡ shown_as mapping.now trees (inner_of def.now) hit) }
    ensures steps { (trees : List (List (Marked Tree))) → IsAsked mapping.now view.now trees scope hit.place hit.doc (seen_as source.now)
        → steps.new ≤ steps.old + joined_among (hits_of (shown_as mapping.now trees (inner_of def.now) hit ∷ [])) }
    ensures room { IfOk result (λ shown. room.old ≡ room.new + pages_weight (hit_part shown).inner) }
    ensures too_large { IsErrOf result PageRefusal.TooLarge → (trees : List (List (Marked Tree))) → IsAsked mapping.now view.now trees scope hit.place hit.doc (seen_as source.now) → room.old < pages_weight (shown_as mapping.now trees (inner_of def.now) hit).inner }
{
    documents_are_of_objects();
    let place = hit.place as usize;
    let segment = view.entries()[place].segment();
    let found = located(alloc, segment, mapping, source, scope, hit.doc)?;
    let text = text_of(alloc, def.source, found.content)?;
    let mut pages = Vec::new(alloc);
    add_pages(
        alloc,
        view,
        mapping,
        ordinals,
        def.owned.as_slice(),
        prepared.owned.as_slice(),
        scope,
        hit.place as usize,
        hit.doc,
        source,
        &mut pages,
        room,
        steps,
    )?;
    Ok(InnerHit {
        id: root_id(alloc, segment, hit.doc)?,
        levels: LevelList::of(found.levels),
        score: hit.score,
        source: text,
        inner: InnerPageList::of(pages),
    })
}

/// The id of a document's tree.
#[tactic(auto, using(crate::proofs::Numbers::kept))]
fn root_id(alloc: Global, segment: &Segment, doc: u32) -> Result<Bytes, NoMemory>
    requires { doc < segment.now.documents }
    ensures { IfOk result (λ id. (m : Meaning) (bits : LiveState) (trees : List (Marked Tree)) → EntryStandsFor m segment.now bits trees → id ≡ (tree_of (document_object m trees doc)).id) }
{
    let root = root_of(segment, doc);
    Ok(Bytes::of(Vec::from_slice(alloc, segment.root_id(root))?))
}

/// A joined tree as it is shown. Its source is parsed only where the pages inside it show objects of it.
#[cycle(pages)]
fn tree_hit<L: Ledger>(
    alloc: Global,
    view: &View,
    mapping: &Mapping,
    ordinals: &JoinOrdinals,
    def: &InnerDef,
    prepared: &PreparedDef,
    hit: Hit,
    room: &mut u64,
    steps: &mut Steps<L>,
) -> Result<InnerHit, PageRefusal>
    requires fits { ViewFits mapping.now view.now }
    requires resolved { AreInnerDefinitions mapping.now 0 (definitions_of def.now.owned) }
    requires prepared { ArePrepared mapping.now view.now ordinals.now (definitions_of def.now.owned) (definitions_of prepared.now.owned) }
    requires joined { some_inner_joins (definitions_of def.now.owned) ≡ true → AreOrdinals view.now ordinals.now }
    requires doc { IsDocOf view.now hit.place hit.doc }
    ensures hit { IfOk result (λ shown. (trees : List (List (Marked Tree))) → ViewStandsFor mapping.now view.now trees → AllReadBack (live_trees trees) → IsHitAt mapping.now 0 trees hit.place hit.doc
        → hit_part shown ≡ shown_as mapping.now trees (inner_of def.now) hit) }
    ensures steps { (trees : List (List (Marked Tree))) → ViewStandsFor mapping.now view.now trees → AllReadBack (live_trees trees) → IsHitAt mapping.now 0 trees hit.place hit.doc
        → steps.new ≤ steps.old + joined_among (hits_of (shown_as mapping.now trees (inner_of def.now) hit ∷ [])) }
    ensures room { IfOk result (λ shown. room.old ≡ room.new + pages_weight (hit_part shown).inner) }
    ensures too_large { IsErrOf result PageRefusal.TooLarge → (trees : List (List (Marked Tree))) → ViewStandsFor mapping.now view.now trees → AllReadBack (live_trees trees) → IsHitAt mapping.now 0 trees hit.place hit.doc → room.old < pages_weight (shown_as mapping.now trees (inner_of def.now) hit).inner }
{
    documents_are_of_objects();
    let place = hit.place as usize;
    let segment = view.entries()[place].segment();
    if def.owned.as_slice().is_empty() {
        return Ok(bare_hit(alloc, segment, def, hit, steps)?);
    }
    let _scopes = mapping.scope_count();
    let text = fetched(alloc, segment, hit.doc, steps)?;
    let source = source_for(alloc, &def.owned, text.as_slice())?;
    let mut pages = Vec::new(alloc);
    add_pages(
        alloc,
        view,
        mapping,
        ordinals,
        def.owned.as_slice(),
        prepared.owned.as_slice(),
        0,
        place,
        hit.doc,
        &source,
        &mut pages,
        room,
        steps,
    )?;
    Ok(InnerHit {
        id: root_id(alloc, segment, hit.doc)?,
        levels: LevelList::of(Vec::new(alloc)),
        score: hit.score,
        source: if_asked(def.source, text),
        inner: InnerPageList::of(pages),
    })
}

/// A joined tree as it is shown, of a definition that owns none. Its source is read only where it is asked for.
fn bare_hit<L: Ledger>(
    alloc: Global,
    segment: &Segment,
    def: &InnerDef,
    hit: Hit,
    steps: &mut Steps<L>,
) -> Result<InnerHit, NoMemory>
    requires none { def.now.owned ≡ [] }
    requires doc { hit.doc < segment.now.documents }
    ensures hit { IfOk result (λ shown. (m : Meaning) (bits : LiveState) (trees : List (List (Marked Tree))) → EntryStandsFor m segment.now bits (get_or trees hit.place []) → object_at m trees hit.place hit.doc ≡ root (tree_of (object_at m trees hit.place hit.doc))
        → hit_part shown ≡ shown_as m trees (inner_of def.now) hit) }
    ensures none { IfOk result (λ shown. shown.inner ≡ []) }
    ensures step { steps.new ≤ steps.old + 1 }
{
    let text = if_wanted(alloc, segment, hit.doc, def.source, steps)?;
    Ok(InnerHit {
        id: root_id(alloc, segment, hit.doc)?,
        levels: LevelList::of(Vec::new(alloc)),
        score: hit.score,
        source: text,
        inner: InnerPageList::of(Vec::new(alloc)),
    })
}

/// A text, where it is asked for. Takes no memory.
pub(crate) fn if_asked(asked: bool, text: Vec<u8>) -> Option<Bytes>
    ensures { result ≡ (if asked then Some text.items else None) }
{
    if asked { Some(Bytes::of(text)) } else { None }
}

/// The stored source of a document's tree, where it is asked for: at most one step.
pub(crate) fn if_wanted<L: Ledger>(
    alloc: Global,
    segment: &Segment,
    doc: u32,
    asked: bool,
    steps: &mut Steps<L>,
) -> Result<Option<Bytes>, NoMemory>
    requires { doc < segment.now.documents }
    ensures text { IfOk result (λ text. (m : Meaning) (bits : LiveState) (trees : List (Marked Tree)) → EntryStandsFor m segment.now bits trees → text ≡ (if asked then Some (compact (tree_of (document_object m trees doc)).source) else None)) }
    ensures step { steps.new ≤ steps.old + 1 }
    ensures unread { asked ≡ false → steps.new ≡ steps.old }
{
    if !asked {
        return Ok(None);
    }
    let text = fetched(alloc, segment, doc, steps)?;
    Ok(Some(Bytes::of(text)))
}

/// The stored source of a document's tree: one step.
#[tactic(auto, using(crate::proofs::Numbers::kept))]
pub(crate) fn fetched<L: Ledger>(
    alloc: Global,
    segment: &Segment,
    doc: u32,
    steps: &mut Steps<L>,
) -> Result<Vec<u8>, NoMemory>
    requires { doc < segment.now.documents }
    ensures source { IfOk result (λ text. (m : Meaning) (bits : LiveState) (trees : List (Marked Tree)) → EntryStandsFor m segment.now bits trees → text.items ≡ compact (tree_of (document_object m trees doc)).source) }
    ensures step { steps.new ≤ steps.old + 1 }
{
    let mut text = Vec::new(alloc);
    segment
        .sources()
        .fetch(root_of(segment, doc), &mut text, steps)?;
    Ok(text)
}

/// A stored source as a value, where some definition is over a nested path; no other needs it, and nothing is parsed.
pub(crate) fn source_for(
    alloc: Global,
    definitions: &InnerList,
    text: &[u8],
) -> Result<Json, NoMemory>
    ensures { IfOk result (λ source. (v : JsonValue) → some_below (definitions_of definitions.now) ≡ true → reading text.now ≡ value v → seen_as source ≡ v) }
{
    if !some_below(definitions.as_slice()) {
        return Ok(Json::Null);
    }
    Ok(source_in(alloc, text)?)
}

/// Whether some definition is over a nested path.
fn some_below(definitions: &[InnerDef]) -> bool
    ensures { result ≡ some_below (definitions_of (map inner_of definitions.now)) }
{
    match definitions {
        [] => false,
        [def, rest @ ..] => is_below(def) || some_below(rest),
    }
}

/// Whether a definition is over a nested path.
fn is_below(def: &InnerDef) -> bool
    ensures { result ≡ is_below (inner_of def.now) }
{
    match def.over {
        InnerOver::Below(_) => true,
        InnerOver::Children(_) | InnerOver::Parents(_) | InnerOver::Ignored => false,
    }
}

/// A stored source as a value. Sources of trees that were read from lines are read again as what they are; of any other
/// the contents are left out.
pub fn source_in(alloc: Global, text: &[u8]) -> Result<Json, NoMemory>
    ensures { IfOk result (λ source. (v : JsonValue) → reading text.now ≡ value v → seen_as source ≡ v) }
{
    match read(alloc, text) {
        Ok(source) => Ok(source),
        Err(JsonRefusal::NoMemory) => Err(NoMemory),
        Err(JsonRefusal::BadJson) | Err(JsonRefusal::FractionNumber) => Ok(Json::Null),
    }
}
