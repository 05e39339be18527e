//! What is shown of the trees that hit a search.
ghost use Rattle.std.specs.Prelude.{◌≡◌, ◌+◌, ◌<◌, ◌≤◌, [], true, false, List, Some, None, if◌then◌else◌, IfOk, IsErrOf};
ghost use Rattle.flattener.specs.StandsFor.{EntryStandsFor, Marked, ViewStandsFor};
ghost use Rattle.flattener.specs.Fits.{ViewFits};
ghost use Rattle.inner_hits.specs.Hits.{AllReadBack};
ghost use Rattle.nested_sort.specs.Listed.{IsDocOf, IsHitAt};
ghost use Rattle.inner_hits.specs.Prepared.{ArePrepared};
ghost use Rattle.inner_hits.specs.Steps.{joined_in};
ghost use Rattle.join_ordinals.specs.Ordinals.{AreOrdinals};
ghost use Rattle.query_ast.specs.Definition.{definitions_of};
ghost use Rattle.query_ast.specs.InnerHits.{inner_pages, source_of};
ghost use Rattle.query_ast.specs.Joins.{some_inner_joins};
ghost use Rattle.query_ast.specs.Pages.{pages_of};
ghost use Rattle.query_ast.specs.Resolved.{AreInnerDefinitions};
ghost use Rattle.mapping.specs.Mapping.{Mapping as Meaning};
ghost use Rattle.segment.specs.Live.{LiveState};
ghost use Rattle.reply_text.specs.Weight.{pages_weight};
ghost use Rattle.tree_json.specs.Text.{compact};
ghost use Rattle.tree_objects.specs.Object.{tree_of};
ghost use Rattle.tree_objects.specs.Tree.{Tree};
ghost use Rattle.view_objects.specs.Hits.{document_object, live_trees, object_at};

use crate::NoMemory;
use crate::page_refusal::PageRefusal;
use crate::pages::{fetched, if_asked, if_wanted, pages_for, source_for};
use crate::prepared::PreparedList;
use join_ordinals::JoinOrdinals;
use mapping::Mapping;
use query_ast::{InnerList, InnerPageList};
use segment::Segment;
use segment_view::View;
use source_steps::Steps;
use std::alloc::Global;
use std::sync::ledger::Ledger;
use tree_objects::Bytes;
use view_objects::documents_are_of_objects;

/// What is shown of a tree that hit a search: its source, where it is asked for, and the pages of its inner hits.
#[derive(Drop)]
pub struct ShownTree {
    pub source: Option<Bytes>,
    pub inner: InnerPageList,
}

/// What is shown of the tree of a root's document. Its stored source is read at most once, and not where neither it nor inner
/// hits are asked for; it is parsed only where some definition is over a nested path.
///
/// What was prepared is that of the definitions over this view, and the definitions were resolved at the scope of roots. What the
/// pages weigh is taken off the room of the reply, and where there isn't as much they are too large.
pub fn shown<L: Ledger>(
    alloc: Global,
    view: &View,
    mapping: &Mapping,
    ordinals: &JoinOrdinals,
    definitions: &InnerList,
    prepared: &PreparedList,
    place: u64,
    doc: u32,
    source: bool,
    room: &mut u64,
    steps: &mut Steps<L>,
) -> Result<ShownTree, PageRefusal>
    requires fits { ViewFits mapping.now view.now }
    requires resolved { AreInnerDefinitions mapping.now 0 (definitions_of definitions.now) }
    requires prepared { ArePrepared mapping.now view.now ordinals.now (definitions_of definitions.now) (definitions_of prepared.now) }
    requires joined { some_inner_joins (definitions_of definitions.now) ≡ true → AreOrdinals view.now ordinals.now }
    requires doc { IsDocOf view.now place doc }
    ensures shown { IfOk result (λ shown. (trees : List (List (Marked Tree))) → ViewStandsFor mapping.now view.now trees → AllReadBack (live_trees trees) → IsHitAt mapping.now 0 trees place doc
        → (shown.source ≡ source_of source (object_at mapping.now trees place doc)) × (shown.inner ≡ inner_pages mapping.now (live_trees trees) (definitions_of definitions.now) (object_at mapping.now trees place doc))) }
    ensures steps { (trees : List (List (Marked Tree))) → ViewStandsFor mapping.now view.now trees → AllReadBack (live_trees trees) → IsHitAt mapping.now 0 trees place doc
        → steps.new ≤ steps.old + (1 + joined_in (pages_of (inner_pages mapping.now (live_trees trees) (definitions_of definitions.now) (object_at mapping.now trees place doc)))) }
    ensures unread { source ≡ false → definitions.now ≡ [] → steps.new ≡ steps.old }
    ensures room { IfOk result (λ shown. room.old ≡ room.new + pages_weight (pages_of shown.inner)) }
    ensures too_large { IsErrOf result PageRefusal.TooLarge → (trees : List (List (Marked Tree))) → ViewStandsFor mapping.now view.now trees → AllReadBack (live_trees trees) → IsHitAt mapping.now 0 trees place doc
        → room.old < pages_weight (pages_of (inner_pages mapping.now (live_trees trees) (definitions_of definitions.now) (object_at mapping.now trees place doc))) }
{
    documents_are_of_objects();
    let segment = view.entries()[place as usize].segment();
    if definitions.as_slice().is_empty() {
        return Ok(bare(alloc, segment, definitions, doc, source, steps)?);
    }
    let _scopes = mapping.scope_count();
    let text = fetched(alloc, segment, doc, steps)?;
    let whole = source_for(alloc, definitions, text.as_slice())?;
    let pages = pages_for(
        alloc,
        view,
        mapping,
        ordinals,
        definitions,
        prepared,
        0,
        place,
        doc,
        &whole,
        room,
        steps,
    )?;
    Ok(ShownTree {
        source: if_asked(source, text),
        inner: pages,
    })
}

/// What is shown of a tree where no inner hits are asked for: its source, where it is.
fn bare<L: Ledger>(
    alloc: Global,
    segment: &Segment,
    definitions: &InnerList,
    doc: u32,
    source: bool,
    steps: &mut Steps<L>,
) -> Result<ShownTree, NoMemory>
    requires none { definitions.now ≡ [] }
    requires doc { doc < segment.now.documents }
    ensures source { IfOk result (λ shown. (m : Meaning) (bits : LiveState) (trees : List (Marked Tree)) → EntryStandsFor m segment.now bits trees → shown.source ≡ (if source then Some (compact (tree_of (document_object m trees doc)).source) else None)) }
    ensures inner { IfOk result (λ shown. shown.inner ≡ []) }
    ensures none { definitions.now ≡ [] }
    ensures step { steps.new ≤ steps.old + 1 }
    ensures unread { source ≡ false → steps.new ≡ steps.old }
{
    let _ = definitions;
    let text = if_wanted(alloc, segment, doc, source, steps)?;
    Ok(ShownTree {
        source: text,
        inner: InnerPageList::of(Vec::new(alloc)),
    })
}
