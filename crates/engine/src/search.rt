//! Searches.

ghost use Rattle.std.specs.Prelude.{◌≡◌, ◌≤◌, ◌+◌, [], true, List, Option, Some, OnOk, OnErr, IfOk, IfSome};
ghost use Rattle.flattener.specs.Fits.{ViewFits};
ghost use Rattle.index_core.specs.Kept.{IndexFits, layout_kept};
ghost use Rattle.join_ordinals.specs.Ordinals.{AreOrdinals};
ghost use Rattle.layout.specs.Layout.{sealed};
ghost use Rattle.machine.specs.Answer.{outcome_of};
ghost use Rattle.machine.specs.Searching.{found_by, refusal_of, search_by, search_over, search_step, searched};
ghost use Rattle.machine.specs.State.{State, sealed_state};
ghost use Rattle.point_in_time.specs.Points.{KeptPoints, entries_under};
ghost use Rattle.query_ast.specs.Resolved.{IsSearch};
ghost use Rattle.query_ast.specs.Search.{hit_page};
ghost use Rattle.reply_text.specs.Weight.{ArePagesApart};
ghost use Rattle.search_form.specs.Form.{is_search_body};
ghost use Rattle.tree_json.specs.Output.{room_of};
ghost use Rattle.tree_json.specs.View.{view};
ghost use Rattle.engine.specs.Answers.{answered_by};
ghost use Rattle.index_trees.specs.Faithful.{AreFaithful, EntriesStandFor, PointsStandFor};
ghost use Rattle.engine.specs.Kept.{AreKeptFor, IsIndexOf, PointsFit};
ghost use Rattle.engine.specs.Parts.{Ends, IsHeld, IsRefusedAs, Leaves, answered_of};
ghost use Rattle.engine.specs.Reads.{hits_of, page_reads_of};
ghost use Rattle.search_page.specs.Searched.{page_reads};
ghost use Rattle.tree_objects.specs.Tree.{Tree};

use crate::engine::Answered;
use crate::entries::entries_stand;
use crate::no_memory::NoMemory;
use crate::ordinals::{KeptOrdinals, taken, under};
use crate::reply::{Ended, refuse, write_found};
use index_core::IndexCore;
use join_ordinals::JoinOrdinals;
use machine::Limits;
use mapping::Mapping;
use point_in_time::PointsInTime;
use query_ast::SearchBody;
use query_parser::{SearchRefusal, resolved};
use reply_text::{Refusal, Reply, reply_weighs_its_page};
use search_form::ShapeRefusal;
use search_page::{FoundRefusal, SearchResult, found};
use segment_view::View;
use source_steps::Steps;
use std::alloc::Global;
use std::sync::ledger::Ledger;
use tree_json::{Json, OutText};

/// Answers a search.
pub(crate) fn search<L: Ledger>(
    alloc: Global,
    limits: &Limits,
    mapping: &Mapping,
    index: &mut IndexCore,
    ordinals: &mut KeptOrdinals,
    points: &PointsInTime,
    body: &Json,
    out: &mut OutText,
    steps: &mut Steps<L>,
) -> Result<Ended, NoMemory>
    requires index { IsIndexOf mapping.now index.old }
    requires ordinals { AreKeptFor index.old points.now ordinals.old }
    requires points { PointsFit mapping.now points.now }
    requires form { is_search_body (view body.now) ≡ true }
    requires empty { out.old.bytes ≡ [] }
    ensures answers { (state : State) → AreFaithful (Some mapping.now) index.old state → PointsStandFor (Some mapping.now) points.now state.points
        → Ends state (outcome_of state (search_step limits.now (view body.now) mapping.now (sealed_state state))) (answered_of result) out.new.bytes (Some mapping.now) index.new }
    ensures leaves { Leaves (answered_of result) (Some mapping.now) (Some mapping.now) mapping.now index.old index.new }
    ensures reads { (state : State) → AreFaithful (Some mapping.now) index.old state → PointsStandFor (Some mapping.now) points.now state.points
        → steps.new ≤ steps.old + hits_of (view body.now) (Some mapping.now) state }
    ensures ordinals { AreKeptFor index.new points.now ordinals.new }
    ensures room { room_of out.old ≤ room_of out.new }
{
    match search_form::search(body) {
        Ok(shape) => match resolved(alloc, shape, mapping) {
            Ok(search) => search_over(
                alloc, limits, mapping, index, ordinals, points, &search, out, steps,
            ),
            Err(why) => refuse_search(why, out),
        },
        Err(ShapeRefusal::BadRequest) => unreachable!(),
    }
}

/// Writes why a search body is refused.
fn refuse_search(why: SearchRefusal, out: &mut OutText) -> Result<Ended, NoMemory>
    requires { out.old.bytes ≡ [] }
    ensures refused { IsRefusedAs (refusal_of why) result out.new.bytes }
    ensures room { room_of out.old ≤ room_of out.new }
{
    match why {
        SearchRefusal::UnknownPath => refuse(Refusal::UnknownPath, out),
        SearchRefusal::PathOutOfScope => refuse(Refusal::PathOutOfScope, out),
        SearchRefusal::UnknownRelation => refuse(Refusal::UnknownRelation, out),
        SearchRefusal::BadValue => refuse(Refusal::BadValue, out),
        SearchRefusal::SortFieldUnmapped => refuse(Refusal::SortFieldUnmapped, out),
        SearchRefusal::BadSort => refuse(Refusal::BadSort, out),
        SearchRefusal::DuplicateInnerName => refuse(Refusal::DuplicateInnerName, out),
        SearchRefusal::WindowTooLarge => refuse(Refusal::WindowTooLarge, out),
        SearchRefusal::InnerWindowTooLarge => refuse(Refusal::InnerWindowTooLarge, out),
        SearchRefusal::TooManyClauses => refuse(Refusal::TooManyClauses, out),
        SearchRefusal::QueryTooDeep => refuse(Refusal::QueryTooDeep, out),
        SearchRefusal::TooManyTerms => refuse(Refusal::TooManyTerms, out),
        SearchRefusal::NoMemory => Err(NoMemory),
    }
}

/// Answers a search whose body isn't refused, over what is live or over a point in time.
#[tactic(auto, using(crate::proofs::Answering::refusal_ends))]
fn search_over<L: Ledger>(
    alloc: Global,
    limits: &Limits,
    mapping: &Mapping,
    index: &mut IndexCore,
    ordinals: &mut KeptOrdinals,
    points: &PointsInTime,
    search: &SearchBody,
    out: &mut OutText,
    steps: &mut Steps<L>,
) -> Result<Ended, NoMemory>
    requires index { IsIndexOf mapping.now index.old }
    requires ordinals { AreKeptFor index.old points.now ordinals.old }
    requires points { PointsFit mapping.now points.now }
    requires resolved { IsSearch mapping.now search.now }
    requires apart { (live : List Tree) → ArePagesApart (hit_page mapping.now live search.now) }
    requires empty { out.old.bytes ≡ [] }
    ensures answers { (state : State) → AreFaithful (Some mapping.now) index.old state → PointsStandFor (Some mapping.now) points.now state.points
        → Ends state (outcome_of state (search_by limits.now mapping.now search.now (sealed_state state))) (answered_of result) out.new.bytes (Some mapping.now) index.new }
    ensures leaves { Leaves (answered_of result) (Some mapping.now) (Some mapping.now) mapping.now index.old index.new }
    ensures reads { (state : State) → AreFaithful (Some mapping.now) index.old state → PointsStandFor (Some mapping.now) points.now state.points
        → steps.new ≤ steps.old + page_reads_of mapping.now search.now (searched search.now.pit state) }
    ensures ordinals { AreKeptFor index.new points.now ordinals.new }
    ensures room { room_of out.old ≤ room_of out.new }
{
    match search.pit {
        None => search_live(
            alloc,
            limits,
            mapping,
            index,
            &mut ordinals.live,
            search,
            out,
            steps,
        ),
        Some(id) => match points.view(id) {
            Some(view) => search_view(
                alloc, limits, mapping, index, ordinals, id, view, search, out, steps,
            ),
            None => refuse(Refusal::UnknownPit, out),
        },
    }
}

/// Answers a search over what is live.
#[tactic(auto, using(crate::proofs::Answering::left, crate::proofs::Answering::same_faithful))]
fn search_live<L: Ledger>(
    alloc: Global,
    limits: &Limits,
    mapping: &Mapping,
    index: &mut IndexCore,
    ordinals: &mut Option<JoinOrdinals>,
    search: &SearchBody,
    out: &mut OutText,
    steps: &mut Steps<L>,
) -> Result<Ended, NoMemory>
    requires index { IsIndexOf mapping.now index.old }
    requires ordinals { IfSome ordinals.old (AreOrdinals index.old.entries) }
    requires resolved { IsSearch mapping.now search.now }
    requires apart { (live : List Tree) → ArePagesApart (hit_page mapping.now live search.now) }
    requires empty { out.old.bytes ≡ [] }
    ensures answers { (state : State) → AreFaithful (Some mapping.now) index.old state
        → Ends state (outcome_of state (search_over limits.now mapping.now search.now (Some state.content.live) (sealed_state state))) (answered_of result) out.new.bytes (Some mapping.now) index.new }
    ensures leaves { Leaves (answered_of result) (Some mapping.now) (Some mapping.now) mapping.now index.old index.new }
    ensures reads { (state : State) → AreFaithful (Some mapping.now) index.old state → steps.new ≤ steps.old + page_reads (hit_page mapping.now state.content.live search.now) }
    ensures ordinals { IfSome ordinals.new (AreOrdinals index.new.entries) }
    ensures room { room_of out.old ≤ room_of out.new }
{
    seal(mapping, index, ordinals)?;
    let found = found_live(alloc, limits, mapping, index, ordinals, search, steps)?;
    write_found(limits, &found, out)
}

/// Answers a search over the view of a point in time.
#[tactic(auto, using(crate::proofs::Answering::left, crate::proofs::Answering::same_faithful))]
fn search_view<L: Ledger>(
    alloc: Global,
    limits: &Limits,
    mapping: &Mapping,
    index: &mut IndexCore,
    ordinals: &mut KeptOrdinals,
    id: u64,
    view: &View,
    search: &SearchBody,
    out: &mut OutText,
    steps: &mut Steps<L>,
) -> Result<Ended, NoMemory>
    requires index { IsIndexOf mapping.now index.old }
    requires ordinals { (points : KeptPoints) × (entries_under id points.points ≡ Some view.now) × AreKeptFor index.old points ordinals.old }
    requires view { ViewFits mapping.now view.now }
    requires resolved { IsSearch mapping.now search.now }
    requires apart { (live : List Tree) → ArePagesApart (hit_page mapping.now live search.now) }
    requires empty { out.old.bytes ≡ [] }
    ensures answers { (state : State) (live : List Tree) → AreFaithful (Some mapping.now) index.old state → EntriesStandFor mapping.now view.now live
        → Ends state (outcome_of state (search_over limits.now mapping.now search.now (Some live) (sealed_state state))) (answered_of result) out.new.bytes (Some mapping.now) index.new }
    ensures leaves { Leaves (answered_of result) (Some mapping.now) (Some mapping.now) mapping.now index.old index.new }
    ensures reads { (live : List Tree) → EntriesStandFor mapping.now view.now live → steps.new ≤ steps.old + page_reads (hit_page mapping.now live search.now) }
    ensures ordinals { (points : KeptPoints) → entries_under id points.points ≡ Some view.now → AreKeptFor index.old points ordinals.old → AreKeptFor index.new points ordinals.new }
    ensures room { room_of out.old ≤ room_of out.new }
{
    seal(mapping, index, &mut ordinals.live)?;
    let mut own = taken(&mut ordinals.point, id);
    let found = found_in(alloc, limits, mapping, view, &mut own, search, steps)?;
    ordinals.point = under(id, own);
    write_found(limits, &found, out)
}

/// Seals the index. Ordinals are let go where that changes the view.
fn seal(
    mapping: &Mapping,
    index: &mut IndexCore,
    ordinals: &mut Option<JoinOrdinals>,
) -> Result<(), NoMemory>
    requires fits { IndexFits mapping.now index.old }
    requires ordinals { IfSome ordinals.old (AreOrdinals index.old.entries) }
    ensures sealed { OnOk result (layout_kept index.new ≡ sealed (layout_kept index.old)) }
    ensures same { OnErr result (index.new ≡ index.old) }
    ensures next { index.new.next ≡ index.old.next }
    ensures objects { index.new.objects ≡ index.old.objects }
    ensures fits { IndexFits mapping.now index.new }
    ensures ordinals { IfSome ordinals.new (AreOrdinals index.new.entries) }
{
    if index.seal(mapping)? {
        *ordinals = None;
    }
    Ok(())
}

/// What a search finds in a sealed index; None where a reply can't hold it.
fn found_live<L: Ledger>(
    alloc: Global,
    limits: &Limits,
    mapping: &Mapping,
    index: &IndexCore,
    ordinals: &mut Option<JoinOrdinals>,
    search: &SearchBody,
    steps: &mut Steps<L>,
) -> Result<Option<Reply>, NoMemory>
    requires fits { IndexFits mapping.now index.now }
    requires sealed { index.now.buffer ≡ [] }
    requires ordinals { IfSome ordinals.old (AreOrdinals index.now.entries) }
    requires resolved { IsSearch mapping.now search.now }
    requires apart { (live : List Tree) → ArePagesApart (hit_page mapping.now live search.now) }
    ensures done { IfOk result (λ found. IfSome found (λ reply. answered_by reply ≡ Answered.Written)) }
    ensures found { (state : State) → AreFaithful (Some mapping.now) index.now state → IfOk result (IsHeld limits.now (found_by mapping.now state.content.live search.now)) }
    ensures reads { (state : State) → AreFaithful (Some mapping.now) index.now state → steps.new ≤ steps.old + page_reads (hit_page mapping.now state.content.live search.now) }
    ensures ordinals { IfSome ordinals.new (AreOrdinals index.now.entries) }
{
    found_in(
        alloc,
        limits,
        mapping,
        index.view(),
        ordinals,
        search,
        steps,
    )
}

/// What a search finds in a view; None where a reply can't hold it.
fn found_in<L: Ledger>(
    alloc: Global,
    limits: &Limits,
    mapping: &Mapping,
    view: &View,
    ordinals: &mut Option<JoinOrdinals>,
    search: &SearchBody,
    steps: &mut Steps<L>,
) -> Result<Option<Reply>, NoMemory>
    requires fits { ViewFits mapping.now view.now }
    requires ordinals { IfSome ordinals.old (AreOrdinals view.now) }
    requires resolved { IsSearch mapping.now search.now }
    requires apart { (live : List Tree) → ArePagesApart (hit_page mapping.now live search.now) }
    ensures done { IfOk result (λ found. IfSome found (λ reply. answered_by reply ≡ Answered.Written)) }
    ensures found { (live : List Tree) → EntriesStandFor mapping.now view.now live → IfOk result (IsHeld limits.now (found_by mapping.now live search.now)) }
    ensures reads { (live : List Tree) → EntriesStandFor mapping.now view.now live → steps.new ≤ steps.old + page_reads (hit_page mapping.now live search.now) }
    ensures ordinals { IfSome ordinals.new (AreOrdinals view.now) }
{
    let _scopes = mapping.scope_count();
    entries_stand(view.entries());
    reply_weighs_its_page();
    match found(
        alloc,
        view,
        mapping,
        search,
        ordinals,
        limits.reply_bytes,
        steps,
    ) {
        Ok(SearchResult { page, answers }) => Ok(Some(Reply::Found { page, answers })),
        Err(FoundRefusal::TooLarge) => Ok(None),
        Err(FoundRefusal::NoMemory) => Err(NoMemory),
    }
}
