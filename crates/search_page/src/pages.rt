//! What a search finds.
ghost use Rattle.std.specs.Prelude.{◌≡◌, ◌≤◌, ◌<◌, ◌+◌, List, [], false, true, IfOk, IfSome, IsErrOf, None};
ghost use Rattle.flattener.specs.Fits.{ViewFits};
ghost use Rattle.flattener.specs.StandsFor.{Marked};
ghost use Rattle.join_ordinals.specs.Ordinals.{AreOrdinals};
ghost use Rattle.query_ast.specs.Clause.View.{clause_of};
ghost use Rattle.query_ast.specs.Joins.{search_joins};
ghost use Rattle.query_ast.specs.Resolved.{IsSearch};
ghost use Rattle.query_ast.specs.Search.{found_buckets, hit_page};
ghost use Rattle.query_eval.specs.Found.{IsFound};
ghost use Rattle.reply_text.specs.Weight.{page_weight};
ghost use Rattle.score_math.specs.declared.score.TheConstants.{SCORE_CAP};
ghost use Rattle.search_page.specs.Hits.{AreShared, IsByScore};
ghost use Rattle.search_page.specs.Searched.{AreSearched, page_reads};
ghost use Rattle.tree_objects.specs.Tree.{Tree};
ghost use Rattle.view_objects.specs.Hits.{live_trees};

use crate::NoMemory;
use crate::filters::filters_found;
use crate::first::{first_rows, only_score};
use crate::found_refusal::FoundRefusal;
use crate::hits::hits_of;
use crate::ordinals::make_ordinals;
use block_join::Matches;
use bucket_aggs::{found_buckets, found_count};
use hit_order::top;
use inner_hits::prepare;
use join_ordinals::JoinOrdinals;
use mapping::Mapping;
use nested_sort::keys;
use query_ast::{AggReplies, HitList, HitPage, SearchBody};
use query_eval::matches;
use segment_view::View;
use source_steps::Steps;
use std::alloc::Global;
use std::sync::ledger::Ledger;
use tree_objects::objects_nest;

/// What a search finds: the page of its hits with the number of all of them, and the answers of its buckets.
#[derive(Drop)]
pub struct SearchResult {
    pub page: HitPage,
    pub answers: AggReplies,
}

/// What a search finds among the trees that a view stands for.
///
/// The search was resolved under the mapping. `ordinals` is None, or holds those of the view: they are made for a search that
/// joins, and serve the searches behind it as long as the view stands. Sources are read for the hits of the page and the joined
/// trees among their inner hits alone, and only where they are shown or inner hits are taken from them. A page that weighs more
/// than the limit, the most bytes of a reply, is too large, and no more of it is made than weighs so much.
pub fn found<L: Ledger>(
    alloc: Global,
    view: &View,
    mapping: &Mapping,
    search: &SearchBody,
    ordinals: &mut Option<JoinOrdinals>,
    limit: u64,
    steps: &mut Steps<L>,
) -> Result<SearchResult, FoundRefusal>
    requires fits { ViewFits mapping.now view.now }
    requires resolved { IsSearch mapping.now search.now }
    requires ordinals { IfSome ordinals.old (AreOrdinals view.now) }
    ensures page { IfOk result (λ found. (trees : List (List (Marked Tree))) → AreSearched mapping.now view.now trees → found.page ≡ hit_page mapping.now (live_trees trees) search.now) }
    ensures answers { IfOk result (λ found. (trees : List (List (Marked Tree))) → AreSearched mapping.now view.now trees → found.answers ≡ found_buckets mapping.now (live_trees trees) search.now) }
    ensures reads { (trees : List (List (Marked Tree))) → AreSearched mapping.now view.now trees → steps.new ≤ steps.old + page_reads (hit_page mapping.now (live_trees trees) search.now) }
    ensures unread { search.now.source ≡ false → search.now.inner ≡ [] → steps.new ≡ steps.old }
    ensures ordinals { IfSome ordinals.new (AreOrdinals view.now) }
    ensures within { IfOk result (λ found. page_weight found.page ≤ limit) }
    ensures too_large { IsErrOf result FoundRefusal.TooLarge → (trees : List (List (Marked Tree))) → AreSearched mapping.now view.now trees → limit < page_weight (hit_page mapping.now (live_trees trees) search.now) }
{
    make_ordinals(alloc, view, search, ordinals)?;
    match ordinals.as_ref() {
        Some(known) => found_by(alloc, view, mapping, search, known, limit, steps),
        None => found_by(
            alloc,
            view,
            mapping,
            search,
            &JoinOrdinals::none(alloc),
            limit,
            steps,
        ),
    }
}

/// What a search finds, where the ordinals are those of the view if the search joins.
fn found_by<L: Ledger>(
    alloc: Global,
    view: &View,
    mapping: &Mapping,
    search: &SearchBody,
    ordinals: &JoinOrdinals,
    limit: u64,
    steps: &mut Steps<L>,
) -> Result<SearchResult, FoundRefusal>
    requires fits { ViewFits mapping.now view.now }
    requires resolved { IsSearch mapping.now search.now }
    requires joined { search_joins search.now ≡ true → AreOrdinals view.now ordinals.now }
    ensures page { IfOk result (λ found. (trees : List (List (Marked Tree))) → AreSearched mapping.now view.now trees → found.page ≡ hit_page mapping.now (live_trees trees) search.now) }
    ensures answers { IfOk result (λ found. (trees : List (List (Marked Tree))) → AreSearched mapping.now view.now trees → found.answers ≡ found_buckets mapping.now (live_trees trees) search.now) }
    ensures reads { (trees : List (List (Marked Tree))) → AreSearched mapping.now view.now trees → steps.new ≤ steps.old + page_reads (hit_page mapping.now (live_trees trees) search.now) }
    ensures unread { search.now.source ≡ false → search.now.inner ≡ [] → steps.new ≡ steps.old }
    ensures within { IfOk result (λ found. page_weight found.page ≤ limit) }
    ensures too_large { IsErrOf result FoundRefusal.TooLarge → (trees : List (List (Marked Tree))) → AreSearched mapping.now view.now trees → limit < page_weight (hit_page mapping.now (live_trees trees) search.now) }
{
    let query = search.query.get();
    let matched = matches(alloc, view, mapping, ordinals, query, 0, steps)?;
    let answers = found_buckets(alloc, view, mapping, ordinals, &matched, search, steps)?;
    let page = page(
        alloc, view, mapping, search, ordinals, &matched, limit, steps,
    )?;
    Ok(SearchResult { page, answers })
}

/// The page of the hits of what the query matches, and the number of all of them.
///
/// Where no hit is asked for the hits are counted, and nothing is made for any of them. Where they stand in order as they are
/// found, something is made for those of the page alone.
fn page<L: Ledger>(
    alloc: Global,
    view: &View,
    mapping: &Mapping,
    search: &SearchBody,
    ordinals: &JoinOrdinals,
    matched: &Matches,
    limit: u64,
    steps: &mut Steps<L>,
) -> Result<HitPage, FoundRefusal>
    requires fits { ViewFits mapping.now view.now }
    requires resolved { IsSearch mapping.now search.now }
    requires joined { search_joins search.now ≡ true → AreOrdinals view.now ordinals.now }
    requires matched { IsFound mapping.now view.now 0 search.now.query matched.now }
    ensures page { IfOk result (λ page. (trees : List (List (Marked Tree))) → AreSearched mapping.now view.now trees → page ≡ hit_page mapping.now (live_trees trees) search.now) }
    ensures reads { (trees : List (List (Marked Tree))) → AreSearched mapping.now view.now trees → steps.new ≤ steps.old + page_reads (hit_page mapping.now (live_trees trees) search.now) }
    ensures unread { search.now.source ≡ false → search.now.inner ≡ [] → steps.new ≡ steps.old }
    ensures within { IfOk result (λ page. page_weight page ≤ limit) }
    ensures too_large { IsErrOf result FoundRefusal.TooLarge → (trees : List (List (Marked Tree))) → AreSearched mapping.now view.now trees → limit < page_weight (hit_page mapping.now (live_trees trees) search.now) }
{
    if search.size == 0 {
        Ok(empty_page(alloc, view, mapping, search, matched)?)
    } else {
        match only_score(search, matched) {
            Some(score) => first_page(
                alloc, view, mapping, search, ordinals, matched, score, limit, steps,
            ),
            None => shown_page(
                alloc, view, mapping, search, ordinals, matched, limit, steps,
            ),
        }
    }
}

/// The page, where hits stand in order as they are found: rows are made for its hits alone.
fn first_page<L: Ledger>(
    alloc: Global,
    view: &View,
    mapping: &Mapping,
    search: &SearchBody,
    ordinals: &JoinOrdinals,
    matched: &Matches,
    score: u64,
    limit: u64,
    steps: &mut Steps<L>,
) -> Result<HitPage, FoundRefusal>
    requires fits { ViewFits mapping.now view.now }
    requires resolved { IsSearch mapping.now search.now }
    requires joined { search_joins search.now ≡ true → AreOrdinals view.now ordinals.now }
    requires matched { IsFound mapping.now view.now 0 search.now.query matched.now }
    requires after { search.now.after ≡ None }
    requires sort { IsByScore search.now.sort }
    requires shared { AreShared score matched.now }
    requires capped { score ≤ SCORE_CAP }
    ensures page { IfOk result (λ page. (trees : List (List (Marked Tree))) → AreSearched mapping.now view.now trees → page ≡ hit_page mapping.now (live_trees trees) search.now) }
    ensures reads { (trees : List (List (Marked Tree))) → AreSearched mapping.now view.now trees → steps.new ≤ steps.old + page_reads (hit_page mapping.now (live_trees trees) search.now) }
    ensures unread { search.now.source ≡ false → search.now.inner ≡ [] → steps.new ≡ steps.old }
    ensures within { IfOk result (λ page. page_weight page ≤ limit) }
    ensures too_large { IsErrOf result FoundRefusal.TooLarge → (trees : List (List (Marked Tree))) → AreSearched mapping.now view.now trees → limit < page_weight (hit_page mapping.now (live_trees trees) search.now) }
{
    objects_nest();
    let total = found_count(view, mapping, matched)?;
    let prepared = prepare(alloc, view, mapping, ordinals, &search.inner, 0, steps)?;
    let rows = first_rows(alloc, matched, search.from, search.size, score)?;
    let hits = hits_of(
        alloc, view, mapping, ordinals, search, &prepared, matched, &rows, limit, steps,
    )?;
    Ok(HitPage {
        hits: HitList::of(hits),
        total,
    })
}

/// The page of no hits, with the number of all.
fn empty_page(
    alloc: Global,
    view: &View,
    mapping: &Mapping,
    search: &SearchBody,
    matched: &Matches,
) -> Result<HitPage, NoMemory>
    requires none { search.now.size ≡ 0 }
    requires matched { IsFound mapping.now view.now 0 search.now.query matched.now }
    ensures none { IfOk result (λ page. page.hits ≡ []) }
    ensures page { IfOk result (λ page. (trees : List (List (Marked Tree))) → AreSearched mapping.now view.now trees → page ≡ hit_page mapping.now (live_trees trees) search.now) }
{
    let total = found_count(view, mapping, matched)?;
    let hits = HitList::of(Vec::new(alloc));
    Ok(HitPage { hits, total })
}

/// The page, by the rows of the hits that it can hold.
fn shown_page<L: Ledger>(
    alloc: Global,
    view: &View,
    mapping: &Mapping,
    search: &SearchBody,
    ordinals: &JoinOrdinals,
    matched: &Matches,
    limit: u64,
    steps: &mut Steps<L>,
) -> Result<HitPage, FoundRefusal>
    requires fits { ViewFits mapping.now view.now }
    requires resolved { IsSearch mapping.now search.now }
    requires joined { search_joins search.now ≡ true → AreOrdinals view.now ordinals.now }
    requires matched { IsFound mapping.now view.now 0 search.now.query matched.now }
    ensures page { IfOk result (λ page. (trees : List (List (Marked Tree))) → AreSearched mapping.now view.now trees → page ≡ hit_page mapping.now (live_trees trees) search.now) }
    ensures reads { (trees : List (List (Marked Tree))) → AreSearched mapping.now view.now trees → steps.new ≤ steps.old + page_reads (hit_page mapping.now (live_trees trees) search.now) }
    ensures unread { search.now.source ≡ false → search.now.inner ≡ [] → steps.new ≡ steps.old }
    ensures within { IfOk result (λ page. page_weight page ≤ limit) }
    ensures too_large { IsErrOf result FoundRefusal.TooLarge → (trees : List (List (Marked Tree))) → AreSearched mapping.now view.now trees → limit < page_weight (hit_page mapping.now (live_trees trees) search.now) }
{
    objects_nest();
    let total = found_count(view, mapping, matched)?;
    let after = search.after.as_ref();
    let sorts = search.sort.as_slice();
    let filters = filters_found(alloc, view, mapping, ordinals, sorts, steps)?;
    let prepared = prepare(alloc, view, mapping, ordinals, &search.inner, 0, steps)?;
    let rows = keys(
        alloc,
        view,
        mapping,
        matched,
        filters.as_slice(),
        0,
        &search.sort,
        after,
        search.from as usize + search.size as usize,
        steps,
    )?;
    let shown = top(alloc, rows, after, search.from, search.size)?;
    let hits = hits_of(
        alloc, view, mapping, ordinals, search, &prepared, matched, &shown, limit, steps,
    )?;
    Ok(HitPage {
        hits: HitList::of(hits),
        total,
    })
}
