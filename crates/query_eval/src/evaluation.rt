//! What a query finds in a view.

ghost use Rattle.std.specs.Prelude.{◌≡◌, ◌≤◌, ◌&&◌, ℕ, true, List, Option, length, map, IfOk};
ghost use Rattle.block_join.specs.declared.rule.Rule.{Rule};
ghost use Rattle.join_ordinals.specs.Ordinals.{AreOrdinals};
ghost use Rattle.query_ast.specs.Clause.{bool as bool_clause, clauses_of, constant_score, dis_max, has_child, has_parent, nested, to_child};
ghost use Rattle.query_ast.specs.Clause.View.{clause_of};
ghost use Rattle.query_ast.specs.Joins.{joins, some_join};
ghost use Rattle.query_ast.specs.Resolved.{AreResolved, IsResolved};
ghost use Rattle.query_eval.specs.Folds.{asked_by, boost_in, folded_by, is_empty, wanted_of};
ghost use Rattle.query_eval.specs.Found.{AreLong, IsFound, IsSeen};
ghost use Rattle.score_math.specs.declared.score.TheConstants.{SCORE_CAP};
ghost use Rattle.tree_objects.specs.Object.{Object};
ghost use Rattle.tree_objects.specs.Tree.{Tree};

use crate::NoMemory;
use crate::leaves::leaves;
use crate::merges::{is_nothing, merges, narrows};
use crate::nests::{downs, ups};
use crate::trees::{with_children, with_parent};
use block_join::{Matches, Rule};
use join_ordinals::JoinOrdinals;
use mapping::Mapping;
use query_ast::{Query, QueryBox, QueryList};
use score_math::ScoreMode;
use segment_view::{Entry, View};
use source_steps::Steps;
use std::alloc::Global;
use std::sync::ledger::Ledger;

/// The documents of a scope at which a query hits, each with its score, over all entries of a view.
///
/// The query was resolved under the mapping in that scope. The ordinals are those of the view, where the query joins trees.
pub fn matches<L: Ledger>(
    alloc: Global,
    view: &View,
    mapping: &Mapping,
    ordinals: &JoinOrdinals,
    query: &Query,
    scope: u32,
    steps: &mut Steps<L>,
) -> Result<Matches, NoMemory>
    requires resolved { IsResolved mapping.now scope (clause_of query.now) }
    requires joined { joins (clause_of query.now) ≡ true → AreOrdinals view.now ordinals.now }
    ensures found { IfOk result (IsFound mapping.now view.now scope (clause_of query.now)) }
    ensures steps { steps.new ≡ steps.old }
{
    Ok(found(alloc, view.entries(), mapping, ordinals, query, scope)?)
}

/// What a query finds in the entries of a view, as `matches` has it; no counter is handed in.
#[cycle(found)]
pub fn found(
    alloc: Global,
    entries: &[Entry],
    mapping: &Mapping,
    ordinals: &JoinOrdinals,
    query: &Query,
    scope: u32,
) -> Result<Matches, NoMemory>
    requires resolved { IsResolved mapping.now scope (clause_of query.now) }
    requires joined { joins (clause_of query.now) ≡ true → AreOrdinals entries.now ordinals.now }
    ensures { IfOk result (IsFound mapping.now entries.now scope (clause_of query.now)) }
{
    match query {
        Query::Bool {
            must,
            filter,
            should,
            must_not,
            least,
        } => Ok(bool_of(
            alloc, entries, mapping, ordinals, must, filter, should, must_not, *least, scope,
        )?),
        Query::ConstantScore { filter, boost } => {
            Ok(constant(alloc, entries, mapping, ordinals, filter, *boost, scope)?)
        }
        Query::DisMax { queries } => Ok(greatest(
            alloc, entries, mapping, ordinals, queries, scope,
        )?),
        Query::Nested {
            scope: path,
            query,
            mode,
        } => Ok(nested(
            alloc, entries, mapping, ordinals, *path, query, *mode, scope,
        )?),
        Query::ToChild { scope: path, query } => {
            Ok(to_child(alloc, entries, mapping, ordinals, *path, query, scope)?)
        }
        Query::HasChild {
            child,
            query,
            mode,
            least,
            most,
        } => Ok(has_child(
            alloc, entries, mapping, ordinals, *child, query, *mode, *least, *most, scope,
        )?),
        Query::HasParent {
            parent,
            query,
            score,
            boost,
        } => Ok(has_parent(
            alloc, entries, mapping, ordinals, *parent, query, *score, *boost, scope,
        )?),
        _ => Ok(leaves(
            alloc,
            entries,
            mapping,
            query,
            scope,
            u64::from(boost_of(query)),
        )?),
    }
}

/// `constant_score`: what the filter hits, with the boost.
#[cycle(found)]
fn constant(
    alloc: Global,
    entries: &[Entry],
    mapping: &Mapping,
    ordinals: &JoinOrdinals,
    filter: &QueryBox,
    boost: u32,
    scope: u32,
) -> Result<Matches, NoMemory>
    requires resolved { IsResolved mapping.now scope (constant_score filter.now boost) }
    requires joined { joins (constant_score filter.now boost) ≡ true → AreOrdinals entries.now ordinals.now }
    ensures { IfOk result (IsFound mapping.now entries.now scope (constant_score filter.now boost)) }
{
    let all = leaves(
        alloc,
        entries,
        mapping,
        &Query::MatchAll { boost: 1 },
        scope,
        u64::from(boost),
    )?;
    let hits = found(alloc, entries, mapping, ordinals, filter.get(), scope)?;
    Ok(merges(alloc, entries, &all, &hits, Rule::Kept)?)
}

/// `dis_max`: what some query hits, with the greatest score.
#[cycle(found)]
fn greatest(
    alloc: Global,
    entries: &[Entry],
    mapping: &Mapping,
    ordinals: &JoinOrdinals,
    queries: &QueryList,
    scope: u32,
) -> Result<Matches, NoMemory>
    requires resolved { IsResolved mapping.now scope (dis_max (clauses_of queries.now)) }
    requires joined { joins (dis_max (clauses_of queries.now)) ≡ true → AreOrdinals entries.now ordinals.now }
    ensures { IfOk result (IsFound mapping.now entries.now scope (dis_max (clauses_of queries.now))) }
{
    let none = leaves(alloc, entries, mapping, &Query::MatchNone, scope, 0)?;
    Ok(folded(
        alloc,
        entries,
        mapping,
        ordinals,
        queries.as_slice(),
        none,
        Rule::Greatest,
        scope,
    )?)
}

/// `nested`: the objects with a hit of that scope inside them.
#[cycle(found)]
fn nested(
    alloc: Global,
    entries: &[Entry],
    mapping: &Mapping,
    ordinals: &JoinOrdinals,
    path: Option<u32>,
    query: &QueryBox,
    mode: ScoreMode,
    scope: u32,
) -> Result<Matches, NoMemory>
    requires resolved { IsResolved mapping.now scope (nested path query.now mode) }
    requires joined { joins (nested path query.now mode) ≡ true → AreOrdinals entries.now ordinals.now }
    ensures { IfOk result (IsFound mapping.now entries.now scope (nested path query.now mode)) }
{
    match path {
        Some(path) => {
            let hits = found(alloc, entries, mapping, ordinals, query.get(), path)?;
            Ok(ups(alloc, entries, &hits, scope, mode)?)
        }
        None => Ok(leaves(alloc, entries, mapping, &Query::MatchNone, scope, 0)?),
    }
}

/// `to_child`: the objects inside a hit of that scope.
#[cycle(found)]
fn to_child(
    alloc: Global,
    entries: &[Entry],
    mapping: &Mapping,
    ordinals: &JoinOrdinals,
    path: Option<u32>,
    query: &QueryBox,
    scope: u32,
) -> Result<Matches, NoMemory>
    requires resolved { IsResolved mapping.now scope (to_child path query.now) }
    requires joined { joins (to_child path query.now) ≡ true → AreOrdinals entries.now ordinals.now }
    ensures { IfOk result (IsFound mapping.now entries.now scope (to_child path query.now)) }
{
    match path {
        Some(path) => {
            let hits = found(alloc, entries, mapping, ordinals, query.get(), path)?;
            Ok(downs(alloc, entries, &hits, path, scope)?)
        }
        None => Ok(leaves(alloc, entries, mapping, &Query::MatchNone, scope, 0)?),
    }
}

/// `has_child`: the roots with so many child trees whose roots hit.
#[cycle(found)]
fn has_child(
    alloc: Global,
    entries: &[Entry],
    mapping: &Mapping,
    ordinals: &JoinOrdinals,
    child: Option<u32>,
    query: &QueryBox,
    mode: ScoreMode,
    least: u64,
    most: Option<u64>,
    scope: u32,
) -> Result<Matches, NoMemory>
    requires resolved { IsResolved mapping.now scope (has_child child query.now mode least most) }
    requires joined { joins (has_child child query.now mode least most) ≡ true → AreOrdinals entries.now ordinals.now }
    ensures { IfOk result (IsFound mapping.now entries.now scope (has_child child query.now mode least most)) }
{
    match child {
        Some(child) => {
            if scope != 0 {
                return Ok(leaves(alloc, entries, mapping, &Query::MatchNone, scope, 0)?);
            }
            let hits = found(alloc, entries, mapping, ordinals, query.get(), 0)?;
            Ok(with_children(
                alloc, entries, mapping, ordinals, &hits, child, mode, least, most,
            )?)
        }
        None => Ok(leaves(alloc, entries, mapping, &Query::MatchNone, scope, 0)?),
    }
}

/// `has_parent`: the roots with a parent tree whose root hits.
#[cycle(found)]
fn has_parent(
    alloc: Global,
    entries: &[Entry],
    mapping: &Mapping,
    ordinals: &JoinOrdinals,
    parent: Option<u32>,
    query: &QueryBox,
    score: bool,
    boost: u32,
    scope: u32,
) -> Result<Matches, NoMemory>
    requires resolved { IsResolved mapping.now scope (has_parent parent query.now score boost) }
    requires joined { joins (has_parent parent query.now score boost) ≡ true → AreOrdinals entries.now ordinals.now }
    ensures { IfOk result (IsFound mapping.now entries.now scope (has_parent parent query.now score boost)) }
{
    match parent {
        Some(parent) => {
            if scope != 0 {
                return Ok(leaves(alloc, entries, mapping, &Query::MatchNone, scope, 0)?);
            }
            let hits = found(alloc, entries, mapping, ordinals, query.get(), 0)?;
            Ok(with_parent(
                alloc, entries, mapping, ordinals, &hits, parent, score, boost,
            )?)
        }
        None => Ok(leaves(alloc, entries, mapping, &Query::MatchNone, scope, 0)?),
    }
}

/// `bool`: all of `must` and `filter`, none of `must_not`, and so many of `should`.
#[cycle(found)]
fn bool_of(
    alloc: Global,
    entries: &[Entry],
    mapping: &Mapping,
    ordinals: &JoinOrdinals,
    must: &QueryList,
    filter: &QueryList,
    should: &QueryList,
    must_not: &QueryList,
    least: Option<u64>,
    scope: u32,
) -> Result<Matches, NoMemory>
    requires resolved { IsResolved mapping.now scope (bool_clause (clauses_of must.now) (clauses_of filter.now) (clauses_of should.now) (clauses_of must_not.now) least) }
    requires joined { joins (bool_clause (clauses_of must.now) (clauses_of filter.now) (clauses_of should.now) (clauses_of must_not.now) least) ≡ true → AreOrdinals entries.now ordinals.now }
    ensures { IfOk result (IsFound mapping.now entries.now scope (bool_clause (clauses_of must.now) (clauses_of filter.now) (clauses_of should.now) (clauses_of must_not.now) least)) }
{
    if no_clauses(must, filter, should, must_not) {
        return Ok(leaves(
            alloc,
            entries,
            mapping,
            &Query::MatchAll { boost: 1 },
            scope,
            1,
        )?);
    }
    let all = leaves(
        alloc,
        entries,
        mapping,
        &Query::MatchAll { boost: 1 },
        scope,
        0,
    )?;
    let hits = folded(
        alloc,
        entries,
        mapping,
        ordinals,
        must.as_slice(),
        all,
        Rule::Both,
        scope,
    )?;
    let hits = folded(
        alloc,
        entries,
        mapping,
        ordinals,
        filter.as_slice(),
        hits,
        Rule::Kept,
        scope,
    )?;
    let hits = folded(
        alloc,
        entries,
        mapping,
        ordinals,
        must_not.as_slice(),
        hits,
        Rule::Without,
        scope,
    )?;
    let wanted = wanted(least, must, filter, should);
    let should = should.as_slice();
    if wanted == 0 {
        Ok(folded(
            alloc,
            entries,
            mapping,
            ordinals,
            should,
            hits,
            Rule::Plus,
            scope,
        )?)
    } else {
        Ok(asked(
            alloc, entries, mapping, ordinals, should, hits, wanted, scope,
        )?)
    }
}

/// Scores to which those of one query after the other are put, as long as any is left.
#[cycle(found)]
#[tactic(auto, using(crate::proofs::Clauses::clause_some))]
fn folded(
    alloc: Global,
    entries: &[Entry],
    mapping: &Mapping,
    ordinals: &JoinOrdinals,
    queries: &[Query],
    hits: Matches,
    rule: Rule,
    scope: u32,
) -> Result<Matches, NoMemory>
    requires resolved { AreResolved mapping.now scope (clauses_of (map clause_of queries.now)) }
    requires joined { some_join (clauses_of (map clause_of queries.now)) ≡ true → AreOrdinals entries.now ordinals.now }
    requires long { AreLong entries.now hits }
    ensures long { IfOk result (AreLong entries.now) }
    ensures seen { (given : List Tree → Object → Option ℕ) → IsSeen mapping.now entries.now scope given hits → IfOk result (IsSeen mapping.now entries.now scope (folded_by rule mapping.now (clauses_of (map clause_of queries.now)) given)) }
{
    match queries {
        [] => Ok(hits),
        [query, rest @ ..] => {
            if narrows(rule) && is_nothing(&hits) {
                return Ok(hits);
            }
            let own = found(alloc, entries, mapping, ordinals, query, scope)?;
            let hits = merges(alloc, entries, &hits, &own, rule)?;
            Ok(folded(alloc, entries, mapping, ordinals, rest, hits, rule, scope)?)
        }
    }
}

/// Hits that also are hits of so many queries, one at least, with the sum of all their scores.
#[cycle(found)]
fn asked(
    alloc: Global,
    entries: &[Entry],
    mapping: &Mapping,
    ordinals: &JoinOrdinals,
    queries: &[Query],
    hits: Matches,
    wanted: u64,
    scope: u32,
) -> Result<Matches, NoMemory>
    requires resolved { AreResolved mapping.now scope (clauses_of (map clause_of queries.now)) }
    requires joined { some_join (clauses_of (map clause_of queries.now)) ≡ true → AreOrdinals entries.now ordinals.now }
    requires long { AreLong entries.now hits }
    requires some { 1 ≤ wanted }
    ensures { (given : List Tree → Object → Option ℕ) → IsSeen mapping.now entries.now scope given hits → IfOk result (IsSeen mapping.now entries.now scope (asked_by mapping.now (clauses_of (map clause_of queries.now)) wanted given)) }
{
    if is_nothing(&hits) {
        return Ok(hits);
    }
    let _count = count_of(queries);
    let none = leaves(alloc, entries, mapping, &Query::MatchNone, scope, 0)?;
    if wanted == 1 {
        let sums = folded(
            alloc,
            entries,
            mapping,
            ordinals,
            queries,
            none,
            Rule::Either,
            scope,
        )?;
        return Ok(merges(alloc, entries, &hits, &sums, Rule::Both)?);
    }
    let no_counts = leaves(alloc, entries, mapping, &Query::MatchNone, scope, 0)?;
    let (sums, counts) = tallied(
        alloc, entries, mapping, ordinals, queries, none, no_counts, scope,
    )?;
    let hits = merges(alloc, entries, &hits, &sums, Rule::Both)?;
    Ok(merges(alloc, entries, &hits, &counts, Rule::AtLeast(wanted))?)
}

/// Sums to which the scores of one query after the other are added, and counts of them.
#[cycle(found)]
#[tactic(auto, using(crate::proofs::Clauses::clause_some))]
fn tallied(
    alloc: Global,
    entries: &[Entry],
    mapping: &Mapping,
    ordinals: &JoinOrdinals,
    queries: &[Query],
    sums: Matches,
    counts: Matches,
    scope: u32,
) -> Result<(Matches, Matches), NoMemory>
    requires resolved { AreResolved mapping.now scope (clauses_of (map clause_of queries.now)) }
    requires joined { some_join (clauses_of (map clause_of queries.now)) ≡ true → AreOrdinals entries.now ordinals.now }
    requires sums_long { AreLong entries.now sums }
    requires counts_long { AreLong entries.now counts }
    ensures long { IfOk result (λ made. AreLong entries.now made.0 × AreLong entries.now made.1) }
    ensures sums { (given : List Tree → Object → Option ℕ) → IsSeen mapping.now entries.now scope given sums → IfOk result (λ made. IsSeen mapping.now entries.now scope (folded_by Rule.Either mapping.now (clauses_of (map clause_of queries.now)) given) made.0) }
    ensures counts { (given : List Tree → Object → Option ℕ) → IsSeen mapping.now entries.now scope given counts → IfOk result (λ made. IsSeen mapping.now entries.now scope (folded_by Rule.Counted mapping.now (clauses_of (map clause_of queries.now)) given) made.1) }
{
    match queries {
        [] => Ok((sums, counts)),
        [query, rest @ ..] => {
            let own = found(alloc, entries, mapping, ordinals, query, scope)?;
            let sums = merges(alloc, entries, &sums, &own, Rule::Either)?;
            let counts = merges(alloc, entries, &counts, &own, Rule::Counted)?;
            Ok(tallied(alloc, entries, mapping, ordinals, rest, sums, counts, scope)?)
        }
    }
}

/// How many clauses there are.
fn count_of(queries: &[Query]) -> usize
    ensures count { result ≡ length queries.now }
    ensures few { result ≤ SCORE_CAP }
{
    queries.len()
}

/// How many of `should` have to hit: the number that is given, else one where they are all that is asked for.
fn wanted(least: Option<u64>, must: &QueryList, filter: &QueryList, should: &QueryList) -> u64
    ensures { result ≡ wanted_of least must.now filter.now should.now }
{
    match least {
        Some(least) => least,
        None => if no_queries(must) && no_queries(filter) && !no_queries(should) {
            1
        } else {
            0
        },
    }
}

/// Whether a `bool` has no clause at all.
fn no_clauses(
    must: &QueryList,
    filter: &QueryList,
    should: &QueryList,
    must_not: &QueryList,
) -> bool
    ensures { result ≡ (is_empty must.now && (is_empty filter.now && (is_empty should.now && is_empty must_not.now))) }
{
    no_queries(must) && no_queries(filter) && no_queries(should) && no_queries(must_not)
}

fn no_queries(queries: &QueryList) -> bool
    ensures { result ≡ is_empty queries.now }
{
    match queries.as_slice() {
        [] => true,
        [_, ..] => false,
    }
}

/// The boost of a leaf.
fn boost_of(query: &Query) -> u32
    ensures { result ≡ boost_in (clause_of query.now) }
{
    match query {
        Query::MatchAll { boost }
        | Query::Ids { boost, .. }
        | Query::Term { boost, .. }
        | Query::Terms { boost, .. }
        | Query::Range { boost, .. }
        | Query::Exists { boost, .. }
        | Query::Prefix { boost, .. }
        | Query::MatchWords { boost, .. }
        | Query::MatchPhrase { boost, .. }
        | Query::ParentId { boost, .. } => *boost,
        _ => 1,
    }
}
