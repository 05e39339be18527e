//! How much bodies have together with one more.
ghost use Rattle.std.specs.Prelude.{◌≡◌, ◌≤◌, ◌+◌, ◌&&◌, ◌||◌, ◌++◌, ◌∷◌, [], nat_lt, length, map, IfOk, None};
ghost use Rattle.std.specs.List.{list_any, count_by};
ghost use Rattle.tree_json.specs.View.{view};
ghost use Rattle.mapping_growth.specs.Bodies.{compact_size, exceeded, has_bad_joins, has_bad_relations, is_bad_join, is_deep, says_join, says_nested};
ghost use Rattle.mapping_body.specs.Body.{kind_of, is_nested, is_join};
ghost use Rattle.mapping_growth.specs.Fields.{additions_of};
ghost use Rattle.mapping_growth.specs.Judged.{is_new, lies_deep, holds_objects, is_join_outline, is_bad_outline};
ghost use Rattle.mapping_growth.specs.Kept.{AreCounts, IsCandidate, relation_of};
ghost use Rattle.mapping_growth.specs.Outline.{outline_of};
ghost use Rattle.mapping_growth.specs.Relations.{relations_of};

use crate::ancestor::turns_back;
use crate::candidate::Candidate;
use crate::property::Outline;
use crate::relation::Relation;
use crate::said::{Counts, Said};
use mapping_body::{
    Limit, MOST_BODIES, MOST_BYTES, MOST_FIELDS, MOST_NAMES, MOST_NESTED, NoMemory,
    has_two_parents, is_join, is_nested, kind_of, lacks_names,
};
use std::alloc::Global;

/// The first limit that bodies with one more exceed together.
#[tactic(auto, unfolding(crate::specs::Bodies::exceeded), using(crate::proofs::Keeping::past))]
pub(crate) fn exceeded(
    alloc: Global,
    said: &Said,
    candidate: &Candidate<'_>,
    counts: Counts,
    relations: &[Relation],
) -> Result<Option<Limit>, NoMemory>
    requires within { exceeded said.now ≡ None }
    requires candidate { IsCandidate said.now candidate.now }
    requires counts { AreCounts (said.now ++ view candidate.now.body.now ∷ []) counts.added counts.nested counts.joins counts.bytes }
    requires relations { map relation_of relations.now ≡ relations_of (said.now ++ view candidate.now.body.now ∷ []) }
    ensures { IfOk result (λ limit. limit ≡ exceeded (said.now ++ view candidate.now.body.now ∷ [])) }
{
    if counts.added > MOST_FIELDS {
        return Ok(Some(Limit::Fields));
    }
    if is_deep(said, candidate) {
        return Ok(Some(Limit::Depth));
    }
    if counts.nested > MOST_NESTED {
        return Ok(Some(Limit::Nested));
    }
    if has_bad_relations(alloc, said, candidate, counts, relations)? {
        return Ok(Some(Limit::Relations));
    }
    if has_many_bodies(said, candidate) {
        return Ok(Some(Limit::Generations));
    }
    if counts.bytes > MOST_BYTES {
        return Ok(Some(Limit::Size));
    }
    Ok(None)
}

fn is_deep(said: &Said, candidate: &Candidate<'_>) -> bool
    requires within { exceeded said.now ≡ None }
    requires candidate { IsCandidate said.now candidate.now }
    ensures { result ≡ list_any is_deep (additions_of (said.now ++ view candidate.now.body.now ∷ [])) }
{
    some_lies_deep(candidate.outlines.as_slice())
}

/// Whether the join fields or their relations are bad.
fn has_bad_relations(
    alloc: Global,
    said: &Said,
    candidate: &Candidate<'_>,
    counts: Counts,
    relations: &[Relation],
) -> Result<bool, NoMemory>
    requires within { exceeded said.now ≡ None }
    requires candidate { IsCandidate said.now candidate.now }
    requires counts { AreCounts (said.now ++ view candidate.now.body.now ∷ []) counts.added counts.nested counts.joins counts.bytes }
    requires relations { map relation_of relations.now ≡ relations_of (said.now ++ view candidate.now.body.now ∷ []) }
    ensures { IfOk result (λ bad. bad ≡ has_bad_relations (said.now ++ view candidate.now.body.now ∷ [])) }
{
    if has_bad_joins(said, candidate, counts) {
        return Ok(true);
    }
    if has_two_parents(alloc, candidate.pairs.as_slice())? {
        return Ok(true);
    }
    Ok(turns_back(alloc, relations)?)
}

/// Whether there are two join fields, or an added one is bad.
#[tactic(auto, using(crate::proofs::Keeping::past))]
fn has_bad_joins(said: &Said, candidate: &Candidate<'_>, counts: Counts) -> bool
    requires within { exceeded said.now ≡ None }
    requires candidate { IsCandidate said.now candidate.now }
    requires counts { AreCounts (said.now ++ view candidate.now.body.now ∷ []) counts.added counts.nested counts.joins counts.bytes }
    ensures { result ≡ has_bad_joins (said.now ++ view candidate.now.body.now ∷ []) }
{
    counts.joins > 1 || has_bad_join(said, candidate)
}

fn has_bad_join(said: &Said, candidate: &Candidate<'_>) -> bool
    requires within { exceeded said.now ≡ None }
    requires candidate { IsCandidate said.now candidate.now }
    ensures { result ≡ list_any is_bad_join (additions_of (said.now ++ view candidate.now.body.now ∷ [])) }
{
    some_is_bad(candidate.outlines.as_slice())
}

fn has_many_bodies(said: &Said, candidate: &Candidate<'_>) -> bool
    ensures { result ≡ nat_lt MOST_BODIES (length (said.now ++ view candidate.now.body.now ∷ [])) }
{
    said.bodies.len() >= MOST_BODIES
}

fn is_new(outline: &Outline<'_>) -> bool
    ensures { result ≡ is_new (outline_of outline.now) }
{
    outline.kept.is_none()
}

/// How many properties are added.
pub(crate) fn added_count(outlines: &[Outline<'_>]) -> usize
    ensures { result ≡ count_by (λ o. is_new (outline_of o)) outlines.now }
{
    outlines.iter().filter(|outline| is_new(outline)).count()
}

/// How many nested properties are added.
pub(crate) fn nested_count(outlines: &[Outline<'_>]) -> usize
    ensures { result ≡ count_by (λ o. is_new (outline_of o) && holds_objects (outline_of o)) outlines.now }
{
    outlines
        .iter()
        .filter(|outline| is_new(outline) && is_nested(kind_of(outline.form)))
        .count()
}

/// How many joins are added.
pub(crate) fn join_count(outlines: &[Outline<'_>]) -> usize
    ensures { result ≡ count_by (λ o. is_new (outline_of o) && is_join_outline (outline_of o)) outlines.now }
{
    outlines
        .iter()
        .filter(|outline| is_new(outline) && is_join(kind_of(outline.form)))
        .count()
}

fn some_lies_deep(outlines: &[Outline<'_>]) -> bool
    ensures { result ≡ list_any (λ o. is_new (outline_of o) && lies_deep (outline_of o)) outlines.now }
{
    outlines
        .iter()
        .any(|outline| is_new(outline) && outline.dots >= MOST_NAMES)
}

fn some_is_bad(outlines: &[Outline<'_>]) -> bool
    ensures { result ≡ list_any (λ o. is_new (outline_of o) && is_bad_outline (outline_of o)) outlines.now }
{
    outlines
        .iter()
        .any(|outline| is_new(outline) && is_bad_join(outline))
}

/// Whether a join stands below the top level or has no relations.
fn is_bad_join(outline: &Outline<'_>) -> bool
    ensures { result ≡ is_bad_outline (outline_of outline.now) }
{
    is_join(kind_of(outline.form)) && (outline.dots >= 1 || lacks_names(outline.form))
}
