//! What bodies say with one more.
ghost use Rattle.std.specs.Prelude.{◌≡◌, ◌<◌, ◌≤◌, ◌+◌, ◌^◌, ◌++◌, ◌∷◌, [], length, map, filter, not, nat_lt, ◌||◌, IfOk, OnOk, IsErrOf, None, Some, IsTrue, ◌↔◌};
ghost use Rattle.std.specs.List.{count_by};
ghost use Rattle.tree_json.specs.View.{view};
ghost use Rattle.mapping_growth.specs.Bodies.{adds, compact_size, exceeded, says_join, says_nested};
ghost use Rattle.mapping_growth.specs.Fields.{additions_of, draft_paths, drafts_of, properties_added};
ghost use Rattle.mapping_body.specs.Kept.{pair_of};
ghost use Rattle.mapping_growth.specs.Kept.{AreCounts, IsCandidate, IsRefused, counted, made_of, relation_of};
ghost use Rattle.mapping_body.specs.Names.{is_among};
ghost use Rattle.mapping_growth.specs.Relations.{relations_of};

use crate::addition::relations_added;
use crate::candidate::Candidate;
use crate::draft::Draft;
use crate::limit::{added_count, exceeded, join_count, nested_count};
use crate::property::draft_below;
use crate::relation::Relation;
use crate::said::{Counts, Said};
use mapping_body::{Limit, MappingRefusal, NoMemory, Whole, copied, order_from};
use std::alloc::Global;
use tree_json::{Json, compact_len};

/// Bodies with one more, if together they exceed no limit.
pub(crate) fn taken(
    alloc: Global,
    said: &Said,
    candidate: &Candidate<'_>,
) -> Result<Said, MappingRefusal>
    requires within { exceeded said.now ≡ None }
    requires candidate { IsCandidate said.now candidate.now }
    ensures ok { IfOk result (λ s. (s ≡ said.now ++ view candidate.now.body.now ∷ []) × (exceeded s ≡ None)) }
    ensures refused { IsRefused result (exceeded (said.now ++ view candidate.now.body.now ∷ [])) }
{
    let relations = relations_with(alloc, said, candidate)?;
    let counts = counts_with(said, candidate);
    if let Some(limit) = exceeded(alloc, said, candidate, counts, relations.as_slice())? {
        return Err(MappingRefusal::TooMuch(limit));
    }
    Ok(said_with(alloc, said, candidate, counts, relations)?)
}

/// Whether a body adds a property or the name of a relation.
pub(crate) fn adds(alloc: Global, said: &Said, candidate: &Candidate<'_>) -> Result<bool, NoMemory>
    requires { IsCandidate said.now candidate.now }
    ensures { IfOk result (λ more. more ≡ adds said.now (view candidate.now.body.now)) }
{
    if adds_fields(said, candidate) {
        return Ok(true);
    }
    let relations = relations_added(alloc, said, 0, candidate.pairs.as_slice())?;
    Ok(!relations.is_empty())
}

fn adds_fields(said: &Said, candidate: &Candidate<'_>) -> bool
    requires { IsCandidate said.now candidate.now }
    ensures { result ≡ nat_lt 0 (length (properties_added (draft_paths (drafts_of said.now)) (view candidate.now.body.now))) }
{
    added_count(candidate.outlines.as_slice()) > 0
}

/// The relations of bodies with one more.
fn relations_with(
    alloc: Global,
    said: &Said,
    candidate: &Candidate<'_>,
) -> Result<Vec<Relation>, NoMemory>
    requires within { exceeded said.now ≡ None }
    requires candidate { IsCandidate said.now candidate.now }
    ensures { IfOk result (λ rs. map relation_of rs.items ≡ relations_of (said.now ++ view candidate.now.body.now ∷ [])) }
{
    let mut relations = Vec::new(alloc);
    push_relations(alloc, said.relations.as_slice(), &mut relations)?;
    let generation = next_generation(said);
    let added = relations_added(alloc, said, generation, candidate.pairs.as_slice())?;
    push_relations(alloc, added.as_slice(), &mut relations)?;
    Ok(relations)
}

/// The number of the body behind all others.
fn next_generation(said: &Said) -> u32
    requires { exceeded said.now ≡ None }
    ensures { result ≡ length said.now + 1 }
{
    said.count() as u32 + 1
}

fn push_relations(
    alloc: Global,
    relations: &[Relation],
    whole: &mut Vec<Relation>,
) -> Result<(), NoMemory>
    ensures { OnOk result (map relation_of whole.new.items ≡ map relation_of whole.old.items ++ map relation_of relations.now) }
{
    'relations: for relation in relations {
        whole.push(Relation {
            name: relation.name.as_slice().to_vec(alloc)?,
            parent: relation.parent,
            since: relation.since,
        })?;
    }
    Ok(())
}

/// The fields of bodies with one more.
fn fields_with(
    alloc: Global,
    said: &Said,
    candidate: &Candidate<'_>,
) -> Result<Vec<Draft>, NoMemory>
    requires { exceeded said.now ≡ None }
    ensures { IfOk result (λ fields. map made_of fields.items ≡ drafts_of (said.now ++ view candidate.now.body.now ∷ [])) }
{
    let mut fields = Vec::new(alloc);
    push_fields(alloc, said.fields.as_slice(), &mut fields)?;
    let mut found = Vec::new(alloc);
    draft_below(
        alloc,
        next_generation(said),
        b"",
        candidate.body,
        &mut found,
    )?;
    push_new(alloc, said, found.as_slice(), &mut fields)?;
    Ok(fields)
}

fn push_fields(alloc: Global, fields: &[Draft], whole: &mut Vec<Draft>) -> Result<(), NoMemory>
    ensures { OnOk result (map made_of whole.new.items ≡ map made_of whole.old.items ++ map made_of fields.now) }
{
    'fields: for field in fields {
        whole.push(copy_of(alloc, field)?)?;
    }
    Ok(())
}

/// Pushes the fields whose paths aren't known.
fn push_new(
    alloc: Global,
    said: &Said,
    fields: &[Draft],
    whole: &mut Vec<Draft>,
) -> Result<(), NoMemory>
    ensures { OnOk result (map made_of whole.new.items ≡ map made_of whole.old.items ++ filter (λ d. not (is_among (draft_paths (drafts_of said.now)) d.path)) (map made_of fields.now)) }
{
    'fields: for field in fields {
        if is_new(said, field) {
            whole.push(copy_of(alloc, field)?)?;
        }
    }
    Ok(())
}

fn is_new(said: &Said, field: &Draft) -> bool
    ensures { result ≡ not (is_among (draft_paths (drafts_of said.now)) (made_of field.now).path) }
{
    said.field(&Whole {
        name: field.path.as_slice(),
    })
    .is_none()
}

fn copy_of(alloc: Global, field: &Draft) -> Result<Draft, NoMemory>
    ensures { IfOk result (λ copy. made_of copy ≡ made_of field.now) }
{
    Ok(Draft {
        path: field.path.as_slice().to_vec(alloc)?,
        kind: field.kind,
        in_parent: field.in_parent,
        in_root: field.in_root,
        since: field.since,
    })
}

/// The bodies with one more.
fn bodies_with(alloc: Global, said: &Said, candidate: &Candidate<'_>) -> Result<Vec<Json>, NoMemory>
    ensures { IfOk result (λ bodies. map view bodies.items ≡ said.now ++ view candidate.now.body.now ∷ []) }
{
    let mut bodies = Vec::with_capacity(alloc, said.bodies.len())?;
    'bodies: for body in said.bodies.as_slice() {
        bodies.push(copied(alloc, body)?)?;
    }
    bodies.push(copied(alloc, candidate.body)?)?;
    Ok(bodies)
}

/// How many properties bodies say first with one more, as far as 64 bits count.
fn added_with(said: &Said, candidate: &Candidate<'_>) -> usize
    requires { IsCandidate said.now candidate.now }
    ensures { result ≡ counted (length (additions_of (said.now ++ view candidate.now.body.now ∷ []))) }
{
    let more = added_count(candidate.outlines.as_slice());
    said.counts.added.saturating_add(more)
}

/// How many of them are nested.
fn nested_with(said: &Said, candidate: &Candidate<'_>) -> usize
    requires { IsCandidate said.now candidate.now }
    ensures { result ≡ counted (count_by says_nested (additions_of (said.now ++ view candidate.now.body.now ∷ []))) }
{
    let more = nested_count(candidate.outlines.as_slice());
    said.counts.nested.saturating_add(more)
}

/// How many of them are joins.
fn joins_with(said: &Said, candidate: &Candidate<'_>) -> usize
    requires { IsCandidate said.now candidate.now }
    ensures { result ≡ counted (count_by says_join (additions_of (said.now ++ view candidate.now.body.now ∷ []))) }
{
    let more = join_count(candidate.outlines.as_slice());
    said.counts.joins.saturating_add(more)
}

/// How many bytes the compact texts of bodies have with one more.
fn bytes_with(said: &Said, candidate: &Candidate<'_>) -> u64
    ensures { result ≡ counted (compact_size (said.now ++ view candidate.now.body.now ∷ [])) }
{
    let more = compact_len(candidate.body);
    said.counts.bytes.saturating_add(more)
}

/// How much bodies say with one more.
fn counts_with(said: &Said, candidate: &Candidate<'_>) -> Counts
    requires { IsCandidate said.now candidate.now }
    ensures { AreCounts (said.now ++ view candidate.now.body.now ∷ []) result.added result.nested result.joins result.bytes }
{
    Counts {
        added: added_with(said, candidate),
        nested: nested_with(said, candidate),
        joins: joins_with(said, candidate),
        bytes: bytes_with(said, candidate),
    }
}

/// Bodies with one more, and what they say.
fn said_with(
    alloc: Global,
    said: &Said,
    candidate: &Candidate<'_>,
    counts: Counts,
    relations: Vec<Relation>,
) -> Result<Said, NoMemory>
    requires within { exceeded said.now ≡ None }
    requires counts { AreCounts (said.now ++ view candidate.now.body.now ∷ []) counts.added counts.nested counts.joins counts.bytes }
    requires relations { map relation_of relations.items ≡ relations_of (said.now ++ view candidate.now.body.now ∷ []) }
    ensures { IfOk result (λ s. s ≡ said.now ++ view candidate.now.body.now ∷ []) }
{
    let fields = fields_with(alloc, said, candidate)?;
    if !is_short(fields.len()) || !is_short(relations.len()) {
        return Err(NoMemory);
    }
    let by_path = order_from(alloc, fields.as_slice(), 0)?;
    let by_name = order_from(alloc, relations.as_slice(), 0)?;
    let bodies = bodies_with(alloc, said, candidate)?;
    Ok(Said {
        bodies,
        fields,
        by_path,
        relations,
        by_name,
        counts,
    })
}

/// Whether so many things can have numbers of 32 bits; more find no memory here.
fn is_short(len: usize) -> bool
    ensures { IsTrue result ↔ (len < 2 ^ 32) }
{
    len < 4_294_967_296
}
