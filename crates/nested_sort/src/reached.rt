//! The hits that a page can show, by their first keys: those out of reach get no row.
ghost use Rattle.std.specs.Prelude.{◌≡◌, ◌++◌, ◌∷◌, ◌<◌, ℕ, Bool, List, [], None, false, filter, option_map, Option, IfOk, IfSome, OnOk};
ghost use Rattle.std.specs.List.{All, flat_map};
ghost use Rattle.hit_order.specs.Reach.{first_of_row};
ghost use Rattle.hit_order.specs.Table.{number_or_null};
ghost use Rattle.nested_sort.specs.Documents.{AllLong, clause_key};
ghost use Rattle.nested_sort.specs.Listed.{IsCapped};
ghost use Rattle.nested_sort.specs.Near.{IsCutAt, IsSuited};
ghost use Rattle.nested_sort.specs.Reached.{AreKept, HavePages, IsAsked, IsAskedAt, IsColumnOf, IsLongAt, hit_within, key_at, key_by};
ghost use Rattle.query_ast.specs.Resolved.{AreSorts, IsSortKey};
ghost use Rattle.query_ast.specs.declared.sort.Direction.{Direction as RowDirection};
ghost use Rattle.query_ast.specs.declared.sort.Key.{Key};
ghost use Rattle.query_eval.specs.Found.{AreLong};
ghost use Rattle.segment.specs.Live.{EntryState};
ghost use Rattle.view_objects.specs.Hits.{hits_from, hits_in};
ghost use Rattle.view_objects.specs.declared.hit.Hit.{Hit as FoundHit};

use crate::NoMemory;
use crate::asked::Asked;
use crate::clauses::direction_of;
use crate::hits::{hits_found, next_hit};
use crate::inside::scope_documents;
use crate::limit::reach_of;
use crate::near::{Reach, within_reach};
use crate::numbers::key_in;
use crate::row_guess::RowGuess;
use crate::sample::count_about;
use block_join::{Matches, Scored};
use doc_values::NumberColumn;
use hit_order::{FirstKeys, pages_are_of_rows_within_reach};
use mapping::{Kind, Mapping};
use query_ast::{Direction, Key as RowKey, KeyRow, Sort, SortKey, rows_stand_in_order};
use segment::Segment;
use segment_view::Entry;
use std::alloc::Global;
use view_objects::Hit;

/// Fewer hits than one of so many documents are few.
const FEW: u32 = 1024;

/// A first clause whose keys are numbers or null.
#[derive(Drop)]
pub(crate) enum NumberClause<'a> {
    Score,
    Field(Asked<'a>),
}

/// A hit with its key for the first clause.
#[derive(Clone, Copy, Debug, PartialEq, Eq)]
pub(crate) struct Candidate {
    pub(crate) key: Option<i64>,
    pub(crate) hit: Hit,
}

/// Of the documents with a score those that a page can show that ends at so many rows behind one, if it is named.
///
/// All are kept where the first clause is on a text, and where there is none.
pub(crate) fn hits_within(
    alloc: Global,
    entries: &[Entry],
    mapping: &Mapping,
    found: &[Scored],
    filters: &[Matches],
    scope: u32,
    sorts: &[Sort],
    after: Option<&KeyRow>,
    most: usize,
) -> Result<Vec<Hit>, NoMemory>
    requires sorts { AreSorts mapping.now scope sorts.now }
    requires filters { AllLong entries.now filters.now }
    requires found { AreLong entries.now found.now }
    ensures chosen { IfOk result (λ hits. (keep : FoundHit → Bool) × (hits.items ≡ filter keep (hits_in found.now))) }
    ensures pages { IfOk result (λ hits. HavePages mapping.now entries.now scope filters.now sorts.now (option_map (λ row. row.now) after.entry) most (hits_in found.now) hits.items) }
    ensures capped { IfOk result (λ hits. All IsCapped hits.items) }
{
    pages_are_of_rows_within_reach();
    match sorts {
        [] => Ok(hits_found(alloc, found)?),
        [first, ..] => match number_clause(mapping, filters, scope, first) {
            None => Ok(hits_found(alloc, found)?),
            Some(clause) => {
                let direction = direction_of(first);
                let (kept, keys) = kept_hits(
                    alloc, entries, found, &clause, direction, after, most,
                )?;
                let hits = within(alloc, kept.as_slice(), &keys)?;
                Ok(hits)
            }
        },
    }
}

/// What a clause asks, where its keys are numbers or null.
fn number_clause<'a>(
    mapping: &Mapping,
    filters: &'a [Matches],
    scope: u32,
    sort: &'a Sort,
) -> Option<NumberClause<'a>>
    requires sort { IsSortKey mapping.now scope sort.now.missing sort.now.key }
    ensures keys { IfSome result (λ clause. (entries : List EntryState) → key_by entries clause ≡ clause_key mapping.now entries scope filters.now sort.now.missing sort.now.key) }
    ensures asked { IfSome result (λ clause. (entries : List EntryState) → AllLong entries filters.now → IsAsked entries clause) }
{
    match &sort.key {
        SortKey::Score => Some(NumberClause::Score),
        SortKey::Field { field, mode, chain } => {
            if mapping.kind(*field) == Kind::Keyword {
                return None;
            }
            Some(NumberClause::Field(Asked {
                field: *field,
                mode: *mode,
                chain: chain.as_slice(),
                filters,
                scope,
                missing: &sort.missing,
            }))
        }
    }
}

/// The documents with a score that may be within reach, each with its key, and which keys are.
fn kept_hits<'a>(
    alloc: Global,
    entries: &[Entry],
    found: &[Scored],
    clause: &NumberClause<'_>,
    direction: Direction,
    after: Option<&'a KeyRow>,
    most: usize,
) -> Result<(Vec<Candidate>, FirstKeys<'a>), NoMemory>
    requires asked { IsAsked entries.now clause.now }
    requires found { AreLong entries.now found.now }
    ensures { IfOk result (λ kept. AreKept (key_by entries.now clause.now) direction (option_map (λ row. first_of_row row.now) after.entry) most (hits_in found.now) kept.0.items kept.1) }
{
    if let Some(reach) = reach_of(entries, found, clause, direction, after, most) {
        let mut keys = FirstKeys::of(alloc, direction, after, most);
        if let Some(kept) = near_candidates(alloc, entries, found, clause, reach, &mut keys)? {
            return Ok((kept, keys));
        }
    }
    let mut keys = FirstKeys::of(alloc, direction, after, most);
    let kept = candidates(alloc, entries, found, clause, &mut keys)?;
    Ok((kept, keys))
}

/// The documents with a score that were within reach when they were met, each with its key, where the hits of the page lie
/// before a limit; None where they don't, or where this isn't known.
fn near_candidates(
    alloc: Global,
    entries: &[Entry],
    found: &[Scored],
    clause: &NumberClause<'_>,
    reach: Reach,
    keys: &mut FirstKeys<'_>,
) -> Result<Option<Vec<Candidate>>, NoMemory>
    requires asked { IsAsked entries.now clause.now }
    requires found { AreLong entries.now found.now }
    requires suited { IsSuited clause.now }
    requires direction { reach.direction ≡ keys.old.direction }
    requires null { keys.old.direction.null_first ≡ false }
    requires after { option_map Key.Number reach.after ≡ keys.old.after }
    requires none { keys.old.bound ≡ None }
    requires new { keys.old.keys ≡ [] }
    ensures { IfOk result (λ found_ones. IfSome found_ones (λ kept. AreKept (key_by entries.now clause.now) keys.old.direction keys.old.after keys.old.most (hits_in found.now) kept.items keys.new)) }
{
    rows_stand_in_order::<RowKey>();
    let mut kept = Vec::new(alloc);
    let mut values = Vec::new(alloc);
    'entries: for at in 0..found.len() {
        let Some(near) = near_hits(alloc, entries, at, &found[at], clause, reach)? else {
            return Ok(None);
        };
        add_candidates(
            entries,
            at as u64,
            &near,
            clause,
            keys,
            &mut kept,
            &mut values,
        )?;
    }
    keys.narrow();
    if keys.is_near(Some(reach.limit)) {
        return Ok(None);
    }
    Ok(Some(kept))
}

/// Of the entry at a place the documents with a score that may be within reach.
fn near_hits(
    alloc: Global,
    entries: &[Entry],
    place: usize,
    found: &Scored,
    clause: &NumberClause<'_>,
    reach: Reach,
) -> Result<Option<Scored>, NoMemory>
    requires long { IsLongAt entries.now place found.now }
    requires asked { IsAsked entries.now clause.now }
    ensures { IfOk result (λ made. IfSome made (λ near. IsCutAt entries.now place clause.now reach found.now near)) }
{
    match clause {
        NumberClause::Score => Ok(None),
        NumberClause::Field(asked) => {
            let segment = entries[place].segment();
            Ok(within_reach(alloc, segment, place, found, asked, reach)?)
        }
    }
}

/// The documents with a score that were within reach when they were met, each with its key.
fn candidates(
    alloc: Global,
    entries: &[Entry],
    found: &[Scored],
    clause: &NumberClause<'_>,
    keys: &mut FirstKeys<'_>,
) -> Result<Vec<Candidate>, NoMemory>
    requires asked { IsAsked entries.now clause.now }
    requires found { AreLong entries.now found.now }
    requires none { keys.old.bound ≡ None }
    requires new { keys.old.keys ≡ [] }
    ensures { IfOk result (λ kept. AreKept (key_by entries.now clause.now) keys.old.direction keys.old.after keys.old.most (hits_in found.now) kept.items keys.new) }
{
    let mut kept = Vec::new(alloc);
    let mut values = Vec::new(alloc);
    'entries: for at in 0..found.len() {
        add_candidates(
            entries,
            at as u64,
            &found[at],
            clause,
            keys,
            &mut kept,
            &mut values,
        )?;
    }
    keys.narrow();
    Ok(kept)
}

/// Adds those of the entry at a place.
fn add_candidates(
    entries: &[Entry],
    place: u64,
    found: &Scored,
    clause: &NumberClause<'_>,
    keys: &mut FirstKeys<'_>,
    kept: &mut Vec<Candidate>,
    values: &mut Vec<i64>,
) -> Result<(), NoMemory>
    requires asked { IsAsked entries.now clause.now }
    requires long { IsLongAt entries.now place found.now }
    ensures { OnOk result ((direction : RowDirection) (after : Option Key) (most : ℕ) (all : List FoundHit) → AreKept (key_by entries.now clause.now) direction after most all kept.old.items keys.old → AreKept (key_by entries.now clause.now) direction after most (all ++ hits_from place 0 found.now) kept.new.items keys.new) }
{
    let segment = entries[place as usize].segment();
    let column = column_of(segment, clause);
    let end = found.len();
    let mut left = found.cursor();
    let mut guess = guess_of(segment, found, column.as_ref(), clause);
    'found: while let Some(hit) = next_hit(&mut left, place, end) {
        let key = first_key(segment, column.as_ref(), hit, clause, &mut guess, values)?;
        offer(hit, key, keys, kept)?;
    }
    Ok(())
}

/// The numbers of the field of a clause.
fn column_of<'a>(segment: &'a Segment, clause: &NumberClause<'_>) -> Option<NumberColumn<'a>>
    ensures { IsColumnOf segment.now clause.now result }
{
    match clause {
        NumberClause::Score => None,
        NumberClause::Field(asked) => segment.numbers(asked.field),
    }
}

/// Where the rows of those numbers are likely to stand. Ranks among all documents aren't counted for a few hits.
fn guess_of<'a>(
    segment: &'a Segment,
    found: &Scored,
    column: Option<&NumberColumn<'_>>,
    clause: &NumberClause<'_>,
) -> RowGuess<'a> {
    match (clause, column) {
        (NumberClause::Field(asked), Some(column)) => {
            let few = count_about(found.set()) < segment.docs() / FEW;
            let documents = if few {
                None
            } else {
                scope_documents(segment, asked.inner_scope())
            };
            RowGuess::over(column, documents)
        }
        _ => RowGuess::first(),
    }
}

/// The key of a hit of a segment for a clause.
fn first_key(
    segment: &Segment,
    column: Option<&NumberColumn<'_>>,
    hit: Hit,
    clause: &NumberClause<'_>,
    guess: &mut RowGuess<'_>,
    values: &mut Vec<i64>,
) -> Result<Option<i64>, NoMemory>
    requires column { IsColumnOf segment.now clause.now (option_map (λ own. own.now) column) }
    requires asked { IsAskedAt segment.now hit.place clause.now }
    requires within { hit.doc < segment.now.documents }
    requires capped { IsCapped hit }
    ensures { IfOk result (λ key. number_or_null key ≡ key_at segment.now hit.place clause.now hit) }
{
    match clause {
        NumberClause::Score => Ok(Some(hit.score as i64)),
        NumberClause::Field(asked) => Ok(key_in(
            segment,
            column,
            hit.place as usize,
            hit.doc,
            asked,
            guess,
            values,
        )?),
    }
}

/// Adds a hit, if its key is within reach.
fn offer(
    hit: Hit,
    key: Option<i64>,
    keys: &mut FirstKeys<'_>,
    kept: &mut Vec<Candidate>,
) -> Result<(), NoMemory>
    requires capped { IsCapped hit }
    ensures { OnOk result ((own : FoundHit → Key) (direction : RowDirection) (after : Option Key) (most : ℕ) (all : List FoundHit) → number_or_null key ≡ own hit → AreKept own direction after most all kept.old.items keys.old → AreKept own direction after most (all ++ hit ∷ []) kept.new.items keys.new) }
{
    if keys.offer(key)? {
        kept.push(Candidate { key, hit })?;
    }
    Ok(())
}

/// The hits whose keys are within reach.
fn within(alloc: Global, kept: &[Candidate], keys: &FirstKeys<'_>) -> Result<Vec<Hit>, NoMemory>
    ensures { IfOk result (λ hits. hits.items ≡ flat_map (hit_within keys.now) kept.now) }
{
    let mut hits = Vec::new(alloc);
    'kept: for one in kept {
        add_within(keys, *one, &mut hits)?;
    }
    Ok(hits)
}

/// Adds a hit, if its key is within reach.
fn add_within(keys: &FirstKeys<'_>, one: Candidate, hits: &mut Vec<Hit>) -> Result<(), NoMemory>
    ensures { OnOk result (hits.new.items ≡ hits.old.items ++ hit_within keys.now one) }
{
    if keys.is_within(one.key) {
        hits.push(one.hit)?;
    }
    Ok(())
}
