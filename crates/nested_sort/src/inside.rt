//! The documents inside a document, down a chain of scopes.
ghost use Rattle.std.specs.Prelude.{◌≡◌, ◌++◌, ◌<◌, ◌≤◌, ℕ, false, get_or, is_some, length, map, IfSome, IfNone, OnOk};
ghost use Rattle.std.specs.List.{flat_map};
ghost use Rattle.block_bits.specs.Blocks.{documents_of};
ghost use Rattle.doc_values.specs.Values.{values_of};
ghost use Rattle.nested_sort.specs.Inside.{AreAt, chain_docs, filters_left, first_found, marked_within, passing};
ghost use Rattle.query_eval.specs.Folds.{scopes_in};
ghost use Rattle.view_objects.specs.Hits.{start_before};

use crate::NoMemory;
use crate::row_guess::RowGuess;
use block_bits::BitSet;
use block_join::Matches;
use doc_values::{Column, ColumnValue, Values};
use query_ast::Chain;
use segment::{Segment, scopes_are_of_documents};

/// Adds the values of the documents that a chain leads to, from a document of a scope in the entry at a place.
///
/// `filters` holds what the filters of the chain find, from the outermost in. Values are looked for where `guess` says.
pub(crate) fn gather<T: ColumnValue>(
    column: &Column<'_, T>,
    segment: &Segment,
    place: usize,
    chain: &[Chain],
    filters: &[Matches],
    scope: u32,
    doc: u32,
    guess: &mut RowGuess<'_>,
    values: &mut Vec<T>,
) -> Result<(), NoMemory>
    requires within { doc < segment.now.documents }
    requires found { AreAt place segment.now.documents filters.now }
    ensures { OnOk result (values.new.items ≡ values.old.items ++ flat_map (λ inside. values_of inside column.now) (chain_docs place (scopes_in segment.now) chain.now filters.now scope doc)) }
{
    match chain {
        [step] => Ok(gather_step(
            column, segment, place, step, filters, scope, doc, guess, values,
        )?),
        _ => Ok(gather_down(
            column, segment, place, chain, filters, scope, doc, guess, values,
        )?),
    }
}

/// Those that one step leads to.
fn gather_step<T: ColumnValue>(
    column: &Column<'_, T>,
    segment: &Segment,
    place: usize,
    step: &Chain,
    filters: &[Matches],
    scope: u32,
    doc: u32,
    guess: &mut RowGuess<'_>,
    values: &mut Vec<T>,
) -> Result<(), NoMemory>
    requires within { doc < segment.now.documents }
    requires found { AreAt place segment.now.documents filters.now }
    ensures { OnOk result (values.new.items ≡ values.old.items ++ flat_map (λ inside. values_of inside column.now) (marked_within (start_before scope doc (scopes_in segment.now)) doc (passing place (scopes_in segment.now) step.now.scope step.now.filter filters.now))) }
{
    match passing_set(segment, place, step, filters) {
        None => Ok(()),
        Some(passing) => Ok(gather_last(
            column,
            passing,
            start_of(segment, scope, doc),
            doc,
            guess,
            values,
        )?),
    }
}

/// The documents that a step may lead to; None where there are none.
#[tactic(auto, using(crate::proofs::Ways::ways))]
pub(crate) fn passing_set<'a>(
    segment: &'a Segment,
    place: usize,
    step: &Chain,
    filters: &'a [Matches],
) -> Option<&'a BitSet>
    requires found { AreAt place segment.now.documents filters.now }
    ensures some { IfSome result (λ set. set.now ≡ passing place (scopes_in segment.now) step.now.scope step.now.filter filters.now) }
    ensures long { IfSome result (λ set. length set.now ≡ segment.now.documents) }
    ensures none { IfNone result ((doc : ℕ) → get_or (passing place (scopes_in segment.now) step.now.scope step.now.filter filters.now) doc false ≡ false) }
{
    if step.filter.is_some() {
        first_set(place, filters)
    } else {
        scope_documents(segment, step.scope)
    }
}

/// What the first filter finds in the entry at a place.
fn first_set(place: usize, filters: &[Matches]) -> Option<&BitSet>
    requires { (count : ℕ) × AreAt place count filters.now }
    ensures some { IfSome result (λ set. set.now ≡ map is_some (first_found place filters.now)) }
    ensures long { (count : ℕ) → AreAt place count filters.now → IfSome result (λ set. length set.now ≡ count) }
    ensures none { IfNone result ((doc : ℕ) → get_or (map is_some (first_found place filters.now)) doc false ≡ false) }
{
    match filters {
        [] => None,
        [first, ..] => Some(first.as_slice()[place].set()),
    }
}

/// The filters that are left behind a step.
#[tactic(auto, using(crate::proofs::Ways::ways))]
pub(crate) fn filters_left<'a>(step: &Chain, filters: &'a [Matches]) -> &'a [Matches]
    ensures left { result.now ≡ filters_left step.now.filter filters.now }
    ensures found { (place count : ℕ) → AreAt place count filters.now → AreAt place count result.now }
{
    if step.filter.is_none() {
        return filters;
    }
    match filters {
        [] => filters,
        [_, later @ ..] => later,
    }
}

/// The same down any chain.
#[cycle(gather)]
#[tactic(auto, using(crate::proofs::Ways::ways))]
fn gather_down<T: ColumnValue>(
    column: &Column<'_, T>,
    segment: &Segment,
    place: usize,
    chain: &[Chain],
    filters: &[Matches],
    scope: u32,
    doc: u32,
    guess: &mut RowGuess<'_>,
    values: &mut Vec<T>,
) -> Result<(), NoMemory>
    requires within { doc < segment.now.documents }
    requires found { AreAt place segment.now.documents filters.now }
    ensures { OnOk result (values.new.items ≡ values.old.items ++ flat_map (λ inside. values_of inside column.now) (chain_docs place (scopes_in segment.now) chain.now filters.now scope doc)) }
{
    match chain {
        [] => Ok(add(guess.values(column, doc), values)?),
        [step, rest @ ..] => match passing_set(segment, place, step, filters) {
            None => Ok(()),
            Some(passing) => Ok(gather_in(
                column,
                segment,
                place,
                rest,
                filters_left(step, filters),
                step.scope,
                passing,
                start_of(segment, scope, doc),
                doc,
                guess,
                values,
            )?),
        },
    }
}

/// Those from the documents of a set in a range.
#[cycle(gather)]
#[tactic(auto, using(crate::proofs::Marked::marked))]
fn gather_in<T: ColumnValue>(
    column: &Column<'_, T>,
    segment: &Segment,
    place: usize,
    rest: &[Chain],
    filters: &[Matches],
    scope: u32,
    passing: &BitSet,
    start: u32,
    end: u32,
    guess: &mut RowGuess<'_>,
    values: &mut Vec<T>,
) -> Result<(), NoMemory>
    requires within { end < segment.now.documents }
    requires long { length passing.now ≡ segment.now.documents }
    requires found { AreAt place segment.now.documents filters.now }
    ensures { OnOk result (values.new.items ≡ values.old.items ++ flat_map (λ inside. values_of inside column.now) (flat_map (chain_docs place (scopes_in segment.now) rest.now filters.now scope) (marked_within start end passing.now))) }
{
    let mut from = start;
    'inside: while let Some(doc) = passing.next_set_before(from, end) {
        gather_down(
            column, segment, place, rest, filters, scope, doc, guess, values,
        )?;
        from = doc + 1;
    }
    Ok(())
}

/// Those of the documents of a set in a range.
fn gather_last<T: ColumnValue>(
    column: &Column<'_, T>,
    passing: &BitSet,
    start: u32,
    end: u32,
    guess: &mut RowGuess<'_>,
    values: &mut Vec<T>,
) -> Result<(), NoMemory>
    requires { end ≤ length passing.now }
    ensures { OnOk result (values.new.items ≡ values.old.items ++ flat_map (λ inside. values_of inside column.now) (marked_within start end passing.now)) }
{
    let mut from = start;
    'inside: while let Some(doc) = passing.next_set_before(from, end) {
        add(guess.values(column, doc), values)?;
        from = doc + 1;
    }
    Ok(())
}

/// Adds values behind others.
fn add<T: ColumnValue>(mut left: Values<'_, T>, values: &mut Vec<T>) -> Result<(), NoMemory>
    ensures { OnOk result (values.new.items ≡ values.old.items ++ left.entry) }
{
    'values: while let Some(value) = left.next() {
        values.push(value)?;
    }
    Ok(())
}

/// The documents of a scope; None where the segment has none of it.
pub(crate) fn scope_documents(segment: &Segment, scope: u32) -> Option<&BitSet>
    ensures some { IfSome result (λ set. set.now ≡ documents_of (scopes_in segment.now) scope) }
    ensures long { IfSome result (λ set. length set.now ≡ segment.now.documents) }
    ensures none { IfNone result ((doc : ℕ) → get_or (documents_of (scopes_in segment.now) scope) doc false ≡ false) }
{
    scopes_are_of_documents(segment);
    let _documents = segment.docs();
    let scopes = segment.scopes().as_slice();
    let place = scope as usize;
    if place >= scopes.len() {
        return None;
    }
    Some(&scopes[place])
}

/// Where that begins which lies inside a document of a scope.
#[tactic(auto, using(crate::proofs::Scopes::starts))]
fn start_of(segment: &Segment, scope: u32, doc: u32) -> u32
    ensures { result ≡ start_before scope doc (scopes_in segment.now) }
{
    let Some(set) = scope_documents(segment, scope) else {
        return 0;
    };
    match set.prev_set(doc) {
        Some(before) => before + 1,
        None => 0,
    }
}
