//! Keys that are numbers.
ghost use Rattle.std.specs.Prelude.{◌≡◌, ◌≤◌, ◌<◌, [], ◌∷◌, Some, false, length, map, option_map, IfOk, IfSome, OnOk};
ghost use Rattle.std.specs.List.{All, flat_map};
ghost use Rattle.hit_order.specs.Table.{number_or_null};
ghost use Rattle.nested_sort.specs.Documents.{AllLong, IsGivenAs, docs_inside, key_in, key_of_hit, number_value, numbers_at, question_of, score_key};
ghost use Rattle.nested_sort.specs.Inside.{AreAt};
ghost use Rattle.nested_sort.specs.Listed.{AreDocs, IsCapped, IsDocOf};
ghost use Rattle.query_ast.specs.SortKey.{key_or_missing, mode_value};
ghost use Rattle.segment_parts.specs.Fields.{column_of};

use crate::NoMemory;
use crate::asked::Asked;
use crate::inside::gather;
use crate::modes::{is_of_one, number_of};
use crate::row_guess::RowGuess;
use doc_values::NumberColumn;
use hit_order::NumberKeys;
use query_ast::Missing;
use segment::{Segment, values_are_of_documents};
use segment_view::Entry;
use std::alloc::Global;
use tree_objects::FieldValue;
use view_objects::Hit;

/// The scores of hits.
pub(crate) fn score_keys(alloc: Global, hits: &[Hit]) -> Result<NumberKeys, NoMemory>
    requires { All IsCapped hits.now }
    ensures { IfOk result (λ keys. map number_or_null keys ≡ map score_key hits.now) }
{
    let mut keys = NumberKeys::empty(alloc);
    'hits: for hit in hits {
        keys.push(Some(hit.score as i64))?;
    }
    Ok(keys)
}

/// The number that stands for those inside each hit.
pub(crate) fn number_keys(
    alloc: Global,
    entries: &[Entry],
    hits: &[Hit],
    asked: &Asked<'_>,
) -> Result<NumberKeys, NoMemory>
    requires docs { AreDocs entries.now hits.now }
    requires found { AllLong entries.now asked.now.filters.now }
    requires given { IsGivenAs false asked.now.missing.now }
    ensures { IfOk result (λ keys. map number_or_null keys ≡ map (key_of_hit false entries.now (question_of asked.now)) hits.now) }
{
    let mut keys = NumberKeys::empty(alloc);
    let mut guess = RowGuess::first();
    let mut values = Vec::new(alloc);
    'hits: for hit in hits {
        keys.push(key_of(entries, *hit, asked, &mut guess, &mut values)?)?;
    }
    Ok(keys)
}

/// The number of one hit.
fn key_of(
    entries: &[Entry],
    hit: Hit,
    asked: &Asked<'_>,
    guess: &mut RowGuess<'_>,
    values: &mut Vec<i64>,
) -> Result<Option<i64>, NoMemory>
    requires doc { IsDocOf entries.now hit.place hit.doc }
    requires found { AllLong entries.now asked.now.filters.now }
    requires given { IsGivenAs false asked.now.missing.now }
    ensures { IfOk result (λ key. number_or_null key ≡ key_of_hit false entries.now (question_of asked.now) hit) }
{
    let place = hit.place as usize;
    let segment = entries[place].segment();
    let column = segment.numbers(asked.field);
    Ok(key_in(
        segment,
        column.as_ref(),
        place,
        hit.doc,
        asked,
        guess,
        values,
    )?)
}

/// The number of a document of the entry at a place, from the column of the field. It is looked for where `guess` says.
pub(crate) fn key_in(
    segment: &Segment,
    column: Option<&NumberColumn<'_>>,
    place: usize,
    doc: u32,
    asked: &Asked<'_>,
    guess: &mut RowGuess<'_>,
    values: &mut Vec<i64>,
) -> Result<Option<i64>, NoMemory>
    requires column { option_map (λ own. own.now) column ≡ column_of asked.now.field segment.now.numbers }
    requires within { doc < segment.now.documents }
    requires found { AreAt place segment.now.documents asked.now.filters.now }
    requires given { IsGivenAs false asked.now.missing.now }
    ensures { IfOk result (λ key. number_or_null key ≡ key_in false segment.now place (question_of asked.now) doc) }
{
    let own = own_number(segment, column, doc, asked, guess);
    if own.is_some() {
        return Ok(own);
    }
    gather_numbers(segment, column, place, doc, asked, guess, values)?;
    Ok(number_or(number_of(asked.mode, values)?, asked.missing))
}

/// The number of a document that no chain leads on from, where it is the only one and stands for itself.
fn own_number(
    segment: &Segment,
    column: Option<&NumberColumn<'_>>,
    doc: u32,
    asked: &Asked<'_>,
    guess: &mut RowGuess<'_>,
) -> Option<i64>
    requires column { option_map (λ own. own.now) column ≡ column_of asked.now.field segment.now.numbers }
    requires within { doc < segment.now.documents }
    ensures chain { IfSome result (λ number. asked.now.chain.now ≡ []) }
    ensures only { IfSome result (λ number. numbers_at segment.now asked.now.field doc ≡ number ∷ []) }
    ensures mode { IfSome result (λ number. mode_value asked.now.mode (number_value number ∷ []) ≡ Some (number_value number)) }
{
    values_are_of_documents(segment);
    let column = column?;
    if !asked.chain.is_empty() || !is_of_one(asked.mode) {
        return None;
    }
    let mut values = guess.values(column, doc);
    let first = values.next()?;
    match values.next() {
        None => Some(first),
        Some(_) => None,
    }
}

/// The numbers inside a document, in place of those before.
#[tactic(auto, using(crate::proofs::Gathers::gathers))]
fn gather_numbers(
    segment: &Segment,
    column: Option<&NumberColumn<'_>>,
    place: usize,
    doc: u32,
    asked: &Asked<'_>,
    guess: &mut RowGuess<'_>,
    values: &mut Vec<i64>,
) -> Result<(), NoMemory>
    requires column { option_map (λ own. own.now) column ≡ column_of asked.now.field segment.now.numbers }
    requires within { doc < segment.now.documents }
    requires found { AreAt place segment.now.documents asked.now.filters.now }
    ensures { OnOk result (values.new.items ≡ flat_map (numbers_at segment.now asked.now.field) (docs_inside segment.now place (question_of asked.now) doc)) }
{
    values_are_of_documents(segment);
    values.clear();
    match column {
        Some(column) => Ok(gather(
            column,
            segment,
            place,
            asked.chain,
            asked.filters,
            asked.scope,
            doc,
            guess,
            values,
        )?),
        None => Ok(()),
    }
}

/// A number, or the one that is given where there is none.
fn number_or(number: Option<i64>, missing: &Missing) -> Option<i64>
    requires { IsGivenAs false missing.now }
    ensures { number_or_null result ≡ key_or_missing missing.now (option_map number_value number) }
{
    match number {
        Some(number) => Some(number),
        None => match missing {
            Missing::Last => None,
            Missing::First => None,
            Missing::Given(FieldValue::Number(given)) => Some(*given),
            Missing::Given(FieldValue::Written(_)) => None,
        },
    }
}
