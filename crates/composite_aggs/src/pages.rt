//! A page of the buckets of a composite.
ghost use Rattle.std.specs.Prelude.{◌≡◌, ◌<◌, ◌≤◌, ◌+◌, [], ◌∷◌, ◌++◌, map, min, length, false, true, IfOk, OnOk, IfErr, MatchResult, IsTrue};
ghost use Rattle.std.specs.List.{enumerate_from, flat_map, list_any};
ghost use Rattle.std.specs.Option.{option_copied};
ghost use Rattle.composite_aggs.specs.Composite.{combinations, combination_count, full_list, page_behind, with_value};
ghost use Rattle.composite_aggs.specs.Rows.{IsPageCause, has_too_many, places_of, row_keys};
ghost use Rattle.composite_aggs.specs.Kept.{Ascends, added, added_all, bucket_of, prefixed};

use crate::compare::compare_keys;
use crate::kept::{KeyPlaces, add};
use crate::{MOST_COMBINATIONS, PageRefusal};
use query_ast::ValueList;
use std::alloc::Global;
use tree_objects::FieldValue;

/// What a row shows of each source: its different values, or the different starts of its dates.
#[derive(Drop)]
pub struct Row {
    pub parts: Vec<ValueList>,
}

/// The first `size` buckets whose keys are strictly behind `after`, by ascending key, each with the rows that show its key
/// (the composite aggregation of the Elasticsearch reference). A key has one value of each source.
///
/// No more than `size` buckets are kept at any time. `TooManyCombinations` comes exactly where some row shows more than
/// 10,000 combinations, and `TooManyBuckets` never.
pub fn page(
    alloc: Global,
    rows: &[Row],
    after: Option<&ValueList>,
    size: u32,
) -> Result<Vec<KeyPlaces>, PageRefusal>
    ensures page { IfOk result (λ page. map bucket_of page.items ≡ map places_of (page_behind (option_copied after.entry) size (full_list row_keys (enumerate_from 0 rows.now)))) }
    ensures few { OnOk result (list_any has_too_many rows.now ≡ false) }
    ensures cause { IfErr result (IsPageCause rows.now) }
{
    let mut kept = Vec::new(alloc);
    let mut key = Vec::new(alloc);
    for (place, row) in rows.iter().enumerate() {
        if combination_count(row.parts.as_slice()) > MOST_COMBINATIONS {
            return Err(PageRefusal::TooManyCombinations);
        }
        key.clear();
        add_keys(
            alloc,
            &mut kept,
            &mut key,
            row.parts.as_slice(),
            place,
            after,
            size as usize,
        )?;
    }
    Ok(kept)
}

/// How many combinations there are of a value of each source, or 10,001 where there are more.
fn combination_count(parts: &[ValueList]) -> usize
    ensures { result ≡ min (combination_count parts.now) (MOST_COMBINATIONS + 1) }
{
    match parts {
        [] => 1,
        [values, more @ ..] => {
            let count = values.as_slice().len();
            count
                .saturating_mul(combination_count(more))
                .min(MOST_COMBINATIONS + 1)
        }
    }
}

/// Gives a row to the buckets of all keys that begin with `key` and go on with a value of each of the sources.
#[cycle(keys)]
fn add_keys<'a>(
    alloc: Global,
    kept: &mut Vec<KeyPlaces>,
    key: &mut Vec<&'a FieldValue>,
    parts: &'a [ValueList],
    place: usize,
    after: Option<&ValueList>,
    size: usize,
) -> Result<(), PageRefusal>
    requires ascending { Ascends (map bucket_of kept.old.items) }
    requires short { length kept.old.items ≤ size }
    ensures kept { OnOk result (map bucket_of kept.new.items ≡ added_all (option_copied after.entry) size place (map (prefixed (map (λ v. v.now) key.old.items)) (combinations parts.now)) (map bucket_of kept.old.items)) }
    ensures key { OnOk result (map (λ v. v.now) key.new.items ≡ map (λ v. v.now) key.old.items) }
    ensures ascending { OnOk result (Ascends (map bucket_of kept.new.items)) }
    ensures short { OnOk result (length kept.new.items ≤ size) }
    ensures cause { IfErr result (λ e. e ≡ PageRefusal.NoMemory) }
{
    match parts {
        [] => add_behind(alloc, kept, key.as_slice(), place, after, size),
        [values, more @ ..] => {
            add_values(
                alloc,
                kept,
                key,
                values.as_slice(),
                more,
                place,
                after,
                size,
            )
        }
    }
}

/// The same of the keys that go on with one of these values and then with a value of each of the sources.
#[cycle(keys)]
fn add_values<'a>(
    alloc: Global,
    kept: &mut Vec<KeyPlaces>,
    key: &mut Vec<&'a FieldValue>,
    values: &'a [FieldValue],
    parts: &'a [ValueList],
    place: usize,
    after: Option<&ValueList>,
    size: usize,
) -> Result<(), PageRefusal>
    requires ascending { Ascends (map bucket_of kept.old.items) }
    requires short { length kept.old.items ≤ size }
    ensures kept { OnOk result (map bucket_of kept.new.items ≡ added_all (option_copied after.entry) size place (map (prefixed (map (λ v. v.now) key.old.items)) (flat_map (λ w. map (with_value w) (combinations parts.now)) values.now)) (map bucket_of kept.old.items)) }
    ensures key { OnOk result (map (λ v. v.now) key.new.items ≡ map (λ v. v.now) key.old.items) }
    ensures ascending { OnOk result (Ascends (map bucket_of kept.new.items)) }
    ensures short { OnOk result (length kept.new.items ≤ size) }
    ensures cause { IfErr result (λ e. e ≡ PageRefusal.NoMemory) }
{
    let depth = key.len();
    for value in values {
        push_value(key, value)?;
        add_keys(alloc, kept, key, parts, place, after, size)?;
        key.truncate(depth);
    }
    Ok(())
}

/// Puts a value last.
fn push_value<'a>(key: &mut Vec<&'a FieldValue>, value: &'a FieldValue) -> Result<(), PageRefusal>
    ensures value { OnOk result (map (λ v. v.now) key.new.items ≡ map (λ v. v.now) key.old.items ++ value.now ∷ []) }
    ensures cause { IfErr result (λ e. e ≡ PageRefusal.NoMemory) }
{
    key.push(value)?;
    Ok(())
}

/// Gives a row to the bucket of the key, if that is behind `after`.
pub(crate) fn add_behind(
    alloc: Global,
    kept: &mut Vec<KeyPlaces>,
    key: &[&FieldValue],
    place: usize,
    after: Option<&ValueList>,
    size: usize,
) -> Result<(), PageRefusal>
    requires ascending { Ascends (map bucket_of kept.old.items) }
    requires short { length kept.old.items ≤ size }
    ensures kept { OnOk result (map bucket_of kept.new.items ≡ added (option_copied after.entry) size place (map (λ v. v.now) key.now) (map bucket_of kept.old.items)) }
    ensures ascending { OnOk result (Ascends (map bucket_of kept.new.items)) }
    ensures short { OnOk result (length kept.new.items ≤ size) }
    ensures cause { IfErr result (λ e. e ≡ PageRefusal.NoMemory) }
{
    if let Some(after) = after {
        if !compare_keys(after.as_slice(), key).is_lt() {
            return Ok(());
        }
    }
    add(alloc, kept, key, place, size)
}
