//! A bucket for each day, month or year.
ghost use Rattle.std.specs.Prelude.{◌≡◌, ◌+◌, ◌≤◌, [], None, map, length, IfOk, OnOk, IfErr};
ghost use Rattle.std.specs.List.{cons_option, enumerate_from};
ghost use Rattle.composite_aggs.specs.Composite.{full_list, histogram_of, interval_key, page_behind, start_keys};
ghost use Rattle.composite_aggs.specs.Rows.{IsHistogramCause, date_keys, places_of};
ghost use Rattle.composite_aggs.specs.Kept.{Ascends, added_all, bucket_of};

use crate::between::with_all_between;
use crate::kept::KeyPlaces;
use crate::pages::add_behind;
use crate::{MOST_BUCKETS, PageRefusal};
use calendar_intervals::{Interval, start, starts_ascend};
use query_ast::ValueList;
use std::alloc::Global;
use tree_objects::FieldValue;

/// A bucket for each interval that a date of some row lies in, by ascending start, each with the rows that show it; with `fill`
/// also one without rows for each start between the least and the greatest of these (the date histogram of the Elasticsearch
/// reference, with a `min_doc_count` of 1, or with `fill` of 0). A row is its different dates, in milliseconds since
/// 1970-01-01T00:00:00Z, and a key is the start alone.
///
/// `TooManyBuckets` comes exactly where there would be more than 10,000 buckets, of which no more than 10,001 are made, and
/// `TooManyCombinations` never.
pub fn histogram(
    alloc: Global,
    rows: &[ValueList],
    interval: Interval,
    fill: bool,
) -> Result<Vec<KeyPlaces>, PageRefusal>
    ensures buckets { IfOk result (λ made. map bucket_of made.items ≡ map places_of (histogram_of (date_keys interval) interval fill (enumerate_from 0 rows.now))) }
    ensures few { IfOk result (λ made. length made.items ≤ MOST_BUCKETS) }
    ensures cause { IfErr result (IsHistogramCause interval fill rows.now) }
{
    starts_ascend();
    let kept = intervals_shown(alloc, rows, interval)?;
    if kept.len() > MOST_BUCKETS {
        return Err(PageRefusal::TooManyBuckets);
    }
    if fill {
        with_all_between(alloc, kept, interval)
    } else {
        Ok(kept)
    }
}

/// A bucket for each interval that some row shows, or the first 10,001 of them.
fn intervals_shown(
    alloc: Global,
    rows: &[ValueList],
    interval: Interval,
) -> Result<Vec<KeyPlaces>, PageRefusal>
    ensures kept { IfOk result (λ kept. map bucket_of kept.items ≡ map places_of (page_behind None (MOST_BUCKETS + 1) (full_list (date_keys interval) (enumerate_from 0 rows.now)))) }
    ensures ascending { IfOk result (λ kept. Ascends (map bucket_of kept.items)) }
    ensures cause { IfErr result (λ e. e ≡ PageRefusal.NoMemory) }
{
    let mut kept = Vec::new(alloc);
    for (place, dates) in rows.iter().enumerate() {
        add_dates(alloc, &mut kept, dates.as_slice(), place, interval)?;
    }
    Ok(kept)
}

/// Gives a row to the buckets of the intervals that its dates lie in.
fn add_dates(
    alloc: Global,
    kept: &mut Vec<KeyPlaces>,
    dates: &[FieldValue],
    place: usize,
    interval: Interval,
) -> Result<(), PageRefusal>
    requires ascending { Ascends (map bucket_of kept.old.items) }
    requires short { length kept.old.items ≤ MOST_BUCKETS + 1 }
    ensures kept { OnOk result (map bucket_of kept.new.items ≡ added_all None (MOST_BUCKETS + 1) place (start_keys interval dates.now) (map bucket_of kept.old.items)) }
    ensures ascending { OnOk result (Ascends (map bucket_of kept.new.items)) }
    ensures short { OnOk result (length kept.new.items ≤ MOST_BUCKETS + 1) }
    ensures cause { IfErr result (λ e. e ≡ PageRefusal.NoMemory) }
{
    for date in dates {
        add_date(alloc, kept, date, place, interval)?;
    }
    Ok(())
}

/// Gives a row to the bucket of the interval that a date lies in.
fn add_date(
    alloc: Global,
    kept: &mut Vec<KeyPlaces>,
    date: &FieldValue,
    place: usize,
    interval: Interval,
) -> Result<(), PageRefusal>
    requires ascending { Ascends (map bucket_of kept.old.items) }
    requires short { length kept.old.items ≤ MOST_BUCKETS + 1 }
    ensures kept { OnOk result (map bucket_of kept.new.items ≡ added_all None (MOST_BUCKETS + 1) place (cons_option (interval_key interval date.now) []) (map bucket_of kept.old.items)) }
    ensures ascending { OnOk result (Ascends (map bucket_of kept.new.items)) }
    ensures short { OnOk result (length kept.new.items ≤ MOST_BUCKETS + 1) }
    ensures cause { IfErr result (λ e. e ≡ PageRefusal.NoMemory) }
{
    match date {
        FieldValue::Number(moment) => match start(*moment, interval) {
            Some(first) => {
                let value = FieldValue::Number(first);
                let key = [&value];
                add_behind(alloc, kept, key.as_slice(), place, None, MOST_BUCKETS + 1)
            }
            None => Ok(()),
        },
        FieldValue::Written(_) => Ok(()),
    }
}
