//! The buckets of a histogram together with those between them that no row shows.
ghost use Rattle.std.specs.Prelude.{◌≡◌, ◌≤◌, ◌≤ℤ◌, [], map, length, reverse, Contains, IfOk, OnOk, IfErr};
ghost use Rattle.calendar_intervals.specs.Starts.{starts};
ghost use Rattle.composite_aggs.specs.Composite.{is_same_key, start_key};
ghost use Rattle.composite_aggs.specs.Spread.{AreStarts, IsFillCause, IsWalkCause, first_number, first_of, is_first, keys_in, left_of, merged, number_at, spread, starts_from_to};
ghost use Rattle.composite_aggs.specs.Kept.{Ascends, bucket_of};

use crate::compare::{compare_keys, owned_key};
use crate::kept::KeyPlaces;
use crate::{MOST_BUCKETS, PageRefusal};
use calendar_intervals::{Interval, next, starts_ascend};
use std::alloc::Global;
use tree_objects::FieldValue;

/// The buckets with one without rows for each start that lies between them, unless these are more than 10,000 together.
pub(crate) fn with_all_between(
    alloc: Global,
    kept: Vec<KeyPlaces>,
    interval: Interval,
) -> Result<Vec<KeyPlaces>, PageRefusal>
    requires ascending { Ascends (map bucket_of kept.items) }
    requires starts { AreStarts interval (map bucket_of kept.items) }
    ensures made { IfOk result (λ made. map bucket_of made.items ≡ merged (spread interval (map bucket_of kept.items)) (map bucket_of kept.items)) }
    ensures few { OnOk result (length (spread interval (map bucket_of kept.items)) ≤ MOST_BUCKETS) }
    ensures cause { IfErr result (IsFillCause interval (map bucket_of kept.items)) }
{
    match start_at(kept.as_slice(), 0) {
        None => Ok(kept),
        Some(least) => match start_at(kept.as_slice(), kept.len().saturating_sub(1)) {
            None => Ok(kept),
            Some(greatest) => from_to(alloc, kept, least, greatest, interval),
        },
    }
}

/// The same, where the first and the last bucket are of these starts.
fn from_to(
    alloc: Global,
    kept: Vec<KeyPlaces>,
    least: i64,
    greatest: i64,
    interval: Interval,
) -> Result<Vec<KeyPlaces>, PageRefusal>
    requires least { Contains (starts interval) least }
    requires greatest { Contains (starts interval) greatest }
    requires order { least ≤ℤ greatest }
    ensures made { IfOk result (λ made. map bucket_of made.items ≡ merged (starts_from_to interval least greatest) (map bucket_of kept.items)) }
    ensures few { OnOk result (length (starts_from_to interval least greatest) ≤ MOST_BUCKETS) }
    ensures cause { IfErr result (IsWalkCause interval least greatest) }
{
    let walk = starts_between(alloc, least, greatest, interval)?;
    Ok(among(alloc, kept, walk.as_slice())?)
}

/// The start of the interval whose bucket has that index.
fn start_at(kept: &[KeyPlaces], index: usize) -> Option<i64>
    ensures { result ≡ number_at index (keys_in (map bucket_of kept.now)) }
{
    if index < kept.len() {
        first_number(kept[index].key.as_slice())
    } else {
        None
    }
}

/// The number that the key begins with.
fn first_number(key: &[FieldValue]) -> Option<i64>
    ensures { result ≡ first_number key.now }
{
    match key {
        [] => None,
        [first, ..] => match first {
            FieldValue::Number(number) => Some(*number),
            FieldValue::Written(_) => None,
        },
    }
}

/// The starts from one to another, unless these are more than 10,000.
fn starts_between(
    alloc: Global,
    least: i64,
    greatest: i64,
    interval: Interval,
) -> Result<Vec<i64>, PageRefusal>
    requires least { Contains (starts interval) least }
    requires greatest { Contains (starts interval) greatest }
    requires order { least ≤ℤ greatest }
    ensures walk { IfOk result (λ walk. walk.items ≡ starts_from_to interval least greatest) }
    ensures few { IfOk result (λ walk. length walk.items ≤ MOST_BUCKETS) }
    ensures cause { IfErr result (IsWalkCause interval least greatest) }
{
    starts_ascend();
    let mut walk = Vec::new(alloc);
    let mut at = least;
    'starts: while walk.len() < MOST_BUCKETS {
        walk.push(at)?;
        if at >= greatest {
            return Ok(walk);
        }
        match next(at, interval) {
            Some(following) => at = following,
            None => return Ok(walk),
        }
    }
    Err(PageRefusal::TooManyBuckets)
}

/// The bucket of each of these starts: its own, or one without rows.
fn among(
    alloc: Global,
    mut kept: Vec<KeyPlaces>,
    walk: &[i64],
) -> Result<Vec<KeyPlaces>, PageRefusal>
    ensures made { IfOk result (λ made. map bucket_of made.items ≡ merged walk.now (map bucket_of kept.items)) }
    ensures cause { IfErr result (λ e. e ≡ PageRefusal.NoMemory) }
{
    kept.reverse();
    let mut made = Vec::new(alloc);
    for start in walk {
        let bucket = next_bucket(alloc, &mut kept, *start)?;
        made.push(bucket)?;
    }
    Ok(made)
}

/// Takes the last bucket, if it is of the start, and else makes one without rows.
fn next_bucket(
    alloc: Global,
    kept: &mut Vec<KeyPlaces>,
    start: i64,
) -> Result<KeyPlaces, PageRefusal>
    ensures bucket { IfOk result (λ b. bucket_of b ≡ first_of start (map bucket_of (reverse kept.old.items))) }
    ensures left { OnOk result (map bucket_of (reverse kept.new.items) ≡ left_of start (map bucket_of (reverse kept.old.items))) }
    ensures cause { IfErr result (λ e. e ≡ PageRefusal.NoMemory) }
{
    if is_last(kept.as_slice(), start) {
        if let Some(bucket) = kept.pop() {
            return Ok(bucket);
        }
    }
    Ok(empty_bucket(alloc, start)?)
}

/// Whether the last bucket is of the start.
fn is_last(kept: &[KeyPlaces], start: i64) -> bool
    ensures { result ≡ is_first start (map bucket_of (reverse kept.now)) }
{
    match kept.last() {
        Some(bucket) => is_of(bucket.key.as_slice(), start),
        None => false,
    }
}

/// Whether the key is that of the interval that begins there.
fn is_of(key: &[FieldValue], start: i64) -> bool
    ensures { result ≡ is_same_key key.now (start_key start) }
{
    let value = FieldValue::Number(start);
    let other = [&value];
    compare_keys(key, other.as_slice()).is_eq()
}

/// A bucket without rows.
fn empty_bucket(alloc: Global, start: i64) -> Result<KeyPlaces, PageRefusal>
    ensures made { IfOk result (λ made. (made.key ≡ start_key start) × (made.places.items ≡ [])) }
    ensures cause { IfErr result (λ e. e ≡ PageRefusal.NoMemory) }
{
    let value = FieldValue::Number(start);
    let key = [&value];
    let key = owned_key(alloc, key.as_slice())?;
    Ok(KeyPlaces {
        key,
        places: Vec::new(alloc),
    })
}
