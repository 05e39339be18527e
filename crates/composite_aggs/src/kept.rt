//! The buckets that are kept: the first ones by key, each with the rows that show it.
ghost use Rattle.std.specs.Prelude.{◌≡◌, ℕ, ◌<◌, ◌≤◌, ◌-◌, [], ◌∷◌, slice_get, map, take, length, IfOk, OnOk, IfErr};
ghost use Rattle.composite_aggs.specs.Kept.{Ascends, IsLowerAt, IsSameAt, IsHigherAt, bucket_of, with_place, is_last, put_once};

use crate::PageRefusal;
use crate::compare::{compare_keys, owned_key};
use query_ast::ValueList;
use std::alloc::Global;
use std::cmp::Ordering;
use tree_objects::FieldValue;

/// A key, and the rows that show it, by their indices, ascending.
#[derive(Drop)]
pub struct KeyPlaces {
    pub key: ValueList,
    pub places: Vec<usize>,
}

/// Gives a row to the bucket of the key, which is made where there is none, and keeps the first `size` buckets.
pub(crate) fn add(
    alloc: Global,
    kept: &mut Vec<KeyPlaces>,
    key: &[&FieldValue],
    place: usize,
    size: usize,
) -> Result<(), PageRefusal>
    requires ascending { Ascends (map bucket_of kept.old.items) }
    requires short { length kept.old.items ≤ size }
    ensures kept { OnOk result (map bucket_of kept.new.items ≡ take size (with_place (map (λ v. v.now) key.now) place (map bucket_of kept.old.items))) }
    ensures cause { IfErr result (λ e. e ≡ PageRefusal.NoMemory) }
{
    match find(kept.as_slice(), key) {
        Ok(index) => {
            let bucket = &mut kept[index];
            put_once(&mut bucket.places, place)?;
        }
        Err(index) => {
            if index < size {
                let bucket = new_bucket(alloc, key, place)?;
                kept.insert(index, bucket)?;
                kept.truncate(size);
            }
        }
    }
    Ok(())
}

/// Where the bucket of the key stands, or, as an error, where it would: before the first with a higher key.
fn find(kept: &[KeyPlaces], key: &[&FieldValue]) -> Result<usize, usize>
    requires { Ascends (map bucket_of kept.now) }
    ensures found { IfOk result (λ index. (index < length kept.now) × IsSameAt (map (λ v. v.now) key.now) index (map bucket_of kept.now)) }
    ensures below_found { IfOk result (λ index. (k : ℕ) → k < index → IsLowerAt (map (λ v. v.now) key.now) k (map bucket_of kept.now)) }
    ensures gap { IfErr result (λ index. (index ≤ length kept.now) × (index < length kept.now → IsHigherAt (map (λ v. v.now) key.now) index (map bucket_of kept.now))) }
    ensures below_gap { IfErr result (λ index. (k : ℕ) → k < index → IsLowerAt (map (λ v. v.now) key.now) k (map bucket_of kept.now)) }
{
    let mut low = 0;
    let mut high = kept.len();
    'halves: while low < high {
        let middle = low + (high - low) / 2;
        match compare_keys(kept[middle].key.as_slice(), key) {
            Ordering::Less => low = middle + 1,
            Ordering::Equal => return Ok(middle),
            Ordering::Greater => high = middle,
        }
    }
    Err(low)
}

/// Puts the place last, if it doesn't stand there already.
fn put_once(places: &mut Vec<usize>, place: usize) -> Result<(), PageRefusal>
    ensures places { OnOk result (places.new.items ≡ put_once place places.old.items) }
    ensures cause { IfErr result (λ e. e ≡ PageRefusal.NoMemory) }
{
    if !is_last(places.as_slice(), place) {
        places.push(place)?;
    }
    Ok(())
}

/// Whether the place is the last one.
fn is_last(places: &[usize], place: usize) -> bool
    ensures { result ≡ is_last place (slice_get places.now (length places.now - 1)) }
{
    match places.last() {
        Some(last) => *last == place,
        None => false,
    }
}

/// A bucket of the key with one row.
fn new_bucket(alloc: Global, key: &[&FieldValue], place: usize) -> Result<KeyPlaces, PageRefusal>
    ensures made { IfOk result (λ made. (made.key ≡ map (λ v. v.now) key.now) × (made.places.items ≡ place ∷ [])) }
    ensures cause { IfErr result (λ e. e ≡ PageRefusal.NoMemory) }
{
    let key = owned_key(alloc, key)?;
    let mut places = Vec::new(alloc);
    places.push(place)?;
    Ok(KeyPlaces { key, places })
}
