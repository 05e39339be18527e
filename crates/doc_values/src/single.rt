//! Rows of one value each, read in place without their places.

ghost use Rattle.std.specs.Prelude.{◌≡◌, ◌+◌, ◌-◌, ◌*◌, ◌/◌, ◌<◌, ◌≤◌, ◌^◌, [], ◌∷◌, length, Some, IfSome, IfNone, slice_get, slice_index, slice_range};
ghost use Rattle.doc_values.specs.Kept.{single_entry, single_in, single_rows_in, AreEntriesAt, AreSingleAt, AreSixteen};

use crate::ColumnValue;
use crate::placing::SHORTEST_ENTRY;
use part_text::first_u32;
use std::marker::{Model, PhantomData};

/// Rows of documents that have one value each, in order.
///
/// Each is as long as the others, so that a row is found without its place.
#[derive(Drop)]
pub struct SingleRows<'a, T: ColumnValue> {
    bytes: &'a [u8],
    of: PhantomData<T>,
}

impl<'a, T: ColumnValue> Model for SingleRows<'a, T> {
    ghost use Rattle.std.specs.Prelude.{◌<◌, ◌^◌, ◌/◌, ℕ, List, length};
    ghost use Rattle.doc_values.specs.Kept.{single_rows_in};

    ghost Value = { List (ℕ × List T) };

    ghost view = { λ it. single_rows_in T.front it.bytes.now };

    ghost invariant = { λ it. length it.bytes.now / 16 < 2 ^ 32 };
}

impl<'a, T: ColumnValue> SingleRows<'a, T> {
    /// The rows whose entries these bytes are, sixteen bytes each.
    pub(crate) fn over(bytes: &'a [u8]) -> SingleRows<'a, T>
        requires { length bytes.now / 16 < 2 ^ 32 }
        ensures { result ≡ single_rows_in T.front bytes.now }
    {
        SingleRows {
            bytes,
            of: PhantomData,
        }
    }

    /// How many rows there are.
    pub fn len(&self) -> u32
        ensures { result ≡ length self.now }
    {
        (self.bytes.len() / SHORTEST_ENTRY) as u32
    }

    /// The document of row `at`, and its value.
    #[inline(always)]
    pub fn row(&self, at: u32) -> (u32, T)
        requires { at < length self.now }
        ensures { slice_get self.now at ≡ Some (result.0, result.1 ∷ []) }
    {
        row_in(self.bytes, at as usize)
    }
}

/// The document of entry number `at` of bytes, and its value.
#[inline(always)]
fn row_in<T: ColumnValue>(bytes: &[u8], at: usize) -> (u32, T)
    requires { at < length bytes.now / 16 }
    ensures { (result.0, result.1 ∷ []) ≡ single_in T.front bytes.now at }
{
    let entry = entry_in(bytes, at);
    (first_u32(entry), T::first(entry.split_at(8).1))
}

/// Entry number `at` of bytes.
#[inline(always)]
fn entry_in(bytes: &[u8], at: usize) -> &[u8]
    requires { at < length bytes.now / 16 }
    ensures entry { result.now ≡ single_entry bytes.now at }
    ensures long { length result.now ≡ 16 }
{
    bytes
        .split_at(SHORTEST_ENTRY * at)
        .1
        .split_at(SHORTEST_ENTRY)
        .0
}

/// The bytes of all entries, if each has one value; None exactly where one has more.
///
/// No entry is shorter than one of one value. So each is as short where together they are as short as that.
pub(crate) fn single_bytes<'a>(places: &[u64], bytes: &'a [u8]) -> Option<&'a [u8]>
    requires { AreEntriesAt places.now bytes.now }
    ensures some { IfSome result (λ own. AreSingleAt places.now bytes.now own.now) }
    ensures none { IfNone result (¬ AreSixteen places.now bytes.now) }
{
    let own = all_entries(places, bytes);
    if own.len() == SHORTEST_ENTRY * (places.len() - 1) {
        Some(own)
    } else {
        None
    }
}

/// The bytes of all entries: at least sixteen for each.
fn all_entries<'a>(places: &[u64], bytes: &'a [u8]) -> &'a [u8]
    requires { AreEntriesAt places.now bytes.now }
    ensures bytes { result.now ≡ slice_range bytes.now (slice_index places.now 0) (slice_index places.now (length places.now - 1)) }
    ensures long { 16 * (length places.now - 1) ≤ length result.now }
{
    let ends = entry_ends(places, bytes);
    &bytes[ends.0 as usize..ends.1 as usize]
}

/// Where the first entry begins, and where the last ends.
fn entry_ends(places: &[u64], bytes: &[u8]) -> (u64, u64)
    requires { AreEntriesAt places.now bytes.now }
    ensures first { result.0 ≡ slice_index places.now 0 }
    ensures end { result.1 ≡ slice_index places.now (length places.now - 1) }
    ensures apart { result.0 + 16 * (length places.now - 1) ≤ result.1 }
    ensures within { result.1 ≤ length bytes.now }
{
    (places[0], places[places.len() - 1])
}
