//! Where the entries of a column stand in bytes, found by reading them once.

ghost use Rattle.std.specs.Prelude.{◌≡◌, ◌-◌, ◌*◌, ◌<◌, ◌≤◌, length, drop, None, IfOk, IfSome, IsNone};
ghost use Rattle.part_text.specs.Reading.{many_at};
ghost use Rattle.part_text.specs.Placed.{ArePlaced};
ghost use Rattle.doc_values.specs.Text.{entry_text};
ghost use Rattle.doc_values.specs.Reading.{entry_at};

use crate::ColumnValue;
use crate::walk::entry_at;
use part_text::{NoMemory, PlaceList};
use std::alloc::Global;

/// The bytes from a place on, and None where the place is past the end.
pub(crate) fn from_place(bytes: &[u8], at: u64) -> Option<&[u8]>
    ensures some { IfSome result (λ rest. (rest.now ≡ drop at bytes.now) × (at ≤ length bytes.now)) }
    ensures none { IsNone result → length bytes.now < at }
{
    if at <= bytes.len() as u64 {
        Some(bytes.split_at(at as usize).1)
    } else {
        None
    }
}

/// The bytes of the shortest entry: its document, the number of its values, and one value.
pub(crate) const SHORTEST_ENTRY: usize = 16;

/// So many entries, or as many as bytes can hold where these are fewer.
fn most_entries(count: u32, bytes: &[u8]) -> usize
    ensures bytes { result * SHORTEST_ENTRY ≤ length bytes.now }
    ensures count { result ≤ count }
{
    (bytes.len() / SHORTEST_ENTRY).min(count as usize)
}

/// The places of so many entries at the front of bytes that reach up to `end`, and the bytes behind them; None where so
/// many entries don't stand there.
pub(crate) fn placed_entries<'a, T: ColumnValue>(
    alloc: Global,
    count: u32,
    bytes: &'a [u8],
    end: u64,
) -> Result<Option<(PlaceList, &'a [u8])>, NoMemory>
    requires { length bytes.now ≤ end }
    ensures none { IfOk result (λ found. IsNone found → many_at (λ entry. entry.0) (entry_at T.cmp T.read) None count bytes.now ≡ None) }
    ensures entries { IfOk result (λ found. IfSome found (λ it.
        ArePlaced (λ entry. entry.0) (entry_text T.text) (entry_at T.cmp T.read) count bytes.now (end - length bytes.now) it.1.now it.0)) }
{
    let mut places = PlaceList::beginning_at(alloc, end - bytes.len() as u64)?;
    places.reserve(most_entries(count, bytes))?;
    let mut before = None;
    let mut rest = bytes;
    'entries: for _ in 0..count {
        let Some((doc, after)) = entry_at::<T>(before, rest) else {
            return Ok(None);
        };
        places.push(end - after.len() as u64)?;
        before = Some(doc);
        rest = after;
    }
    Ok(Some((places, rest)))
}
