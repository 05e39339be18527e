//! Where terms with their postings stand in bytes, found by reading them once.

ghost use Rattle.std.specs.Prelude.{◌≡◌, ◌-◌, ◌*◌, ◌<◌, ◌≤◌, length, drop, None, IfOk, IfSome, IsNone};
ghost use Rattle.part_text.specs.Reading.{many_at};
ghost use Rattle.part_text.specs.Placed.{ArePlaced};
ghost use Rattle.term_table.specs.Part.{row_text};
ghost use Rattle.term_table.specs.Reading.{row_at};

use crate::walk::row_at;
use crate::{NoMemory, PlaceList};
use std::alloc::Global;

/// The bytes from a place on, and None where the place is past the end.
pub(crate) fn from_place(bytes: &[u8], at: u64) -> Option<&[u8]>
    ensures some { IfSome result (λ rest. (rest.now ≡ drop at bytes.now) × (at ≤ length bytes.now)) }
    ensures none { IsNone result → length bytes.now < at }
{
    if at <= bytes.len() as u64 {
        Some(bytes.split_at(at as usize).1)
    } else {
        None
    }
}

/// The bytes of the shortest row: its field, the numbers of its bytes and of its documents, and one posting.
const SHORTEST_ROW: usize = 20;

/// So many rows, or as many as bytes can hold where these are fewer.
fn most_rows(count: u64, bytes: &[u8]) -> usize
    ensures { result * SHORTEST_ROW ≤ length bytes.now }
{
    (bytes.len() / SHORTEST_ROW).min(count as usize)
}

/// The places of so many rows at the front of bytes that reach up to `end`, and the bytes behind the rows; None where
/// so many rows don't stand there.
pub(crate) fn placed_rows<'a>(
    alloc: Global,
    count: u64,
    bytes: &'a [u8],
    end: u64,
) -> Result<Option<(PlaceList, &'a [u8])>, NoMemory>
    requires { length bytes.now ≤ end }
    ensures none { IfOk result (λ found. IsNone found → many_at (λ row. row.term) row_at None count bytes.now ≡ None) }
    ensures rows { IfOk result (λ found. IfSome found (λ it.
        ArePlaced (λ row. row.term) row_text row_at count bytes.now (end - length bytes.now) it.1.now it.0)) }
{
    let mut places = PlaceList::beginning_at(alloc, end - bytes.len() as u64)?;
    places.reserve(most_rows(count, bytes))?;
    let mut before = None;
    let mut rest = bytes;
    'rows: for _ in 0..count {
        let Some((term, after)) = row_at(before, rest) else {
            return Ok(None);
        };
        places.push(end - after.len() as u64)?;
        before = Some(term);
        rest = after;
    }
    Ok(Some((places, rest)))
}
