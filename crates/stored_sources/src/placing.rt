//! Where roots stand in bytes, found by reading them once.

ghost use Rattle.std.specs.Prelude.{◌≡◌, ◌-◌, ◌*◌, ◌<◌, ◌≤◌, length, drop, None, IfOk, IfSome, IsNone};
ghost use Rattle.part_text.specs.Reading.{many_at};
ghost use Rattle.part_text.specs.Placed.{ArePlaced};
ghost use Rattle.stored_sources.specs.Text.{root_text};
ghost use Rattle.stored_sources.specs.Reading.{root_at, roots_at};

use crate::walk::root_at;
use part_text::{NoMemory, PlaceList};
use std::alloc::Global;

/// The bytes from a place on, and None where the place is past the end.
pub(crate) fn from_place(bytes: &[u8], at: u64) -> Option<&[u8]>
    ensures some { IfSome result (λ rest. (rest.now ≡ drop at bytes.now) × (at ≤ length bytes.now)) }
    ensures none { IsNone result → length bytes.now < at }
{
    if at <= bytes.len() as u64 {
        Some(bytes.split_at(at as usize).1)
    } else {
        None
    }
}

/// The bytes of the shortest root: an empty id and source, its numbers, and no join value.
const SHORTEST_ROOT: usize = 21;

/// So many roots, or as many as bytes can hold where these are fewer.
fn most_roots(count: u32, bytes: &[u8]) -> usize
    ensures bytes { result * SHORTEST_ROOT ≤ length bytes.now }
    ensures count { result ≤ count }
{
    (bytes.len() / SHORTEST_ROOT).min(count as usize)
}

/// The places of so many roots at the front of bytes that reach up to `end`, and the bytes behind them; None where so
/// many roots don't stand there.
pub(crate) fn placed_roots<'a>(
    alloc: Global,
    count: u32,
    bytes: &'a [u8],
    end: u64,
) -> Result<Option<(PlaceList, &'a [u8])>, NoMemory>
    requires { length bytes.now ≤ end }
    ensures none { IfOk result (λ found. IsNone found → roots_at count bytes.now ≡ None) }
    ensures roots { IfOk result (λ found. IfSome found (λ it.
        ArePlaced (λ root. tt {0}) root_text (λ before. root_at) count bytes.now (end - length bytes.now) it.1.now it.0)) }
{
    let mut places = PlaceList::beginning_at(alloc, end - bytes.len() as u64)?;
    places.reserve(most_roots(count, bytes))?;
    let mut rest = bytes;
    'roots: for _ in 0..count {
        let Some((_, after)) = root_at(rest) else {
            return Ok(None);
        };
        places.push(end - after.len() as u64)?;
        rest = after;
    }
    Ok(Some((places, rest)))
}
