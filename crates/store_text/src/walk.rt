//! Walkers over a record: each reads one thing from the front of bytes, and gives the bytes behind it.

ghost use Rattle.std.specs.Prelude.{◌≡◌, ◌++◌, Bool, List, ℕ, IfOk, IfSome, IsNone};
ghost use Rattle.part_text.specs.Reading.{Gives, string_at};
ghost use Rattle.store_text.specs.Reading.{form_mark, index_at, dead_at, row_at, rows_at, count_at, listed_at, bodies_at, bool_at};

use crate::record::{Body, BodyList, DeadRoots, MOST_BODIES, Row, RowList};
use part_text::{NoMemory, string_at, u32_at, u64_at};
use std::alloc::Global;

/// Which form the bytes have, by their first four: whether it is the old one. None where they have neither.
pub(crate) fn form_at(bytes: &[u8]) -> Option<(bool, &[u8])>
    ensures found { IfSome result (λ form. bytes.now ≡ form_mark form.0 ++ form.1.now) }
    ensures none { IsNone result → (old : Bool) (rest : List ℕ) → bytes.now ≡ form_mark old ++ rest → ⊥ }
{
    match bytes {
        [b'R', b'E', b'C', b'1', rest @ ..] => Some((true, rest)),
        [b'R', b'E', b'C', b'2', rest @ ..] => Some((false, rest)),
        _ => None,
    }
}

/// A byte for yes or no.
#[tactic(auto, unfolding(crate::specs::Reading::bool_at))]
pub(crate) fn bool_at(bytes: &[u8]) -> Option<(bool, &[u8])>
    ensures { Gives (λ x. (x.0, x.1.now)) result (bool_at bytes.now) }
{
    match bytes {
        [0, rest @ ..] => Some((false, rest)),
        [1, rest @ ..] => Some((true, rest)),
        _ => None,
    }
}

/// The bytes of a body.
pub(crate) fn body_at(alloc: Global, bytes: &[u8]) -> Result<Option<(Body, &[u8])>, NoMemory>
    ensures { IfOk result (λ found. Gives (λ x. (x.0, x.1.now)) found (string_at bytes.now)) }
{
    let Some((own, rest)) = string_at(bytes) else {
        return Ok(None);
    };
    let mut body = Vec::new(alloc);
    body.extend_from_slice(own)?;
    Ok(Some((Body::of(body), rest)))
}

/// How many bodies there are, where these are not too many.
#[tactic(auto, unfolding(crate::specs::Reading::count_at))]
fn count_at(bytes: &[u8]) -> Option<(u32, &[u8])>
    ensures { Gives (λ x. (x.0, x.1.now)) result (count_at bytes.now) }
{
    let (count, rest) = u32_at(bytes)?;
    if count < MOST_BODIES + 1 {
        Some((count, rest))
    } else {
        None
    }
}

/// Bodies behind their number.
fn listed_at(alloc: Global, bytes: &[u8]) -> Result<Option<(BodyList, &[u8])>, NoMemory>
    ensures { IfOk result (λ found. Gives (λ x. (x.0, x.1.now)) found (listed_at bytes.now)) }
{
    let Some((count, mut rest)) = count_at(bytes) else {
        return Ok(None);
    };
    let mut bodies = Vec::new(alloc);
    'bodies: for _ in 0..count {
        let Some((body, after)) = body_at(alloc, rest)? else {
            return Ok(None);
        };
        bodies.push(body)?;
        rest = after;
    }
    Ok(Some((BodyList::of(bodies), rest)))
}

/// Bodies, at least one, behind their number.
#[tactic(auto, unfolding(crate::specs::Reading::bodies_at))]
pub(crate) fn bodies_at(alloc: Global, bytes: &[u8]) -> Result<Option<(BodyList, &[u8])>, NoMemory>
    ensures { IfOk result (λ found. Gives (λ x. (x.0, x.1.now)) found (bodies_at bytes.now)) }
{
    let Some((bodies, rest)) = listed_at(alloc, bytes)? else {
        return Ok(None);
    };
    if bodies.as_slice().is_empty() {
        return Ok(None);
    }
    Ok(Some((bodies, rest)))
}

/// The index of a dead root, behind the one before it.
#[tactic(auto, unfolding(crate::specs::Reading::index_at))]
fn index_at(before: Option<u32>, bytes: &[u8]) -> Option<(u32, &[u8])>
    ensures { Gives (λ x. (x.0, x.1.now)) result (index_at before bytes.now) }
{
    let (index, rest) = u32_at(bytes)?;
    if let Some(last) = before {
        if index <= last {
            return None;
        }
    }
    Some((index, rest))
}

/// The indexes of dead roots behind their number.
fn dead_at(alloc: Global, bytes: &[u8]) -> Result<Option<(DeadRoots, &[u8])>, NoMemory>
    ensures { IfOk result (λ found. Gives (λ x. (x.0, x.1.now)) found (dead_at bytes.now)) }
{
    let Some((count, mut rest)) = u32_at(bytes) else {
        return Ok(None);
    };
    let mut indexes = Vec::new(alloc);
    let mut before: Option<u32> = None;
    'indexes: for _ in 0..count {
        let Some((index, after)) = index_at(before, rest) else {
            return Ok(None);
        };
        indexes.push(index)?;
        before = Some(index);
        rest = after;
    }
    Ok(Some((DeadRoots::of(indexes), rest)))
}

/// A row.
#[tactic(auto, unfolding(crate::specs::Reading::row_at))]
fn row_at(alloc: Global, bytes: &[u8]) -> Result<Option<(Row, &[u8])>, NoMemory>
    ensures { IfOk result (λ found. Gives (λ x. (x.0, x.1.now)) found (row_at bytes.now)) }
{
    let Some((at, rest)) = u64_at(bytes) else {
        return Ok(None);
    };
    let Some((len, rest)) = u64_at(rest) else {
        return Ok(None);
    };
    let Some((dead, rest)) = dead_at(alloc, rest)? else {
        return Ok(None);
    };
    Ok(Some((Row { at, len, dead }, rest)))
}

/// Rows behind their number.
pub(crate) fn rows_at(alloc: Global, bytes: &[u8]) -> Result<Option<(RowList, &[u8])>, NoMemory>
    ensures { IfOk result (λ found. Gives (λ x. (x.0, x.1.now)) found (rows_at bytes.now)) }
{
    let Some((count, mut rest)) = u32_at(bytes) else {
        return Ok(None);
    };
    let mut rows = Vec::new(alloc);
    'rows: for _ in 0..count {
        let Some((row, after)) = row_at(alloc, rest)? else {
            return Ok(None);
        };
        rows.push(row)?;
        rest = after;
    }
    Ok(Some((RowList::of(rows), rest)))
}
