//! The form that segments had before mappings grew.

ghost use Rattle.std.specs.Prelude.{◌≡◌, ◌↔◌, ◌++◌, ◌<◌, ℕ, List, length, drop, IfOk, IfSome, IsNone, IsTrue};
ghost use Rattle.std.specs.List.{All, flat_map};
ghost use Rattle.stored_sources.specs.declared.root.Root.{Root};
ghost use Rattle.stored_sources.specs.Text.{old_root_text};
ghost use Rattle.stored_sources.specs.Stands.{IsOldRoot};
ghost use Rattle.segment.specs.Encoding.{IsEncoding};
ghost use Rattle.segment.specs.Old.{old_magic, IsOldEncoding};
ghost use Rattle.segment.specs.Renewals.{IsShown, ArePut, IsRenewal, NoOld};
ghost use Rattle.segment_parts.specs.declared.columns.Columns.{Columns};

use crate::NoMemory;
use block_bits::{BitSet, words_are_of_one_set};
use segment_parts::{count_roots, head_at, put_head_of};
use std::alloc::Global;
use stored_sources::{Bytes, old_roots_have_one_text, renewed_root};

/// The bytes in today's form of the segment that these bytes are in the form before mappings grew: of the very same columns,
/// or of none as these are. None only where they are those of no segment.
pub fn renewed(alloc: Global, bytes: Bytes) -> Result<Option<Bytes>, NoMemory>
    ensures same { IfOk result (λ found. IfSome found (λ new. (columns : Columns) → IsOldEncoding columns bytes ↔ IsEncoding columns new)) }
    ensures none { IfOk result (λ found. IsNone found → (columns : Columns) → IsOldEncoding columns bytes → ⊥) }
{
    words_are_of_one_set();
    old_roots_have_one_text();
    let mut own = bytes.into_vec();
    if !begins_old(own.as_slice()) {
        return Ok(None);
    }
    // the heads of the two forms differ in this byte alone
    own[3] = b'2';
    match renewed_parts(alloc, own.as_slice())? {
        Some(new) => Ok(Some(Bytes::of(new))),
        None => Ok(None),
    }
}

/// Whether bytes begin as the older form does.
fn begins_old(bytes: &[u8]) -> bool
    ensures { IsTrue result ↔ (bytes.now ≡ old_magic ++ drop 4 bytes.now) }
{
    bytes.len() >= 4 && bytes.split_at(4).0 == b"SEG1".as_slice()
}

/// The bytes in today's form, given those in the older form with today's first four.
fn renewed_parts(alloc: Global, bytes: &[u8]) -> Result<Option<Vec<u8>>, NoMemory>
    ensures renewal { IfOk result (λ found. IfSome found (λ new. IsRenewal bytes.now new.items)) }
    ensures none { IfOk result (λ found. IsNone found → NoOld bytes.now) }
{
    words_are_of_one_set();
    let Some((documents, scopes, behind)) = head_at(alloc, bytes)? else {
        return Ok(None);
    };
    let sets = scopes.as_slice();
    let count = shown_scopes(sets);
    if count == 0 {
        return Ok(None);
    }
    let mut new = Vec::new(alloc);
    put_head_of(documents, sets.split_at(count).0, &mut new)?;
    let Some(rest) = put_old_roots(count_roots(sets), behind, &mut new)? else {
        return Ok(None);
    };
    new.extend_from_slice(rest)?;
    new.shrink_to_fit();
    Ok(Some(new))
}

/// How many scopes there are up to the last that has documents.
fn shown_scopes(sets: &[BitSet]) -> usize
    ensures { IsShown sets.now result }
{
    let mut count = sets.len();
    'sets: while count > 0 {
        if sets[count - 1].count() > 0 {
            return count;
        }
        count -= 1;
    }
    0
}

/// Appends so many roots that stand at the front of bytes without a mapping generation, each as one of the first mapping,
/// and gives the bytes behind them; None exactly where so many don't stand there.
fn put_old_roots<'a>(
    count: u32,
    bytes: &'a [u8],
    into: &mut Vec<u8>,
) -> Result<Option<&'a [u8]>, NoMemory>
    ensures taken { IfOk result (λ found. IfSome found (λ rest. ArePut bytes.now rest.now into.old.items into.new.items count)) }
    ensures nowhere { IfOk result (λ found. IsNone found → (roots : List Root) (rest : List ℕ) → length roots ≡ count → All IsOldRoot roots
        → bytes.now ≡ flat_map old_root_text roots ++ rest → ⊥) }
{
    old_roots_have_one_text();
    let mut rest = bytes;
    'roots: for _ in 0..count {
        let Some(after) = renewed_root(rest, into)? else {
            return Ok(None);
        };
        rest = after;
    }
    Ok(Some(rest))
}
