//! The first part of a segment: the number of its documents, and the documents of each scope.

ghost use Rattle.std.specs.Prelude.{◌≡◌, ◌≤◌, ◌++◌, ℕ, List, Bool, length, IfOk, IfSome, IsNone};
ghost use Rattle.std.specs.List.{All, flat_map};
ghost use Rattle.segment_parts.specs.Text.{scope_text, head_text};
ghost use Rattle.segment_parts.specs.Parts.{IsHead};
ghost use Rattle.segment_parts.specs.Once.{IsTaken, IsNowhere, IsOnce};
ghost use Rattle.segment_parts.specs.Heads.{HasLength, AreSizes, sizes_text, AreScopes, scopes_text};

use crate::NoMemory;
use crate::taken::{number_at, words_at};
use block_bits::{BitList, BitSet, words_are_of_one_set};
use std::alloc::Global;

/// The number of documents and the documents of each scope at the front of bytes, and the bytes behind them; None exactly
/// where no segment begins so.
pub fn head_at(alloc: Global, bytes: &[u8]) -> Result<Option<(u32, BitList, &[u8])>, NoMemory>
    ensures taken { IfOk result (λ found. IfSome found (λ it. IsHead it.0 it.1 × (bytes.now ≡ head_text it.0 it.1 ++ it.2.now))) }
    ensures nowhere { IfOk result (λ found. IsNone found → (documents : ℕ) (scopes : List (List Bool)) (rest : List ℕ)
        → IsHead documents scopes → bytes.now ≡ head_text documents scopes ++ rest → ⊥) }
{
    let Some((documents, count, first)) = sizes_at(bytes) else {
        return Ok(None);
    };
    match scopes_at(alloc, documents, count, first)? {
        Some((scopes, rest)) => Ok(Some((documents, scopes, rest))),
        None => Ok(None),
    }
}

/// The number of documents and the number of scopes behind the bytes that a segment begins with.
fn sizes_at(bytes: &[u8]) -> Option<(u32, u32, &[u8])>
    ensures taken { IfSome result (λ it. IsTaken sizes_text AreSizes bytes.now (it.0, it.1) it.2.now) }
    ensures nowhere { IsNone result → IsNowhere sizes_text AreSizes bytes.now }
{
    if bytes.len() < 4 {
        return None;
    }
    let (own, behind) = bytes.split_at(4);
    if own != b"SEG2".as_slice() {
        return None;
    }
    let (documents, rest) = number_at(behind)?;
    let (count, rest) = number_at(rest)?;
    if documents == 0 {
        return None;
    }
    if count == 0 {
        return None;
    }
    Some((documents, count, rest))
}

/// The documents of so many scopes.
#[tactic(auto, using(crate::specs::Once::readings))]
fn scopes_at(
    alloc: Global,
    documents: u32,
    count: u32,
    bytes: &[u8],
) -> Result<Option<(BitList, &[u8])>, NoMemory>
    ensures taken { IfOk result (λ found. IfSome found (λ it. IsTaken scopes_text (AreScopes documents count) bytes.now it.0 it.1.now)) }
    ensures nowhere { IfOk result (λ found. IsNone found → IsNowhere scopes_text (AreScopes documents count) bytes.now) }
{
    scopes_stand_once();
    let mut sets = Vec::new(alloc);
    let mut rest = bytes;
    'scopes: for _ in 0..count {
        let Some((set, after)) = scope_at(alloc, documents, rest)? else {
            return Ok(None);
        };
        sets.push(set)?;
        rest = after;
    }
    Ok(Some((BitList::of(sets), rest)))
}

/// The documents of one scope.
fn scope_at(
    alloc: Global,
    documents: u32,
    bytes: &[u8],
) -> Result<Option<(BitSet, &[u8])>, NoMemory>
    ensures taken { IfOk result (λ found. IfSome found (λ it. IsTaken scope_text (HasLength documents) bytes.now it.0 it.1.now)) }
    ensures nowhere { IfOk result (λ found. IsNone found → IsNowhere scope_text (HasLength documents) bytes.now) }
{
    let Some((words, rest)) = words_at(alloc, documents.div_ceil(64), bytes)? else {
        return Ok(None);
    };
    match BitSet::of_words(words, documents) {
        Some(set) => Ok(Some((set, rest))),
        None => Ok(None),
    }
}

/// The bits of a scope stand at the front of bytes in one way at most. Does nothing.
fn scopes_stand_once()
    ensures { (documents : ℕ) → IsOnce scope_text (HasLength documents) }
{
    words_are_of_one_set();
}
