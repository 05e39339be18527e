//! The last part of a segment: the documents with a value, of each text field.

ghost use Rattle.std.specs.Prelude.{◌≡◌, ◌<◌, ◌^◌, Bool, List, length, IfOk, IfSome, IsNone};
ghost use Rattle.segment_parts.specs.Text.{marked_places, presence_text, present_text};
ghost use Rattle.segment_parts.specs.Fields.{AreByField};
ghost use Rattle.segment_parts.specs.Parts.{IsPresence};
ghost use Rattle.segment_parts.specs.Once.{IsTaken, IsNowhere};

use crate::taken::{number_at, numbers_at};
use crate::{ByField, NoMemory};
use block_bits::BitSet;
use std::alloc::Global;

/// The text fields of a segment with so many documents, at the front of bytes, and the bytes behind them; None exactly where
/// none stand there.
#[tactic(auto, using(crate::specs::Once::readings))]
pub(crate) fn present_at(
    alloc: Global,
    documents: u32,
    bytes: &[u8],
) -> Result<Option<(ByField<BitSet>, &[u8])>, NoMemory>
    ensures taken { IfOk result (λ found. IfSome found (λ it. IsTaken present_text (AreByField (IsPresence documents)) bytes.now it.0 it.1.now)) }
    ensures nowhere { IfOk result (λ found. IsNone found → IsNowhere present_text (AreByField (IsPresence documents)) bytes.now) }
{
    let Some((count, first)) = number_at(bytes) else {
        return Ok(None);
    };
    let mut columns = Vec::new(alloc);
    let mut rest = first;
    'columns: for _ in 0..count {
        let Some((field, set, after)) = presence_at(alloc, documents, rest)? else {
            return Ok(None);
        };
        columns.push((field, set))?;
        rest = after;
    }
    if !ByField::are_ascending(columns.as_slice()) {
        return Ok(None);
    }
    Ok(Some((ByField::of(columns), rest)))
}

/// A text field, and the documents with a value of it.
fn presence_at(
    alloc: Global,
    documents: u32,
    bytes: &[u8],
) -> Result<Option<(u32, BitSet, &[u8])>, NoMemory>
    ensures taken { IfOk result (λ found. IfSome found (λ it. IsTaken presence_text (IsPresence documents) bytes.now (it.0, it.1) it.2.now)) }
    ensures nowhere { IfOk result (λ found. IsNone found → IsNowhere presence_text (IsPresence documents) bytes.now) }
{
    let Some((field, behind)) = number_at(bytes) else {
        return Ok(None);
    };
    let Some((numbers, rest)) = numbers_at(alloc, behind)? else {
        return Ok(None);
    };
    let Some(set) = set_of(alloc, documents, numbers.as_slice())? else {
        return Ok(None);
    };
    Ok(Some((field, set, rest)))
}

/// The set of these of so many documents; None exactly where they don't strictly ascend or one isn't there.
fn set_of(alloc: Global, documents: u32, numbers: &[u32]) -> Result<Option<BitSet>, NoMemory>
    ensures set { IfOk result (λ found. IfSome found (λ set. (length set ≡ documents) × (marked_places 0 set ≡ numbers.now))) }
    ensures none { IfOk result (λ found. IsNone found → (flags : List Bool) → length flags ≡ documents → marked_places 0 flags ≡ numbers.now → ⊥) }
{
    let mut marks = BitSet::empty(alloc, documents)?;
    let mut next = 0;
    'numbers: for number in numbers {
        if *number < next {
            return Ok(None);
        }
        if *number >= documents {
            return Ok(None);
        }
        marks.set(*number);
        next = *number + 1;
    }
    Ok(Some(marks))
}
