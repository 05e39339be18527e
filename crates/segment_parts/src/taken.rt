//! What bytes begin with, and the bytes behind it.

ghost use Rattle.std.specs.Prelude.{◌≡◌, ◌*◌, ◌++◌, ◌<◌, ◌^◌, ℕ, length, IfOk, IfSome, IsNone};
ghost use Rattle.std.specs.List.{All, flat_map};
ghost use Rattle.part_text.specs.Text.{u32_text, u64_text, counted_text};
ghost use Rattle.segment_parts.specs.Once.{IsTaken, IsNowhere, AreFew};

use crate::NoMemory;
use part_text::{first_u64, u32_at};
use std::alloc::Global;

/// A number of four bytes.
pub(crate) fn number_at(bytes: &[u8]) -> Option<(u32, &[u8])>
    ensures taken { IfSome result (λ it. IsTaken u32_text (λ number. number < 2 ^ 32) bytes.now it.0 it.1.now) }
    ensures nowhere { IsNone result → IsNowhere u32_text (λ number. number < 2 ^ 32) bytes.now }
{
    let Some((number, rest)) = u32_at(bytes) else {
        return None;
    };
    Some((number, rest))
}

/// Numbers of four bytes behind their number.
#[tactic(auto, using(crate::specs::Once::readings))]
pub(crate) fn numbers_at(alloc: Global, bytes: &[u8]) -> Result<Option<(Vec<u32>, &[u8])>, NoMemory>
    ensures taken { IfOk result (λ found. IfSome found (λ it. IsTaken (counted_text u32_text u32_text) (AreFew (λ number. number < 2 ^ 32)) bytes.now it.0.items it.1.now)) }
    ensures nowhere { IfOk result (λ found. IsNone found → IsNowhere (counted_text u32_text u32_text) (AreFew (λ number. number < 2 ^ 32)) bytes.now) }
{
    let Some((count, first)) = number_at(bytes) else {
        return Ok(None);
    };
    let mut numbers = Vec::new(alloc);
    let mut rest = first;
    'numbers: for _ in 0..count {
        let Some((number, after)) = number_at(rest) else {
            return Ok(None);
        };
        numbers.push(number)?;
        rest = after;
    }
    Ok(Some((numbers, rest)))
}

/// So many numbers of eight bytes; None exactly where there are too few bytes.
pub(crate) fn words_at(
    alloc: Global,
    count: u32,
    bytes: &[u8],
) -> Result<Option<(Vec<u64>, &[u8])>, NoMemory>
    ensures long { IfOk result (λ found. IfSome found (λ it. length it.0.items ≡ count)) }
    ensures fit { IfOk result (λ found. IfSome found (λ it. All (λ word. word < 2 ^ 64) it.0.items)) }
    ensures taken { IfOk result (λ found. IfSome found (λ it. bytes.now ≡ flat_map u64_text it.0.items ++ it.1.now)) }
    ensures few { IfOk result (λ found. IsNone found → length bytes.now < 8 * count) }
{
    if (bytes.len() as u64) < 8 * count as u64 {
        return Ok(None);
    }
    let mut words = Vec::with_capacity(alloc, count as usize)?;
    let mut rest = bytes;
    'words: for _ in 0..count {
        words.push(first_u64(rest))?;
        rest = rest.split_at(8).1;
    }
    Ok(Some((words, rest)))
}
