//! Walkers: each reads one thing from the front of bytes, and gives the bytes behind it.

ghost use Rattle.part_text.specs.Reading.{Gives, u32_at, u64_at, i64_at, string_at};

/// A number of four bytes.
#[tactic(auto, unfolding(crate::specs::Reading::u32_at))]
pub fn u32_at(bytes: &[u8]) -> Option<(u32, &[u8])>
    ensures { Gives (λ x. (x.0, x.1.now)) result (u32_at bytes.now) }
{
    if bytes.len() < 4 {
        return None;
    }
    let (own, rest) = bytes.split_at(4);
    Some((u32::from_le_bytes([own[0], own[1], own[2], own[3]]), rest))
}

/// A number of eight bytes.
#[tactic(auto, unfolding(crate::specs::Reading::u64_at))]
pub fn u64_at(bytes: &[u8]) -> Option<(u64, &[u8])>
    ensures { Gives (λ x. (x.0, x.1.now)) result (u64_at bytes.now) }
{
    if bytes.len() < 8 {
        return None;
    }
    let (own, rest) = bytes.split_at(8);
    let number = u64::from_le_bytes([
        own[0], own[1], own[2], own[3], own[4], own[5], own[6], own[7],
    ]);
    Some((number, rest))
}

/// A signed number of eight bytes.
#[tactic(auto, unfolding(crate::specs::Reading::i64_at))]
pub fn i64_at(bytes: &[u8]) -> Option<(i64, &[u8])>
    ensures { Gives (λ x. (x.0, x.1.now)) result (i64_at bytes.now) }
{
    let (number, rest) = u64_at(bytes)?;
    Some((number.cast_signed(), rest))
}

/// Bytes behind their number.
#[tactic(auto, unfolding(crate::specs::Reading::string_at))]
pub fn string_at(bytes: &[u8]) -> Option<(&[u8], &[u8])>
    ensures { Gives (λ x. (x.0.now, x.1.now)) result (string_at bytes.now) }
{
    let (count, rest) = u32_at(bytes)?;
    if rest.len() < count as usize {
        return None;
    }
    Some(rest.split_at(count as usize))
}
