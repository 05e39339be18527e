//! Taking fields: what stands at a place of the bytes, and the place after it.
ghost use Rattle.std.specs.Prelude.{◌≡◌, ℕ, ◌+◌, ◌<◌, ◌≤◌, ◌^◌, List, [], ◌++◌, length, drop, IfSome, IsSomeAnd, Some};
ghost use Rattle.byte_fields.specs.Fields.{spelled_u8, spelled_u32, spelled_u64, spelled_bytes};

/// The byte at a place, and the place after it; None at the end and past it.
pub fn take_u8(from: &[u8], at: u64) -> Option<(u8, u64)>
    ensures spelled { IfSome result (λ found. drop at from.now ≡ spelled_u8 found.0 ++ drop found.1 from.now) }
    ensures next { IfSome result (λ found. found.1 ≡ at + 1) }
    ensures within { IfSome result (λ found. found.1 ≤ length from.now) }
    ensures taken { (n : ℕ) (rest : List ℕ) → drop at from.now ≡ spelled_u8 n ++ rest
        → result ≡ Some (n, at + 1) }
{
    match rest_from(from, at) {
        [byte, ..] => Some((*byte, at + 1)),
        [] => None,
    }
}

/// The number of four bytes at a place, the lowest first, and the place after it; None where fewer stand there.
pub fn take_u32(from: &[u8], at: u64) -> Option<(u32, u64)>
    ensures spelled { IfSome result (λ found. drop at from.now ≡ spelled_u32 found.0 ++ drop found.1 from.now) }
    ensures next { IfSome result (λ found. found.1 ≡ at + 4) }
    ensures within { IfSome result (λ found. found.1 ≤ length from.now) }
    ensures taken { (n : ℕ) (rest : List ℕ) → n < 2 ^ 32 → drop at from.now ≡ spelled_u32 n ++ rest
        → result ≡ Some (n, at + 4) }
{
    let (bytes, _) = rest_from(from, at).split_first_chunk::<4>()?;
    Some((u32::from_le_bytes(*bytes), at + 4))
}

/// The number of eight bytes at a place, the lowest first, and the place after it; None where fewer stand there.
pub fn take_u64(from: &[u8], at: u64) -> Option<(u64, u64)>
    ensures spelled { IfSome result (λ found. drop at from.now ≡ spelled_u64 found.0 ++ drop found.1 from.now) }
    ensures next { IfSome result (λ found. found.1 ≡ at + 8) }
    ensures within { IfSome result (λ found. found.1 ≤ length from.now) }
    ensures taken { (n : ℕ) (rest : List ℕ) → n < 2 ^ 64 → drop at from.now ≡ spelled_u64 n ++ rest
        → result ≡ Some (n, at + 8) }
{
    let (bytes, _) = rest_from(from, at).split_first_chunk::<8>()?;
    Some((u64::from_le_bytes(*bytes), at + 8))
}

/// The bytes that stand at a place behind their length, and the place after them; None where no length stands there, or
/// fewer bytes than it says follow.
pub fn take_bytes(from: &[u8], at: u64) -> Option<(&[u8], u64)>
    ensures spelled { IfSome result (λ found.
        drop at from.now ≡ spelled_bytes found.0.now ++ drop found.1 from.now) }
    ensures next { IfSome result (λ found. found.1 ≡ at + (4 + length found.0.now)) }
    ensures within { IfSome result (λ found. found.1 ≤ length from.now) }
    ensures taken { (bytes rest : List ℕ) → length bytes < 2 ^ 32
        → drop at from.now ≡ spelled_bytes bytes ++ rest
        → IsSomeAnd result (λ found. found.0.now ≡ bytes) }
{
    let (length, start) = take_u32(from, at)?;
    let (bytes, _) = rest_from(from, start).split_at_checked(length as usize)?;
    Some((bytes, start + u64::from(length)))
}

/// What stands from a place on; nothing past the end.
fn rest_from(from: &[u8], at: u64) -> &[u8]
    ensures { result.now ≡ drop at from.now }
{
    from.split_at(from.len().min(at as usize)).1
}
