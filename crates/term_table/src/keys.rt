//! The key by which a number stands among the terms.

ghost use Rattle.std.specs.Prelude.{◌≡◌, ◌↔◌, ℤ, length, FitsSigned, IfSome, IsNone};
ghost use Rattle.std.specs.Ordering.{nat_cmp, int_cmp};
ghost use Rattle.std.specs.Cmp.Lexicographic.{slice_cmp};
ghost use Rattle.std.specs.Int.{w64};
ghost use Rattle.term_table.specs.Keys.{number_key};

/// The key of a number: 8 bytes, the highest first, of the number plus 2^63, so that keys are ordered as numbers are
/// (Lucene's `NumericUtils`, package `org.apache.lucene.util`).
pub fn number_key(number: i64) -> [u8; 8]
    ensures { result ≡ number_key number }
{
    number.cast_unsigned().wrapping_add(1 << 63).to_be_bytes()
}

/// The number with this key, and None where the bytes are no key: not 8 of them.
pub fn number_of(key: &[u8]) -> Option<i64>
    ensures some { IfSome result (λ number. number_key number ≡ key.now) }
    ensures none { IsNone result ↔ ¬ (length key.now ≡ 8) }
{
    let mut bytes = [0; 8];
    if key.len() != bytes.len() {
        return None;
    }
    bytes.copy_from_slice(key);
    Some(
        u64::from_be_bytes(bytes)
            .wrapping_add(1 << 63)
            .cast_signed(),
    )
}

/// Keys are ordered as their numbers are. Does nothing.
pub fn keys_are_ordered()
    ensures { (one other : ℤ) → FitsSigned w64 one → FitsSigned w64 other
        → slice_cmp nat_cmp (number_key one) (number_key other) ≡ int_cmp one other }
{}
