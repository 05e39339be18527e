//! Whether each document is in exactly one set.

ghost use Rattle.std.specs.Prelude.{◌≡◌, ℕ, ◌*◌, ◌^◌, ◌<◌, ◌↔◌, Bool, List, [], length, slice_index_or, All, IsTrue};
ghost use Rattle.block_bits.specs.Blocks.{AreBits};
ghost use Rattle.block_bits.specs.Seen.{scopes_seen};
ghost use Rattle.block_bits.specs.OneScope.{set_count, HasOneIn, IsPartition};

use crate::BitSet;
use crate::words::{WORD, full_word};

/// How many documents the sets are of, where each is of as many.
pub(crate) fn count_documents(sets: &[BitSet]) -> u32
    ensures { result ≡ length (slice_index_or sets.now 0 []) }
{
    match sets {
        [] => 0,
        [first, ..] => first.len(),
    }
}

/// Whether the sets are those of so many scopes: each document is in exactly one of them.
pub(crate) fn give_one_scope(count: usize, sets: &[BitSet]) -> bool
    ensures scopes { IsTrue result ↔ ((scopes : List ℕ) × AreBits count sets.now scopes) }
    ensures numbered { IsTrue result → length (scopes_seen sets.now) < 2 ^ 32 }
{
    if count != sets.len() {
        return false;
    }
    is_partition(sets)
}

/// Whether the sets have one length and each document is in exactly one of them.
fn is_partition(sets: &[BitSet]) -> bool
    ensures partition { IsTrue result ↔ IsPartition sets.now (length (slice_index_or sets.now 0 [])) }
    ensures numbered { length (slice_index_or sets.now 0 []) < 2 ^ 32 }
{
    let len = count_documents(sets);
    have_length(sets, len) && are_apart(sets, len)
}

fn have_length(sets: &[BitSet], len: u32) -> bool
    ensures { IsTrue result ↔ All (λ flags. length flags ≡ len) sets.now }
{
    sets.iter().all(|set| set.len() == len)
}

fn are_apart(sets: &[BitSet], len: u32) -> bool
    requires { All (λ flags. length flags ≡ len) sets.now }
    ensures { IsTrue result ↔ ((doc : ℕ) → doc < len → set_count sets.now doc ≡ 1) }
{
    'places: for place in 0..len.div_ceil(WORD) {
        if !is_word_apart(sets, len, place) {
            return false;
        }
    }
    true
}

/// Whether each document of word `place` is in exactly one set.
fn is_word_apart(sets: &[BitSet], len: u32, place: u32) -> bool
    requires lengths { All (λ flags. length flags ≡ len) sets.now }
    requires within { 64 * place < len }
    ensures { IsTrue result ↔ HasOneIn sets.now len place }
{
    let mut seen = 0u64;
    'sets: for set in sets {
        let word = set.word(place);
        if seen & word != 0 {
            return false;
        }
        seen |= word;
    }
    seen == full_word(len - place * WORD)
}
