//! How many documents of a set there are, counted 64 at a time.

ghost use Rattle.std.specs.Prelude.{◌≡◌, ◌+◌, ◌-◌, ◌*◌, ◌/◌, ◌≤◌, length, drop, take};
ghost use Rattle.block_join.specs.Kept.{marks};

use block_bits::BitSet;

/// Documents a u64.
const WORD: u32 = 64;

/// How many documents of the set there are from `from` up to `end`.
pub(crate) fn count_between(set: &BitSet, from: u32, end: u32) -> u32
    requires ordered { from ≤ end }
    requires within { end ≤ length set.now }
    ensures { result ≡ marks (take (end - from) (drop from set.now)) }
{
    let words = set.words();
    let mut total = 0;
    'places: for place in from / WORD..end / WORD {
        total += words[place as usize].count_ones();
    }
    total + count_in_word(set, end) - count_in_word(set, from)
}

/// How many documents there are before `end` in the u64 that `end` is in.
fn count_in_word(set: &BitSet, end: u32) -> u32
    requires { end ≤ length set.now }
    ensures { marks (take (64 * (end / 64)) set.now) + result ≡ marks (take end set.now) }
{
    let below = end % WORD;
    if below == 0 {
        return 0;
    }
    (set.words()[(end / WORD) as usize] % (1 << below)).count_ones()
}
