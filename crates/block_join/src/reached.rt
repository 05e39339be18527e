//! The documents of a set that others lead to, found 64 documents at a time.

ghost use Rattle.std.specs.Prelude.{◌≡◌, ◌≤◌, Bool, List, length, false, IfOk};
ghost use Rattle.block_bits.specs.Words.{bits_number};
ghost use Rattle.block_join.specs.Kept.{reached, since};

use crate::NoMemory;
use block_bits::{BitSet, words_are_of_one_set};
use std::alloc::Global;

/// The documents of a set that have one of `others` behind the one before them.
///
/// It costs one addition for 64 documents: where no document of the set is, the sum carries what came before on to the next
/// that is.
pub(crate) fn reached(alloc: Global, parents: &BitSet, others: &BitSet) -> Result<BitSet, NoMemory>
    requires { length others.now ≡ length parents.now }
    ensures { IfOk result (λ set. set ≡ reached false parents.now others.now) }
{
    words_are_of_one_set();
    let len = parents.len();
    let above = parents.words();
    let below = others.words();
    let mut words = Vec::with_capacity(alloc, above.len())?;
    let mut some = false;
    'words: for at in 0..above.len() {
        let (word, more) = reached_word(above[at], below[at], some);
        words.push(word)?;
        some = more;
    }
    let Some(set) = BitSet::of_words(words, len) else {
        unreachable!()
    };
    Ok(set)
}

/// One more than the greatest u64.
const PAST: u128 = 1 << 64;

/// Those of 64 documents, and whether one of the others is behind the last of them; `some`: one came before the first.
pub(crate) fn reached_word(parents: u64, others: u64, some: bool) -> (u64, bool)
    ensures word { (ps cs : List Bool) → length cs ≡ length ps → length ps ≤ 64 → parents ≡ bits_number ps → others ≡ bits_number cs → result.0 ≡ bits_number (reached some ps cs) }
    ensures more { (ps cs : List Bool) → length cs ≡ length ps → length ps ≡ 64 → parents ≡ bits_number ps → others ≡ bits_number cs → result.1 ≡ since some ps cs }
{
    let free = !parents;
    let before = if some { 1 } else { 0 };
    let sum = u128::from(free) + u128::from(others & free) + before;
    (((sum % PAST) as u64) & parents, sum >= PAST)
}
