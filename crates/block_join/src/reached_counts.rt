//! How many documents of a set others lead to, counted 64 documents at a time.

ghost use Rattle.std.specs.Prelude.{◌≡◌, false, length, count_by};
ghost use Rattle.block_bits.specs.Flags.{is_marked};
ghost use Rattle.block_join.specs.Kept.{reached};

use crate::reached::reached_word;
use block_bits::BitSet;

/// How many documents of a set have one of `others` behind the one before them.
///
/// In blocks these are the documents with some of the others inside. It costs one addition for 64 documents and takes no memory.
pub fn reached_count(parents: &BitSet, others: &BitSet) -> u32
    requires { length others.now ≡ length parents.now }
    ensures { result ≡ count_by is_marked (reached false parents.now others.now) }
{
    let above = parents.words();
    let below = others.words();
    let _documents = parents.len();
    let mut count = 0;
    let mut some = false;
    'words: for at in 0..above.len() {
        let (word, more) = reached_word(above[at], below[at], some);
        count += word.count_ones();
        some = more;
    }
    count
}
