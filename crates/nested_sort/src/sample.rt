//! A guess of how many documents a set has. Nothing but speed rests on it.
use block_bits::BitSet;

/// A set's documents are counted among about so many, spread evenly: among all where there are fewer.
const SAMPLE: u32 = 65_536;

/// About how many documents a set has, by a sample of its words: to count them all is to read the whole set.
pub(crate) fn count_about(set: &BitSet) -> u32 {
    let stride = set.len() / SAMPLE + 1;
    let apart = stride as usize;
    let words = set.words();
    let mut count = 0u32;
    'sample: for step in 0..words.len() / apart {
        if let Some(word) = words.get(step.saturating_mul(apart)) {
            count = count.saturating_add(word.count_ones());
        }
    }
    count.saturating_mul(stride)
}
