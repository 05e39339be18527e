//! The ranks of the documents of a set, counted on 64 documents at a time.

use block_bits::BitSet;

/// How many documents of a set come before a document, for documents that ascend. A guess: who asks for it tests it.
#[derive(Drop)]
pub(crate) struct Ranks<'a> {
    words: &'a [u64],
    /// The u64 that was come to.
    place: usize,
    /// How many documents of the set those before it have.
    passed: u32,
}

impl<'a> Ranks<'a> {
    /// The ranks in a set, from its first document on.
    pub(crate) fn over(set: &'a BitSet) -> Ranks<'a> {
        Ranks {
            words: set.words(),
            place: 0,
            passed: 0,
        }
    }

    /// How many documents come before one that is not before the last one asked for.
    pub(crate) fn before(&mut self, doc: u32) -> u32 {
        let to = (doc / 64) as usize;
        'words: while self.place < to && self.place < self.words.len() {
            self.passed = self
                .passed
                .wrapping_add(self.words[self.place].count_ones());
            self.place += 1;
        }
        let own = match self.words.get(to) {
            Some(word) => *word & !(u64::MAX << (doc % 64)),
            None => 0,
        };
        self.passed.wrapping_add(own.count_ones())
    }
}
