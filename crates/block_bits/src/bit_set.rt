//! The set of documents.

ghost use Rattle.std.specs.Prelude.{◌≡◌, ◌≢◌, ◌==◌, ◌+◌, ◌*◌, ◌^◌, ℕ, ◌<◌, ◌≤◌, ◌&&◌, not, nat_lt, Bool, true, false, List, length, replicate, take, slice_index_or, slice_set, count_by, IfOk, IfSome, IfNone, if◌then◌else◌};
ghost use Rattle.std.specs.Int.{bit_at};
ghost use Rattle.block_bits.specs.Flags.{is_marked, is_between, cleared, intersection, union, difference};
ghost use Rattle.block_bits.specs.Places.{next_place, previous_place};
ghost use Rattle.block_bits.specs.Words.{words_of};

use crate::words::{
    WORD, and_both_words, and_not_words, and_words, count_both_words, full_word, has_past,
    next_document, or_words, range_word, word_from, words_fit, zero_words,
};
use crate::{NoMemory, Walk};
use std::alloc::Global;
use std::marker::Model;

/// A set of the documents of a segment, seen as one flag a document.
///
/// A document is one bit, 64 to a word, and the bits past the last document are 0.
#[derive(Drop)]
pub struct BitSet {
    words: Vec<u64>,
    len: u32,
}

impl Model for BitSet {
    ghost use Rattle.std.specs.Prelude.{Bool, List};
    ghost use Rattle.block_bits.specs.Flags.{flags, IsTight};

    ghost Value = { List Bool };

    ghost view = { λ set. flags set.words.items set.len };

    ghost invariant = { λ set. IsTight set.words.items set.len };
}

impl BitSet {
    /// The set of none of `len` documents.
    pub fn empty(alloc: Global, len: u32) -> Result<BitSet, NoMemory>
        ensures { IfOk result (λ set. set ≡ replicate len false) }
    {
        let words = zero_words(alloc, len.div_ceil(WORD) as usize)?;
        Ok(BitSet { words, len })
    }

    /// The set of all of `len` documents.
    pub fn full(alloc: Global, len: u32) -> Result<BitSet, NoMemory>
        ensures { IfOk result (λ set. set ≡ replicate len true) }
    {
        let count = len.div_ceil(WORD);
        let mut words = Vec::with_capacity(alloc, count as usize)?;
        'words: for place in 0..count {
            words.push(full_word(len - place * WORD))?;
        }
        Ok(BitSet { words, len })
    }

    /// The set whose u64s these are: 64 documents each, the first in the lowest bit, and no bit past the last document.
    /// None where they are the u64s of no set of `len` documents. Takes no memory.
    pub fn of_words(words: Vec<u64>, len: u32) -> Option<BitSet>
        ensures set { IfSome result (λ set. (length set ≡ len) × (words.items ≡ words_of set)) }
        ensures none { IfNone result ((flags : List Bool) → length flags ≡ len → words.items ≢ words_of flags) }
    {
        if words.len() != len.div_ceil(WORD) as usize {
            return None;
        }
        if has_past(words.as_slice(), len) {
            return None;
        }
        Some(BitSet { words, len })
    }

    /// The set's u64s: 64 documents each, the first in the lowest bit, and no bit past the last document.
    pub fn words(&self) -> &[u64]
        ensures { result.now ≡ words_of self.now }
    {
        words_fit(self.words.as_slice());
        self.words.as_slice()
    }

    /// A walk over the documents of the set, from the first on.
    pub fn walk(&self) -> Walk<'_>
        ensures { result ≡ record { documents = self.now; from = 0 } }
    {
        Walk::over(self.words.as_slice(), self.len)
    }

    /// An equal set.
    pub fn copy(&self, alloc: Global) -> Result<BitSet, NoMemory>
        ensures { IfOk result (λ copy. copy ≡ self.now) }
    {
        let words = Vec::from_slice(alloc, self.words.as_slice())?;
        Ok(BitSet {
            words,
            len: self.len,
        })
    }

    /// The set of the documents that are in both of two sets.
    pub fn both(alloc: Global, one: &BitSet, other: &BitSet) -> Result<BitSet, NoMemory>
        requires { length one.now ≡ length other.now }
        ensures { IfOk result (λ set. set ≡ intersection one.now other.now) }
    {
        let mut set = one.copy(alloc)?;
        set.and(other);
        Ok(set)
    }

    /// How many documents there are, in the set or not.
    pub fn len(&self) -> u32
        ensures { result ≡ length self.now }
    {
        self.len
    }

    /// Puts a document into the set.
    pub fn set(&mut self, at: u32)
        requires { at < length self.old }
        ensures { self.new ≡ slice_set self.old at true }
    {
        self.words[(at / WORD) as usize] |= 1 << (at % WORD);
    }

    /// Takes a document out of the set.
    pub fn clear(&mut self, at: u32)
        requires { at < length self.old }
        ensures { self.new ≡ slice_set self.old at false }
    {
        self.words[(at / WORD) as usize] &= !(1 << (at % WORD));
    }

    /// Takes the documents from `from` up to `end` out of the set. Writes the words between the two and no others.
    pub fn clear_range(&mut self, from: u32, end: u32)
        requires ordered { from ≤ end }
        requires within { end ≤ length self.old }
        ensures { self.new ≡ cleared from end self.old }
    {
        'words: for place in from / WORD..end.div_ceil(WORD) {
            let taken = range_word(place * WORD, from, end);
            self.words[place as usize] &= !taken;
        }
    }

    /// Whether a document is in the set.
    pub fn has(&self, at: u32) -> bool
        requires { at < length self.now }
        ensures { result ≡ slice_index_or self.now at false }
    {
        (self.words[(at / WORD) as usize] >> (at % WORD)) & 1 == 1
    }

    /// The first document of the set at or after `from`.
    pub fn next_set(&self, from: u32) -> Option<u32>
        ensures value { result ≡ next_place is_marked from self.now }
        ensures within { IfSome result (λ at. (from ≤ at) × (at < length self.now)) }
        ensures numbered { length self.now < 2 ^ 32 }
    {
        self.next_set_before(from, self.len())
    }

    /// The first document of the set at or after `from` and before `end`.
    ///
    /// It looks at the words between the two and no further.
    pub fn next_set_before(&self, from: u32, end: u32) -> Option<u32>
        requires { end ≤ length self.now }
        ensures value { result ≡ next_place is_marked from (take end self.now) }
        ensures within { IfSome result (λ at. (from ≤ at) × (at < end)) }
    {
        if from >= end {
            return None;
        }
        let words = self.words.as_slice();
        next_document(words, from / WORD, word_from(words, from), end).2
    }

    /// The last document of the set before `below`.
    pub fn prev_set(&self, below: u32) -> Option<u32>
        ensures value { result ≡ previous_place is_marked below self.now }
        ensures within { IfSome result (λ at. (at < below) × (at < length self.now)) }
    {
        let end = below.min(self.len);
        if end == 0 {
            return None;
        }
        let last = end - 1;
        let mut place = (last / WORD) as usize;
        let mut word = self.words[place] & (u64::MAX >> (63 - last % WORD));
        'words: while word == 0 {
            if place == 0 {
                return None;
            }
            place -= 1;
            word = self.words[place];
        }
        Some(place as u32 * WORD + (63 - word.leading_zeros()))
    }

    /// Keeps the documents that are in `other` too.
    pub fn and(&mut self, other: &BitSet)
        requires { length self.old ≡ length other.now }
        ensures { self.new ≡ intersection self.old other.now }
    {
        and_words(self.words.as_mut_slice(), other.words.as_slice());
    }

    /// Keeps the documents that are in `one` and in `other` too, in one pass over the three.
    pub fn and_both(&mut self, one: &BitSet, other: &BitSet)
        requires one { length self.old ≡ length one.now }
        requires other { length self.old ≡ length other.now }
        ensures { self.new ≡ intersection (intersection self.old one.now) other.now }
    {
        and_both_words(
            self.words.as_mut_slice(),
            one.words.as_slice(),
            other.words.as_slice(),
        );
    }

    /// Adds the documents of `other`.
    pub fn or(&mut self, other: &BitSet)
        requires { length self.old ≡ length other.now }
        ensures { self.new ≡ union self.old other.now }
    {
        or_words(self.words.as_mut_slice(), other.words.as_slice());
    }

    /// Takes out the documents of `other`.
    pub fn and_not(&mut self, other: &BitSet)
        requires { length self.old ≡ length other.now }
        ensures { self.new ≡ difference self.old other.now }
    {
        and_not_words(self.words.as_mut_slice(), other.words.as_slice());
    }

    /// How many documents are in the set.
    pub fn count(&self) -> u32
        ensures { result ≡ count_by is_marked self.now }
    {
        let mut total = 0u64;
        'words: for word in &self.words {
            total += word.count_ones() as u64;
        }
        total as u32
    }

    /// How many documents are in the set and in another: one pass over the two, and no memory.
    pub fn count_both(&self, other: &BitSet) -> u32
        requires { length self.now ≡ length other.now }
        ensures { result ≡ count_by is_marked (intersection self.now other.now) }
    {
        count_both_words(self.words.as_slice(), other.words.as_slice()) as u32
    }

    /// Word `place` of the set: its first document in the lowest bit, and 0 past the last document.
    pub(crate) fn word(&self, place: u32) -> u64
        requires { 64 * place < length self.now }
        ensures { (i : ℕ) → i < 64 → (bit_at result i == 1) ≡ slice_index_or self.now (64 * place + i) false }
    {
        self.words[place as usize]
    }
}
