//! A walk over the documents of a set that keeps the u64 it is in.

ghost use Rattle.std.specs.Prelude.{◌≡◌, ◌+◌, ◌<◌, ◌≤◌, max, length, take, IfSome, IfNone};
ghost use Rattle.block_bits.specs.Flags.{is_marked, flags, IsTight};
ghost use Rattle.block_bits.specs.Places.{next_place};
ghost use Rattle.block_bits.specs.Walks.{Walking};

use crate::words::{WORD, next_document, word_from};
use std::marker::Model;

/// A walk over the documents of a set, in order.
///
/// It reads each u64 of the set once, so that a step costs about a nanosecond where documents stand close.
#[derive(Drop)]
pub struct Walk<'a> {
    words: &'a [u64],
    len: u32,
    from: u32,
    place: u32,
    word: u64,
}

impl<'a> Model for Walk<'a> {
    ghost use Rattle.block_bits.specs.Flags.{flags};
    ghost use Rattle.block_bits.specs.Walks.{Walking, IsWalk};

    ghost Value = { Walking };

    ghost view = { λ it. record { documents = flags it.words.now it.len; from = it.from } };

    ghost invariant = { λ it. IsWalk it.words.now it.len it.from it.place it.word };
}

impl<'a> Walk<'a> {
    /// The walk over the documents of these u64s, from the first on.
    pub(crate) fn over(words: &'a [u64], len: u32) -> Walk<'a>
        requires { IsTight words.now len }
        ensures { result ≡ record { documents = flags words.now len; from = 0 } }
    {
        Walk {
            words,
            len,
            from: 0,
            place: 0,
            word: word_from(words, 0),
        }
    }

    /// The document from which on the walk goes.
    pub fn from(&self) -> u32
        ensures from { result ≡ self.now.from }
        ensures within { result ≤ length self.now.documents }
    {
        self.from
    }

    /// The next document of the set; the walk goes on behind it.
    pub fn next(&mut self) -> Option<u32>
        ensures value { result ≡ next_place is_marked self.old.from self.old.documents }
        ensures within { IfSome result (λ at. (self.old.from ≤ at) × (at < length self.old.documents)) }
        ensures found { IfSome result (λ at. self.new ≡ record { documents = self.old.documents; from = at + 1 }) }
        ensures ended { IfNone result (self.new ≡ record { documents = self.old.documents; from = length self.old.documents }) }
    {
        self.next_before(self.len)
    }

    /// The next document of the set that is before `end`; the walk goes on behind it, or at `end` where there is none.
    ///
    /// It looks at no u64 behind that of `end`.
    pub fn next_before(&mut self, end: u32) -> Option<u32>
        requires { end ≤ length self.old.documents }
        ensures value { result ≡ next_place is_marked self.old.from (take end self.old.documents) }
        ensures within { IfSome result (λ at. (self.old.from ≤ at) × (at < end)) }
        ensures found { IfSome result (λ at. self.new ≡ record { documents = self.old.documents; from = at + 1 }) }
        ensures passed { IfNone result (self.new ≡ record { documents = self.old.documents; from = max self.old.from end }) }
    {
        if self.from >= end {
            return None;
        }
        let (place, word, found) = next_document(self.words, self.place, self.word, end);
        self.place = place;
        self.word = word;
        match found {
            Some(at) => {
                self.word = word & !(1 << (at % WORD));
                self.from = at + 1;
                Some(at)
            }
            None => {
                self.from = end;
                None
            }
        }
    }

    /// Goes on at `to`, unless the walk is past it.
    pub fn skip_to(&mut self, to: u32)
        requires { to ≤ length self.old.documents }
        ensures { self.new ≡ record { documents = self.old.documents; from = max self.old.from to } }
    {
        if to > self.from {
            self.word = word_from(self.words, to);
            self.place = to / WORD;
            self.from = to;
        }
    }
}
