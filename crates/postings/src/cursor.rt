//! A cursor over the postings of one term.

ghost use Rattle.std.specs.Prelude.{◌≡◌, ℕ, ◌+◌, ◌<◌, length, min, slice_index, All, IsSome};
ghost use Rattle.postings.specs.Postings.{ArePostings, present, present_document, present_positions, place_from};
ghost use Rattle.postings.specs.Kept.{postings_of, IsList};
ghost use Rattle.postings.specs.Skips.{IsSkip};

use crate::entry::{behind_entry, is_plain};
use crate::search::{first_from, gallop};
use crate::skips::{APART, Skip, last_before};
use part_text::first_u32;
use std::marker::Model;

/// The postings of one term, and the place of the present one. It begins at the first.
///
/// It reads the segment's bytes in place, and goes forward only.
#[derive(Drop)]
pub struct Cursor<'a> {
    text: &'a [u8],
    count: u32,
    at: u32,
    rest: &'a [u8],
    plain: bool,
    skips: &'a [Skip],
}

impl<'a> Model for Cursor<'a> {
    ghost use Rattle.std.specs.Prelude.{All};
    ghost use Rattle.postings.specs.Postings.{Standing};
    ghost use Rattle.postings.specs.Kept.{postings_of, IsAt};
    ghost use Rattle.postings.specs.Skips.{IsSkip};

    ghost Value = { Standing };

    ghost view = { λ it. record { postings = postings_of it.text.now; at = it.at } };

    ghost invariant = { λ it. IsAt (postings_of it.text.now) it.count it.at it.rest.now it.plain × All (IsSkip it.text.now) it.skips.now };
}

impl<'a> Cursor<'a> {
    /// A cursor at the first posting of a list, with entries to leap to.
    pub(crate) fn over(text: &'a [u8], skips: &'a [Skip]) -> Cursor<'a>
        requires list { IsList text.now }
        requires skips { All (IsSkip text.now) skips.now }
        ensures { result ≡ record { postings = postings_of text.now; at = 0 } }
    {
        let count = first_u32(text);
        let rest = text.split_at(4).1;
        Cursor {
            text,
            count,
            at: 0,
            rest,
            plain: is_plain(rest, count),
            skips,
        }
    }

    /// The present document, and None past the last.
    pub fn doc(&self) -> Option<u32>
        ensures document { result ≡ present_document self.now }
        ensures postings { ArePostings self.now.postings }
    {
        if self.at < self.count {
            Some(first_u32(self.rest))
        } else {
            None
        }
    }

    /// Goes to the first document from `to` on that isn't before the present one, and gives it; past the
    /// last where there is none.
    ///
    /// It looks at a number of documents that grows with the logarithm of those that it passes over. Where postings have
    /// positions it walks over at most 31 besides; but over each where there are fewer than 128, or no skip lists are given.
    pub fn advance(&mut self, to: u32) -> Option<u32>
        ensures postings { self.new.postings ≡ self.old.postings }
        ensures place { self.new.at ≡ place_from to self.old }
        ensures document { result ≡ present_document self.new }
    {
        if !self.plain {
            self.leap(to);
            return self.walk_to(to);
        }
        let left = (self.count - self.at) as usize;
        let (low, high) = gallop(self.rest, left, to);
        let passed = first_from(self.rest, left, low, high, to);
        self.rest = self.rest.split_at(8 * passed).1;
        self.at += passed as u32;
        self.doc()
    }

    /// Goes to the last entry before `to` whose place is kept, where that lies ahead.
    fn leap(&mut self, to: u32)
        ensures postings { self.new.postings ≡ self.old.postings }
        ensures place { place_from to self.new ≡ place_from to self.old }
    {
        let near = self.skips.len().min((self.at / APART + 1) as usize);
        if let Some(skip) = last_before(self.skips, near, to) {
            if skip.at > self.at {
                self.rest = self.text.split_at(skip.offset as usize).1;
                self.at = skip.at;
            }
        }
    }

    /// Goes from document to document up to the first from `to` on, and gives it.
    fn walk_to(&mut self, to: u32) -> Option<u32>
        ensures postings { self.new.postings ≡ self.old.postings }
        ensures place { self.new.at ≡ place_from to self.old }
        ensures document { result ≡ present_document self.new }
    {
        let mut document = self.doc();
        'postings: while let Some(own) = document {
            if own >= to {
                return document;
            }
            document = self.next();
        }
        None
    }

    /// Goes to the next document and gives it; past the last it stays where it is.
    pub fn next(&mut self) -> Option<u32>
        ensures postings { self.new.postings ≡ self.old.postings }
        ensures place { self.new.at ≡ min (self.old.at + 1) (length self.old.postings) }
        ensures document { result ≡ present_document self.new }
    {
        if self.at < self.count {
            self.rest = behind_entry(self.rest, self.plain);
            self.at += 1;
        }
        self.doc()
    }

    /// How many positions the present document has.
    pub fn positions(&self) -> u32
        requires { IsSome (present self.now) }
        ensures { result ≡ length (present_positions self.now) }
    {
        first_u32(self.rest.split_at(4).1)
    }

    /// Position `i` in the present document, of its positions ascending.
    pub fn position(&self, i: u32) -> u32
        requires { i < length (present_positions self.now) }
        ensures { result ≡ slice_index (present_positions self.now) i }
    {
        first_u32(self.rest.split_at(8 + 4 * i as usize).1)
    }
}
