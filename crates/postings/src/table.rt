//! The table of the postings of a segment's terms.

ghost use Rattle.std.specs.Prelude.{◌≡◌, ℕ, ◌+◌, ◌-◌, ◌<◌, ◌||◌, false, [], List, length, map, slice_index_or};
ghost use Rattle.std.specs.List.{All};
ghost use Rattle.part_text.specs.Places.{ArePlaces};
ghost use Rattle.term_table.specs.declared.rows.TermRow.{TermRow};
ghost use Rattle.term_table.specs.Part.{Stand, Belong};
ghost use Rattle.postings.specs.Marks.{has_document, has_positions};
ghost use Rattle.postings.specs.Kept.{postings_of, lists_of, IsList, IsTable};
ghost use Rattle.postings.specs.Skips.{AreSkips};

use crate::entry::{behind_entry, is_plain, list_at};
use crate::skips::{SkipList, skips_of};
use crate::{Cursor, SkipLists};
use block_bits::BitSet;
use part_text::{PlaceList, first_u32};
use std::marker::Model;

/// The postings of each term of a segment, by the term's ordinal.
///
/// It reads the segment's bytes in place.
#[derive(Drop)]
pub struct PostingsTable<'a> {
    bytes: &'a [u8],
    places: &'a [u64],
    skips: &'a [SkipList],
}

impl<'a> Model for PostingsTable<'a> {
    ghost use Rattle.std.specs.Prelude.{ℕ, List};
    ghost use Rattle.postings.specs.Kept.{lists_of, IsTable};
    ghost use Rattle.postings.specs.Skips.{AreSkips};

    ghost Value = { List (List (ℕ × List ℕ)) };

    ghost view = { λ table. lists_of table.bytes.now table.places.now };

    ghost invariant = { λ table. IsTable table.bytes.now table.places.now × AreSkips table.bytes.now table.places.now table.skips.now };
}

impl<'a> PostingsTable<'a> {
    /// The table of the postings that stand in these bytes at the places of their terms. Takes no memory and reads nothing.
    pub fn over(bytes: &'a [u8], places: &'a PlaceList) -> PostingsTable<'a>
        requires { Belong bytes.now places.now }
        ensures { (at : ℕ) (rows : List TermRow) (end : ℕ) → Stand bytes.now at rows places.now end → result ≡ map (λ row. row.postings) rows }
    {
        PostingsTable {
            bytes,
            places: places.as_slice(),
            skips: &[],
        }
    }

    /// The same table, whose cursors leap in long lists with positions.
    pub fn leaping(
        bytes: &'a [u8],
        places: &'a PlaceList,
        skips: &'a SkipLists,
    ) -> PostingsTable<'a>
        requires places { Belong bytes.now places.now }
        requires skips { AreSkips bytes.now places.now skips.now }
        ensures { (at : ℕ) (rows : List TermRow) (end : ℕ) → Stand bytes.now at rows places.now end → result ≡ map (λ row. row.postings) rows }
    {
        PostingsTable {
            bytes,
            places: places.as_slice(),
            skips: skips.as_slice(),
        }
    }

    /// How many lists there are.
    #[tactic(auto, using(crate::proofs::Lists::lists))]
    pub fn count(&self) -> u64
        ensures { result ≡ length self.now }
    {
        (self.places.len() - 1) as u64
    }

    /// How many documents have the term with this ordinal.
    pub fn documents(&self, ordinal: u64) -> u32
        requires { ordinal < length self.now }
        ensures { result ≡ length (slice_index_or self.now ordinal []) }
    {
        first_u32(list_at(self.bytes, self.places, ordinal as usize))
    }

    /// Whether some posting of the term with this ordinal has positions, as those of a text's word have.
    pub fn has_positions(&self, ordinal: u64) -> bool
        requires { ordinal < length self.now }
        ensures { result ≡ has_positions (slice_index_or self.now ordinal []) }
    {
        let list = list_at(self.bytes, self.places, ordinal as usize);
        !is_plain(list.split_at(4).1, first_u32(list))
    }

    /// A cursor at the first posting of the term with this ordinal.
    pub fn cursor(&self, ordinal: u64) -> Cursor<'a>
        requires { ordinal < length self.now }
        ensures { result ≡ record { postings = slice_index_or self.now ordinal []; at = 0 } }
    {
        let text = list_at(self.bytes, self.places, ordinal as usize);
        Cursor::over(text, skips_of(self.skips, ordinal))
    }

    /// Puts the documents that have the term with this ordinal into a set.
    pub fn mark(&self, ordinal: u64, set: &mut BitSet)
        requires ordinal { ordinal < length self.now }
        requires within { All (λ posting. posting.0 < length set.old) (slice_index_or self.now ordinal []) }
        ensures long { length set.new ≡ length set.old }
        ensures marked { (document : ℕ) → document < length set.old → slice_index_or set.new document false
            ≡ (slice_index_or set.old document false || has_document document (slice_index_or self.now ordinal [])) }
    {
        mark_list(list_at(self.bytes, self.places, ordinal as usize), set);
    }
}

/// Puts the documents of a list into a set.
fn mark_list(text: &[u8], set: &mut BitSet)
    requires list { IsList text.now }
    requires within { All (λ posting. posting.0 < length set.old) (postings_of text.now) }
    ensures long { length set.new ≡ length set.old }
    ensures marked { (document : ℕ) → document < length set.old → slice_index_or set.new document false
        ≡ (slice_index_or set.old document false || has_document document (postings_of text.now)) }
{
    let count = first_u32(text);
    let mut rest = text.split_at(4).1;
    let plain = is_plain(rest, count);
    'postings: for _ in 0..count {
        set.set(first_u32(rest));
        rest = behind_entry(rest, plain);
    }
}
