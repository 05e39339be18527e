//! Lists behind the terms of their rows, and their entries: a document, the number of its positions, and these.

ghost use Rattle.std.specs.Prelude.{◌≡◌, ◌+◌, ◌*◌, ◌<◌, ◌≤◌, ◌↔◌, true, [], length, drop, slice_index_or, IsTrue};
ghost use Rattle.part_text.specs.Front.{first_u32};
ghost use Rattle.part_text.specs.Places.{row};
ghost use Rattle.term_table.specs.Kept.{HasTerm};
ghost use Rattle.postings.specs.Kept.{postings_of, lists_of, list_text, HasEntry, IsList, IsTable};

use part_text::{first_u32, row};

/// The list behind the term of a row.
fn list_text(row: &[u8]) -> &[u8]
    requires { HasTerm row.now }
    ensures { result.now ≡ list_text row.now }
{
    let term_length = first_u32(row.split_at(4).1) as usize;
    row.split_at(8 + term_length).1
}

/// The list of the term with this ordinal.
pub(crate) fn list_at<'a>(bytes: &'a [u8], places: &[u64], ordinal: usize) -> &'a [u8]
    requires table { IsTable bytes.now places.now }
    requires below { ordinal < length (lists_of bytes.now places.now) }
    ensures list { IsList result.now }
    ensures text { result.now ≡ list_text (row places.now bytes.now ordinal) }
    ensures postings { postings_of result.now ≡ slice_index_or (lists_of bytes.now places.now) ordinal [] }
{
    list_text(row(places, bytes, ordinal))
}

/// Whether so many entries have no positions: they are eight bytes each.
pub(crate) fn is_plain(entries: &[u8], count: u32) -> bool
    ensures { IsTrue result ↔ (length entries.now ≡ 8 * count) }
{
    entries.len() as u64 == 8 * count as u64
}

/// What stands behind the first entry. Of entries of one width no number of positions is read.
pub(crate) fn behind_entry(rest: &[u8], plain: bool) -> &[u8]
    requires entry { HasEntry rest.now }
    requires plainly { plain ≡ true → first_u32 (drop 4 rest.now) ≡ 0 }
    ensures { result.now ≡ drop (8 + 4 * first_u32 (drop 4 rest.now)) rest.now }
{
    if plain {
        return rest.split_at(8).1;
    }
    let positions = first_u32(rest.split_at(4).1) as usize;
    rest.split_at(8 + 4 * positions).1
}
