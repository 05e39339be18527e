//! The terms of a merged segment with their postings, written.

ghost use Rattle.std.specs.Prelude.{◌≡◌, ◌<◌, ◌^◌, ◌+◌, ◌++◌, ◌∷◌, [], List, length, map, IfOk, OnOk, IsSome, Some};
ghost use Rattle.std.specs.List.{All, flat_map};
ghost use Rattle.part_text.specs.Text.{u32_text};
ghost use Rattle.postings.specs.Postings.{present, present_positions};
ghost use Rattle.segment_parts.specs.Lists.{postings_of, terms_of};
ghost use Rattle.segment_builder.specs.Columns.{terms_in};
ghost use Rattle.segment_builder.specs.Terms.{row_group};
ghost use Rattle.term_table.specs.Part.{posting_text, row_text, rows_text, term_text};
ghost use Rattle.term_table.specs.Terms.{term_cmp};
ghost use Rattle.term_table.specs.declared.rows.TermRow.{TermRow};
ghost use Rattle.segment_merge.specs.Merged.{kept, kept_terms, IsGathered};
ghost use Rattle.segment_merge.specs.Numbering.{live_in};
ghost use Rattle.segment_merge.specs.TermRefs.{AreNew, CanPut, IsPlaced, all_terms, group_lent, live_postings, live_rows, noted, numbered, place_lent, ref_lent, rooms_of, terms_from};

use crate::NoMemory;
use crate::agreed::parts_agree;
use crate::new_ordinals::NewOrdinals;
use crate::numbering::Part;
use part_text::{put_string, put_u32, put_u64};
use postings::Cursor;
use segment::terms_are_of_documents;
use segment_builder::grouped;
use std::alloc::Global;

/// Where a term stands: a part, its place among the parts, and the term's ordinal there.
#[derive(Clone, Copy)]
pub(crate) struct TermAt<'p, 's> {
    part: &'p Part<'s>,
    place: usize,
    ordinal: u64,
}

/// Appends the terms of parts that have live documents, with the postings of these, and gives the new ordinals of terms. The
/// parts have fewer than 2^32 live documents together.
pub(crate) fn put_terms(
    alloc: Global,
    parts: &[Part],
    into: &mut Vec<u8>,
) -> Result<NewOrdinals, NoMemory>
    requires { live_in parts.now < 2 ^ 32 }
    ensures { IfOk result (λ news. (rows : List TermRow) × IsGathered term_cmp (flat_map (λ part. kept_terms part.base part.entry) parts.now) (map row_group rows)
        × AreNew parts.now (terms_in rows) news × (into.new.items ≡ into.old.items ++ rows_text rows)) }
{
    parts_agree(parts);
    let refs = term_refs(alloc, parts)?;
    let groups = grouped(alloc, refs)?;
    let mut news = NewOrdinals::blank(alloc, parts)?;
    let mut rows = Vec::new(alloc);
    let count = put_rows(alloc, groups.as_slice(), &mut news, &mut rows)?;
    put_u64(into, count)?;
    into.extend_from_slice(rows.as_slice())?;
    Ok(news)
}

/// The terms of all parts, part after part.
fn term_refs<'p, 's>(
    alloc: Global,
    parts: &'p [Part<'s>],
) -> Result<Vec<((u32, &'s [u8]), TermAt<'p, 's>)>, NoMemory>
    ensures { IfOk result (λ refs. map ref_lent refs.items ≡ all_terms 0 parts.now) }
{
    let mut refs = Vec::new(alloc);
    'parts: for place in 0..parts.len() {
        add_terms(&parts[place], place, &mut refs)?;
    }
    Ok(refs)
}

/// Adds the terms of the part at a place.
fn add_terms<'p, 's>(
    part: &'p Part<'s>,
    place: usize,
    into: &mut Vec<((u32, &'s [u8]), TermAt<'p, 's>)>,
) -> Result<(), NoMemory>
    ensures { OnOk result (map ref_lent into.new.items ≡ map ref_lent into.old.items ++ terms_from part.now place 0 (terms_of part.now.entry.columns)) }
{
    let terms = part.segment().terms();
    'terms: for ordinal in 0..terms.count() {
        into.push((
            terms.term(ordinal),
            TermAt {
                part,
                place,
                ordinal,
            },
        ))?;
    }
    Ok(())
}

/// Appends the rows of terms that have live documents, gives these terms new ordinals, and says how many they are.
fn put_rows(
    alloc: Global,
    groups: &[((u32, &[u8]), Vec<TermAt>)],
    news: &mut NewOrdinals,
    into: &mut Vec<u8>,
) -> Result<u64, NoMemory>
    requires { All (CanPut (rooms_of news.old)) (map group_lent groups.now) }
    ensures count { IfOk result (λ count. count ≡ length (live_rows (map group_lent groups.now))) }
    ensures rows { OnOk result (into.new.items ≡ into.old.items ++ flat_map row_text (live_rows (map group_lent groups.now))) }
    ensures news { OnOk result (news.new ≡ numbered 0 (map group_lent groups.now) news.old) }
{
    let mut scratch = Vec::new(alloc);
    let mut count = 0;
    'groups: for group in groups {
        count = put_row(group, count, &mut scratch, news, into)?;
    }
    Ok(count)
}

/// Appends the row of a term if it has live documents, gives it the next ordinal, and says which one comes next.
fn put_row(
    group: &((u32, &[u8]), Vec<TermAt>),
    next: u64,
    scratch: &mut Vec<u8>,
    news: &mut NewOrdinals,
    into: &mut Vec<u8>,
) -> Result<u64, NoMemory>
    requires can { CanPut (rooms_of news.old) (group_lent group.now) }
    requires fits { next + 1 < 2 ^ 64 }
    ensures next { IfOk result (λ after. after ≡ next + length (live_rows (group_lent group.now ∷ []))) }
    ensures row { OnOk result (into.new.items ≡ into.old.items ++ flat_map row_text (live_rows (group_lent group.now ∷ []))) }
    ensures news { OnOk result (news.new ≡ numbered next (group_lent group.now ∷ []) news.old) }
    ensures rooms { OnOk result (rooms_of news.new ≡ rooms_of news.old) }
{
    let ((field, bytes), places) = group;
    scratch.clear();
    let live = put_members(places.as_slice(), scratch)?;
    if live == 0 {
        return Ok(next);
    }
    put_term(*field, *bytes, live, into)?;
    into.extend_from_slice(scratch.as_slice())?;
    note(places.as_slice(), next, news);
    Ok(next + 1)
}

/// Appends a term and the number of its postings.
fn put_term(field: u32, bytes: &[u8], live: u32, into: &mut Vec<u8>) -> Result<(), NoMemory>
    requires { length bytes.now < 2 ^ 32 }
    ensures { OnOk result (into.new.items ≡ into.old.items ++ (term_text (field, bytes.now) ++ u32_text live)) }
{
    put_u32(into, field)?;
    put_string(into, bytes)?;
    put_u32(into, live)?;
    Ok(())
}

/// Gives a term its new ordinal wherever it stands.
fn note(places: &[TermAt], new: u64, news: &mut NewOrdinals)
    requires { All (IsPlaced (rooms_of news.old)) (map place_lent places.now) }
    ensures noted { news.new ≡ noted new (map place_lent places.now) news.old }
    ensures rooms { rooms_of news.new ≡ rooms_of news.old }
{
    'places: for term in places {
        news.set(term.place, term.ordinal, new);
    }
}

/// Appends the postings of live documents of a term that stands at these places, and says how many they are.
fn put_members(places: &[TermAt], into: &mut Vec<u8>) -> Result<u32, NoMemory>
    requires few { length (flat_map live_postings (map place_lent places.now)) < 2 ^ 32 }
    requires there { All (λ term. term.ordinal < length (postings_of term.part.entry.columns)) (map place_lent places.now) }
    ensures count { IfOk result (λ count. count ≡ length (flat_map live_postings (map place_lent places.now))) }
    ensures postings { OnOk result (into.new.items ≡ into.old.items ++ flat_map posting_text (flat_map live_postings (map place_lent places.now))) }
{
    let mut count = 0;
    'places: for term in places {
        count += put_live(term, into)?;
    }
    Ok(count)
}

/// Appends the postings of live documents of a term at one place, and says how many they are.
fn put_live(term: &TermAt, into: &mut Vec<u8>) -> Result<u32, NoMemory>
    requires few { length (live_postings (place_lent term.now)) < 2 ^ 32 }
    requires there { term.now.ordinal < length (postings_of term.now.part.now.entry.columns) }
    ensures count { IfOk result (λ count. count ≡ length (live_postings (place_lent term.now))) }
    ensures postings { OnOk result (into.new.items ≡ into.old.items ++ flat_map posting_text (live_postings (place_lent term.now))) }
{
    let segment = term.part.segment();
    terms_are_of_documents(segment);
    let mut cursor = segment.postings().cursor(term.ordinal);
    let mut count = 0;
    'postings: while let Some(doc) = cursor.doc() {
        count += put_if_live(term.part, doc, &cursor, into)?;
        cursor.next();
    }
    Ok(count)
}

/// Appends the posting at a cursor, if its document is live, and says how many it appended.
fn put_if_live(part: &Part, doc: u32, cursor: &Cursor, into: &mut Vec<u8>) -> Result<u32, NoMemory>
    requires present { present cursor.now ≡ Some (doc, present_positions cursor.now) }
    requires within { doc < part.now.entry.columns.documents }
    ensures count { IfOk result (λ count. count ≡ length (kept part.now.base part.now.entry.live.docs ((doc, present_positions cursor.now) ∷ []))) }
    ensures posting { OnOk result (into.new.items ≡ into.old.items ++ flat_map posting_text (kept part.now.base part.now.entry.live.docs ((doc, present_positions cursor.now) ∷ []))) }
{
    match part.number(doc) {
        Some(number) => {
            put_posting(number, cursor, into)?;
            Ok(1)
        }
        None => Ok(0),
    }
}

/// Appends a document and its positions at a cursor.
fn put_posting(number: u32, cursor: &Cursor, into: &mut Vec<u8>) -> Result<(), NoMemory>
    requires { IsSome (present cursor.now) }
    ensures { OnOk result (into.new.items ≡ into.old.items ++ posting_text (number, present_positions cursor.now)) }
{
    let count = cursor.positions();
    put_u32(into, number)?;
    put_u32(into, count)?;
    'positions: for i in 0..count {
        put_u32(into, cursor.position(i))?;
    }
    Ok(())
}
