//! The terms of a keyword field, counted at once with the objects of a path around those that show them.

ghost use Rattle.std.specs.Prelude.{◌≡◌, ◌-◌, ◌<◌, ◌≤◌, [], true, false, length, map, replicate, count_by, slice_index_or, IfOk, IfSome, IsSome, OnOk, Some};
ghost use Rattle.doc_values.specs.Values.{values_of};
ghost use Rattle.block_bits.specs.Flags.{is_marked};
ghost use Rattle.query_ast.specs.Uses.{is_written};
ghost use Rattle.query_eval.specs.Counted.{up_marks};
ghost use Rattle.query_eval.specs.Found.{AreLong};
ghost use Rattle.segment.specs.Flat.{flat_of};
ghost use Rattle.segment_parts.specs.Fields.{column_of};
ghost use Rattle.segment_parts.specs.Lists.{postings_of, terms_of};
ghost use Rattle.segment_parts.specs.Text.{marked_places};
ghost use Rattle.term_table.specs.Ranges.{IsRange, is_of_field};
ghost use Rattle.tree_objects.specs.declared.field_value.FieldValue.{FieldValue as Value};
ghost use Rattle.postings.specs.Marks.{has_document};
ghost use Rattle.bucket_aggs.specs.Counts.{AreCounts, AreKeys, AreUps, Counted, KeysAscend, UpsWeighed, Weighed, cut_from, flats_of_view, view_ups, weight};

use crate::NoMemory;
use crate::objects::count_of;
use crate::posted::mark_term;
use crate::ranges::terms_of_field;
use crate::rows::{CountRow, compared, merged};
use crate::sets::Objects;
use crate::terms::put_terms;
use block_bits::BitSet;
use doc_values::OrdinalColumn;
use mapping::Kind;
use query_eval::marked_ups;
use segment::{Segment, values_are_of_documents};
use segment_view::Entry;
use std::alloc::Global;
use tree_objects::FieldValue;

/// How many postings, and u64s of the sets of terms, there may be for each document that is counted.
const WORK_EACH: u64 = 4;

/// The values of a keyword field, by ascending value, each with the number of objects that show it; and rows of how many
/// objects of a path are around those, several for a value perhaps. No more than `shown` of the values are shown.
///
/// None where that is much work beside the objects: in segments with more terms than are shown, whose postings and sets are many.
pub(crate) fn counted_at_once(
    alloc: Global,
    entries: &[Entry],
    kind: Kind,
    field: u32,
    shown: u32,
    objects: &Objects<'_>,
    to: u32,
    ups: &mut Vec<CountRow>,
) -> Result<Option<Vec<CountRow>>, NoMemory>
    requires written { is_written kind ≡ true }
    requires long { AreLong entries.now objects.now }
    requires none { ups.old.items ≡ [] }
    ensures counts { IfOk result (λ counted. IfSome counted (λ rows. AreCounts kind field (flats_of_view entries.now objects.now) rows.items)) }
    ensures ups { (v : Value) → IfOk result (λ counted. IsSome counted → weight v ups.new.items ≡ view_ups to kind field entries.now objects.now v) }
{
    let documents = count_of(objects)?;
    let mut counts = TermCounts {
        own: Vec::new(alloc),
        around: Vec::new(alloc),
        shown: documents.min(u64::from(shown)),
        work_left: documents.saturating_mul(WORK_EACH),
    };
    let places = term_places(alloc, entries, field)?;
    let mut rows = Vec::new(alloc);
    'entries: for at in 0..entries.len() {
        let done = add_at_once(
            alloc,
            entries[at].segment(),
            kind,
            field,
            objects.set(at),
            to,
            places[at],
            &mut counts,
            &mut rows,
            ups,
        )?;
        if !done {
            return Ok(None);
        }
    }
    Ok(Some(merged(alloc, rows)?))
}

/// Where the terms of a field stand in each segment.
///
/// They are looked for in all segments before the first is counted, and in each where they stood in the first: no search waits for the
/// answer of another, and the processor waits for several of them at once.
fn term_places(alloc: Global, entries: &[Entry], field: u32) -> Result<Vec<(u64, u64)>, NoMemory>
    ensures { IfOk result (λ places. length places.items ≡ length entries.now) }
{
    let near = match entries {
        [] => (0, 0),
        [first, ..] => place_in(first.segment(), field, (0, 0)),
    };
    let mut places = Vec::with_capacity(alloc, entries.len())?;
    'entries: for at in 0..entries.len() {
        places.push(place_in(entries[at].segment(), field, near))?;
    }
    Ok(places)
}

/// Where the terms of a field stand in a segment, looked for near a place; that place where no document has one.
fn place_in(segment: &Segment, field: u32, near: (u64, u64)) -> (u64, u64) {
    let Some(_column) = segment.ordinals(field) else {
        return near;
    };
    let terms = segment.terms();
    terms_of_field(&terms, field, near)
}

/// What goes from one segment to the next: memory for how many documents have each term of a field, by ordinal, and how many
/// documents of a scope are around those; how many terms are shown; and how much work is left for more.
#[derive(Drop)]
struct TermCounts {
    own: Vec<u64>,
    around: Vec<u64>,
    shown: u64,
    work_left: u64,
}

impl TermCounts {
    /// Whether so many terms with so many postings are counted at once in a segment of so many documents: all may be shown, where
    /// each would cost as much by itself, or there is work left for them.
    fn has_room(&mut self, terms: u64, postings: u32, documents: u32) -> bool {
        if terms <= self.shown {
            return true;
        }
        let words = terms.saturating_mul(u64::from(documents) / 64 + 1);
        match self
            .work_left
            .checked_sub(words.saturating_add(u64::from(postings)))
        {
            Some(left) => {
                self.work_left = left;
                true
            }
            None => false,
        }
    }
}

/// Adds the values that the documents of a set show, and the objects around those; false where that is too much work. The terms are
/// looked for at a place.
fn add_at_once(
    alloc: Global,
    segment: &Segment,
    kind: Kind,
    field: u32,
    set: &BitSet,
    to: u32,
    near: (u64, u64),
    counts: &mut TermCounts,
    rows: &mut Vec<CountRow>,
    ups: &mut Vec<CountRow>,
) -> Result<bool, NoMemory>
    requires written { is_written kind ≡ true }
    requires long { length set.now ≡ segment.now.documents }
    ensures counts { IfOk result (λ done. done ≡ true → Weighed kind field (map (flat_of segment.now) (marked_places 0 set.now)) rows.old.items rows.new.items) }
    ensures keys { AreKeys kind rows.old.items → IfOk result (λ done. done ≡ true → AreKeys kind rows.new.items) }
    ensures ups { IfOk result (λ done. done ≡ true → UpsWeighed segment.now to kind field set.now ups.old.items ups.new.items) }
{
    values_are_of_documents(segment);
    let _documents = segment.docs();
    let Some(column) = segment.ordinals(field) else {
        return Ok(true);
    };
    let terms = segment.terms();
    let _ascending = terms.count();
    let (first, end) = terms_of_field(&terms, field, near);
    if !counts.has_room(end - first, column.rows(), set.len()) {
        return Ok(false);
    }
    counts.own.clear();
    counts.around.clear();
    counts_at_once(alloc, segment, field, set, &column, first, end, to, counts)?;
    put_terms(alloc, &terms, first, counts.own.as_slice(), rows)?;
    put_terms(alloc, &terms, first, counts.around.as_slice(), ups)?;
    Ok(true)
}

/// The counts of the terms of a field in the documents of a set, by ordinal from the field's first up to its end, and of the
/// documents of a scope around those. It costs all postings of these terms, and a few steps for each u64 of a set.
fn counts_at_once(
    alloc: Global,
    segment: &Segment,
    _field: u32,
    set: &BitSet,
    _column: &OrdinalColumn,
    first: u64,
    end: u64,
    to: u32,
    counts: &mut TermCounts,
) -> Result<(), NoMemory>
    requires column { column_of _field segment.now.ordinals ≡ Some _column.now }
    requires long { length set.now ≡ segment.now.documents }
    requires none { counts.old.own.items ≡ [] }
    requires none_around { counts.old.around.items ≡ [] }
    requires ordered { first ≤ end }
    requires within { end ≤ length (terms_of segment.now) }
    requires range { IsRange (is_of_field _field) (terms_of segment.now) first end }
    ensures counted { OnOk result (Counted first (map (λ doc. values_of doc _column.now) (marked_places 0 set.now)) (replicate (end - first) 0) counts.new.own.items) }
    ensures ups { OnOk result (AreUps segment.now to _column.now set.now first (end - first) counts.new.around.items) }
{
    let _documents = segment.docs();
    let _ascending = segment.terms().count();
    let mut marks = BitSet::empty(alloc, set.len())?;
    'terms: for ordinal in first..end {
        let both = count_at_once(alloc, segment, set, ordinal, to, &mut marks)?;
        counts.own.push(both.0)?;
        counts.around.push(both.1)?;
    }
    Ok(())
}

/// How many documents of a set have a term, and how many documents of a scope are around those; `own` is a set of none, and is
/// left so, since no document of the term's that is left in it lies out of the set.
fn count_at_once(
    alloc: Global,
    segment: &Segment,
    set: &BitSet,
    ordinal: u64,
    to: u32,
    own: &mut BitSet,
) -> Result<(u64, u64), NoMemory>
    requires documents { length set.now ≡ segment.now.documents }
    requires ordinal { ordinal < length (terms_of segment.now) }
    requires none { own.old ≡ replicate (length set.now) false }
    ensures count { IfOk result (λ both. both.0 ≡ count_by is_marked (cut_from (λ doc. has_document doc (slice_index_or (postings_of segment.now) ordinal [])) 0 set.now)) }
    ensures ups { IfOk result (λ both. both.1 ≡ up_marks segment.now to (cut_from (λ doc. has_document doc (slice_index_or (postings_of segment.now) ordinal [])) 0 set.now)) }
    ensures none { OnOk result (own.new ≡ replicate (length set.now) false) }
{
    mark_term(segment, set, ordinal, own);
    let up = marked_ups(alloc, segment, own, to)?;
    let count = own.count();
    own.and_not(set);
    Ok((u64::from(count), u64::from(up)))
}

/// The count that rows by ascending key have of a key, found by halves.
pub(crate) fn count_of_key(rows: &[CountRow], key: &FieldValue) -> u64
    requires { KeysAscend rows.now }
    ensures { result ≡ weight key.now rows.now }
{
    match rows.binary_search_by(|row| compared(&row.key, key)) {
        Ok(at) => rows[at].count,
        Err(_) => 0,
    }
}
