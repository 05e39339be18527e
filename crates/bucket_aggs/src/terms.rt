//! The values of a field over all entries of a view, each with the number of objects that show it.

ghost use Rattle.std.specs.Prelude.{◌≡◌, ◌<◌, ◌≤◌, ◌+◌, ◌-◌, [], true, false, count_by, length, map, replicate, IfOk, OnOk, Some};
ghost use Rattle.std.specs.List.{AllByRecursion};
ghost use Rattle.doc_values.specs.Values.{values_of};
ghost use Rattle.mapping_body.specs.declared.kind.Kind.{Kind as Kinds};
ghost use Rattle.query_ast.specs.Uses.{is_written};
ghost use Rattle.query_eval.specs.Found.{AreLong};
ghost use Rattle.segment.specs.Flat.{flat_of};
ghost use Rattle.segment_parts.specs.Fields.{column_of};
ghost use Rattle.segment_parts.specs.Lists.{terms_of};
ghost use Rattle.segment_parts.specs.Text.{marked_places};
ghost use Rattle.term_table.specs.Ranges.{IsRange, is_of_field};
ghost use Rattle.tree_objects.specs.declared.field_value.FieldValue.{FieldValue as Value};
ghost use Rattle.bucket_aggs.specs.Counts.{AreCounts, AreFound, AreKeys, AreKnown, Counted, Weighed, count_if, counts_of, flats_of_view, is_number, is_term, term_key, weight};

use crate::NoMemory;
use crate::columns::{count_ordinals, has_many, is_text};
use crate::distinct::distinct_values;
use crate::posted::{TermSet, posting_counts, posting_sets};
use crate::ranges::terms_of_field;
use crate::rows::{CountRow, add, add_text, merged};
use crate::sets::Objects;
use block_bits::BitSet;
use doc_values::OrdinalColumn;
use mapping::Kind;
use segment::{Segment, values_are_of_documents};
use segment_view::Entry;
use std::alloc::Global;
use term_table::TermTable;
use tree_objects::FieldValue;

/// The values of a field of this kind, by ascending value, each with the number of objects that show it. Where they are to be
/// kept, the documents of the terms of a field with few are added to those found.
pub(crate) fn counted(
    alloc: Global,
    entries: &[Entry],
    kind: Kind,
    field: u32,
    objects: &Objects<'_>,
    keep: bool,
    found: &mut Vec<TermSet>,
) -> Result<Vec<CountRow>, NoMemory>
    requires long { AreLong entries.now objects.now }
    requires none { found.old.items ≡ [] }
    ensures counts { IfOk result (λ rows. AreCounts kind field (flats_of_view entries.now objects.now) rows.items) }
    ensures found { OnOk result (AreKnown entries.now objects.now found.new.items) }
{
    let mut rows = Vec::new(alloc);
    let mut near = (0, 0);
    'entries: for at in 0..entries.len() {
        add_rows(
            alloc,
            entries[at].segment(),
            kind,
            field,
            objects.set(at),
            at,
            keep,
            &mut near,
            found,
            &mut rows,
        )?;
    }
    Ok(merged(alloc, rows)?)
}

/// Adds the values that the documents of a set show.
fn add_rows(
    alloc: Global,
    segment: &Segment,
    kind: Kind,
    field: u32,
    set: &BitSet,
    entry: usize,
    keep: bool,
    near: &mut (u64, u64),
    found: &mut Vec<TermSet>,
    rows: &mut Vec<CountRow>,
) -> Result<(), NoMemory>
    requires { length set.now ≡ segment.now.documents }
    ensures found { OnOk result (AreFound segment.now set.now entry found.old.items found.new.items) }
    ensures counts { OnOk result (Weighed kind field (map (flat_of segment.now) (marked_places 0 set.now)) rows.old.items rows.new.items) }
    ensures keys { AreKeys kind rows.old.items → OnOk result (AreKeys kind rows.new.items) }
{
    if is_text(kind) {
        add_texts(
            alloc, segment, kind, field, set, entry, keep, near, found, rows,
        )?;
        return Ok(());
    }
    add_numbers(alloc, segment, kind, field, set, rows)?;
    Ok(())
}

/// How many terms of a field there may be for each document of a set where a count is kept for each term.
const TERMS_EACH: u64 = 64;

/// Those of a keyword field: a row for each term of the field that some document has, counted by ordinal. Where the documents
/// are few beside the terms, their ordinals are sorted. The terms are looked for where they stood in the segment before.
fn add_texts(
    alloc: Global,
    segment: &Segment,
    kind: Kind,
    field: u32,
    set: &BitSet,
    entry: usize,
    keep: bool,
    near: &mut (u64, u64),
    found: &mut Vec<TermSet>,
    rows: &mut Vec<CountRow>,
) -> Result<(), NoMemory>
    requires written { is_written kind ≡ true }
    requires long { length set.now ≡ segment.now.documents }
    ensures found { OnOk result (AreFound segment.now set.now entry found.old.items found.new.items) }
    ensures counts { OnOk result (Weighed kind field (map (flat_of segment.now) (marked_places 0 set.now)) rows.old.items rows.new.items) }
    ensures keys { AreKeys kind rows.old.items → OnOk result (AreKeys kind rows.new.items) }
{
    values_are_of_documents(segment);
    let _documents = segment.docs();
    let Some(column) = segment.ordinals(field) else {
        return Ok(());
    };
    let terms = segment.terms();
    let _ascending = terms.count();
    let (first, end) = terms_of_field(&terms, field, *near);
    *near = (first, end);
    let few = u64::from(set.count()) < (end - first) / TERMS_EACH;
    if few {
        let _sorted = column.values(0);
        let mut ordinals = distinct_values(alloc, set, &column)?;
        ordinals.sort_unstable();
        let sorted = ordinals.as_slice();
        put_ordinals(alloc, &terms, sorted, rows)?;
        return Ok(());
    }
    let counts = term_counts(
        alloc, segment, field, set, &column, first, end, entry, keep, found,
    )?;
    put_terms(alloc, &terms, first, counts.as_slice(), rows)?;
    Ok(())
}

/// How many documents of a set there have to be for each term of a field where the terms are counted by their postings.
const DOCUMENTS_EACH: u64 = 8;

/// How many terms a field may have in a segment where their documents are kept.
const KEPT_TERMS: u64 = 16;

/// Whether the documents of so many terms are kept: there are few terms, and no more u64s of their sets than documents to count.
fn are_kept(terms: u64, set: &BitSet) -> bool {
    terms <= KEPT_TERMS && terms * u64::from(set.len() / 64) <= u64::from(set.count())
}

/// The counts of the terms of a field in the documents of a set, by ordinal from the field's first up to its end.
///
/// Postings take less room than the rows of a column: they are walked over where the set has many documents of the column, and
/// the terms are few.
fn term_counts(
    alloc: Global,
    segment: &Segment,
    field: u32,
    set: &BitSet,
    column: &OrdinalColumn,
    first: u64,
    end: u64,
    entry: usize,
    keep: bool,
    found: &mut Vec<TermSet>,
) -> Result<Vec<u64>, NoMemory>
    requires column { column_of field segment.now.ordinals ≡ Some column.now }
    requires long { length set.now ≡ segment.now.documents }
    requires ordered { first ≤ end }
    requires within { end ≤ length (terms_of segment.now) }
    requires range { IsRange (is_of_field field) (terms_of segment.now) first end }
    ensures counted { IfOk result (λ counts. Counted first (map (λ doc. values_of doc column.now) (marked_places 0 set.now)) (replicate (end - first) 0) counts.items) }
    ensures found { OnOk result (AreFound segment.now set.now entry found.old.items found.new.items) }
{
    let _agree = segment.docs();
    if has_many(set, column) && end - first < u64::from(set.count()) / DOCUMENTS_EACH {
        let _ascending = segment.terms().count();
        if keep && are_kept(end - first, set) {
            return Ok(posting_sets(alloc, segment, set, first, end, entry, found)?);
        }
        return Ok(posting_counts(alloc, set, &segment.postings(), first, end)?);
    }
    let mut counts = no_counts(alloc, (end - first) as usize)?;
    count_ordinals(set, column, first, &mut counts)?;
    Ok(counts)
}

/// Adds one to the count of the term of each of these ordinals.
fn put_ordinals(
    alloc: Global,
    terms: &TermTable,
    ordinals: &[u64],
    rows: &mut Vec<CountRow>,
) -> Result<(), NoMemory>
    requires { AllByRecursion (λ ordinal. ordinal < length terms.now) ordinals.now }
    ensures counts { (v : Value) → OnOk result (weight v rows.new.items ≡ weight v rows.old.items + count_by (is_term terms.now v) ordinals.now) }
    ensures keys { (kind : Kinds) → is_written kind ≡ true → AreKeys kind rows.old.items → OnOk result (AreKeys kind rows.new.items) }
{
    let mut near = 0;
    'ordinals: for at in 0..ordinals.len() {
        put_term(alloc, terms, ordinals[at], 1, &mut near, rows)?;
    }
    Ok(())
}

/// So many counts of nothing.
fn no_counts(alloc: Global, count: usize) -> Result<Vec<u64>, NoMemory>
    ensures { IfOk result (λ counts. counts.items ≡ replicate count 0) }
{
    let mut counts = Vec::with_capacity(alloc, count)?;
    counts.resize(count, 0)?;
    Ok(counts)
}

/// Adds a row for each term with a count; the first count is that of the term with the ordinal `first`.
pub(crate) fn put_terms(
    alloc: Global,
    terms: &TermTable,
    first: u64,
    counts: &[u64],
    rows: &mut Vec<CountRow>,
) -> Result<(), NoMemory>
    requires { first + length counts.now ≤ length terms.now }
    ensures counts { (v : Value) → OnOk result (weight v rows.new.items ≡ weight v rows.old.items + counts_of terms.now first v counts.now 0 (length counts.now)) }
    ensures keys { (kind : Kinds) → is_written kind ≡ true → AreKeys kind rows.old.items → OnOk result (AreKeys kind rows.new.items) }
{
    let _all = terms.count();
    let mut near = 0;
    'terms: for at in 0..counts.len() {
        put_term(alloc, terms, first + at as u64, counts[at], &mut near, rows)?;
    }
    Ok(())
}

/// Adds a row for a term, unless no document has it.
fn put_term(
    alloc: Global,
    terms: &TermTable,
    ordinal: u64,
    count: u64,
    near: &mut usize,
    rows: &mut Vec<CountRow>,
) -> Result<(), NoMemory>
    requires { ordinal < length terms.now }
    ensures counts { (v : Value) → OnOk result (weight v rows.new.items ≡ weight v rows.old.items + count_if v (term_key terms.now ordinal) count) }
    ensures keys { (kind : Kinds) → is_written kind ≡ true → AreKeys kind rows.old.items → OnOk result (AreKeys kind rows.new.items) }
{
    if count == 0 {
        return Ok(());
    }
    let (_, bytes) = terms.term(ordinal);
    add_text(alloc, rows, near, bytes, count)?;
    Ok(())
}

/// Those of a field of numbers: each document's different numbers, in order.
fn add_numbers(
    alloc: Global,
    segment: &Segment,
    kind: Kind,
    field: u32,
    set: &BitSet,
    rows: &mut Vec<CountRow>,
) -> Result<(), NoMemory>
    requires { is_written kind ≡ false }
    ensures counts { OnOk result (Weighed kind field (map (flat_of segment.now) (marked_places 0 set.now)) rows.old.items rows.new.items) }
    ensures keys { AreKeys kind rows.old.items → OnOk result (AreKeys kind rows.new.items) }
{
    values_are_of_documents(segment);
    let Some(column) = segment.numbers(field) else {
        return Ok(());
    };
    let _ascending = column.values(0);
    let mut numbers = distinct_values(alloc, set, &column)?;
    numbers.sort_unstable();
    put_numbers(numbers.as_slice(), rows)?;
    Ok(())
}

/// Adds one to the count of each of these numbers.
fn put_numbers(numbers: &[i64], rows: &mut Vec<CountRow>) -> Result<(), NoMemory>
    ensures counts { (v : Value) → OnOk result (weight v rows.new.items ≡ weight v rows.old.items + count_by (is_number v) numbers.now) }
    ensures keys { (kind : Kinds) → is_written kind ≡ false → AreKeys kind rows.old.items → OnOk result (AreKeys kind rows.new.items) }
{
    'numbers: for at in 0..numbers.len() {
        add(rows, FieldValue::Number(numbers[at]), 1)?;
    }
    Ok(())
}
