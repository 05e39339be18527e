//! Terms with their postings, put in order field by field and written.

ghost use Rattle.std.specs.Prelude.{◌≡◌, ◌+◌, ◌<◌, ◌≤◌, ◌^◌, ◌++◌, ℕ, List, length, take, drop, map, slice_index_or, IfOk, OnOk};
ghost use Rattle.std.specs.Cmp.Lexicographic.{slice_cmp};
ghost use Rattle.std.specs.List.{All, AllByRecursion, flat_map};
ghost use Rattle.std.specs.Ordering.{nat_cmp};
ghost use Rattle.part_text.specs.Text.{u64_text};
ghost use Rattle.term_table.specs.Part.{posting_text, row_text, rows_text, AreRows, IsRow};
ghost use Rattle.term_table.specs.Terms.{term_cmp};
ghost use Rattle.segment_builder.specs.Columns.{terms_in, terms_lent};
ghost use Rattle.segment_builder.specs.Groups.{members, of_key, run_length, AreGroups, AreRising};
ghost use Rattle.segment_builder.specs.Taken.{AreTermEntries};
ghost use Rattle.segment_builder.specs.Terms.{entries_seen, field_entries, field_row, field_rows, fields_in, key_entry, keyword_fields, number_fields, rank, row_group, rows_in, word_fields, AddSorted};

use crate::NoMemory;
use crate::fit::keys_are_of_numbers;
use crate::terms::{keys_of, keywords_of};
use flattener::{Keyword, KeywordField, NumberField, Word};
use part_text::{put_string, put_u32, put_u64};
use std::alloc::Global;
use term_table::keys_are_ordered;

/// What is a term in a document: its bytes, and its positions there, of which keywords and numbers have none.
pub(crate) trait Term {
    ghost bytes: { Self → List ℕ };

    ghost positions: { Self → List ℕ };

    fn bytes(&self) -> &[u8]
        ensures { result.now ≡ bytes self.now };

    fn positions(&self) -> &[u32]
        ensures { result.now ≡ positions self.now };
}

impl Term for &Word {
    ghost bytes = { λ word. word.now.word.items };

    ghost positions = { λ word. word.now.positions.items };

    fn bytes(&self) -> &[u8] {
        self.word.as_slice()
    }

    fn positions(&self) -> &[u32] {
        self.positions.as_slice()
    }
}

impl Term for &Keyword {
    ghost use Rattle.std.specs.Prelude.{[]};

    ghost bytes = { λ keyword. keyword.now.items };

    ghost positions = { λ keyword. [] };

    fn bytes(&self) -> &[u8] {
        self.as_slice()
    }

    fn positions(&self) -> &[u32] {
        &[]
    }
}

impl Term for [u8; 8] {
    ghost use Rattle.std.specs.Prelude.{[]};

    ghost bytes = { λ key. key };

    ghost positions = { λ key. [] };

    fn bytes(&self) -> &[u8] {
        self.as_slice()
    }

    fn positions(&self) -> &[u32] {
        &[]
    }
}

/// The terms of a field, each with a document.
#[derive(Drop)]
pub(crate) enum FieldTerms<'a> {
    Words(Vec<(&'a Word, u32)>),
    Keywords(Vec<(&'a Keyword, u32)>),
    /// Numbers by their keys.
    Numbers(Vec<([u8; 8], u32)>),
}

/// Adds fields of words, each with its words in order; those of one term keep their order.
pub(crate) fn add_words<'a>(
    words: Vec<(u32, Vec<(&'a Word, u32)>)>,
    into: &mut Vec<(u32, FieldTerms<'a>)>,
) -> Result<(), NoMemory>
    ensures { OnOk result (AddSorted (word_fields words.entry.items) (fields_in into.old.items) (fields_in into.new.items)) }
{
    'fields: for (field, entries) in words {
        let mut entries = entries;
        sort_entries(&mut entries)?;
        into.push((field, FieldTerms::Words(entries)))?;
    }
    Ok(())
}

/// Adds fields of keywords, each with its keywords in order; those of one term keep their order.
pub(crate) fn add_keywords<'a>(
    alloc: Global,
    keywords: &[(u32, Vec<(u32, &'a KeywordField)>)],
    into: &mut Vec<(u32, FieldTerms<'a>)>,
) -> Result<(), NoMemory>
    ensures { OnOk result (AddSorted (keyword_fields keywords.now) (fields_in into.old.items) (fields_in into.new.items)) }
{
    'fields: for (field, rows) in keywords {
        let mut entries = keywords_of(alloc, rows.as_slice())?;
        sort_entries(&mut entries)?;
        into.push((*field, FieldTerms::Keywords(entries)))?;
    }
    Ok(())
}

/// Adds fields of numbers, each with its numbers in order; those of one number keep their order.
pub(crate) fn add_numbers(
    alloc: Global,
    numbers: &[(u32, Vec<(u32, &NumberField)>)],
    into: &mut Vec<(u32, FieldTerms<'_>)>,
) -> Result<(), NoMemory>
    ensures { OnOk result (AddSorted (number_fields numbers.now) (fields_in into.old.items) (fields_in into.new.items)) }
{
    'fields: for (field, rows) in numbers {
        let mut entries = keys_of(alloc, rows.as_slice())?;
        sort_numbers(&mut entries)?;
        into.push((*field, FieldTerms::Numbers(entries)))?;
    }
    Ok(())
}

/// Sorts the terms of a field by their bytes; those of one term keep their order.
fn sort_entries<T: Term>(entries: &mut Vec<(T, u32)>) -> Result<(), NoMemory>
    ensures same { OnOk result ((bytes : List ℕ) → of_key (slice_cmp nat_cmp) bytes (entries_seen T.bytes T.positions entries.new.items) ≡ of_key (slice_cmp nat_cmp) bytes (entries_seen T.bytes T.positions entries.old.items)) }
    ensures rising { OnOk result (AreRising (slice_cmp nat_cmp) (entries_seen T.bytes T.positions entries.new.items)) }
{
    sort_by_rank(entries)?;
    sort_by_bytes(entries)?;
    Ok(())
}

/// Sorts the terms of a field by the number that their first bytes are, which costs far less than a sort by all of their bytes,
/// and leaves that sort little to do: where no two terms begin with the same eight bytes, it finds them in order.
fn sort_by_rank<T: Term>(entries: &mut Vec<(T, u32)>) -> Result<(), NoMemory>
    ensures { OnOk result ((bytes : List ℕ) → of_key (slice_cmp nat_cmp) bytes (entries_seen T.bytes T.positions entries.new.items) ≡ of_key (slice_cmp nat_cmp) bytes (entries_seen T.bytes T.positions entries.old.items)) }
{
    entries.sort_by_cached_key(|entry| rank(entry.0.bytes()))?;
    Ok(())
}

/// Sorts the numbers of a field by their keys; those of one number keep their order. Keys are compared as the numbers that their
/// bytes are, which costs less than to compare the bytes.
fn sort_numbers(entries: &mut Vec<([u8; 8], u32)>) -> Result<(), NoMemory>
    ensures same { OnOk result ((bytes : List ℕ) → of_key (slice_cmp nat_cmp) bytes (map key_entry entries.new.items) ≡ of_key (slice_cmp nat_cmp) bytes (map key_entry entries.old.items)) }
    ensures rising { OnOk result (AreRising (slice_cmp nat_cmp) (map key_entry entries.new.items)) }
{
    keys_are_ordered();
    entries.sort_by_key(|entry| u64::from_be_bytes(entry.0))?;
    keys_are_of_numbers(entries.as_slice());
    Ok(())
}

/// Sorts the terms of a field by their bytes, by comparing these; those of one term keep their order.
fn sort_by_bytes<T: Term>(entries: &mut Vec<(T, u32)>) -> Result<(), NoMemory>
    ensures same { OnOk result ((bytes : List ℕ) → of_key (slice_cmp nat_cmp) bytes (entries_seen T.bytes T.positions entries.new.items) ≡ of_key (slice_cmp nat_cmp) bytes (entries_seen T.bytes T.positions entries.old.items)) }
    ensures rising { OnOk result (AreRising (slice_cmp nat_cmp) (entries_seen T.bytes T.positions entries.new.items)) }
{
    entries.sort_by(|one, other| one.0.bytes().cmp(other.0.bytes()))?;
    Ok(())
}

/// The first eight bytes as a number, the first of them the highest; 0 stands for those that aren't there.
#[tactic(auto, unfolding(crate::specs::Terms::rank))]
fn rank(bytes: &[u8]) -> u64
    ensures { result ≡ rank bytes.now }
{
    u64::from_be_bytes([
        byte_at(bytes, 0),
        byte_at(bytes, 1),
        byte_at(bytes, 2),
        byte_at(bytes, 3),
        byte_at(bytes, 4),
        byte_at(bytes, 5),
        byte_at(bytes, 6),
        byte_at(bytes, 7),
    ])
}

/// The byte at a place, or 0 behind the end.
#[tactic(auto, using(crate::proofs::Ranked::byte_past))]
fn byte_at(bytes: &[u8], at: usize) -> u8
    ensures { result ≡ slice_index_or bytes.now at 0 }
{
    if at < bytes.len() {
        return bytes[at];
    }
    0
}

/// Appends the terms of fields, which rise, each with its postings, and gives these terms. Their number stands in front of
/// them and is known behind them: until then a 0 stands there.
pub(crate) fn put_terms<'a>(
    alloc: Global,
    fields: &'a [(u32, FieldTerms<'_>)],
    into: &mut Vec<u8>,
) -> Result<Vec<(u32, &'a [u8])>, NoMemory>
    requires { (documents : ℕ) × (terms : List ((ℕ × List ℕ) × (ℕ × List ℕ))) × AreTermEntries documents terms × AreGroups term_cmp terms (map row_group (rows_in fields.now)) }
    ensures terms { IfOk result (λ terms. terms_lent terms.items ≡ terms_in (rows_in fields.now)) }
    ensures rows { OnOk result (AreRows (rows_in fields.now)) }
    ensures text { OnOk result (into.new.items ≡ into.old.items ++ rows_text (rows_in fields.now)) }
{
    let at = into.len();
    put_u64(into, 0)?;
    let mut terms = Vec::new(alloc);
    put_fields(fields, &mut terms, into)?;
    overwrite_u64(into, at, terms.len() as u64);
    Ok(terms)
}

/// Writes a number over the eight bytes at a place.
#[tactic(auto, unfolding(part_text::specs::Text::u64_text))]
fn overwrite_u64(into: &mut Vec<u8>, at: usize, number: u64)
    requires { at + 8 ≤ length into.old.items }
    ensures { into.new.items ≡ take at into.old.items ++ (u64_text number ++ drop (at + 8) into.old.items) }
{
    overwrite(
        into.as_mut_slice().split_at_mut(at).1,
        number.to_le_bytes().as_slice(),
    );
}

/// Writes bytes over the first ones.
fn overwrite(into: &mut [u8], bytes: &[u8])
    requires { length bytes.now ≤ length into.old }
    ensures { into.new ≡ bytes.now ++ drop (length bytes.now) into.old }
{
    into.split_at_mut(bytes.len()).0.copy_from_slice(bytes);
}

/// Appends the rows of fields, and adds their terms.
fn put_fields<'a>(
    fields: &'a [(u32, FieldTerms<'_>)],
    terms: &mut Vec<(u32, &'a [u8])>,
    into: &mut Vec<u8>,
) -> Result<(), NoMemory>
    requires { AllByRecursion IsRow (rows_in fields.now) }
    ensures terms { OnOk result (terms_lent terms.new.items ≡ terms_lent terms.old.items ++ terms_in (rows_in fields.now)) }
    ensures text { OnOk result (into.new.items ≡ into.old.items ++ flat_map row_text (rows_in fields.now)) }
{
    'fields: for (field, own) in fields {
        put_field(*field, own, terms, into)?;
    }
    Ok(())
}

/// Appends the rows of a field, and adds its terms.
fn put_field<'a>(
    field: u32,
    own: &'a FieldTerms<'_>,
    terms: &mut Vec<(u32, &'a [u8])>,
    into: &mut Vec<u8>,
) -> Result<(), NoMemory>
    requires { AllByRecursion IsRow (field_rows field (field_entries own.now)) }
    ensures terms { OnOk result (terms_lent terms.new.items ≡ terms_lent terms.old.items ++ terms_in (field_rows field (field_entries own.now))) }
    ensures text { OnOk result (into.new.items ≡ into.old.items ++ flat_map row_text (field_rows field (field_entries own.now))) }
{
    match own {
        FieldTerms::Words(entries) => {
            put_rows(field, entries.as_slice(), terms, into)?;
            Ok(())
        }
        FieldTerms::Keywords(entries) => {
            put_rows(field, entries.as_slice(), terms, into)?;
            Ok(())
        }
        FieldTerms::Numbers(entries) => {
            put_rows(field, entries.as_slice(), terms, into)?;
            Ok(())
        }
    }
}

/// Appends the rows of a field's entries, whose terms rise, and adds their terms, each once.
fn put_rows<'a, T: Term>(
    field: u32,
    entries: &'a [(T, u32)],
    terms: &mut Vec<(u32, &'a [u8])>,
    into: &mut Vec<u8>,
) -> Result<(), NoMemory>
    requires { AllByRecursion IsRow (field_rows field (entries_seen T.bytes T.positions entries.now)) }
    ensures terms { OnOk result (terms_lent terms.new.items ≡ terms_lent terms.old.items ++ terms_in (field_rows field (entries_seen T.bytes T.positions entries.now))) }
    ensures text { OnOk result (into.new.items ≡ into.old.items ++ flat_map row_text (field_rows field (entries_seen T.bytes T.positions entries.now))) }
{
    let mut at = 0;
    'rows: while at < entries.len() {
        let term = &entries[at].0;
        let bytes = term.bytes();
        let rest = entries.split_at(at).1;
        let count = run_len(bytes, rest);
        terms.push((field, bytes))?;
        put_row(field, bytes, rest.split_at(count).0, into)?;
        at += count;
    }
    Ok(())
}

/// How many entries in front are of a term. The first of them is.
fn run_len<T: Term>(bytes: &[u8], entries: &[(T, u32)]) -> usize
    requires { 0 < run_length (slice_cmp nat_cmp) bytes.now (entries_seen T.bytes T.positions entries.now) }
    ensures run { result ≡ run_length (slice_cmp nat_cmp) bytes.now (entries_seen T.bytes T.positions entries.now) }
    ensures within { result ≤ length entries.now }
{
    'entries: for at in 1..entries.len() {
        let term = &entries[at].0;
        if bytes.cmp(term.bytes()).is_ne() {
            return at;
        }
    }
    entries.len()
}

/// Appends a term, and the postings of entries behind their number.
fn put_row<T: Term>(
    field: u32,
    bytes: &[u8],
    run: &[(T, u32)],
    into: &mut Vec<u8>,
) -> Result<(), NoMemory>
    requires { IsRow (field_row field (bytes.now, members (entries_seen T.bytes T.positions run.now))) }
    ensures { OnOk result (into.new.items ≡ into.old.items ++ row_text (field_row field (bytes.now, members (entries_seen T.bytes T.positions run.now)))) }
{
    put_u32(into, field)?;
    put_string(into, bytes)?;
    put_u32(into, run.len() as u32)?;
    put_postings(run, into)?;
    Ok(())
}

/// Appends the postings of entries.
fn put_postings<T: Term>(entries: &[(T, u32)], into: &mut Vec<u8>) -> Result<(), NoMemory>
    requires { All (λ entry. length (T.positions entry.0) < 2 ^ 32) entries.now }
    ensures { OnOk result (into.new.items ≡ into.old.items ++ flat_map posting_text (members (entries_seen T.bytes T.positions entries.now))) }
{
    'entries: for (term, doc) in entries {
        put_posting(*doc, term.positions(), into)?;
    }
    Ok(())
}

/// Appends a document and the positions in it.
fn put_posting(doc: u32, positions: &[u32], into: &mut Vec<u8>) -> Result<(), NoMemory>
    requires { length positions.now < 2 ^ 32 }
    ensures { OnOk result (into.new.items ≡ into.old.items ++ posting_text (doc, positions.now)) }
{
    put_u32(into, doc)?;
    put_u32(into, positions.len() as u32)?;
    'positions: for position in positions {
        put_u32(into, *position)?;
    }
    Ok(())
}
