//! The keywords and the numbers of a field as terms, each once in a document.

ghost use Rattle.std.specs.Prelude.{◌≡◌, ◌++◌, map, IfOk, OnOk};
ghost use Rattle.term_table.specs.Keys.{number_key};
ghost use Rattle.segment_builder.specs.Columns.{keyword_rows, number_rows};
ghost use Rattle.segment_builder.specs.Entries.{bytes_lent};
ghost use Rattle.segment_builder.specs.Terms.{entries_at, key_entry, keyword_entry, keyword_entries, number_entries, once, once_after, unless_same};

use crate::NoMemory;
use flattener::{Keyword, KeywordField, NumberField};
use std::alloc::Global;
use term_table::number_key;

/// The keywords of a field.
pub(crate) fn keywords_of<'a>(
    alloc: Global,
    rows: &[(u32, &'a KeywordField)],
) -> Result<Vec<(&'a Keyword, u32)>, NoMemory>
    ensures { IfOk result (λ entries. map keyword_entry entries.items ≡ keyword_entries (keyword_rows rows.now)) }
{
    let mut entries = Vec::with_capacity(alloc, keyword_count(rows))?;
    'rows: for (doc, field) in rows {
        put_keywords(*doc, *field, &mut entries)?;
    }
    Ok(entries)
}

/// How many keywords rows have.
pub(crate) fn keyword_count(rows: &[(u32, &KeywordField)]) -> usize {
    let mut count: usize = 0;
    'rows: for (_, field) in rows {
        count = count.saturating_add(field.values.len());
    }
    count
}

/// Adds the keywords of a field in one document.
fn put_keywords<'a>(
    doc: u32,
    field: &'a KeywordField,
    into: &mut Vec<(&'a Keyword, u32)>,
) -> Result<(), NoMemory>
    ensures { OnOk result (map keyword_entry into.new.items ≡ map keyword_entry into.old.items ++ entries_at doc (once (bytes_lent field.now.values.items))) }
{
    match field.values.as_slice() {
        [] => Ok(()),
        [first, rest @ ..] => {
            into.push((first, doc))?;
            put_later_keywords(doc, first.as_slice(), rest, into)?;
            Ok(())
        }
    }
}

/// Adds keywords that come behind one.
fn put_later_keywords<'a>(
    doc: u32,
    first: &[u8],
    rest: &'a [Keyword],
    into: &mut Vec<(&'a Keyword, u32)>,
) -> Result<(), NoMemory>
    ensures { OnOk result (map keyword_entry into.new.items ≡ map keyword_entry into.old.items ++ entries_at doc (once_after first.now (bytes_lent rest.now))) }
{
    let mut last = first;
    'rest: for value in rest {
        put_unless_same(doc, last, value, into)?;
        last = value.as_slice();
    }
    Ok(())
}

/// Adds a keyword, unless it is the one before it.
fn put_unless_same<'a>(
    doc: u32,
    last: &[u8],
    value: &'a Keyword,
    into: &mut Vec<(&'a Keyword, u32)>,
) -> Result<(), NoMemory>
    ensures { OnOk result (map keyword_entry into.new.items ≡ map keyword_entry into.old.items ++ entries_at doc (unless_same last.now value.now.items)) }
{
    if value.as_slice() == last {
        Ok(())
    } else {
        into.push((value, doc))?;
        Ok(())
    }
}

/// The keys of the numbers of a field.
pub(crate) fn keys_of(
    alloc: Global,
    rows: &[(u32, &NumberField)],
) -> Result<Vec<([u8; 8], u32)>, NoMemory>
    ensures { IfOk result (λ entries. map key_entry entries.items ≡ number_entries (number_rows rows.now)) }
{
    let mut entries = Vec::with_capacity(alloc, number_count(rows))?;
    'rows: for (doc, field) in rows {
        put_keys(*doc, field.values.as_slice(), &mut entries)?;
    }
    Ok(entries)
}

/// How many numbers rows have.
pub(crate) fn number_count(rows: &[(u32, &NumberField)]) -> usize {
    let mut count: usize = 0;
    'rows: for (_, field) in rows {
        count = count.saturating_add(field.values.len());
    }
    count
}

/// Adds the keys of the numbers of a field in one document.
fn put_keys(doc: u32, values: &[i64], into: &mut Vec<([u8; 8], u32)>) -> Result<(), NoMemory>
    ensures { OnOk result (map key_entry into.new.items ≡ map key_entry into.old.items ++ entries_at doc (once (map number_key values.now))) }
{
    match values {
        [] => Ok(()),
        [first, rest @ ..] => {
            let key = number_key(*first);
            into.push((key, doc))?;
            put_later_keys(doc, key, rest, into)?;
            Ok(())
        }
    }
}

/// Adds the keys of numbers that come behind one.
fn put_later_keys(
    doc: u32,
    first: [u8; 8],
    rest: &[i64],
    into: &mut Vec<([u8; 8], u32)>,
) -> Result<(), NoMemory>
    ensures { OnOk result (map key_entry into.new.items ≡ map key_entry into.old.items ++ entries_at doc (once_after first (map number_key rest.now))) }
{
    let mut last = first;
    'rest: for value in rest {
        let key = number_key(*value);
        put_key_unless_same(doc, last, key, into)?;
        last = key;
    }
    Ok(())
}

/// Adds a key, unless it is the one before it.
fn put_key_unless_same(
    doc: u32,
    last: [u8; 8],
    key: [u8; 8],
    into: &mut Vec<([u8; 8], u32)>,
) -> Result<(), NoMemory>
    ensures { OnOk result (map key_entry into.new.items ≡ map key_entry into.old.items ++ entries_at doc (unless_same last key)) }
{
    if key.as_slice() == last.as_slice() {
        Ok(())
    } else {
        into.push((key, doc))?;
        Ok(())
    }
}
