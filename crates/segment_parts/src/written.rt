//! The text of columns, part by part.

ghost use Rattle.std.specs.Prelude.{◌≡◌, ◌<◌, ◌^◌, ◌++◌, length, IfOk, OnOk};
ghost use Rattle.std.specs.List.{flat_map};
ghost use Rattle.part_text.specs.Text.{u32_text, u64_text, counted_text};
ghost use Rattle.doc_values.specs.Text.{column_text};
ghost use Rattle.segment_parts.specs.Text.{scope_text, head_text, rows_part, ordinals_text, numbers_text, marked_places, presence_text, present_text, segment_text};
ghost use Rattle.segment_parts.specs.Parts.{AreParts};

use crate::{ColumnList, Columns, NoMemory};
use block_bits::BitSet;
use doc_values::{Column, ColumnValue};
use part_text::{put_u32, put_u64};
use std::alloc::Global;
use stored_sources::StoredSources;
use term_table::TermTable;

/// The bytes of a segment.
pub fn segment_bytes(alloc: Global, columns: &Columns) -> Result<Vec<u8>, NoMemory>
    requires { AreParts columns.now }
    ensures { IfOk result (λ bytes. bytes.items ≡ segment_text columns.now) }
{
    let mut bytes = Vec::new(alloc);
    put_head(columns, &mut bytes)?;
    put_rows(columns, &mut bytes)?;
    put_ordinals(columns, &mut bytes)?;
    put_numbers(columns, &mut bytes)?;
    put_present(columns.present.as_slice(), &mut bytes)?;
    // a segment lives long: it keeps no room that it grew by
    bytes.shrink_to_fit();
    Ok(bytes)
}

/// Appends the number of documents, and the documents of each scope.
fn put_head(columns: &Columns, into: &mut Vec<u8>) -> Result<(), NoMemory>
    requires { AreParts columns.now }
    ensures { OnOk result (into.new.items ≡ into.old.items ++ head_text columns.now.documents columns.now.scopes) }
{
    put_head_of(columns.documents, columns.scopes.as_slice(), into)
}

/// Appends a number of documents, and the documents of each of these scopes. Where memory runs out, a part of them may stand
/// there.
#[tactic(auto, unfolding(crate::specs::Text::head_text))]
pub fn put_head_of(documents: u32, scopes: &[BitSet], into: &mut Vec<u8>) -> Result<(), NoMemory>
    requires { length scopes.now < 2 ^ 32 }
    ensures { OnOk result (into.new.items ≡ into.old.items ++ head_text documents scopes.now) }
{
    into.extend_from_slice(b"SEG2".as_slice())?;
    put_u32(into, documents)?;
    put_scopes(scopes, into)
}

/// Appends the documents of each scope behind the number of scopes.
fn put_scopes(scopes: &[BitSet], into: &mut Vec<u8>) -> Result<(), NoMemory>
    requires { length scopes.now < 2 ^ 32 }
    ensures { OnOk result (into.new.items ≡ into.old.items ++ counted_text u32_text scope_text scopes.now) }
{
    put_u32(into, scopes.len() as u32)?;
    'scopes: for scope in scopes {
        put_words(scope.words(), into)?;
    }
    Ok(())
}

/// Appends numbers of eight bytes.
fn put_words(words: &[u64], into: &mut Vec<u8>) -> Result<(), NoMemory>
    ensures { OnOk result (into.new.items ≡ into.old.items ++ flat_map u64_text words.now) }
{
    'words: for word in words {
        put_u64(into, *word)?;
    }
    Ok(())
}

/// Appends the roots, and the terms with their postings.
#[tactic(auto, unfolding(crate::specs::Text::rows_part))]
fn put_rows(columns: &Columns, into: &mut Vec<u8>) -> Result<(), NoMemory>
    ensures { OnOk result (into.new.items ≡ into.old.items ++ rows_part columns.now) }
{
    StoredSources::written(&columns.roots, into)?;
    TermTable::written(&columns.terms, into)?;
    Ok(())
}

/// Appends the columns of ordinals.
#[tactic(auto, unfolding(crate::specs::Text::ordinals_text))]
fn put_ordinals(columns: &Columns, into: &mut Vec<u8>) -> Result<(), NoMemory>
    ensures { OnOk result (into.new.items ≡ into.old.items ++ ordinals_text columns.now.ordinals) }
{
    put_columns(&columns.ordinals, into)
}

/// Appends the columns of numbers.
#[tactic(auto, unfolding(crate::specs::Text::numbers_text))]
fn put_numbers(columns: &Columns, into: &mut Vec<u8>) -> Result<(), NoMemory>
    ensures { OnOk result (into.new.items ≡ into.old.items ++ numbers_text columns.now.numbers) }
{
    put_columns(&columns.numbers, into)
}

/// Appends columns of values behind their number.
fn put_columns<T: ColumnValue>(list: &ColumnList<T>, into: &mut Vec<u8>) -> Result<(), NoMemory>
    ensures { OnOk result (into.new.items ≡ into.old.items ++ counted_text u32_text (column_text T.text) list.now) }
{
    let own = list.as_slice();
    put_u32(into, own.len() as u32)?;
    'columns: for column in own {
        Column::<T>::written(column, into)?;
    }
    Ok(())
}

/// Appends the text fields behind their number.
#[tactic(auto, unfolding(crate::specs::Text::present_text))]
fn put_present(columns: &[(u32, BitSet)], into: &mut Vec<u8>) -> Result<(), NoMemory>
    requires { length columns.now < 2 ^ 32 }
    ensures { OnOk result (into.new.items ≡ into.old.items ++ present_text columns.now) }
{
    put_u32(into, columns.len() as u32)?;
    'columns: for (field, set) in columns {
        put_presence(*field, set, into)?;
    }
    Ok(())
}

/// Appends a text field, and the documents with a value behind their number.
fn put_presence(field: u32, set: &BitSet, into: &mut Vec<u8>) -> Result<(), NoMemory>
    ensures { OnOk result (into.new.items ≡ into.old.items ++ presence_text (field, set.now)) }
{
    put_u32(into, field)?;
    put_u32(into, set.count())?;
    put_documents(set, into)?;
    Ok(())
}

/// Appends the documents of a set.
fn put_documents(set: &BitSet, into: &mut Vec<u8>) -> Result<(), NoMemory>
    ensures { OnOk result (into.new.items ≡ into.old.items ++ flat_map u32_text (marked_places 0 set.now)) }
{
    let mut from = 0;
    'documents: while let Some(document) = set.next_set(from) {
        put_u32(into, document)?;
        from = document + 1;
    }
    Ok(())
}
