//! That numbers and positions fit their types, as each does: said for all documents of blocks by reading them; and that eight
//! bytes are the key of a number.

ghost use Rattle.std.specs.Prelude.{◌<◌, ◌^◌, FitsSigned};
ghost use Rattle.std.specs.Int.{w64};
ghost use Rattle.std.specs.List.{All};
ghost use Rattle.flattener.specs.Seen.{document_seen};
ghost use Rattle.segment_builder.specs.Form.{IsFit};
ghost use Rattle.segment_builder.specs.Terms.{IsKey};

use flattener::{Block, Document, NumberField, Word};
use term_table::number_of;

/// Says that what the documents of blocks carry fits its types.
pub(crate) fn blocks_fit(blocks: &[Block])
    ensures { All (λ block. All (λ document. IsFit (document_seen document)) block.documents.items) blocks.now }
{
    'each: for block in blocks {
        documents_fit(block.documents.as_slice());
    }
}

/// Says that what documents carry fits its types.
fn documents_fit(documents: &[Document])
    ensures { All (λ document. IsFit (document_seen document)) documents.now }
{
    'documents: for document in documents {
        document_fits(document);
    }
}

/// Says that what a document carries fits its types.
fn document_fits(document: &Document)
    ensures { IsFit (document_seen document.now) }
{
    numbers_fit(document.numbers.as_slice());
    words_fit(document.words.as_slice());
}

/// Says that the numbers of fields fit their type.
fn numbers_fit(fields: &[NumberField])
    ensures { All (λ field. All (FitsSigned w64) field.values.items) fields.now }
{
    'fields: for field in fields {
        values_fit(field.values.as_slice());
    }
}

/// Says that the positions of words fit their type.
fn words_fit(words: &[Word])
    ensures { All (λ word. All (λ position. position < 2 ^ 32) word.positions.items) words.now }
{
    'words: for word in words {
        positions_fit(word.positions.as_slice());
    }
}

/// Says that numbers fit their type.
fn values_fit(values: &[i64])
    ensures { All (FitsSigned w64) values.now }
{
    'values: for value in values {
        value_fits(value);
    }
}

/// Says that a number fits its type.
fn value_fits(value: &i64)
    ensures { FitsSigned w64 value.now }
{
    let _value = *value;
}

/// Says that positions fit their type.
fn positions_fit(positions: &[u32])
    ensures { All (λ position. position < 2 ^ 32) positions.now }
{}

/// Says that the keys of entries are those of numbers.
pub(crate) fn keys_are_of_numbers(entries: &[([u8; 8], u32)])
    ensures { All (λ entry. IsKey entry.0) entries.now }
{
    'entries: for entry in entries {
        key_is_of_number(entry);
    }
}

/// Says that the key of an entry is that of a number.
fn key_is_of_number(entry: &([u8; 8], u32))
    ensures { IsKey entry.now.0 }
{
    let _number = number_of(entry.0.as_slice());
}
