//! What the documents of blocks carry, by field, each thing with the number of its document, lent from the blocks.

ghost use Rattle.std.specs.Prelude.{◌≡◌, ◌+◌, ◌<◌, ◌^◌, length, map, IfOk, OnOk};
ghost use Rattle.std.specs.Ordering.{nat_cmp};
ghost use Rattle.flattener.specs.Seen.{block_seen, document_seen, keyword_seen, number_seen, word_seen};
ghost use Rattle.segment_builder.specs.Entries.{EntriesState, flats_in, no_entries, with_blocks, with_document, with_documents};
ghost use Rattle.segment_builder.specs.Groups.{groups_seen, AreOrdered};
ghost use Rattle.segment_builder.specs.Lists.{AreLists};
ghost use Rattle.segment_builder.specs.Members.{by_field, keyword_member, number_member, text_member, word_member, AreAdded};
ghost use Rattle.segment_builder.specs.Parts.{fields_with, tagged};

use crate::NoMemory;
use crate::by_field::{KnownPlaces, put};
use flattener::{Block, Document, KeywordField, NumberField, Word};
use std::alloc::Global;

/// What documents carry, by field, each thing with the number of its document.
#[derive(Drop)]
pub(crate) struct Lists<'a> {
    /// The scope of each document.
    pub scopes: Vec<u32>,
    pub numbers: Vec<(u32, Vec<(u32, &'a NumberField)>)>,
    pub keywords: Vec<(u32, Vec<(u32, &'a KeywordField)>)>,
    pub words: Vec<(u32, Vec<(&'a Word, u32)>)>,
    /// The text fields that have a value.
    pub texts: Vec<(u32, Vec<u32>)>,
}

/// What the documents of blocks carry, listed in one pass over them.
pub(crate) fn lists_of<'a>(alloc: Global, blocks: &'a [Block]) -> Result<Lists<'a>, NoMemory>
    requires { length (flats_in (map block_seen blocks.now)) < 2 ^ 32 }
    ensures { IfOk result (AreLists (with_blocks no_entries (map block_seen blocks.now))) }
{
    let count = document_count(blocks);
    // most fields that are there at all are there about once a block
    let mut known = KnownPlaces::new(blocks.len(), count.saturating_mul(2));
    let mut lists = Lists {
        scopes: Vec::with_capacity(alloc, count)?,
        numbers: Vec::new(alloc),
        keywords: Vec::new(alloc),
        words: Vec::new(alloc),
        texts: Vec::new(alloc),
    };
    'each: for block in blocks {
        add_documents(alloc, block.documents.as_slice(), &mut known, &mut lists)?;
    }
    Ok(lists)
}

/// How many documents blocks have together.
fn document_count(blocks: &[Block]) -> usize {
    let mut count: usize = 0;
    'each: for block in blocks {
        count = count.saturating_add(block.documents.len());
    }
    count
}

/// Adds what the documents of a block carry.
fn add_documents<'a>(
    alloc: Global,
    documents: &'a [Document],
    known: &mut KnownPlaces,
    lists: &mut Lists<'a>,
) -> Result<(), NoMemory>
    requires few { length lists.old.scopes.items + length documents.now < 2 ^ 32 }
    requires lists { (it : EntriesState) × AreLists it lists.old }
    ensures lists { OnOk result ((it : EntriesState) → AreLists it lists.old → AreLists (with_documents it (map document_seen documents.now)) lists.new) }
    ensures longer { OnOk result (length lists.new.scopes.items ≡ length lists.old.scopes.items + length documents.now) }
{
    'documents: for document in documents {
        add_document(alloc, document, known, lists)?;
    }
    Ok(())
}

/// Adds what the next document carries.
fn add_document<'a>(
    alloc: Global,
    document: &'a Document,
    known: &mut KnownPlaces,
    lists: &mut Lists<'a>,
) -> Result<(), NoMemory>
    requires few { length lists.old.scopes.items < 2 ^ 32 }
    requires lists { (it : EntriesState) × AreLists it lists.old }
    ensures lists { OnOk result ((it : EntriesState) → AreLists it lists.old → AreLists (with_document it (document_seen document.now)) lists.new) }
    ensures longer { OnOk result (length lists.new.scopes.items ≡ length lists.old.scopes.items + 1) }
{
    let doc = lists.scopes.len() as u32;
    add_numbers(
        alloc,
        doc,
        document.numbers.as_slice(),
        known,
        &mut lists.numbers,
    )?;
    add_keywords(
        alloc,
        doc,
        document.keywords.as_slice(),
        known,
        &mut lists.keywords,
    )?;
    add_words(
        alloc,
        doc,
        document.words.as_slice(),
        known,
        &mut lists.words,
    )?;
    add_texts(
        alloc,
        doc,
        document.texts.as_slice(),
        known,
        &mut lists.texts,
    )?;
    lists.scopes.push(document.scope)?;
    Ok(())
}

/// Adds the numbers of a document.
fn add_numbers<'a>(
    alloc: Global,
    doc: u32,
    fields: &'a [NumberField],
    known: &mut KnownPlaces,
    into: &mut Vec<(u32, Vec<(u32, &'a NumberField)>)>,
) -> Result<(), NoMemory>
    requires { AreOrdered nat_cmp (groups_seen into.old.items) }
    ensures added { OnOk result (AreAdded number_member (tagged doc (map number_seen fields.now)) into.old.items into.new.items) }
    ensures ordered { OnOk result (AreOrdered nat_cmp (groups_seen into.new.items)) }
{
    'fields: for field in fields {
        put(alloc, field.field, (doc, field), known, into)?;
    }
    Ok(())
}

/// Adds the keywords of a document.
fn add_keywords<'a>(
    alloc: Global,
    doc: u32,
    fields: &'a [KeywordField],
    known: &mut KnownPlaces,
    into: &mut Vec<(u32, Vec<(u32, &'a KeywordField)>)>,
) -> Result<(), NoMemory>
    requires { AreOrdered nat_cmp (groups_seen into.old.items) }
    ensures added { OnOk result (AreAdded keyword_member (tagged doc (map keyword_seen fields.now)) into.old.items into.new.items) }
    ensures ordered { OnOk result (AreOrdered nat_cmp (groups_seen into.new.items)) }
{
    'fields: for field in fields {
        put(alloc, field.field, (doc, field), known, into)?;
    }
    Ok(())
}

/// Adds the words of a document.
fn add_words<'a>(
    alloc: Global,
    doc: u32,
    words: &'a [Word],
    known: &mut KnownPlaces,
    into: &mut Vec<(u32, Vec<(&'a Word, u32)>)>,
) -> Result<(), NoMemory>
    requires { AreOrdered nat_cmp (groups_seen into.old.items) }
    ensures added { OnOk result (AreAdded word_member (by_field (tagged doc (map word_seen words.now))) into.old.items into.new.items) }
    ensures ordered { OnOk result (AreOrdered nat_cmp (groups_seen into.new.items)) }
{
    'words: for word in words {
        put(alloc, word.field, (word, doc), known, into)?;
    }
    Ok(())
}

/// Adds the text fields of a document that have a value.
fn add_texts(
    alloc: Global,
    doc: u32,
    fields: &[u32],
    known: &mut KnownPlaces,
    into: &mut Vec<(u32, Vec<u32>)>,
) -> Result<(), NoMemory>
    requires { AreOrdered nat_cmp (groups_seen into.old.items) }
    ensures added { OnOk result (AreAdded text_member (fields_with doc fields.now) into.old.items into.new.items) }
    ensures ordered { OnOk result (AreOrdered nat_cmp (groups_seen into.new.items)) }
{
    'fields: for field in fields {
        put(alloc, *field, doc, known, into)?;
    }
    Ok(())
}
