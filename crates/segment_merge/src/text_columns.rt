//! The documents with a value of each text field of a merged segment, written.

ghost use Rattle.std.specs.Prelude.{◌≡◌, ◌<◌, ◌++◌, ◌∷◌, [], ℕ, List, length, IfOk, OnOk};
ghost use Rattle.std.specs.List.{filter, flat_map};
ghost use Rattle.std.specs.Ordering.{nat_cmp};
ghost use Rattle.part_text.specs.Text.{counted_text, u32_text};
ghost use Rattle.segment.specs.Flat.{has_some};
ghost use Rattle.segment.specs.Live.{EntryState};
ghost use Rattle.segment_builder.specs.Made.{marked_groups};
ghost use Rattle.segment_parts.specs.Text.{marked_places, present_text};
ghost use Rattle.segment_merge.specs.ByField.{keyed_text};
ghost use Rattle.segment_merge.specs.Merged.{kept_places, live_count_of, IsGathered};
ghost use Rattle.segment_merge.specs.Numbering.{parts_from};
ghost use Rattle.segment_merge.specs.Pieces.{from_parts, part_texts};

use crate::NoMemory;
use crate::agreed::parts_agree;
use crate::by_field::{PartItems, put_by_field};
use crate::counts::count_of;
use crate::numbering::Part;
use block_bits::BitSet;
use part_text::put_u32;
use std::alloc::Global;
use std::marker::Model;

/// The new numbers of live documents, in order.
#[derive(Drop)]
pub(crate) struct Places {
    numbers: Vec<u32>,
}

impl Model for Places {
    ghost use Rattle.std.specs.Prelude.{ℕ, List};

    ghost Value = { List ℕ };

    ghost view = { λ places. places.numbers.items };
}

impl PartItems for Places {
    ghost count = { λ numbers. length numbers };

    ghost text = { λ numbers. flat_map u32_text numbers };

    fn len(&self) -> Result<u32, NoMemory> {
        count_of(self.numbers.len())
    }

    fn put(&self, into: &mut Vec<u8>) -> Result<(), NoMemory> {
        'numbers: for number in &self.numbers {
            put_u32(into, *number)?;
        }
        Ok(())
    }
}

/// Appends the text fields of parts, put together by field, each with the documents that have a value.
pub(crate) fn put_texts(alloc: Global, parts: &[Part], into: &mut Vec<u8>) -> Result<(), NoMemory>
    ensures { (entries : List EntryState) → parts.now ≡ parts_from 0 entries
        → OnOk result ((texts : List (ℕ × List ℕ)) × IsGathered nat_cmp (from_parts part_texts parts.now) texts
        × (into.new.items ≡ into.old.items ++ present_text (marked_groups (live_count_of entries) texts))) }
{
    parts_agree(parts);
    put_all(alloc, parts, into)?;
    Ok(())
}

/// Appends the text fields of parts, put together by field, behind their number.
fn put_all(alloc: Global, parts: &[Part], into: &mut Vec<u8>) -> Result<(), NoMemory>
    ensures { OnOk result ((texts : List (ℕ × List ℕ)) × IsGathered nat_cmp (from_parts part_texts parts.now) texts
        × (into.new.items ≡ into.old.items ++ counted_text u32_text (keyed_text u32_text) texts)) }
{
    let texts = texts_of(alloc, parts)?;
    put_by_field(alloc, texts, into)?;
    Ok(())
}

/// The text fields of all parts that live documents have a value of, part by part.
fn texts_of(alloc: Global, parts: &[Part]) -> Result<Vec<(u32, Places)>, NoMemory>
    ensures { IfOk result (λ texts. texts.items ≡ filter has_some (from_parts part_texts parts.now)) }
{
    let mut texts = Vec::new(alloc);
    'parts: for part in parts {
        add_texts(alloc, part, &mut texts)?;
    }
    Ok(texts)
}

/// Adds the text fields of a part that live documents have a value of.
fn add_texts(alloc: Global, part: &Part, texts: &mut Vec<(u32, Places)>) -> Result<(), NoMemory>
    ensures { OnOk result (texts.new.items ≡ texts.old.items ++ filter has_some (part_texts part.now)) }
{
    let segment = part.segment();
    let _documents = segment.docs();
    'columns: for (field, set) in segment.present_columns() {
        add_text(*field, places_of(alloc, part, set)?, texts)?;
    }
    Ok(())
}

/// Adds a text field, if it has documents.
fn add_text(field: u32, places: Places, texts: &mut Vec<(u32, Places)>) -> Result<(), NoMemory>
    ensures { OnOk result (texts.new.items ≡ texts.old.items ++ filter has_some ((field, places) ∷ [])) }
{
    if !places.numbers.is_empty() {
        texts.push((field, places))?;
    }
    Ok(())
}

/// The new numbers of the live documents of a set.
fn places_of(alloc: Global, part: &Part, set: &BitSet) -> Result<Places, NoMemory>
    requires { length set.now ≡ part.now.entry.columns.documents }
    ensures { IfOk result (λ places. places ≡ kept_places part.now.base part.now.entry.live.docs (marked_places 0 set.now)) }
{
    let mut numbers = Vec::new(alloc);
    let mut from = 0;
    'documents: while let Some(doc) = set.next_set(from) {
        add_number(part, doc, &mut numbers)?;
        from = doc + 1;
    }
    Ok(Places { numbers })
}

/// Adds the new number of a document, if it is live.
fn add_number(part: &Part, doc: u32, numbers: &mut Vec<u32>) -> Result<(), NoMemory>
    requires { doc < part.now.entry.columns.documents }
    ensures { OnOk result (numbers.new.items ≡ numbers.old.items ++ kept_places part.now.base part.now.entry.live.docs (doc ∷ [])) }
{
    if let Some(number) = part.number(doc) {
        numbers.push(number)?;
    }
    Ok(())
}
