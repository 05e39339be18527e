//! How many bytes the parts of a segment have at most, so that there is room for them at once: bytes that grow are copied, and
//! take up to twice what they need. What is left over is given back.

use crate::rows::{FieldTerms, Term};
use crate::terms::{keyword_count, number_count};
use flattener::{Block, KeywordField, NumberField};
use segment::Join;

/// The bytes of the row of a number in one document: its field, its key behind its length, and a posting behind their number.
const NUMBER_ROW: usize = 28;

/// The bytes of what comes behind the head, at most.
pub(crate) fn room_of(
    blocks: &[Block],
    fields: &[(u32, FieldTerms<'_>)],
    keywords: &[(u32, Vec<(u32, &KeywordField)>)],
    numbers: &[(u32, Vec<(u32, &NumberField)>)],
    texts: &[(u32, Vec<u32>)],
) -> usize {
    let rows = roots_room(blocks).saturating_add(rows_room(fields));
    let columns = keywords_room(keywords).saturating_add(numbers_room(numbers));
    rows.saturating_add(columns.saturating_add(texts_room(texts)))
}

/// The bytes of the roots of blocks.
fn roots_room(blocks: &[Block]) -> usize {
    let mut room: usize = 0;
    'each: for block in blocks {
        let root = &block.root;
        let named = match &root.join {
            Join::Unjoined => 0,
            Join::Named(_) => 4,
            Join::Child(_, parent) => parent.as_slice().len().saturating_add(8),
        };
        let texts = root
            .id
            .as_slice()
            .len()
            .saturating_add(root.source.as_slice().len());
        room = room.saturating_add(texts.saturating_add(named).saturating_add(21));
    }
    room
}

/// The bytes of the rows of fields behind their number, at most.
fn rows_room(fields: &[(u32, FieldTerms<'_>)]) -> usize {
    let mut room: usize = 8;
    'fields: for (_, own) in fields {
        let rows = match own {
            FieldTerms::Words(entries) => entries_room(entries.as_slice()),
            FieldTerms::Keywords(entries) => entries_room(entries.as_slice()),
            FieldTerms::Numbers(entries) => entries.len().saturating_mul(NUMBER_ROW),
        };
        room = room.saturating_add(rows);
    }
    room
}

/// The bytes of the rows of entries if each had a term of its own: none is compared with another.
fn entries_room<T: Term>(entries: &[(T, u32)]) -> usize {
    let mut room: usize = 0;
    'entries: for (term, _) in entries {
        room = room.saturating_add(term.bytes().len().saturating_add(20));
        room = room.saturating_add(term.positions().len().saturating_mul(4));
    }
    room
}

/// The bytes of columns of keywords behind their number.
fn keywords_room(groups: &[(u32, Vec<(u32, &KeywordField)>)]) -> usize {
    let mut room: usize = 4;
    'groups: for (_, rows) in groups {
        room = room.saturating_add(column_room(rows.len(), keyword_count(rows.as_slice())));
    }
    room
}

/// The bytes of columns of numbers behind their number.
fn numbers_room(groups: &[(u32, Vec<(u32, &NumberField)>)]) -> usize {
    let mut room: usize = 4;
    'groups: for (_, rows) in groups {
        room = room.saturating_add(column_room(rows.len(), number_count(rows.as_slice())));
    }
    room
}

/// The bytes of a column of so many rows and values.
fn column_room(rows: usize, values: usize) -> usize {
    rows.saturating_add(values)
        .saturating_mul(8)
        .saturating_add(8)
}

/// The bytes of text fields with their documents behind the number of the fields.
fn texts_room(groups: &[(u32, Vec<u32>)]) -> usize {
    let mut room: usize = 4;
    'groups: for (_, docs) in groups {
        room = room.saturating_add(docs.len().saturating_mul(4).saturating_add(8));
    }
    room
}
