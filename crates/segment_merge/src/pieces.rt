//! The columns of parts, each with the rows that a merge writes of it.

ghost use Rattle.std.specs.Prelude.{◌≡◌, ◌++◌, ◌∷◌, [], length, map, IfOk, OnOk};
ghost use Rattle.std.specs.List.{filter, flat_map};
ghost use Rattle.doc_values.specs.Text.{entry_text};
ghost use Rattle.segment.specs.Flat.{has_some};
ghost use Rattle.segment_parts.specs.Agree.{AreWithin};
ghost use Rattle.segment_merge.specs.Merged.{kept};
ghost use Rattle.segment_merge.specs.Pieces.{columns_in, columns_of_parts, written_rows};

use crate::NoMemory;
use crate::by_field::PartItems;
use crate::merged_value::MergedValue;
use crate::new_ordinals::NewOrdinals;
use crate::numbering::Part;
use doc_values::{Column, Values};
use part_text::put_u32;
use std::alloc::Global;
use std::marker::Model;

/// The column of a part, seen as the rows that a merge writes of it: those of live documents, with their new numbers and
/// their values written again.
#[derive(Drop)]
pub(crate) struct Piece<'a, T: MergedValue> {
    part: &'a Part<'a>,
    ordinals: &'a [u64],
    column: Column<'a, T>,
    rows: u32,
}

impl<'a, T: MergedValue> Model for Piece<'a, T> {
    ghost use Rattle.std.specs.Prelude.{◌≡◌, ℕ, List, length};
    ghost use Rattle.segment_parts.specs.Agree.{AreWithin};
    ghost use Rattle.segment_merge.specs.Merged.{kept};
    ghost use Rattle.segment_merge.specs.Pieces.{written_rows};

    ghost Value = { List (ℕ × List T) };

    ghost view = { λ piece. written_rows (T.renewed piece.ordinals.now) piece.part.now piece.column };

    ghost invariant = { λ piece. AreWithin piece.part.now.entry.columns.documents piece.column
        × (piece.rows ≡ length (kept piece.part.now.base piece.part.now.entry.live.docs piece.column)) };
}

impl<'a, T: MergedValue> Piece<'a, T> {
    /// The column of a part. Takes no memory.
    fn of(part: &'a Part<'a>, ordinals: &'a [u64], column: Column<'a, T>) -> Piece<'a, T>
        requires { AreWithin part.now.entry.columns.documents column }
        ensures { result ≡ written_rows (T.renewed ordinals.now) part.now column.entry }
    {
        let rows = live_row_count(part, &column);
        Piece {
            part,
            ordinals,
            column,
            rows,
        }
    }
}

impl<'a, T: MergedValue> PartItems for Piece<'a, T> {
    ghost count = { λ rows. length rows };

    ghost text = { λ rows. flat_map (entry_text T.text) rows };

    fn len(&self) -> Result<u32, NoMemory> {
        Ok(self.rows)
    }

    fn put(&self, into: &mut Vec<u8>) -> Result<(), NoMemory> {
        put_rows(self.part, self.ordinals, &self.column, into)
    }
}

/// How many rows of a column are of live documents.
fn live_row_count<T: MergedValue>(part: &Part, column: &Column<T>) -> u32
    requires { AreWithin part.now.entry.columns.documents column.now }
    ensures { result ≡ length (kept part.now.base part.now.entry.live.docs column.now) }
{
    let mut count = 0;
    'rows: for row in 0..column.rows() {
        if part.number(column.doc(row)).is_some() {
            count += 1;
        }
    }
    count
}

/// Appends the rows of a column that are of live documents.
fn put_rows<T: MergedValue>(
    part: &Part,
    ordinals: &[u64],
    column: &Column<T>,
    into: &mut Vec<u8>,
) -> Result<(), NoMemory>
    requires { AreWithin part.now.entry.columns.documents column.now }
    ensures { OnOk result (into.new.items ≡ into.old.items ++ flat_map (entry_text T.text) (written_rows (T.renewed ordinals.now) part.now column.now)) }
{
    'rows: for row in 0..column.rows() {
        if let Some(doc) = part.number(column.doc(row)) {
            put_row(doc, column.row_values(row), ordinals, into)?;
        }
    }
    Ok(())
}

/// Appends a row: a document, and its values written again behind their number.
fn put_row<T: MergedValue>(
    doc: u32,
    values: Values<'_, T>,
    ordinals: &[u64],
    into: &mut Vec<u8>,
) -> Result<(), NoMemory>
    ensures { OnOk result (into.new.items ≡ into.old.items ++ entry_text T.text (doc, map (T.renewed ordinals.now) values.entry)) }
{
    put_u32(into, doc)?;
    put_u32(into, values.len())?;
    put_values(values, ordinals, into)?;
    Ok(())
}

/// Appends values written again.
fn put_values<T: MergedValue>(
    values: Values<'_, T>,
    ordinals: &[u64],
    into: &mut Vec<u8>,
) -> Result<(), NoMemory>
    ensures { OnOk result (into.new.items ≡ into.old.items ++ flat_map T.text (map (T.renewed ordinals.now) values.entry)) }
{
    let mut rest = values;
    'values: while let Some(value) = rest.next() {
        value.again(ordinals).put(into)?;
    }
    Ok(())
}

/// The columns of all parts that have rows of live documents, part by part.
pub(crate) fn pieces_of<'a, T: MergedValue>(
    alloc: Global,
    parts: &'a [Part<'a>],
    news: &'a NewOrdinals,
) -> Result<Vec<(u32, Piece<'a, T>)>, NoMemory>
    ensures { IfOk result (λ pieces. pieces.items ≡ filter has_some (columns_of_parts T.columns T.renewed parts.now news.now)) }
{
    let mut pieces = Vec::new(alloc);
    'parts: for at in 0..parts.len() {
        add_pieces(&parts[at], news.of_part(at), &mut pieces)?;
    }
    Ok(pieces)
}

/// Adds the columns of a part that have rows of live documents.
fn add_pieces<'a, T: MergedValue>(
    part: &'a Part<'a>,
    ordinals: &'a [u64],
    pieces: &mut Vec<(u32, Piece<'a, T>)>,
) -> Result<(), NoMemory>
    ensures { OnOk result (pieces.new.items ≡ pieces.old.items ++ filter has_some (columns_in (T.renewed ordinals.now) part.now (T.columns part.now.entry.columns))) }
{
    let segment = part.segment();
    'columns: for at in 0..T::column_count(segment) {
        let (field, column) = T::column_at(segment, at);
        add_piece(field, Piece::of(part, ordinals, column), pieces)?;
    }
    Ok(())
}

/// Adds a column that has rows.
fn add_piece<'a, T: MergedValue>(
    field: u32,
    piece: Piece<'a, T>,
    pieces: &mut Vec<(u32, Piece<'a, T>)>,
) -> Result<(), NoMemory>
    ensures { OnOk result (pieces.new.items ≡ pieces.old.items ++ filter has_some ((field, piece.entry) ∷ [])) }
{
    if piece.rows > 0 {
        pieces.push((field, piece))?;
    }
    Ok(())
}
