//! Terms with their postings, appended to bytes as text. After NoMemory the bytes are longer at most.

ghost use Rattle.std.specs.Prelude.{◌≡◌, ◌+◌, ◌<◌, ◌^◌, ◌++◌, length, OnOk};
ghost use Rattle.part_text.specs.Text.{u32_text, counted_text};
ghost use Rattle.part_text.specs.Written.{Extends};
ghost use Rattle.term_table.specs.Part.{posting_text, row_text, rows_text, IsRow};
ghost use Rattle.term_table.specs.Postings.{ArePostings};

use crate::{NoMemory, PositionList, PostingList, RowList, TermRow};
use part_text::{put_string, put_u32, put_u64};

/// Appends numbers behind their number.
#[tactic(auto, using(part_text::specs::Written::extends))]
fn put_numbers(numbers: &[u32], into: &mut Vec<u8>) -> Result<(), NoMemory>
    requires { length numbers.now < 2 ^ 32 }
    ensures put { OnOk result (into.new.items ≡ into.old.items ++ counted_text u32_text u32_text numbers.now) }
    ensures grown { Extends into.old.items into.new.items }
{
    put_u32(into, numbers.len() as u32)?;
    'numbers: for number in numbers {
        put_u32(into, *number)?;
    }
    Ok(())
}

/// Appends a document and the positions in it.
#[tactic(auto, using(part_text::specs::Written::extends))]
fn put_posting(posting: &(u32, PositionList), into: &mut Vec<u8>) -> Result<(), NoMemory>
    requires { length posting.now.1 < 2 ^ 32 }
    ensures put { OnOk result (into.new.items ≡ into.old.items ++ posting_text posting.now) }
    ensures grown { Extends into.old.items into.new.items }
{
    put_u32(into, posting.0)?;
    put_numbers(posting.1.as_slice(), into)
}

/// Appends postings behind their number.
#[tactic(auto, using(part_text::specs::Written::extends))]
fn put_postings(list: &PostingList, into: &mut Vec<u8>) -> Result<(), NoMemory>
    requires { ArePostings list.now }
    ensures put { OnOk result (into.new.items ≡ into.old.items ++ counted_text u32_text posting_text list.now) }
    ensures grown { Extends into.old.items into.new.items }
{
    let postings = list.as_slice();
    put_u32(into, postings.len() as u32)?;
    'postings: for posting in postings {
        put_posting(posting, into)?;
    }
    Ok(())
}

/// Appends a term with its postings.
#[tactic(auto, using(part_text::specs::Written::extends))]
fn put_row(row: &TermRow, into: &mut Vec<u8>) -> Result<(), NoMemory>
    requires { IsRow row.now }
    ensures put { OnOk result (into.new.items ≡ into.old.items ++ row_text row.now) }
    ensures grown { Extends into.old.items into.new.items }
{
    put_u32(into, row.term.0)?;
    put_string(into, row.term.1.as_slice())?;
    put_postings(&row.postings, into)
}

/// Appends all rows behind their number.
#[tactic(auto, using(part_text::specs::Written::extends))]
pub(crate) fn put_rows(list: &RowList, into: &mut Vec<u8>) -> Result<(), NoMemory>
    ensures put { OnOk result (into.new.items ≡ into.old.items ++ rows_text list.now) }
    ensures grown { Extends into.old.items into.new.items }
{
    let rows = list.as_slice();
    put_u64(into, rows.len() as u64)?;
    'rows: for row in rows {
        put_row(row, into)?;
    }
    Ok(())
}
