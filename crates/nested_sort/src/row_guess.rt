//! Where the row of a document is likely to stand in a column. Nothing but speed rests on it.
ghost use Rattle.std.specs.Prelude.{◌≡◌, ◌+◌, ◌≤◌, length};
ghost use Rattle.std.specs.List.Sorted.{IsSorted};
ghost use Rattle.doc_values.specs.Values.{values_of};

use block_bits::BitSet;
use doc_values::{Column, ColumnValue, Values};

/// Fewer rows than so many are not leapt over: the row is found in steps.
const CLOSE: u64 = 3;

/// How many rows around a guessed one are looked at together.
const WINDOW: u32 = 16;

/// Where the row of a document is likely to stand, for documents that mostly ascend.
///
/// Where each document of a scope has a row, the row is the rank of the document in that scope. Else it is as far behind the
/// last one's as if rows lay evenly among the documents.
#[derive(Drop)]
pub(crate) struct RowGuess<'a> {
    /// The ranks of the documents that have rows, where these are known.
    ranks: Option<Ranks<'a>>,
    /// The row behind the last that was found.
    row: u32,
    /// The document behind the last that was looked for.
    doc: u32,
    /// How many rows there are for 2^16 documents.
    density: u64,
}

impl<'a> RowGuess<'a> {
    /// Rows are guessed to follow one another.
    pub(crate) fn first() -> RowGuess<'a> {
        RowGuess {
            ranks: None,
            row: 0,
            doc: 0,
            density: 0,
        }
    }

    /// Rows are guessed to lie as those of a column do, whose documents are of a scope.
    pub(crate) fn over<T: ColumnValue>(
        column: &Column<'_, T>,
        documents: Option<&'a BitSet>,
    ) -> RowGuess<'a> {
        let rows = column.rows();
        if rows == 0 {
            return RowGuess::first();
        }
        let doc = column.doc(0);
        let spanned = column.doc(rows - 1).saturating_sub(doc) as u64 + 1;
        RowGuess {
            ranks: Ranks::of_all(documents, rows),
            row: 0,
            doc,
            density: (rows as u64 * (1 << 16)) / spanned,
        }
    }

    /// The values of a document.
    pub(crate) fn values<'b, T: ColumnValue>(
        &mut self,
        column: &Column<'b, T>,
        doc: u32,
    ) -> Values<'b, T>
        ensures values { result ≡ values_of doc column.now }
        ensures ascending { IsSorted T.cmp result }
    {
        if let Some(ranks) = &mut self.ranks {
            let mut row = ranks.before(doc);
            return column.values_near(doc, &mut row);
        }
        if !is_at(column, doc, self.row) {
            self.row = self.row_near(column, doc);
        }
        self.doc = doc.saturating_add(1);
        column.values_near(doc, &mut self.row)
    }

    /// The row of a document, if it stands where it is guessed or close by; else one before it, most often.
    fn row_near<T: ColumnValue>(&self, column: &Column<'_, T>, doc: u32) -> u32 {
        let rows = column.rows();
        let between = self.between(doc);
        if rows < WINDOW || between < CLOSE {
            return self.row;
        }
        let guess = between.saturating_add(self.row as u64);
        let first = guess
            .saturating_sub(WINDOW as u64 / 2)
            .min((rows - WINDOW) as u64) as u32;
        let before = rows_before(column, doc, first);
        if before > 0 || is_at(column, doc, first) {
            first.saturating_add(before)
        } else {
            first.saturating_sub(4 * WINDOW)
        }
    }

    /// How many rows are guessed to lie between the last that was found and a document's.
    fn between(&self, doc: u32) -> u64 {
        let passed = doc.saturating_sub(self.doc) as u64;
        passed.wrapping_mul(self.density).wrapping_add(1 << 15) >> 16
    }
}

/// Whether a row is a document's.
fn is_at<T: ColumnValue>(column: &Column<'_, T>, doc: u32, row: u32) -> bool {
    row < column.rows() && column.doc(row) == doc
}

/// How many rows of the window from one on are of documents before this one.
fn rows_before<T: ColumnValue>(column: &Column<'_, T>, doc: u32, first: u32) -> u32
    requires { first + WINDOW ≤ length column.now }
{
    let _rows = column.rows();
    let mut before = 0u32;
    'window: for at in 0..WINDOW {
        before = before.wrapping_add((column.doc(first + at) < doc) as u32);
    }
    before
}

/// How many documents of a set come before a document, for documents that mostly ascend.
#[derive(Drop)]
struct Ranks<'a> {
    words: &'a [u64],
    /// The u64 that was come to.
    place: usize,
    /// How many documents of the set those before it have.
    passed: u32,
}

impl<'a> Ranks<'a> {
    /// The ranks in a set, where it is of so many documents.
    fn of_all(documents: Option<&'a BitSet>, count: u32) -> Option<Ranks<'a>> {
        let documents = documents?;
        if documents.count() != count {
            return None;
        }
        Some(Ranks {
            words: documents.words(),
            place: 0,
            passed: 0,
        })
    }

    /// How many documents come before one.
    fn before(&mut self, doc: u32) -> u32 {
        let to = (doc / 64) as usize;
        if to < self.place {
            self.place = 0;
            self.passed = 0;
        }
        'words: while self.place < to && self.place < self.words.len() {
            self.passed = self
                .passed
                .wrapping_add(self.words[self.place].count_ones());
            self.place += 1;
        }
        let own = match self.words.get(to) {
            Some(word) => *word & !(u64::MAX << (doc % 64)),
            None => 0,
        };
        self.passed.wrapping_add(own.count_ones())
    }
}
