//! Terms with their postings, as they are written into a segment.

ghost use Rattle.std.specs.Prelude.{◌≡◌, ◌↔◌, ◌++◌, ℕ, List, IsTrue};
ghost use Rattle.term_table.specs.declared.rows.TermRow.{TermRow};
ghost use Rattle.term_table.specs.Part.{AreRows, rows_text};

use crate::order::are_rows;
use std::marker::Model;

/// The bytes of a term.
#[derive(Drop)]
pub struct Bytes {
    bytes: Vec<u8>,
}

impl Model for Bytes {
    ghost use Rattle.std.specs.Prelude.{ℕ, List};

    ghost Value = { List ℕ };

    ghost view = { λ it. it.bytes.items };
}

impl Bytes {
    /// The bytes of a vector. Takes no memory.
    pub fn of(bytes: Vec<u8>) -> Bytes
        ensures { result ≡ bytes.items }
    {
        Bytes { bytes }
    }

    /// The bytes.
    pub fn as_slice(&self) -> &[u8]
        ensures { result.now ≡ self.now }
    {
        self.bytes.as_slice()
    }

    /// The vector again. Takes no memory.
    pub fn into_vec(self) -> Vec<u8>
        ensures { result.items ≡ self }
    {
        let Bytes { bytes } = self;
        bytes
    }
}

/// The positions of a term in one document; none for a term of a field that is no text.
#[derive(Drop)]
pub struct PositionList {
    positions: Vec<u32>,
}

impl Model for PositionList {
    ghost use Rattle.std.specs.Prelude.{ℕ, List};

    ghost Value = { List ℕ };

    ghost view = { λ list. list.positions.items };
}

impl PositionList {
    /// The list of these positions. Takes no memory.
    pub fn of(positions: Vec<u32>) -> PositionList
        ensures { result ≡ positions.items }
    {
        PositionList { positions }
    }

    /// The positions, in order.
    pub fn as_slice(&self) -> &[u32]
        ensures { result.now ≡ self.now }
    {
        self.positions.as_slice()
    }
}

/// The postings of one term: documents, each with the positions of the term in it.
#[derive(Drop)]
pub struct PostingList {
    postings: Vec<(u32, PositionList)>,
}

impl Model for PostingList {
    ghost use Rattle.std.specs.Prelude.{ℕ, List};

    ghost Value = { List (ℕ × List ℕ) };

    ghost view = { λ list. list.postings.items };
}

impl PostingList {
    /// The list of these postings. Takes no memory.
    pub fn of(postings: Vec<(u32, PositionList)>) -> PostingList
        ensures { result ≡ postings.items }
    {
        PostingList { postings }
    }

    /// The postings, in order.
    pub fn as_slice(&self) -> &[(u32, PositionList)]
        ensures { result.now ≡ self.now }
    {
        self.postings.as_slice()
    }
}

/// A term, its field and its bytes, with its postings.
#[derive(Drop)]
pub struct TermRow {
    /// The number of the field, and the bytes.
    pub term: (u32, Bytes),
    /// The documents that have the term, at least one.
    pub postings: PostingList,
}

/// The terms of a segment with their postings, in the order of the terms.
#[derive(Drop)]
pub struct RowList {
    rows: Vec<TermRow>,
}

impl Model for RowList {
    ghost use Rattle.std.specs.Prelude.{List};
    ghost use Rattle.term_table.specs.declared.rows.TermRow.{TermRow};
    ghost use Rattle.term_table.specs.Part.{AreRows};

    ghost Value = { List TermRow };

    ghost view = { λ list. list.rows.items };

    ghost invariant = { λ list. AreRows list.rows.items };
}

impl RowList {
    /// The list of these rows. Takes no memory.
    pub fn of(rows: Vec<TermRow>) -> RowList
        requires { AreRows rows.items }
        ensures { result ≡ rows.items }
    {
        RowList { rows }
    }

    /// Whether terms come in order, each with at least one posting and these in order, as a list wants them.
    pub fn are_rows(rows: &[TermRow]) -> bool
        ensures { IsTrue result ↔ AreRows rows.now }
    {
        are_rows(rows)
    }

    /// The rows, in order.
    pub fn as_slice(&self) -> &[TermRow]
        ensures rows { result.now ≡ self.now }
        ensures are { AreRows self.now }
    {
        self.rows.as_slice()
    }
}

/// No bytes begin with the text of two lists of rows, so that rows have one spelling. Does nothing.
pub fn rows_have_one_text()
    ensures { (rows others : List TermRow) (rest more : List ℕ) → AreRows rows → AreRows others
        → rows_text rows ++ rest ≡ rows_text others ++ more → (rows ≡ others) × (rest ≡ more) }
{}
