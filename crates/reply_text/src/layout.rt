//! The rows of the layout's reply: segments and open merges.
ghost use Rattle.std.specs.Prelude.{◌≡◌};

use std::marker::Model;

/// A segment, by counts of its roots and documents.
#[derive(Clone, Copy, Debug, PartialEq, Eq)]
pub struct SegmentRow {
    /// Dead roots.
    pub dead: u64,
    /// The least sequence number of its roots, live or dead.
    pub first: u64,
    /// The greatest.
    pub last: u64,
    /// Live roots.
    pub live: u64,
    /// All its documents, live or dead.
    pub objects: u64,
}

/// An open merge.
#[derive(Clone, Copy, Debug, PartialEq, Eq)]
pub struct MergeRow {
    /// How many neighbours it merges.
    pub count: u64,
    /// The index of the first of them.
    pub from: u64,
    /// How many roots it has not walked yet.
    pub left: u64,
    /// Its id.
    pub merge: u64,
}

/// Segments in their order.
#[derive(Drop)]
pub struct SegmentRows {
    rows: Vec<SegmentRow>,
}

impl Model for SegmentRows {
    ghost use Rattle.std.specs.Prelude.{List};
    ghost use Rattle.reply_text.specs.declared.layout.SegmentRow.{SegmentRow as Row};

    ghost Value = { List Row };

    ghost view = { λ s. s.rows.items };
}

impl SegmentRows {
    /// The rows of a vector. Takes no memory.
    pub fn of(rows: Vec<SegmentRow>) -> SegmentRows
        ensures { result ≡ rows.items }
    {
        SegmentRows { rows }
    }

    /// The rows in order.
    pub fn as_slice(&self) -> &[SegmentRow]
        ensures { result.now ≡ self.now }
    {
        &self.rows
    }
}

/// Open merges, by their ids.
#[derive(Drop)]
pub struct MergeRows {
    rows: Vec<MergeRow>,
}

impl Model for MergeRows {
    ghost use Rattle.std.specs.Prelude.{List};
    ghost use Rattle.reply_text.specs.declared.layout.MergeRow.{MergeRow as Row};

    ghost Value = { List Row };

    ghost view = { λ m. m.rows.items };
}

impl MergeRows {
    /// The rows of a vector. Takes no memory.
    pub fn of(rows: Vec<MergeRow>) -> MergeRows
        ensures { result ≡ rows.items }
    {
        MergeRows { rows }
    }

    /// The rows in order.
    pub fn as_slice(&self) -> &[MergeRow]
        ensures { result.now ≡ self.now }
    {
        &self.rows
    }
}
