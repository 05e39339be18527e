//! What a record holds.

ghost use Rattle.std.specs.Prelude.{◌≡◌, length};
ghost use Rattle.store_text.specs.Record.{record_text, record_size, IsRecord};
ghost use Rattle.store_text.specs.declared.record.RecordText.{RecordText};

use std::marker::Model;

/// How many bodies a mapping has at most, one for each of its generations.
pub const MOST_BODIES: u32 = 1_000;

/// The bytes of a mapping's body.
#[derive(Drop)]
pub struct Body {
    bytes: Vec<u8>,
}

impl Model for Body {
    ghost use Rattle.std.specs.Prelude.{ℕ, List};

    ghost Value = { List ℕ };

    ghost view = { λ body. body.bytes.items };
}

impl Body {
    /// The body of these bytes. Takes no memory.
    pub fn of(bytes: Vec<u8>) -> Body
        ensures { result ≡ bytes.items }
    {
        Body { bytes }
    }

    /// The bytes.
    pub fn as_slice(&self) -> &[u8]
        ensures { result.now ≡ self.now }
    {
        self.bytes.as_slice()
    }
}

/// The bodies of a mapping, in the order in which it grew.
#[derive(Drop)]
pub struct BodyList {
    bodies: Vec<Body>,
}

impl Model for BodyList {
    ghost use Rattle.std.specs.Prelude.{ℕ, List};

    ghost Value = { List (List ℕ) };

    ghost view = { λ list. list.bodies.items };
}

impl BodyList {
    /// The list of these bodies. Takes no memory.
    pub fn of(bodies: Vec<Body>) -> BodyList
        ensures { result ≡ bodies.items }
    {
        BodyList { bodies }
    }

    /// The bodies, in order.
    pub fn as_slice(&self) -> &[Body]
        ensures { result.now ≡ self.now }
    {
        self.bodies.as_slice()
    }
}

/// The roots of a segment that were dead at a commit, by their indexes among its roots, from 0 on.
#[derive(Drop)]
pub struct DeadRoots {
    indexes: Vec<u32>,
}

impl Model for DeadRoots {
    ghost use Rattle.std.specs.Prelude.{ℕ, List};

    ghost Value = { List ℕ };

    ghost view = { λ dead. dead.indexes.items };
}

impl DeadRoots {
    /// The roots of these indexes. Takes no memory.
    pub fn of(indexes: Vec<u32>) -> DeadRoots
        ensures { result ≡ indexes.items }
    {
        DeadRoots { indexes }
    }

    /// The indexes.
    pub fn as_slice(&self) -> &[u32]
        ensures { result.now ≡ self.now }
    {
        self.indexes.as_slice()
    }
}

/// What a record says of a segment.
#[derive(Drop)]
pub struct Row {
    /// The place of the segment's first byte in the file.
    pub at: u64,
    /// How many bytes the segment has.
    pub len: u64,
    /// Its dead roots.
    pub dead: DeadRoots,
}

/// The rows of a record: one for each segment, in the order of the segments.
#[derive(Drop)]
pub struct RowList {
    rows: Vec<Row>,
}

impl Model for RowList {
    ghost use Rattle.std.specs.Prelude.{List};
    ghost use Rattle.store_text.specs.declared.record.Row.{Row};

    ghost Value = { List Row };

    ghost view = { λ list. list.rows.items };
}

impl RowList {
    /// The list of these rows. Takes no memory.
    pub fn of(rows: Vec<Row>) -> RowList
        ensures { result ≡ rows.items }
    {
        RowList { rows }
    }

    /// The rows, in order.
    pub fn as_slice(&self) -> &[Row]
        ensures { result.now ≡ self.now }
    {
        self.rows.as_slice()
    }
}

/// A record of either form.
#[derive(Drop)]
pub struct RecordText {
    /// Whether it has the form from before mappings grew.
    pub old: bool,
    /// The next sequence number.
    pub next: u64,
    /// Whether sources add fields to the mapping.
    pub dynamic: bool,
    /// The bodies of the mapping.
    pub bodies: BodyList,
    /// A row for each segment.
    pub rows: RowList,
}

/// No bytes are the text of two records, and a record's text is as long as its size says. Does nothing.
pub fn record_has_one_text()
    ensures once { (one other : RecordText) → IsRecord one → IsRecord other → record_text one ≡ record_text other → one ≡ other }
    ensures size { (record_is : RecordText) → length (record_text record_is) ≡ record_size record_is }
{}
