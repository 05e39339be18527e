//! What requests ask for.

use tree_json::{Json, JsonText};

/// The tree that a write is about.
#[derive(Drop)]
pub struct Target {
    /// The id, of one byte or more: a text, or the digits of a number.
    pub id: JsonText,
    /// The name of the index, where it is given.
    pub index: Option<JsonText>,
    /// The sequence number that the live tree has to have.
    pub if_seq_no: Option<u64>,
}

/// The source line of an update.
#[derive(Drop)]
pub struct Changes {
    /// What is merged into the source; an object.
    pub doc: Json,
    /// What is put where no tree is live; an object.
    pub upsert: Option<Json>,
    /// Whether `doc` is put where no tree is live.
    pub doc_as_upsert: bool,
}

/// What is done to a tree. The sources are objects.
#[derive(Drop)]
pub enum Operation {
    /// The source is put under the id.
    Index(Json),
    /// The same, where no tree with the id is live.
    Create(Json),
    /// The source is changed.
    Update(Changes),
    /// The tree is taken out.
    Delete,
}

/// A write.
#[derive(Drop)]
pub struct Write {
    pub target: Target,
    pub operation: Operation,
}

/// What a request asks for.
#[derive(Drop)]
pub enum Action {
    /// A mapping is set, or added to, by a body.
    Mapping(Json),
    /// A tree is written.
    Write(Write),
    /// The trees are searched, by a body that has the form of one.
    Search(Json),
    /// The buffer is sealed.
    Refresh,
    /// The segments and the open merges are shown.
    Segments,
    /// The live trees are kept under an id.
    OpenPit,
    /// And given up.
    ClosePit(u64),
    /// Segments are merged until there are at most so many.
    ForceMerge(u64),
    /// A merge of neighbours begins.
    StartMerge { from: u64, count: u64 },
    /// It goes on by so many roots.
    AdvanceMerge { id: u64, roots: u64 },
    /// It ends.
    FinishMerge(u64),
    /// It is given up.
    AbortMerge(u64),
    /// What is live is written to the store.
    Commit,
    /// The same, and at most so many segments are moved towards the front of the store file.
    Compact(u64),
    /// The store file is cut behind what the last commit names.
    Trim,
    /// Neighbours are merged by themselves from now on, by this factor, or no more.
    Automerge(Option<u64>),
}
