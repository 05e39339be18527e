//! The forms of values, and the names of commands.

/// What stands under a name.
#[derive(Clone, Copy)]
pub enum Form {
    /// A text that isn't empty, or a whole number from 0 on.
    Id,
    /// A text.
    Text,
    /// A whole number from 0 on.
    Whole,
    /// A whole number from 1 on.
    Positive,
    /// The number 1.
    One,
    /// True or false.
    Flag,
    /// An object.
    Object,
    /// A whole number from 2 to 10.
    Factor,
    /// A whole number from 1 to 1,000.
    Moves,
}

/// Whether a name has to be there.
#[derive(Clone, Copy)]
pub enum Presence {
    Required,
    Optional,
}

/// The commands, each with a name of its own.
#[derive(Clone, Copy)]
pub enum Name {
    Index,
    Create,
    Update,
    Delete,
    Mapping,
    Search,
    Refresh,
    Segments,
    OpenPit,
    ClosePit,
    ForceMerge,
    Merge,
    Commit,
    Compact,
    Trim,
    Automerge,
}
