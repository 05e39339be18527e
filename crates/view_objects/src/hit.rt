//! A document that was found.

/// A document with a score: the place of its entry in the view, its number there, and the score.
#[derive(Clone, Copy, Debug, PartialEq, Eq)]
pub struct Hit {
    pub place: u64,
    pub doc: u32,
    pub score: u64,
}
