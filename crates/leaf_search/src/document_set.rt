//! A set of documents that may be a segment's own.

ghost use Rattle.std.specs.Prelude.{◌≡◌};
ghost use Rattle.leaf_search.specs.Lent.{set_of};

use block_bits::BitSet;

/// A set of documents: one that was made, or one that a segment has and lends.
#[derive(Drop)]
pub enum DocumentSet<'a> {
    Made(BitSet),
    Lent(&'a BitSet),
}

impl<'a> DocumentSet<'a> {
    /// The set.
    pub fn as_ref(&self) -> &BitSet
        ensures { result.now ≡ set_of self.now }
    {
        match self {
            DocumentSet::Made(set) => set,
            DocumentSet::Lent(set) => *set,
        }
    }
}
