//! Lists that others hand in: the scope around each scope, and sets.

ghost use Rattle.std.specs.Prelude.{◌≡◌, ◌↔◌, IsTrue};
ghost use Rattle.block_bits.specs.Blocks.{HaveOneScope};

use crate::BitSet;
use crate::partition::{count_documents, give_one_scope};
use std::marker::Model;

/// The scope around each scope, by number; the root, scope 0, has none.
#[derive(Drop)]
pub struct ScopeList {
    parents: Vec<Option<u32>>,
}

impl Model for ScopeList {
    ghost use Rattle.std.specs.Prelude.{ℕ, List, Option};

    ghost Value = { List (Option ℕ) };

    ghost view = { λ list. list.parents.items };
}

impl ScopeList {
    /// The list of these scopes. Takes no memory.
    pub fn of(parents: Vec<Option<u32>>) -> ScopeList
        ensures { result ≡ parents.items }
    {
        ScopeList { parents }
    }

    /// The scope around each scope, in order.
    pub fn as_slice(&self) -> &[Option<u32>]
        ensures { result.now ≡ self.now }
    {
        self.parents.as_slice()
    }
}

/// Bit sets, as one for each scope of a segment or one for each segment of a view.
#[derive(Drop)]
pub struct BitList {
    sets: Vec<BitSet>,
}

impl Model for BitList {
    ghost use Rattle.std.specs.Prelude.{Bool, List};

    ghost Value = { List (List Bool) };

    ghost view = { λ list. list.sets.items };
}

impl BitList {
    /// The list of these sets. Takes no memory.
    pub fn of(sets: Vec<BitSet>) -> BitList
        ensures { result ≡ sets.items }
    {
        BitList { sets }
    }

    /// The sets, in order.
    pub fn as_slice(&self) -> &[BitSet]
        ensures { result.now ≡ self.now }
    {
        self.sets.as_slice()
    }

    /// Whether each of so many documents is in exactly one of the sets, as it is where a set has the documents of
    /// a scope.
    pub fn give_one_scope(&self, count: u32) -> bool
        ensures { IsTrue result ↔ HaveOneScope count self.now }
    {
        let sets = self.as_slice();
        count_documents(sets) == count && give_one_scope(sets.len(), sets)
    }
}
