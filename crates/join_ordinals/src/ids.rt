//! The ids of roots and of their parents, as they are met.

ghost use Rattle.std.specs.Prelude.{◌≡◌, [], length, map, Some, slice_get, IfOk, OnOk};
ghost use Rattle.join_ordinals.specs.Rows.{Keep};

use crate::NoMemory;
use std::alloc::Global;
use std::marker::Model;

/// The ids that were met, in the order in which they were, each as often as it was.
#[derive(Drop)]
pub(crate) struct Ids<'a> {
    met: Vec<&'a [u8]>,
}

impl<'a> Model for Ids<'a> {
    ghost use Rattle.std.specs.Prelude.{List, ℕ, map};

    ghost Value = { List (List ℕ) };

    ghost view = { λ ids. map (λ id. id.now) ids.met.items };
}

impl<'a> Ids<'a> {
    /// None yet.
    pub(crate) fn none(alloc: Global) -> Ids<'a>
        ensures { result ≡ [] }
    {
        Ids {
            met: Vec::new(alloc),
        }
    }

    /// Adds an id; its place is how many were met before it.
    pub(crate) fn meet(&mut self, id: &'a [u8]) -> Result<u32, NoMemory>
        ensures there { IfOk result (λ place. slice_get self.new place ≡ Some id.now) }
        ensures keep { OnOk result (Keep self.old self.new) }
    {
        let Ok(place) = u32::try_from(self.met.len()) else {
            return Err(NoMemory);
        };
        self.met.push(id)?;
        Ok(place)
    }

    /// The ids in order.
    pub(crate) fn as_slice(&self) -> &[&'a [u8]]
        ensures { map (λ id. id.now) result.now ≡ self.now }
    {
        self.met.as_slice()
    }
}
