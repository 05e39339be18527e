//! The ids of live roots.

ghost use Rattle.std.specs.Prelude.{◌≡◌, ℕ, List, Some, if◌then◌else◌, None, OnOk, OnErr};
ghost use Rattle.std.specs.Str.{bytes_eq};
ghost use Rattle.store_opening.specs.Blocks.{under_id};

use crate::refusal::NoMemory;
use std::alloc::Global;
use std::collections::BTreeMap;

/// The sequence number of a live root under each id that was met. One is found in time that grows with the logarithm of their
/// number, whatever ids a user chose.
#[derive(Drop)]
pub(crate) struct LiveIds {
    numbers: BTreeMap<Vec<u8>, u64>,
}

impl LiveIds {
    /// No id. Takes no memory.
    pub(crate) fn empty(alloc: Global) -> LiveIds
        ensures { (id : List ℕ) → under_id result id ≡ None }
    {
        LiveIds {
            numbers: BTreeMap::new(alloc),
        }
    }

    /// The number under an id.
    pub(crate) fn get(&self, id: &[u8]) -> Option<u64>
        ensures { result ≡ under_id self.now id.now }
    {
        self.numbers.get(id).copied()
    }

    /// Puts a number under an id.
    pub(crate) fn put(&mut self, id: Vec<u8>, number: u64) -> Result<(), NoMemory>
        ensures { OnOk result ((other : List ℕ) → under_id self.new other ≡ (if bytes_eq id.items other then Some number else under_id self.old other)) }
    {
        self.numbers.insert(id, number)?;
        Ok(())
    }
}
