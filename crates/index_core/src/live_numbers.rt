//! The sequence numbers of the live blocks, by id.

ghost use Rattle.std.specs.Prelude.{◌≡◌, ℕ, List, if◌then◌else◌, Some, None, IsSome, OnOk, OnErr};
ghost use Rattle.std.specs.Str.{bytes_eq};
ghost use Rattle.index_core.specs.Found.{number_under};

use crate::NoMemory;
use std::alloc::Global;
use std::collections::BTreeMap;

/// A number for each id of a live block. One is found in time that grows with the logarithm of their number, whatever ids a
/// user chooses.
#[derive(Drop)]
pub(crate) struct LiveNumbers {
    numbers: BTreeMap<Vec<u8>, u64>,
}

impl LiveNumbers {
    /// No number. Takes no memory.
    pub(crate) fn empty(alloc: Global) -> LiveNumbers
        ensures { (id : List ℕ) → number_under result id ≡ None }
    {
        LiveNumbers {
            numbers: BTreeMap::new(alloc),
        }
    }

    /// The number under an id.
    pub(crate) fn get(&self, id: &[u8]) -> Option<u64>
        ensures { result ≡ number_under self.now id.now }
    {
        self.numbers.get(id).copied()
    }

    /// Puts a number under an id.
    pub(crate) fn put(&mut self, id: Vec<u8>, number: u64) -> Result<(), NoMemory>
        ensures put { OnOk result ((other : List ℕ) → number_under self.new other ≡ (if bytes_eq id.items other then Some number else number_under self.old other)) }
        ensures same { OnErr result ((other : List ℕ) → number_under self.new other ≡ number_under self.old other) }
    {
        self.numbers.insert(id, number)?;
        Ok(())
    }

    /// Puts another number under an id that has one. Takes no memory.
    pub(crate) fn replace(&mut self, id: &[u8], number: u64)
        requires { IsSome (number_under self.old id.now) }
        ensures { (other : List ℕ) → number_under self.new other ≡ (if bytes_eq id.now other then Some number else number_under self.old other) }
    {
        if let Some(known) = self.numbers.get_mut(id) {
            *known = number;
        }
    }

    /// Takes out what is under an id.
    pub(crate) fn take(&mut self, id: &[u8])
        ensures { (other : List ℕ) → number_under self.new other ≡ (if bytes_eq id.now other then None else number_under self.old other) }
    {
        self.numbers.remove(id);
    }
}
