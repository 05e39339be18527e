//! Which calls of an object in memory are to fail.

ghost use Rattle.std.specs.Prelude.{◌≡◌};
ghost use Rattle.std.specs.List.Sorted.{IsStrictlyIncreasing};
ghost use Rattle.io_edges.specs.Calls.{is_listed, one_more};

use std::marker::Model;

/// The numbers of the calls that are to fail, strictly ascending; the first call has the number 0. It may be empty.
#[derive(Drop)]
pub struct CallList {
    calls: Vec<u64>,
}

impl Model for CallList {
    ghost use Rattle.std.specs.Prelude.{List, ℕ};
    ghost use Rattle.std.specs.List.Sorted.{IsStrictlyIncreasing};

    ghost Value = { List ℕ };

    ghost view = { λ list. list.calls.items };

    ghost invariant = { λ list. IsStrictlyIncreasing list.calls.items };
}

impl CallList {
    /// The list of these numbers, which strictly ascend.
    pub fn of(calls: Vec<u64>) -> CallList
        requires { IsStrictlyIncreasing calls.items }
        ensures { result ≡ calls.items }
    {
        CallList { calls }
    }

    /// Whether the call of this number is to fail.
    pub fn lists(&self, call: u64) -> bool
        ensures { result ≡ is_listed self.now call }
    {
        self.calls.contains(&call)
    }
}

/// The next number of a count that stays at 2^64 - 1.
pub(crate) fn counted(count: u64) -> u64
    ensures { result ≡ one_more count }
{
    count.saturating_add(1)
}
