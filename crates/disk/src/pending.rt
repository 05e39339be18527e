//! What is pending on a disk: written or cut, and not yet kept by a sync.

ghost use Rattle.std.specs.Prelude.{◌≡◌};

use std::marker::Model;

/// A range that was written, or a cut, since the last sync that succeeded.
#[derive(Clone, Copy, Debug, PartialEq, Eq)]
pub enum Pending {
    /// The range of a write, also of one that failed: its offset in the file and its length, in bytes.
    Written { at: u64, len: u64 },
    /// A cut to this length, in bytes, also one that failed.
    Cut { len: u64 },
}

/// What is pending, in the order of the calls.
#[derive(Drop)]
pub struct PendingList {
    items: Vec<Pending>,
}

impl Model for PendingList {
    ghost use Rattle.std.specs.Prelude.{List};
    ghost use Rattle.disk.specs.declared.pending.Pending.{Pending};

    ghost Value = { List Pending };

    ghost view = { λ list. list.items.items };
}

impl PendingList {
    /// The list of these. Takes no memory.
    pub fn of(items: Vec<Pending>) -> PendingList
        ensures { result ≡ items.items }
    {
        PendingList { items }
    }

    /// The items, in order.
    pub fn as_slice(&self) -> &[Pending]
        ensures { result.now ≡ self.now }
    {
        self.items.as_slice()
    }
}
